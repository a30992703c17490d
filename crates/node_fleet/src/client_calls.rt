//! Calls of a fleet for its clients.

ghost use Rattle.std.specs.Prelude.{◌≡◌, IfErr, IfOk, OnErr, ◌≢◌, Err};
ghost use Rattle.volume_model.specs.Common.{actor_of, Actor, unborn};
ghost use Rattle.journal.specs.Passes.{seat_of, steps_of, world_of, HasNoteRoom, SeesAll};
ghost use Rattle.world.specs.Events.{event_of};
ghost use Rattle.node_fleet.specs.RecordsAttempt.{PassRecords};
ghost use Rattle.node_fleet.specs.Volumes.{IsUnmade};
ghost use Rattle.node_fleet.specs.Calls.{is_moving, NamesElse, PassRecordsCall, RaisesBy};

use crate::client::ClientActor;
use crate::client_attempt::try_step;
use crate::fleet::Fleet;
use crate::halt::Halt;
use crate::halting::refusal_of;
use crate::locking::lock_spinning;
use crate::site::FleetSite;
use crate::step::refused;
use journal::{ActorName, Log, Pass, Receipt};
use std::sync::{Mutex, Wait};
use volume_model::Fault;
use wire::Message;
use world::{ActorAction, Client, Event};

// Returns whether an event may move the durable point of its client.
fn moves(event: &Event) -> bool
    ensures { result ≡ is_moving (event_of event.now) }
{
    matches!(event, Event::Take { .. } | Event::Open { .. })
}

impl<'a, L: FleetSite> Fleet<'a, L> {
    ghost use Rattle.volume_model.specs.declared.fault.Fault.TheVariants.{NoMessage};
    ghost use Rattle.world.specs.Actions.{message_found};
    ghost use Rattle.node_fleet.specs.Actions.{IsFound};
    ghost use Rattle.node_fleet.specs.declared.halt.Halt.TheVariants.{Refused};

    // Returns the client of a volume epoch, if it has a slot.
    fn client(&self, volume: u32) -> Option<&Mutex<ClientActor<L>>> {
        self.clients.get(volume as usize)
    }

    // Refuses the event of an unborn client that has no slot; `found` is the message that was looked up for a Take.
    // Returns `StaleCursor` if the message would be its birth, which can't happen.
    fn refuse_unborn(
        &self,
        log: &Log<'a, L>,
        pass: &mut Pass<'a, L>,
        volume: u32,
        event: Event,
        found: Option<&Message>,
    ) -> Halt
        requires who { actor_of (event_of event) ≡ Actor.Client volume }
        requires unborn { (world_of log.now).clients volume ≡ unborn }
        requires found { IsFound (world_of log.now).messages (event_of event) (message_found found) }
        requires settled { SeesAll pass.old log.now }
        requires room { HasNoteRoom pass.old }
        ensures recorded { PassRecords (event_of event) (Err result) pass.old pass.new }
        ensures seat { seat_of pass.new ≡ seat_of pass.old }
        ensures found { result ≢ Refused NoMessage }
    {
        let mut client = match self.plan.clone() {
            Ok(plan) => Client::unborn(plan, volume),
            Err(_) => return Halt::Refused(Fault::NoMemory),
        };
        let ActorAction::Client(_, action) = event.split() else {
            unreachable!()
        };
        match try_step(self.alloc, &mut client, log.is_full(), action, found) {
            Ok(_) => Halt::StaleCursor,
            Err(fault) => refused(log, pass, event, fault),
        }
    }

    // Refuses the event of a client that has no slot.
    fn refuse_slotless<R: Wait>(
        &self,
        rt: &R,
        pass: &mut Pass<'a, L>,
        volume: u32,
        event: Event,
    ) -> Halt
        requires { actor_of (event_of event) ≡ Actor.Client volume }
        ensures recorded { PassRecords (event_of event) (Err result) pass.old pass.new }
        ensures seat { seat_of pass.new ≡ seat_of pass.old }
        ensures unmade { IsUnmade (event_of event) (steps_of pass.old) (Err result) }
    {
        if pass.reserve().is_err() {
            return Halt::Refused(Fault::NoMemory);
        }
        let mut log = lock_spinning(rt, &self.journal);
        if volume == 1 || log.has_place(ActorName::Client(volume)) {
            return Halt::StaleCursor;
        }
        let Event::Take { message, .. } = event else {
            log.catch_up(pass);
            return self.refuse_unborn(&log, pass, volume, event, None);
        };
        match log.seek(pass, message) {
            None => Halt::Refused(Fault::NoMessage),
            Some(message_ref) => {
                let found = message_ref.message();
                self.refuse_unborn(&log, pass, volume, event, Some(found))
            }
        }
    }

    // Takes the locks and attempts an event of a client. Raises the board to its durable point if the event may move
    // that.
    #[inline(always)]
    fn try_client<R: Wait>(
        &self,
        rt: &R,
        pass: &mut Pass<'a, L>,
        volume: u32,
        event: Event,
    ) -> Result<Receipt, Halt>
        requires { actor_of (event_of event) ≡ Actor.Client volume }
        ensures recorded { PassRecords (event_of event) result pass.old pass.new }
        ensures raised { IfOk result (λ r. RaisesBy (event_of event) r.durable (seat_of pass.old) (seat_of pass.new)) }
        ensures still { OnErr result (seat_of pass.new ≡ seat_of pass.old) }
        ensures unmade { IsUnmade (event_of event) (steps_of pass.old) result }
    {
        let Some(client) = self.client(volume) else {
            return Err(self.refuse_slotless(rt, pass, volume, event));
        };
        let mut actor = lock_spinning(rt, client);
        if actor.volume() != volume {
            return Err(Halt::StaleCursor);
        }
        let raises = moves(&event);
        let receipt = {
            let mut log = lock_spinning(rt, &self.journal);
            actor.act(rt, self.alloc, &mut log, pass, event)?
        };
        if raises {
            pass.raise(&self.board, receipt.durable);
        }
        Ok(receipt)
    }

    // Performs an event of a client and records it in the pass.
    pub(crate) fn enter_client<R: Wait>(
        &self,
        rt: &R,
        pass: &mut Pass<'a, L>,
        volume: u32,
        event: Event,
    ) -> Result<Receipt, Fault>
        requires { actor_of (event_of event) ≡ Actor.Client volume }
        ensures recorded { PassRecordsCall (event_of event) result pass.old pass.new }
        ensures raised { IfOk result (λ r. RaisesBy (event_of event) r.durable (seat_of pass.old) (seat_of pass.new)) }
        ensures still { OnErr result (seat_of pass.new ≡ seat_of pass.old) }
        ensures unmade { IfErr result (λ fault. fault ≡ NoMessage → NamesElse (event_of event)
            (steps_of pass.old)) }
    {
        match self.try_client(rt, pass, volume, event) {
            Ok(receipt) => Ok(receipt),
            Err(halt) => Err(refusal_of(rt, halt)),
        }
    }
}
