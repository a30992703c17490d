//! A client of a fleet, and its steps under both locks.

ghost use Rattle.std.specs.Prelude.{◌≡◌, length, ◌≢◌, Err, OnErr, OnOk};
ghost use Rattle.std.proofs.Props.{props};
ghost use Rattle.volume_model.specs.Common.{Actor, world_at, actor_of};
ghost use Rattle.world.specs.Clients.{client_plan, client_volume, seen_client};
ghost use Rattle.journal.specs.Passes.{marked, seen_at, journal_of, seat_of, steps_of, world_of, SeesAll};
ghost use Rattle.journal.proofs.Plans.{Plan-set};

use crate::client_attempt::{shown, try_step};
use crate::halt::Halt;
use crate::step::{commit_or_note, reserve_step};
use journal::{ActorCursor, Log, Pass, Receipt, Site};
use std::alloc::Global;
use std::sync::Wait;
use volume_model::Fault;
use wire::Message;
use world::{ActorAction, Client, Event};

/// The client of a volume epoch and its cursor.
#[derive(Drop)]
pub struct ClientActor<L: Site> {
    cursor: ActorCursor<L>,
    client: Client,
    ghost who: { marked cursor ≡ Actor.Client (client_volume client) } by { Prim.hlevel props },
    ghost plan: { client_plan client ≡ L.plan } by { Prim.hlevel (props, Plan-set) },
    ghost state: { seen_client client
        ≡ (world_at L.plan (seen_at cursor)).clients (client_volume client) } by { Prim.hlevel props },
}

impl<L: Site> ClientActor<L> {
    ghost use Rattle.volume_model.specs.declared.fault.Fault.TheVariants.{NoMessage};
    ghost use Rattle.world.specs.Actions.{message_found};
    ghost use Rattle.world.specs.Events.{event_of};
    ghost use Rattle.node_fleet.specs.declared.halt.Halt.TheVariants.{Refused, StaleCursor};
    ghost use Rattle.node_fleet.specs.Actions.{IsFound};
    ghost use Rattle.node_fleet.specs.RecordsAttempt.{Enters, IsExact, PassRecords};
    ghost use Rattle.node_fleet.specs.Ready.{IsStale};
    ghost use Rattle.node_fleet.specs.Volumes.{actor_client, actor_volume, IsUnmade};

    /// Makes the actor of a client with its cursor.
    pub fn new(cursor: ActorCursor<L>, client: Client) -> ClientActor<L>
        requires who { marked cursor ≡ Actor.Client (client_volume client) }
        requires plan { client_plan client ≡ L.plan }
        requires state { seen_client client ≡ (world_at L.plan (seen_at cursor)).clients (client_volume client) }
        ensures { actor_volume result ≡ client_volume client }
    {
        ClientActor { cursor, client }
    }

    /// Returns the client's volume epoch.
    pub fn volume(&self) -> u32
        ensures { result ≡ actor_volume self.now }
    {
        self.client.volume()
    }

    /// Performs the action of an event, and enters the step. `found` is the message that was looked up for a Take.
    #[inline(always)]
    fn step<'a, R: Wait>(
        &mut self,
        rt: &R,
        alloc: Global,
        log: &mut Log<'a, L>,
        pass: &mut Pass<'a, L>,
        event: Event,
        found: Option<&Message>,
    ) -> Result<Receipt, Halt>
        requires who { actor_of (event_of event) ≡ Actor.Client (client_volume self.old.client) }
        requires settled { SeesAll pass.old log.old }
        requires found { IsFound (world_of log.old).messages (event_of event) (message_found found) }
        ensures recorded { PassRecords (event_of event) result pass.old pass.new }
        ensures exact { IsExact L.plan L.slots (length L.cells) (journal_of log.old) (event_of event) result }
        ensures entered { Enters (event_of event) (journal_of log.old) (journal_of log.new) result }
        ensures stale { result ≡ Err StaleCursor → IsStale self.old.cursor log.old }
        ensures seat { seat_of pass.new ≡ seat_of pass.old }
        ensures found { result ≢ Err (Refused NoMessage) }
        ensures same { client_volume self.new.client ≡ client_volume self.old.client }
        ensures moved { OnOk result (actor_client self.new ≡ (world_of log.new).clients
            (client_volume self.old.client)) }
        ensures still { OnErr result (actor_client self.new ≡ actor_client self.old) }
    {
        let ClientActor { cursor, client } = self;
        if let Err(halt) = reserve_step(log, pass, cursor) {
            return Err(halt);
        }
        let ActorAction::Client(_, action) = event.split() else {
            unreachable!()
        };
        let done = try_step(alloc, client, log.is_full(), action, found);
        let durable = shown(client, action);
        commit_or_note(rt, log, cursor, pass, event, done, durable)
    }

    /// Performs the action of an event of this client, and enters the step. The caller holds the client's lock and the
    /// journal's.
    ///
    /// # Errors
    /// The client is unchanged. [`StaleCursor`](Halt::StaleCursor) if the cursor isn't at the client's last entry;
    /// `NoMessage` if no step has made the message to take; `NoMemory` if memory runs out. All others are noted: those
    /// of [`Client::admits`] (`NoActor` before the birth; `NotAddressed` or `NotInPlan` for a Take; `AlreadyDone`,
    /// `NotReady` or `LsnSpent` for a Cut; `AlreadyDone` or `NotReady` for an Open; `NotOpen` for actions of writers;
    /// `BadTransaction`, `NotJoined`, `LsnSpent` or `LimitReached` for an Issue; `NoLogRecord` for a Resend; `NoGroup`
    /// for a Read); `JournalFull` if no cell is left.
    #[inline(always)]
    pub fn act<'a, R: Wait>(
        &mut self,
        rt: &R,
        alloc: Global,
        log: &mut Log<'a, L>,
        pass: &mut Pass<'a, L>,
        event: Event,
    ) -> Result<Receipt, Halt>
        requires { actor_of (event_of event) ≡ Actor.Client (actor_volume self.old) }
        ensures recorded { PassRecords (event_of event) result pass.old pass.new }
        ensures exact { IsExact L.plan L.slots (length L.cells) (journal_of log.old) (event_of event) result }
        ensures entered { Enters (event_of event) (journal_of log.old) (journal_of log.new) result }
        ensures stale { result ≡ Err StaleCursor → IsStale self.old.cursor log.old }
        ensures seat { seat_of pass.new ≡ seat_of pass.old }
        ensures unmade { IsUnmade (event_of event) (steps_of pass.old) result }
        ensures same { actor_volume self.new ≡ actor_volume self.old }
        ensures moved { OnOk result (actor_client self.new ≡ (world_of log.new).clients (actor_volume self.old)) }
        ensures still { OnErr result (actor_client self.new ≡ actor_client self.old) }
    {
        let Event::Take { message, .. } = event else {
            log.catch_up(pass);
            return self.step(rt, alloc, log, pass, event, None);
        };
        let Some(message_ref) = log.seek(pass, message) else {
            return Err(Halt::Refused(Fault::NoMessage));
        };
        let found = message_ref.message();
        self.step(rt, alloc, log, pass, event, Some(found))
    }
}
