//! Calls of a fleet for its nodes.

ghost use Rattle.std.specs.Prelude.{◌≡◌, IfErr, false, ◌≢◌, IfNone, IfOk, OnOk};
ghost use Rattle.volume_model.specs.Common.{refusal, step, Deliver, is_named};
ghost use Rattle.journal.specs.Passes.{journal_of, message_ref_number, notes_of, seat_of, steps_of, world_of};
ghost use Rattle.world.specs.Events.{event_of};
ghost use Rattle.node_fleet.specs.RecordsAttempt.{AddsNote, PassRecords};
ghost use Rattle.world.specs.Actions.{node_event};
ghost use Rattle.node_fleet.specs.Calls.{IsOfNone, Unmade};

use crate::fleet::Fleet;
use crate::gate::StepGate;
use crate::halt::Halt;
use crate::locking::lock_spinning;
use crate::node::NodeActor;
use crate::site::FleetSite;
use journal::{Log, MessageRef, Pass, Receipt};
use segment_core::NodeAction;
use std::sync::{Mutex, Wait};
use volume_model::Fault;
use world::{Event, slot};

impl<'a, L: FleetSite> Fleet<'a, L> {
    ghost use Rattle.volume_model.specs.declared.fault.Fault.TheVariants.{NoMessage};
    ghost use Rattle.node_fleet.specs.declared.halt.Halt.TheVariants.{Refused};

    // Returns the node of a member of a group, or `None` if the plan doesn't name the member.
    pub(crate) fn node(&self, group: u8, member: u8) -> Option<&Mutex<NodeActor<L>>>
        ensures { IfNone result (is_named L.plan group member ≡ false) }
    {
        let slot = slot(self.nodes.len(), group, member)?;
        self.nodes[slot].as_ref()
    }

    /// Refuses the event of a node that the plan doesn't name or whose group hasn't joined, and notes it. If there is
    /// no room for the note, returns `NoMemory` instead.
    fn refuse_missing(&self, log: &mut Log<'a, L>, pass: &mut Pass<'a, L>, event: Event) -> Fault
        requires missing { refusal (step L.plan (world_of log.old) (event_of event)) ≡ 82 }
        ensures log { journal_of log.new ≡ journal_of log.old }
        ensures steps { steps_of pass.new ≡ steps_of pass.old }
        ensures seat { seat_of pass.new ≡ seat_of pass.old }
        ensures note { AddsNote (event_of event) result (steps_of pass.old) (notes_of pass.old) (notes_of pass.new) }
        ensures found { result ≢ NoMessage }
    {
        if pass.reserve().is_err() {
            return Fault::NoMemory;
        }
        log.catch_up(pass);
        log.refuse(pass, event, Fault::NoActor);
        Fault::NoActor
    }

    // Refuses the event of a node that the plan doesn't name.
    pub(crate) fn refuse_absent<R: Wait>(
        &self,
        rt: &R,
        pass: &mut Pass<'a, L>,
        event: Event,
    ) -> Fault
        requires of { IsOfNone L.plan (event_of event) }
        ensures steps { steps_of pass.new ≡ steps_of pass.old }
        ensures seat { seat_of pass.new ≡ seat_of pass.old }
        ensures note { AddsNote (event_of event) result (steps_of pass.old) (notes_of pass.old) (notes_of pass.new) }
        ensures found { result ≢ NoMessage }
    {
        let mut log = lock_spinning(rt, &self.journal);
        self.refuse_missing(&mut log, pass, event)
    }

    // Looks a message up for a node. Notes `NoActor` if the node's group hasn't joined. Returns `NoMessage` if no step
    // has made the message.
    pub(crate) fn find<R: Wait>(
        &self,
        rt: &R,
        pass: &mut Pass<'a, L>,
        group: u8,
        member: u8,
        message: u64,
    ) -> Result<MessageRef<'a, L>, Fault>
        ensures steps { (steps_of pass.new ≡ steps_of pass.old) × (seat_of pass.new ≡ seat_of pass.old) }
        ensures notes { OnOk result (notes_of pass.new ≡ notes_of pass.old) }
        ensures note { IfErr result (λ fault. AddsNote (Deliver group member message) fault (steps_of pass.old)
            (notes_of pass.old) (notes_of pass.new)) }
        ensures found { IfOk result (λ message_ref. message_ref_number message_ref ≡ message) }
        ensures own { IfErr result (λ fault. Unmade message (steps_of pass.old) fault) }
    {
        let mut log = lock_spinning(rt, &self.journal);
        if u64::from(group) >= log.joined() {
            let event = Event::Deliver {
                group,
                member,
                message,
            };
            return Err(self.refuse_missing(&mut log, pass, event));
        }
        match log.seek(pass, message) {
            Some(message_ref) => Ok(message_ref),
            None => Err(Fault::NoMessage),
        }
    }

    // Takes the node's lock and attempts a delivery.
    pub(crate) fn try_deliver<R: Wait, G: StepGate>(
        &self,
        rt: &R,
        pass: &mut Pass<'a, L>,
        node: &Mutex<NodeActor<L>>,
        group: u8,
        member: u8,
        message_ref: &mut MessageRef<'a, L>,
        gate: &G,
    ) -> Result<Receipt, Halt>
        ensures recorded { PassRecords (Deliver group member (message_ref_number message_ref.old)) result pass.old
            pass.new }
        ensures found { IfErr result (λ halt. halt ≢ Refused NoMessage) }
        ensures seat { seat_of pass.new ≡ seat_of pass.old }
    {
        let mut actor = lock_spinning(rt, node);
        if actor.group() != group || actor.member() != member {
            return Err(Halt::StaleCursor);
        }
        actor.react(rt, self.alloc, &self.journal, pass, message_ref, gate)
    }

    // Takes the locks and attempts a node's action.
    pub(crate) fn try_node<R: Wait>(
        &self,
        rt: &R,
        pass: &mut Pass<'a, L>,
        node: &Mutex<NodeActor<L>>,
        group: u8,
        member: u8,
        action: NodeAction,
    ) -> Result<Receipt, Halt>
        ensures recorded { PassRecords (node_event group member action) result pass.old pass.new }
        ensures found { IfErr result (λ halt. halt ≢ Refused NoMessage) }
        ensures seat { seat_of pass.new ≡ seat_of pass.old }
    {
        let mut actor = lock_spinning(rt, node);
        if actor.group() != group || actor.member() != member {
            return Err(Halt::StaleCursor);
        }
        let mut log = lock_spinning(rt, &self.journal);
        actor.act(rt, self.alloc, &mut log, pass, action)
    }
}
