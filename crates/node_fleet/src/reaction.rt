//! Reactions of a fleet's nodes to messages.

ghost use Rattle.std.specs.Prelude.{◌≡◌, length, ◌≢◌, IfErr, Ok, OnErr, Some};

use crate::gate::StepGate;
use crate::halt::Halt;
use crate::locking::lock_spinning;
use crate::node::NodeActor;
use crate::step::{refused, reserve_step};
use journal::{Log, MessageRef, Pass, Receipt, Site};
use segment_core::Prepared;
use std::alloc::Global;
use std::sync::{Mutex, Wait};
use volume_model::Fault;
use wire::{Message, Write};
use world::Event;

impl<L: Site> NodeActor<L> {
    ghost use Rattle.volume_model.specs.declared.fault.Fault.TheVariants.{NoMessage};
    ghost use Rattle.volume_model.specs.Common.{Fails, Deliver};
    ghost use Rattle.wire.specs.Common.{message_of};
    ghost use Rattle.segment_core.specs.Prepared.{step_of};
    ghost use Rattle.segment_core.specs.Segment.{node_of, IsReady};
    ghost use Rattle.journal.specs.Passes.{journal_of, message_ref_message, message_ref_number, seat_of};
    ghost use Rattle.node_fleet.specs.declared.halt.Halt.TheVariants.{Refused};
    ghost use Rattle.node_fleet.specs.RecordsAttempt.{Enters, IsExact, PassRecords};
    ghost use Rattle.node_fleet.specs.Nodes.{actor_node, delivery_of, PreparesReaction, Reacts};

    /// Prepares the reaction to a message under the node's lock: finds every refusal, allocates, and computes the
    /// answers. The node is unchanged.
    #[inline(always)]
    fn prepare(&mut self, alloc: Global, message: &Message) -> Result<Prepared, Fault>
        ensures prepared { PreparesReaction (Some (message_of message.now)) result self.new }
        ensures same { (self.new.group ≡ self.old.group) × (self.new.member ≡ self.old.member)
            × (actor_node self.new ≡ actor_node self.old) }
    {
        self.segment.prepare(alloc, message)
    }

    /// Prepares the reaction to a Write, as [`prepare`](NodeActor::prepare) does.
    #[inline(always)]
    fn prepare_write(&mut self, alloc: Global, write: &Write) -> Result<Prepared, Fault>
        ensures prepared { PreparesReaction (Some (message_of (Message.Write write.now))) result self.new }
        ensures same { (self.new.group ≡ self.old.group) × (self.new.member ≡ self.old.member)
            × (actor_node self.new ≡ actor_node self.old) }
    {
        self.segment.prepare_write(alloc, write)
    }

    /// Applies a prepared reaction and enters the step. The caller holds the node's lock and the journal's.
    #[inline(always)]
    fn receive<'a, R: Wait>(
        &mut self,
        rt: &R,
        log: &mut Log<'a, L>,
        pass: &mut Pass<'a, L>,
        message_ref: &mut MessageRef<'a, L>,
        prepared: Prepared,
    ) -> Result<Receipt, Halt>
        requires ready { IsReady self.old.segment prepared }
        requires step { delivery_of self.old (message_ref_message message_ref.old)
            ≡ Ok (step_of prepared (node_of self.old.segment)) }
        ensures recorded { PassRecords (Deliver self.old.group self.old.member (message_ref_number message_ref.old))
            result pass.old pass.new }
        ensures exact { IsExact L.plan L.slots (length L.cells) (journal_of log.old)
            (Deliver self.old.group self.old.member (message_ref_number message_ref.old)) result }
        ensures entered { Enters (Deliver self.old.group self.old.member (message_ref_number message_ref.old))
            (journal_of log.old) (journal_of log.new) result }
        ensures seat { seat_of pass.new ≡ seat_of pass.old }
        ensures found { IfErr result (λ halt. halt ≢ Refused NoMessage) }
        ensures same { (self.new.group ≡ self.old.group) × (self.new.member ≡ self.old.member) }
        ensures still { OnErr result (actor_node self.new ≡ actor_node self.old) }
    {
        let NodeActor {
            cursor,
            segment,
            group,
            member,
        } = self;
        log.has(message_ref);
        log.catch_up(pass);
        reserve_step(log, pass, cursor)?;
        let event = Event::Deliver {
            group: *group,
            member: *member,
            message: message_ref.number(),
        };
        if u64::from(*group) >= log.joined() {
            return Err(refused(log, pass, event, Fault::NoActor));
        }
        if log.is_full() {
            return Err(refused(log, pass, event, Fault::JournalFull));
        }
        let made = segment.apply(prepared);
        Ok(log.enter(rt, cursor, pass, event, made, 0))
    }

    /// Notes that the node refuses a message. The caller holds the node's lock and the journal's.
    fn decline<'a>(
        &mut self,
        log: &mut Log<'a, L>,
        pass: &mut Pass<'a, L>,
        message_ref: &mut MessageRef<'a, L>,
        fault: Fault,
    ) -> Result<Receipt, Halt>
        requires fails { Fails fault (delivery_of self.old (message_ref_message message_ref.old)) }
        ensures recorded { PassRecords (Deliver self.old.group self.old.member (message_ref_number message_ref.old))
            result pass.old pass.new }
        ensures exact { IsExact L.plan L.slots (length L.cells) (journal_of log.old)
            (Deliver self.old.group self.old.member (message_ref_number message_ref.old)) result }
        ensures entered { Enters (Deliver self.old.group self.old.member (message_ref_number message_ref.old))
            (journal_of log.old) (journal_of log.new) result }
        ensures seat { seat_of pass.new ≡ seat_of pass.old }
        ensures found { IfErr result (λ halt. halt ≢ Refused NoMessage) }
        ensures same { (self.new.group ≡ self.old.group) × (self.new.member ≡ self.old.member) }
        ensures still { actor_node self.new ≡ actor_node self.old }
    {
        log.has(message_ref);
        log.catch_up(pass);
        reserve_step(log, pass, &mut self.cursor)?;
        let event = Event::Deliver {
            group: self.group,
            member: self.member,
            message: message_ref.number(),
        };
        if u64::from(self.group) >= log.joined() {
            return Err(refused(log, pass, event, Fault::NoActor));
        }
        Err(refused(log, pass, event, fault))
    }

    /// Takes the journal's lock and notes that the node refuses a message. Out of line, since refusals are rare.
    #[inline(never)]
    fn reject<'a, R: Wait>(
        &mut self,
        rt: &R,
        journal: &Mutex<Log<'a, L>>,
        pass: &mut Pass<'a, L>,
        message_ref: &mut MessageRef<'a, L>,
        fault: Fault,
    ) -> Result<Receipt, Halt>
        requires fails { Fails fault (delivery_of self.old (message_ref_message message_ref.old)) }
        ensures { Reacts (message_ref_number message_ref.old) result self.old self.new pass.old pass.new }
    {
        let mut log = lock_spinning(rt, journal);
        self.decline(&mut log, pass, message_ref, fault)
    }

    /// Shows the prepared answers to the gate, then takes the journal's lock and applies the reaction. Notes a refusal.
    #[inline(always)]
    fn finish<'a, R: Wait, G: StepGate>(
        &mut self,
        rt: &R,
        journal: &Mutex<Log<'a, L>>,
        pass: &mut Pass<'a, L>,
        message_ref: &mut MessageRef<'a, L>,
        gate: &G,
        prepared: Result<Prepared, Fault>,
    ) -> Result<Receipt, Halt>
        requires { PreparesReaction (message_ref_message message_ref.old) prepared self.old }
        ensures { Reacts (message_ref_number message_ref.old) result self.old self.new pass.old pass.new }
    {
        match prepared {
            Ok(prepared) => {
                gate.prepared(prepared.answers());
                let mut log = lock_spinning(rt, journal);
                self.receive(rt, &mut log, pass, message_ref, prepared)
            }
            Err(fault) => self.reject(rt, journal, pass, message_ref, fault),
        }
    }

    /// The general case of [`react`](NodeActor::react), out of line so that the write path keeps a small stack frame.
    #[inline(never)]
    fn react_any<'a, R: Wait, G: StepGate>(
        &mut self,
        rt: &R,
        alloc: Global,
        journal: &Mutex<Log<'a, L>>,
        pass: &mut Pass<'a, L>,
        message_ref: &mut MessageRef<'a, L>,
        gate: &G,
    ) -> Result<Receipt, Halt>
        ensures { Reacts (message_ref_number message_ref.old) result self.old self.new pass.old pass.new }
    {
        let prepared = self.prepare(alloc, message_ref.message());
        self.finish(rt, journal, pass, message_ref, gate, prepared)
    }

    /// Delivers a message to the node, whose lock the caller holds: prepares the reaction, shows the answers to the
    /// gate while the journal isn't locked, then applies the reaction and enters the step.
    ///
    /// # Errors
    /// The node is unchanged. [`StaleCursor`](Halt::StaleCursor) if the cursor isn't at the node's last entry;
    /// `NoMemory` if memory runs out. All others are noted: `NoActor` if the group hasn't joined; the message's first
    /// refusal, as from [`Segment::prepare`](segment_core::Segment::prepare) (`NotAddressed` if it isn't for this node;
    /// `AlreadyWhole` for a copy if the node is whole; `StaleMember` or `AheadMember` for another membership epoch;
    /// `NotWhole` if the node isn't whole; `StaleVolume` for a volume epoch below the promised one; `NotInstalled` if
    /// the lineage isn't that of the volume epoch; `Full` for too many records or pieces; `BadPiece` if the piece can't
    /// belong to those kept; `NotInPlan` for a step that isn't in the plan; `SeriesSpent` if no number of a copy is
    /// left; `TailSegment` if the node keeps no pages; `PointAhead` if it isn't complete up to the point);
    /// `JournalFull` if no cell is left.
    pub fn react<'a, R: Wait, G: StepGate>(
        &mut self,
        rt: &R,
        alloc: Global,
        journal: &Mutex<Log<'a, L>>,
        pass: &mut Pass<'a, L>,
        message_ref: &mut MessageRef<'a, L>,
        gate: &G,
    ) -> Result<Receipt, Halt>
        ensures { Reacts (message_ref_number message_ref.old) result self.old self.new pass.old pass.new }
    {
        // Most messages are Writes: compiled on their own, they take a tenth fewer instructions.
        if let Message::Write(write) = message_ref.message() {
            let prepared = self.prepare_write(alloc, write);
            return self.finish(rt, journal, pass, message_ref, gate, prepared);
        }
        self.react_any(rt, alloc, journal, pass, message_ref, gate)
    }
}
