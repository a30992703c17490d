//! Actions of a fleet's nodes.

ghost use Rattle.std.specs.Prelude.{◌≡◌, length, ◌≢◌, Err, IfErr, OnErr, OnOk};

use crate::halt::Halt;
use crate::node::NodeActor;
use crate::step::{refused, reserve_step};
use journal::{Log, Pass, Receipt, Site};
use segment_core::NodeAction;
use std::alloc::Global;
use std::sync::Wait;
use volume_model::Fault;
use world::Event;

impl<L: Site> NodeActor<L> {
    ghost use Rattle.volume_model.specs.declared.fault.Fault.TheVariants.{NoMessage};
    ghost use Rattle.world.specs.Actions.{node_event};
    ghost use Rattle.journal.specs.Passes.{journal_of, seat_of, world_of};
    ghost use Rattle.node_fleet.specs.declared.halt.Halt.TheVariants.{Refused, StaleCursor};
    ghost use Rattle.node_fleet.specs.RecordsAttempt.{Enters, IsExact, PassRecords};
    ghost use Rattle.node_fleet.specs.Ready.{IsStale};
    ghost use Rattle.node_fleet.specs.Nodes.{actor_group, actor_member, actor_node};

    /// Performs an action and enters the step. The caller holds the node's lock and the journal's.
    ///
    /// # Errors
    /// The node is unchanged. [`StaleCursor`](Halt::StaleCursor) if the cursor isn't at the node's last entry;
    /// `NoMemory` if memory runs out. All others are noted: `NoActor` if the group hasn't joined; for
    /// [`NodeAction::Hydrate`] `AlreadyWhole`, `NotEnough` or `Full`; for [`NodeAction::Offer`] `NotWhole`,
    /// `NotInstalled` or `NoRecord`; `JournalFull` if no cell is left.
    pub fn act<'a, R: Wait>(
        &mut self,
        rt: &R,
        alloc: Global,
        log: &mut Log<'a, L>,
        pass: &mut Pass<'a, L>,
        action: NodeAction,
    ) -> Result<Receipt, Halt>
        ensures recorded { PassRecords (node_event (actor_group self.old) (actor_member self.old) action) result
            pass.old pass.new }
        ensures exact { IsExact L.plan L.slots (length L.cells) (journal_of log.old)
            (node_event (actor_group self.old) (actor_member self.old) action) result }
        ensures entered { Enters (node_event (actor_group self.old) (actor_member self.old) action) (journal_of log.old)
            (journal_of log.new) result }
        ensures stale { result ≡ Err StaleCursor → IsStale self.old.cursor log.old }
        ensures seat { seat_of pass.new ≡ seat_of pass.old }
        ensures found { IfErr result (λ halt. halt ≢ Refused NoMessage) }
        ensures same { (actor_group self.new ≡ actor_group self.old) × (actor_member self.new ≡ actor_member self.old) }
        ensures moved { OnOk result (actor_node self.new ≡ (world_of log.new).nodes (actor_group self.old)
            (actor_member self.old)) }
        ensures still { OnErr result (actor_node self.new ≡ actor_node self.old) }
    {
        let NodeActor {
            cursor,
            segment,
            group,
            member,
        } = self;
        log.catch_up(pass);
        reserve_step(log, pass, cursor)?;
        let event = Event::of_node(*group, *member, action);
        if u64::from(*group) >= log.joined() {
            return Err(refused(log, pass, event, Fault::NoActor));
        }
        let prepared = match segment.prepare_action(alloc, action) {
            Ok(prepared) => prepared,
            Err(fault) => return Err(refused(log, pass, event, fault)),
        };
        if log.is_full() {
            return Err(refused(log, pass, event, Fault::JournalFull));
        }
        let made = segment.apply(prepared);
        Ok(log.enter(rt, cursor, pass, event, made, 0))
    }
}
