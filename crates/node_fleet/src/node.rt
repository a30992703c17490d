//! A node of a fleet.

ghost use Rattle.std.specs.Prelude.{true, ◌≡◌, [], IfOk};
ghost use Rattle.std.proofs.Props.{props};
ghost use Rattle.volume_model.specs.Common.{is_named, world_at, AnswersNew};
ghost use Rattle.volume_model.specs.Actor.Actor.{Node};
ghost use Rattle.segment_core.specs.Segment.{node_of, IsSegmentOf, born};
ghost use Rattle.journal.specs.Passes.{marked, seen_at};
ghost use Rattle.journal.proofs.Plans.{Plan-set};

use journal::{ActorCursor, ActorName, History, Site};
use plan::CheckedPlan;
use segment_core::Segment;
use std::alloc::Global;
use std::sync::Arc;
use volume_model::Fault;

/// The node of a member of a group and its cursor.
#[derive(Drop)]
pub struct NodeActor<L: Site> {
    pub(crate) cursor: ActorCursor<L>,
    pub(crate) segment: Segment,
    pub(crate) group: u8,
    pub(crate) member: u8,
    ghost who: { marked cursor ≡ Node group member } by { Prim.hlevel props },
    ghost of: { IsSegmentOf L.plan group member segment } by { Prim.hlevel (props, Plan-set) },
    ghost named: { is_named L.plan group member ≡ true },
    ghost state: { node_of segment ≡ (world_at L.plan (seen_at cursor)).nodes group member } by { Prim.hlevel props },
}

impl<L: Site> NodeActor<L> {
    ghost use Rattle.std.specs.Arc.{arc_value};
    ghost use Rattle.plan.specs.Common.{checked_model};
    ghost use Rattle.journal.specs.Fronts.{log_of};
    ghost use Rattle.node_fleet.specs.Nodes.{actor_group, actor_member, actor_node};

    /// Makes the actor of a member's node with its cursor.
    pub fn new(cursor: ActorCursor<L>, segment: Segment, group: u8, member: u8) -> NodeActor<L>
        requires who { marked cursor ≡ Node group member }
        requires of { IsSegmentOf L.plan group member segment }
        requires named { is_named L.plan group member ≡ true }
        requires state { node_of segment ≡ (world_at L.plan (seen_at cursor)).nodes group member }
        ensures of { (actor_group result ≡ group) × (actor_member result ≡ member) }
        ensures node { actor_node result ≡ node_of segment }
    {
        NodeActor {
            cursor,
            segment,
            group,
            member,
        }
    }

    /// Makes the actor of a member's node of a new volume.
    ///
    /// # Errors
    /// `NoActor` if the plan doesn't name such a member; `NoMemory` if memory runs out.
    pub fn born(
        alloc: Global,
        plan: Arc<CheckedPlan>,
        group: u8,
        member: u8,
        history: &mut History<L>,
    ) -> Result<NodeActor<L>, Fault>
        requires plan { checked_model (arc_value plan) ≡ L.plan }
        requires history { log_of history.old.opened ≡ [] }
        ensures history { log_of history.new.opened ≡ [] }
        ensures born { AnswersNew actor_node (born L.plan group member) result }
        ensures of { IfOk result (λ actor. (actor_group actor ≡ group) × (actor_member actor ≡ member)) }
    {
        match Segment::new(alloc, plan, group, member) {
            Ok(segment) => {
                let cursor = ActorCursor::new(ActorName::Node { group, member }, history);
                Ok(NodeActor::new(cursor, segment, group, member))
            }
            Err(fault) => Err(fault),
        }
    }

    /// Returns the node's group.
    pub fn group(&self) -> u8
        ensures { result ≡ actor_group self.now }
    {
        self.group
    }

    /// Returns the node's member.
    pub fn member(&self) -> u8
        ensures { result ≡ actor_member self.now }
    {
        self.member
    }
}
