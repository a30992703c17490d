//! The nodes at the end of a run.

ghost use Rattle.std.specs.Prelude.{◌≡◌, IfOk};
ghost use Rattle.segment_core.specs.Segment.{node_of};
ghost use Rattle.world.specs.Actors.{plan_of, world_of, AreActors};
ghost use Rattle.world.specs.NodeStates.{node_state, nodes_in};

use crate::actors::Actors;
use crate::nodes::MEMBERS;
use segment_core::Segment;
use std::alloc::{AllocError, Global};

/// A node of a group at the end of a run.
#[derive(Clone, Copy)]
pub struct NodeState {
    /// The group of the node.
    pub group: u8,
    /// The member whose node it is.
    pub member: u8,
    /// The volume epoch that the node has promised.
    pub volume_epoch: u32,
    /// The membership epoch of the node's last membership step, 0 before the first.
    pub membership_epoch: u32,
    /// Whether the node is whole.
    pub is_whole: bool,
    /// Its segment complete point: the greatest LSN up to which it holds all records of its group.
    pub complete_point: u64,
    /// The number of records that it holds.
    pub records: usize,
}

/// Returns the state of a node.
fn state_of(group: u8, member: u8, segment: Segment) -> NodeState
    ensures { result ≡ node_state group member (node_of segment) }
{
    let status = segment.status();
    NodeState {
        group,
        member,
        volume_epoch: status.volume_epoch,
        membership_epoch: status.membership_epoch,
        is_whole: status.is_whole,
        complete_point: status.complete_point,
        records: status.records,
    }
}

/// Returns the states of the nodes that the plan names, by group and member. Fails only with `NoMemory`.
pub fn states_of(alloc: Global, actors: Actors) -> Result<Vec<NodeState>, AllocError>
    requires { AreActors actors }
    ensures { IfOk result (λ states. states.items ≡ nodes_in (plan_of actors) (world_of actors)) }
{
    let groups = actors.plan.groups();
    prove!(actors.nodes.len() == usize::from(groups) * MEMBERS);
    let mut states = Vec::new(alloc);
    let mut slot = 0usize;
    for place in actors.nodes {
        if let Some(segment) = place {
            let group = (slot / MEMBERS) as u8;
            let member = (slot % MEMBERS) as u8;
            states.push(state_of(group, member, segment))?;
        }
        slot += 1;
    }
    Ok(states)
}
