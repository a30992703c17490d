//! The outcome of a run.

use crate::actors::Actors;
use crate::client::Client;
use crate::node_states::{NodeState, states_of};
use recovery::Found;
use std::alloc::{AllocError, Global};
use volume_model::Fault;
use writer_core::Log;

/// An opened writer at the end of a run.
#[derive(Drop)]
pub struct WriterOutcome {
    /// The writer's volume epoch.
    pub volume: u32,
    /// The LSN after which the writer's own records begin.
    pub start: u64,
    /// The writer's log, in order of LSN.
    pub log: Log,
    /// The writer's durable point.
    pub durable: u64,
}

/// A recovery that has cut, at the end of a run.
#[derive(Drop)]
pub struct RecoveryOutcome {
    /// The recovery's volume epoch.
    pub volume: u32,
    /// The log found, the cut, and the lineage.
    pub found: Found,
}

const _: () = prove!(size_of::<Result<u32, Fault>>() <= 8);

/// The outcome of a run.
#[derive(Drop)]
pub struct Outcome {
    /// For each event the number of messages that it made, or its refusal.
    pub results: Vec<Result<u32, Fault>>,
    /// The opened writers, in growing volume epoch.
    pub writers: Vec<WriterOutcome>,
    /// The recoveries that have cut, in growing volume epoch. One that became a writer is in both lists.
    pub finds: Vec<RecoveryOutcome>,
    /// The volume epochs of the recoveries that haven't cut, in growing order.
    pub readers: Vec<u32>,
    /// The clients, whose logs were taken.
    pub(crate) clients: Vec<Box<Client>>,
    /// The authority, the nodes and all messages at the end of the run.
    pub(crate) actors: Actors,
}

impl Outcome {
    ghost use Rattle.std.specs.Prelude.{◌≡◌, IfOk};
    ghost use Rattle.world.specs.Actors.{plan_of, world_of, AreActors};
    ghost use Rattle.world.specs.NodeStates.{nodes_in};

    /// Returns the nodes that the plan names, by group and member. The actors are those of a run, as the contract of
    /// [`run`](crate::run) says.
    pub fn into_nodes(self, alloc: Global) -> Result<Vec<NodeState>, AllocError>
        requires { AreActors self.actors }
        ensures { IfOk result (λ nodes. nodes.items ≡ nodes_in (plan_of self.actors) (world_of self.actors)) }
    {
        states_of(alloc, self.actors)
    }
}
