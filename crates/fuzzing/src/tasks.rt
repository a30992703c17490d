//! Tasks: several lines of a script that belong together.

use crate::written::Delivery;
use std::alloc::Global;

/// What a task does after its messages are delivered and their answers taken.
#[derive(Clone, Copy)]
pub enum Stage {
    /// A recovery takes the View that this line made.
    View(u64),
    /// A recovery cuts.
    Cut,
    /// A recovery opens.
    Open,
    /// The members that a step adds request copies.
    Ask,
    /// The copies are sent to a new member.
    Send,
    /// The new member becomes whole.
    Hydrate,
    /// The newest client is sent a View of the places.
    Refresh,
    /// The newest client takes the View that this line made.
    Learn(u64),
    /// The newest client is sent a View with a group that has joined.
    Tell,
    /// The newest client takes the View that this line made, and its messages are sent to the group.
    Join(u64),
    /// The task is done.
    Finished,
}

/// The answer of a node.
#[derive(Clone, Copy)]
pub struct Answered {
    pub line: u64,
    pub group: u8,
    pub member: u8,
}

/// Lines that are written in order, with lines of other tasks between them.
#[derive(Drop)]
pub struct Task {
    pub stage: Stage,
    /// The client that takes the answers.
    pub client: u32,
    /// The group of a membership step.
    pub group: u8,
    /// The member that becomes whole, in the stages `Send` and `Hydrate`.
    pub fresh: u8,
    /// The messages to deliver.
    pub deliveries: Vec<Delivery>,
    /// The answers to take.
    pub answers: Vec<Answered>,
}

impl Task {
    /// Returns a task of a client with nothing to deliver yet.
    pub fn new(alloc: Global, stage: Stage, client: u32) -> Task {
        Task {
            stage,
            client,
            group: 0,
            fresh: 0,
            deliveries: Vec::new(alloc),
            answers: Vec::new(alloc),
        }
    }

    /// Returns whether the task is done.
    pub fn is_done(&self) -> bool {
        matches!(self.stage, Stage::Finished)
            && self.deliveries.is_empty()
            && self.answers.is_empty()
    }

    /// Returns whether its client takes the answers.
    pub fn takes(&self) -> bool {
        !matches!(self.stage, Stage::Ask | Stage::Send | Stage::Hydrate)
    }

    /// Drops the earlier answers of a node, since its next one includes them.
    pub fn forget(&mut self, group: u8, member: u8) {
        self.answers
            .retain(|a| a.group != group || a.member != member);
    }
}
