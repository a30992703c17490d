//! The budget of a search.

use std::alloc::Allocator;

/// The arena and the budget of a search. Nodes and steps are counted before they are made.
#[derive(Drop)]
pub struct Search<B: Allocator> {
    pub arena: B,
    /// The nodes that the search may still try.
    pub nodes: u64,
    /// The steps that the search may still take. A step is a visit of a subexpression or of a pair of them.
    pub steps: u64,
    /// The steps that each state takes.
    pub state_steps: u64,
}

impl<B: Allocator> Search<B> {
    /// Counts steps. Returns whether the budget allows for them.
    pub fn step(&mut self, steps: u64) -> bool {
        self.spend(0, steps)
    }

    /// Counts nodes and steps. Returns whether the budget allows for them.
    pub fn spend(&mut self, nodes: u64, steps: u64) -> bool {
        match (self.nodes.checked_sub(nodes), self.steps.checked_sub(steps)) {
            (Some(nodes), Some(steps)) => {
                self.nodes = nodes;
                self.steps = steps;
                true
            }
            _ => false,
        }
    }

    /// Counts a state. Returns whether the budget allows for it.
    pub fn spend_state(&mut self) -> bool {
        self.spend(1, self.state_steps)
    }

    /// Returns whether the budget allows for a state whose tree may have `levels` levels. Called before items are
    /// copied for the state.
    pub fn may_try(&self, levels: u8) -> bool {
        levels > 0 && self.nodes > 0 && self.state_steps <= self.steps
    }
}
