//! The completions of a script's orders.

ghost use Rattle.std.specs.Prelude.{◌≡◌, ◌+◌, ◌<◌, ◌^◌, IfErr, IfOk, vec_len};
ghost use Rattle.volume_model.specs.declared.fault.Fault.TheVariants.{NoMemory};

use crate::completion::Completion;
use crate::completion_slot::CompletionSlot;
use std::alloc::{AllocError, Global};
use std::sync::{OnceLock, Wait};
use volume_model::Fault;

/// The numbers of orders that were made and refused.
#[derive(Clone, Copy)]
pub struct RunCounts {
    pub made: usize,
    pub refused: usize,
}

impl RunCounts {
    ghost use Rattle.drivers.specs.Counts.{IsOutOfMemory, counts_with};

    /// Counts one more order by its completion.
    ///
    /// # Errors
    /// `NoMemory` if the order ran out of memory.
    fn with(self, completion: Completion) -> Result<RunCounts, Fault>
        requires { self.made + self.refused + 1 < 2 ^ 64 }
        ensures counted { IfOk result (λ counts. counts ≡ counts_with completion self) }
        ensures one_more { IfOk result (λ counts. counts.made + counts.refused ≡ self.made + self.refused + 1) }
        ensures starved { IfErr result (λ fault. (fault ≡ NoMemory) × IsOutOfMemory completion) }
    {
        match completion {
            Completion::Made { .. } => Ok(RunCounts {
                made: self.made + 1,
                refused: self.refused,
            }),
            Completion::Refused => Ok(RunCounts {
                made: self.made,
                refused: self.refused + 1,
            }),
            Completion::OutOfMemory => Err(Fault::NoMemory),
        }
    }
}

/// A slot for the completion of each order of a script.
#[derive(Drop)]
pub struct CompletionTable {
    slots: Vec<CompletionSlot>,
    /// Whether the threads may run: set once all of them are started, or one couldn't be.
    pub go: OnceLock<bool>,
}

impl CompletionTable {
    /// Makes `orders` empty slots.
    ///
    /// # Errors
    /// `AllocError` if memory runs out.
    pub fn new(alloc: Global, orders: usize) -> Result<CompletionTable, AllocError>
        ensures { IfOk result (λ completions. vec_len completions.slots ≡ orders) }
    {
        let mut slots = Vec::with_capacity(alloc, orders)?;
        for _ in 0..orders {
            slots.push(CompletionSlot::new())?;
        }
        Ok(CompletionTable {
            slots,
            go: OnceLock::new(),
        })
    }

    /// Sets the completion of order `order`.
    pub fn set(&self, order: usize, completion: Completion) {
        if let Some(slot) = self.slots.get(order) {
            slot.set(completion);
        }
    }

    /// Waits for the completion of order `order` and returns it. Returns at once if there is no such order.
    pub fn wait<R: Wait>(&self, rt: &R, order: usize) -> Completion {
        match self.slots.get(order) {
            Some(slot) => slot.wait(rt),
            None => Completion::Refused,
        }
    }

    /// Waits for order `event`. Returns the number of its `place`-th message, from 1, or 0, which no message has, if
    /// that order isn't before `order` or made fewer.
    pub fn message<R: Wait>(&self, rt: &R, order: usize, event: usize, place: u64) -> u64 {
        if event >= order {
            return 0;
        }
        match self.wait(rt, event) {
            Completion::Made { first, count } if 1 <= place && place <= count => {
                first.checked_add(place - 1).unwrap_or(0)
            }
            _ => 0,
        }
    }

    /// Waits for all completions and counts them.
    ///
    /// # Errors
    /// `NoMemory` if one of them ran out of memory.
    pub fn counts<R: Wait>(&self, rt: &R) -> Result<RunCounts, Fault>
        ensures all { IfOk result (λ counts. counts.made + counts.refused ≡ vec_len self.now.slots) }
        ensures memory { IfErr result (λ fault. fault ≡ NoMemory) }
    {
        let mut counts = RunCounts {
            made: 0,
            refused: 0,
        };
        for slot in &self.slots {
            counts = counts.with(slot.wait(rt))?;
        }
        Ok(counts)
    }
}
