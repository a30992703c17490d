//! The completion of one order, set once and read by all threads that wait for it.

use crate::completion::Completion;
use std::sync::Wait;
use std::sync::atomic::{AtomicU64, Ordering};
use std::thread::yield_now;

/// The state of an empty slot.
const EMPTY: u64 = 0;

/// The state of an empty slot on which a thread is blocked.
const SLEPT_ON: u64 = 1;

/// The state of a refused order.
const REFUSED: u64 = 2;

/// The state of an order that ran out of memory.
const OUT_OF_MEMORY: u64 = 3;

/// The state of an order that made no message. Each message adds 1.
const MADE: u64 = 4;

/// The number of polls of a slot, with a yield after each, before the thread blocks.
const POLLS: u32 = 100;

/// A slot for one order's completion. Setting it makes a system call only if a thread is blocked on it.
#[derive(Drop)]
pub struct CompletionSlot {
    state: AtomicU64,
    /// The number of the first message, written before the state.
    first: AtomicU64,
}

impl CompletionSlot {
    /// Makes an empty slot.
    pub fn new() -> CompletionSlot {
        CompletionSlot {
            state: AtomicU64::new(EMPTY),
            first: AtomicU64::new(0),
        }
    }

    /// Sets the completion, and wakes all threads that are blocked on the slot.
    pub fn set(&self, completion: Completion) {
        let state = match completion {
            Completion::Made { first, count } => {
                if count > 0 {
                    self.first.store(first, Ordering::Release);
                }
                MADE.saturating_add(count)
            }
            Completion::Refused => REFUSED,
            Completion::OutOfMemory => OUT_OF_MEMORY,
        };
        if self.state.swap(state, Ordering::SeqCst) == SLEPT_ON {
            self.state.wake_all();
        }
    }

    /// Returns the completion of a state, `None` if the slot is empty.
    fn read(&self, state: u64) -> Option<Completion> {
        match state {
            EMPTY | SLEPT_ON => None,
            REFUSED => Some(Completion::Refused),
            OUT_OF_MEMORY => Some(Completion::OutOfMemory),
            made => Some(Completion::Made {
                first: self.first.load(Ordering::Acquire),
                count: made - MADE,
            }),
        }
    }

    /// Waits for the completion: polls the slot up to `POLLS` times, yielding in between, then blocks.
    pub fn wait<R: Wait>(&self, rt: &R) -> Completion {
        let mut looks = 0;
        for _ in rt.forever() {
            let state = self.state.load(Ordering::Acquire);
            if let Some(completion) = self.read(state) {
                return completion;
            }
            if looks < POLLS {
                looks += 1;
                yield_now();
            } else if state == SLEPT_ON || self.start_sleeping() {
                self.state.park(rt, SLEPT_ON as u32);
            }
        }
        unreachable!()
    }

    /// Marks the slot as one on which a thread is blocked. Returns false if it is set, or marked already.
    fn start_sleeping(&self) -> bool {
        self.state
            .compare_exchange(EMPTY, SLEPT_ON, Ordering::SeqCst, Ordering::SeqCst)
            .is_ok()
    }
}
