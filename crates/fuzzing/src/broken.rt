//! Broken promises of a run.

use std::alloc::AllocError;

/// What is said where memory ran out.
const MEMORY: &str = "memory ran out";

/// A promise that a run has broken, or that memory ran out.
#[derive(Clone, Copy)]
pub struct Broken {
    /// What is wrong; in brackets, what the numbers are.
    pub what: &'static str,
    /// The numbers that the text names, and then zeros.
    pub numbers: [u64; 4],
}

impl Broken {
    /// Returns what is wrong with these numbers.
    pub fn new(what: &'static str, numbers: [u64; 4]) -> Broken {
        Broken { what, numbers }
    }

    /// Returns whether memory ran out.
    pub fn is_memory(&self) -> bool {
        self.what == MEMORY
    }
}

impl From<AllocError> for Broken {
    fn from(_: AllocError) -> Broken {
        Broken::new(MEMORY, [0; 4])
    }
}
