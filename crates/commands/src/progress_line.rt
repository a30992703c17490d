//! How far random runs are, shown while they go on.

use std::alloc::Global;
use std::io::{IsTerminal, Stderr, Write};

/// Is shown how far random runs are.
pub trait Progress {
    /// Shows that some of the runs have ended.
    fn show(&self, done: u32, runs: u32);

    /// Removes what is shown.
    fn clear(&self);
}

/// Shows nothing.
#[derive(Clone, Copy, Debug)]
pub struct Unseen;

impl Progress for Unseen {
    fn show(&self, _done: u32, _runs: u32) {}

    fn clear(&self) {}
}

/// Shows a line on standard error if that is a terminal, else nothing.
#[derive(Clone, Copy)]
pub struct TerminalProgress {
    alloc: Global,
    err: Stderr,
    is_terminal: bool,
}

impl TerminalProgress {
    /// Makes the progress on standard error.
    pub fn new(alloc: Global, err: Stderr) -> TerminalProgress {
        TerminalProgress {
            alloc,
            err,
            is_terminal: err.is_terminal(),
        }
    }

    /// Writes a text, if it can be written.
    fn write(&self, text: &str) {
        let mut err = self.err;
        let _ = err.write_all(text.as_bytes());
    }
}

/// Returns whether another hundredth of the runs has ended.
fn is_due(done: u32, runs: u32) -> bool {
    let (done, runs) = (u64::from(done), u64::from(runs));
    runs > 0 && done * 100 / runs != done.saturating_sub(1) * 100 / runs
}

impl Progress for TerminalProgress {
    fn show(&self, done: u32, runs: u32) {
        if !self.is_terminal || !is_due(done, runs) {
            return;
        }
        if let Ok(line) = format!(in self.alloc; "\rsimulate: {done} of {runs} runs") {
            self.write(line.as_str());
        }
    }

    fn clear(&self) {
        if self.is_terminal {
            self.write("\r\x1b[K");
        }
    }
}
