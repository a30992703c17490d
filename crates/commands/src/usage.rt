//! Why the words of a command line aren't a job.

use std::alloc::AllocError;
use thiserror::Error;

/// The text that is printed in place of a job.
#[derive(Debug, Drop, Error)]
pub enum Usage {
    /// Clap's answer: a mistake in the words, or the help or the version that they ask for. Never that memory ran out.
    #[error(transparent)]
    Words(#[from] clap::Error),
    /// A required subcommand, file or number that clap let pass.
    #[error("error: {0}\n")]
    Missing(&'static str),
    /// Memory ran out.
    #[error("input: 9 NoMemory\n")]
    Memory(#[from(alloc)] AllocError),
}

impl Usage {
    ghost use Rattle.std.specs.Prelude.{◌↔◌, IsTrue};
    ghost use Rattle.commands.specs.Usage.{IsAskedFor};

    /// Returns whether the words asked for this text, so that it goes to the standard output and is no mistake.
    pub fn is_asked_for(&self) -> bool
        ensures { IsTrue result ↔ IsAskedFor self.now }
    {
        match self {
            Usage::Words(error) => !error.use_stderr(),
            _ => false,
        }
    }
}
