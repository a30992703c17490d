//! Readers and writers whose contracts say whether a call failed.

ghost use Rattle.std.specs.Prelude.{ℕ, List, IsErr, IsTrue, Result, ⊤};
ghost use Rattle.std.specs.Io.{ReadsAtMost, WritesAtMost};
ghost use Rattle.std.specs.Io.KnownBytes.{ReadConsumes, WriteAppends};
ghost use Rattle.std.specs.declared.io.Error.{Error};

use std::io;
use std::io::{ErrorKind, Read, Write};

/// Returns whether a call with this result is to be made again.
pub(crate) fn is_interrupted(answer: &io::Result<usize>) -> bool
    ensures { IsTrue result → IsErr answer.now }
{
    matches!(answer, Err(error) if error.kind() == ErrorKind::Interrupted)
}

/// A reader whose contract records the results of its reads.
pub trait FallibleRead: Read {
    // A read of a reader in this state had this result.
    ghost answers: { Self → Result ℕ Error → Type 0 };

    /// Makes one read, as [`Read::read`] does.
    fn read_some(&mut self, buf: &mut [u8]) -> io::Result<usize>
        ensures bound { ReadsAtMost result buf.new }
        ensures bytes { ReadConsumes (Self.remaining self.old) (Self.remaining self.new) result buf.new }
        ensures answered { answers self.old result };
}

impl<R: Read> FallibleRead for R {
    ghost answers = { λ _ _. ⊤ };

    fn read_some(&mut self, buf: &mut [u8]) -> io::Result<usize> {
        self.read(buf)
    }
}

/// A writer whose contract records the results of its writes.
pub trait FallibleWrite: Write {
    // A write of these bytes to a writer in this state had this result.
    ghost answers: { Self → List ℕ → Result ℕ Error → Type 0 };

    /// Makes one write, as [`Write::write`] does.
    fn write_some(&mut self, bytes: &[u8]) -> io::Result<usize>
        ensures bound { WritesAtMost result bytes.now }
        ensures bytes { WriteAppends (Self.contents self.old) (Self.contents self.new) result bytes.now }
        ensures answered { answers self.old bytes.now result };
}

impl<W: Write> FallibleWrite for W {
    ghost answers = { λ _ _ _. ⊤ };

    fn write_some(&mut self, bytes: &[u8]) -> io::Result<usize> {
        self.write(bytes)
    }
}
