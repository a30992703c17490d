//! Outputs.

ghost use Rattle.std.specs.Prelude.{◌≡◌, ◌⊎◌, ◌<◌, ◌≤◌, true, IfOk, OnErr, OnOk, length, take, false};
ghost use Rattle.std.specs.Io.{WritesAtMost};
ghost use Rattle.std.specs.Io.KnownBytes.{Appends, WriteAppends};
ghost use Rattle.commands.specs.Failures.{WasAnswered, WriteFails};
ghost use Rattle.commands.specs.Streams.{Delivers, FailsByWrite, Gets, HasPrinted, is_broken, unwritten_line, writer_of};

use crate::fallible::{FallibleWrite, is_interrupted};
use std::io;
use std::io::ErrorKind;

/// A writer, and whether a write to it has failed.
#[derive(Drop)]
pub struct Output<W> {
    writer: W,
    failed: bool,
}

/// A write failed.
#[derive(Clone, Copy)]
pub struct WriteFailed;

impl<W> Output<W> {
    /// Makes the output of a writer.
    pub fn new(writer: W) -> Output<W>
        ensures writer { writer_of result ≡ writer }
        ensures whole { is_broken result ≡ false }
    {
        Output {
            writer,
            failed: false,
        }
    }
}

/// Makes one write, again if it is interrupted.
fn write_on<W: FallibleWrite>(writer: &mut W, bytes: &[u8]) -> io::Result<usize>
    ensures bound { WritesAtMost result bytes.now }
    ensures bytes { WriteAppends (W.contents writer.old) (W.contents writer.new) result bytes.now }
    ensures answered { WasAnswered W.answers bytes.now result }
{
    let mut last = writer.write_some(bytes);
    for _ in 0..u64::MAX {
        if !is_interrupted(&last) {
            return last;
        }
        last = writer.write_some(bytes);
    }
    last
}

/// Writes some of these bytes; returns how many, one at least.
///
/// # Errors
/// The writer fails, or takes none.
fn write_part<W: FallibleWrite>(writer: &mut W, bytes: &[u8]) -> Result<usize, WriteFailed>
    requires { 0 < length bytes.now }
    ensures taken { IfOk result (λ count. (0 < count) × (count ≤ length bytes.now)) }
    ensures bytes { IfOk result (λ count. Appends (W.contents writer.old) (W.contents writer.new)
        (take count bytes.now)) }
    ensures failed { OnErr result (WriteFails W.answers) }
{
    let Ok(count) = write_on(writer, bytes) else {
        return Err(WriteFailed);
    };
    if count == 0 {
        return Err(WriteFailed);
    }
    Ok(count)
}

/// Writes all of these bytes.
fn write_whole<W: FallibleWrite>(writer: &mut W, bytes: &[u8]) -> Result<(), WriteFailed>
    ensures written { OnOk result (Appends (W.contents writer.old) (W.contents writer.new) bytes.now) }
    ensures failed { OnErr result (WriteFails W.answers) }
{
    let mut rest = bytes;
    while !rest.is_empty() {
        let count = write_part(writer, rest)?;
        rest = &rest[count..];
    }
    Ok(())
}

impl<W: FallibleWrite> Output<W> {
    /// Writes these bytes.
    ///
    /// # Errors
    /// [`WriteFailed`] if the writer didn't take them all.
    pub fn emit(&mut self, bytes: &[u8]) -> Result<(), WriteFailed>
        ensures written { OnOk result (Gets W.contents self.old self.new bytes.now) }
        ensures failed { OnErr result (is_broken self.new ≡ true) }
        ensures reason { OnErr result (WriteFails W.answers) }
    {
        if bytes.is_empty() {
            return Ok(());
        }
        let written = write_whole(&mut self.writer, bytes);
        if written.is_err() {
            self.failed = true;
        }
        written
    }
}

/// Prints that an output can't be written.
pub(crate) fn complain<E: FallibleWrite>(err: &mut Output<E>)
    ensures line { Gets E.contents err.old err.new unwritten_line ⊎ (is_broken err.new ≡ true) }
    ensures reason { FailsByWrite E.answers err.old err.new }
{
    let _ = err.emit(b"output: cannot write\n");
}

/// Writes a text to standard output. Returns the exit status, 2 if it can't be written.
fn print<O: FallibleWrite, E: FallibleWrite>(
    status: u8,
    printed: &[u8],
    out: &mut Output<O>,
    err: &mut Output<E>,
) -> u8
    ensures printed { HasPrinted O.contents E.contents status printed.now result out.old out.new err.old err.new }
    ensures out_written { FailsByWrite O.answers out.old out.new }
    ensures err_written { FailsByWrite E.answers err.old err.new }
{
    match out.emit(printed) {
        Ok(()) => status,
        Err(_) => {
            complain(err);
            2
        }
    }
}

/// Writes an answer, first its text on standard error, then that on standard output. Returns the exit status, 2 if
/// one can't be written.
pub fn deliver<O: FallibleWrite, E: FallibleWrite>(
    status: u8,
    printed: &[u8],
    reported: &[u8],
    out: &mut Output<O>,
    err: &mut Output<E>,
) -> u8
    requires { status ≤ 2 }
    ensures status { result ≤ 2 }
    ensures delivers { Delivers O.contents E.contents
        (record { status = status; out = printed.now; err = reported.now }) result out.old out.new err.old err.new }

    // An output has failed only where a write to it has.
    ensures out_written { FailsByWrite O.answers out.old out.new }
    ensures err_written { FailsByWrite E.answers err.old err.new }
{
    match err.emit(reported) {
        Ok(()) => print(status, printed, out, err),
        Err(_) => 2,
    }
}
