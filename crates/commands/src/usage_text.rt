//! What is printed if the words of the command line name no job.

ghost use Rattle.std.specs.Prelude.{◌≤◌};
ghost use Rattle.commands.specs.Streams.{Ends};
ghost use Rattle.commands.specs.UsageText.{AnswersUsage};

use crate::Usage;
use crate::outputs::{Output, deliver};
use std::alloc::Global;
use std::io::Write;

/// The line that is printed if memory ran out.
pub const NO_MEMORY: &str = "input: 9 NoMemory\n";

/// Prints the help or the version if the words ask for it, to standard output with status 0; else the mistake, or
/// that memory ran out, to standard error with status 2.
pub fn print_usage<O: Write, E: Write>(
    alloc: Global,
    usage: &Usage,
    out: &mut Output<O>,
    err: &mut Output<E>,
) -> u8
    ensures status { result ≤ 2 }
    ensures given { Ends O.contents E.contents (AnswersUsage usage.now) result out.old out.new err.old err.new }
{
    match format!(in alloc; "{usage}") {
        Ok(text) if usage.is_asked_for() => deliver(0, text.as_bytes(), b"", out, err),
        Ok(text) => deliver(2, b"", text.as_bytes(), out, err),
        Err(_) => deliver(2, b"", NO_MEMORY.as_bytes(), out, err),
    }
}
