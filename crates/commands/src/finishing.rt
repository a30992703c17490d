//! Prints the answer of a job.

ghost use Rattle.std.specs.Prelude.{◌≤◌};
ghost use Rattle.commands.specs.Answer.{IsSaid};
ghost use Rattle.commands.specs.Stops.{answer_of, stop_answer};
ghost use Rattle.commands.specs.Streams.{Ends, FailsByWrite};

use crate::fallible::FallibleWrite;
use crate::outputs::{Output, deliver};
use crate::reply::{Reply, Stop};
use std::alloc::Global;

/// Prints why a job ends before its own answer.
pub fn refuse<O: FallibleWrite, E: FallibleWrite>(
    alloc: Global,
    stop: &Stop,
    out: &mut Output<O>,
    err: &mut Output<E>,
) -> u8
    ensures status { result ≤ 2 }
    ensures ends { Ends O.contents E.contents (IsSaid (stop_answer stop.now)) result out.old out.new err.old err.new }
    ensures out_written { FailsByWrite O.answers out.old out.new }
    ensures err_written { FailsByWrite E.answers err.old err.new }
{
    match format!(in alloc; "{stop}") {
        Ok(line) if stop.is_input() => deliver(2, b"", line.as_bytes(), out, err),
        Ok(line) => deliver(1, line.as_bytes(), b"", out, err),
        Err(_) => deliver(2, b"", b"input: 9 NoMemory\n", out, err),
    }
}

/// Prints a job's answer, or why it ends before it.
pub fn finish<O: FallibleWrite, E: FallibleWrite>(
    alloc: Global,
    answer: &Result<Reply, Stop>,
    out: &mut Output<O>,
    err: &mut Output<E>,
) -> u8
    ensures status { result ≤ 2 }
    ensures ends { Ends O.contents E.contents (IsSaid (answer_of answer.now)) result out.old out.new err.old err.new }
    ensures out_written { FailsByWrite O.answers out.old out.new }
    ensures err_written { FailsByWrite E.answers err.old err.new }
{
    match answer {
        Ok(reply) => deliver(
            reply.status,
            reply.out.as_slice(),
            reply.err.as_slice(),
            out,
            err,
        ),
        Err(stop) => refuse(alloc, stop, out, err),
    }
}
