//! Where the answer of a job goes: to the outputs, or its text to a file.

ghost use Rattle.std.specs.Prelude.{◌≤◌, Bool, IfOk, List, Some, ℕ, option_map};
ghost use Rattle.commands.specs.Answer.{IsSaid};
ghost use Rattle.commands.specs.Places.{EndsIn, IsShown, Reaches, SaysUnsaved, Saves, output_of};
ghost use Rattle.commands.specs.Stops.{answer_of, said};
ghost use Rattle.commands.specs.Streams.{FailsByWrite};

use crate::action::Job;
use crate::fallible::FallibleWrite;
use crate::finishing::refuse;
use crate::layout::laid_out;
use crate::outputs::{Output, complain, deliver};
use crate::reply::{Reply, Stop};
use crate::whole_file::WholeFile;
use plan::PLAN_BYTES;
use std::alloc::{AllocError, Global};

/// Returns what is printed in place of a text: a plan over several lines if that is asked for and it has room.
fn shown(alloc: Global, text: Vec<u8>, pretty: bool) -> Result<Vec<u8>, AllocError>
    ensures { IfOk result (λ shown. IsShown pretty text.items shown.items) }
{
    if !pretty || text.first() != Some(&b'{') {
        return Ok(text);
    }
    let laid = laid_out(alloc, text.as_slice())?;
    if laid.len() > PLAN_BYTES as usize {
        return Ok(text);
    }
    Ok(laid)
}

/// Prints that the file with a name can't be written.
fn report_unsaved<E: FallibleWrite>(alloc: Global, name: &str, err: &mut Output<E>)
    ensures line { SaysUnsaved E.contents (Some name.now) err.old err.new }
    ensures reason { FailsByWrite E.answers err.old err.new }
{
    match format!(in alloc; "output: cannot write {name}\n") {
        Ok(line) => {
            let _ = err.emit(line.as_bytes());
        }
        Err(_) => complain(err),
    }
}

/// Writes a text to standard error, and then another to a file. Returns the exit status, 2 if one can't be written.
fn save<F: WholeFile, E: FallibleWrite>(
    alloc: Global,
    name: &str,
    text: &[u8],
    notes: &[u8],
    file: &mut F,
    err: &mut Output<E>,
) -> u8
    ensures saves { Saves F.holds E.contents (Some name.now) text.now notes.now result file.old file.new err.old
        err.new }
    ensures err_written { FailsByWrite E.answers err.old err.new }
{
    let Ok(()) = err.emit(notes) else {
        return 2;
    };
    match file.write_whole(text) {
        Ok(()) => 0,
        Err(_) => {
            report_unsaved(alloc, name, err);
            2
        }
    }
}

/// Brings the texts of an answer to their places, one to a file only with the status 0. Returns the exit status.
fn place_texts<F: WholeFile, O: FallibleWrite, E: FallibleWrite>(
    alloc: Global,
    status: u8,
    text: &[u8],
    notes: &[u8],
    name: Option<&str>,
    file: &mut F,
    out: &mut Output<O>,
    err: &mut Output<E>,
) -> u8
    requires { status ≤ 2 }
    ensures status { result ≤ 2 }
    ensures reaches { (pretty : Bool) → (printed : List ℕ) → IsShown pretty printed text.now
        → Reaches F.holds O.contents E.contents pretty (option_map (λ w. w.now) name.entry)
        (record { status = status; out = printed; err = notes.now }) result file.old file.new out.old out.new err.old
        err.new }
    ensures out_written { FailsByWrite O.answers out.old out.new }
    ensures err_written { FailsByWrite E.answers err.old err.new }
{
    match name {
        Some(name) if status == 0 => save(alloc, name, text, notes, file, err),
        _ => deliver(status, text, notes, out, err),
    }
}

/// Brings a job's answer to its places. Returns the exit status.
fn place_reply<F: WholeFile, O: FallibleWrite, E: FallibleWrite>(
    alloc: Global,
    reply: Reply,
    job: &Job<'_>,
    file: &mut F,
    out: &mut Output<O>,
    err: &mut Output<E>,
) -> u8
    ensures status { result ≤ 2 }
    ensures ends { EndsIn F.holds O.contents E.contents job.now.pretty (output_of job.now) (IsSaid (said reply))
        result file.old file.new out.old out.new err.old err.new }
    ensures out_written { FailsByWrite O.answers out.old out.new }
    ensures err_written { FailsByWrite E.answers err.old err.new }
{
    let Reply {
        status,
        out: text,
        err: notes,
    } = reply;
    match shown(alloc, text, job.pretty) {
        Ok(text) => place_texts(
            alloc,
            status,
            text.as_slice(),
            notes.as_slice(),
            job.output,
            file,
            out,
            err,
        ),
        Err(_) => refuse(alloc, &Stop::NoMemory, out, err),
    }
}

/// Brings a job's answer, or why it ends before it, to its places, which the job names. Returns the exit status.
pub fn place<F: WholeFile, O: FallibleWrite, E: FallibleWrite>(
    alloc: Global,
    answer: Result<Reply, Stop>,
    job: &Job<'_>,
    file: &mut F,
    out: &mut Output<O>,
    err: &mut Output<E>,
) -> u8
    ensures status { result ≤ 2 }
    ensures ends { EndsIn F.holds O.contents E.contents job.now.pretty (output_of job.now)
        (IsSaid (answer_of answer)) result file.old file.new out.old out.new err.old err.new }
    ensures out_written { FailsByWrite O.answers out.old out.new }
    ensures err_written { FailsByWrite E.answers err.old err.new }
{
    match answer {
        Ok(reply) => place_reply(alloc, reply, job, file, out, err),
        Err(stop) => refuse(alloc, &stop, out, err),
    }
}
