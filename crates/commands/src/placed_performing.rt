//! A job whose text is laid out or goes to a file.

ghost use Rattle.std.specs.Prelude.{◌≡◌, ◌≤◌, IsSome, None};
ghost use Rattle.commands.specs.declared.action.Action.TheVariants.{Draw, New, Replace, Search};
ghost use Rattle.commands.specs.declared.action.ReplaceOptions.{ReplaceOptions as Options};
ghost use Rattle.commands.specs.Answers.{AnswersOf, file_of, script_name};
ghost use Rattle.commands.specs.Begins.{BeginsTo};
ghost use Rattle.commands.specs.Draws.{DrawsRunTo, DrawsTo};
ghost use Rattle.commands.specs.Places.{EndsIn, output_of};
ghost use Rattle.commands.specs.Replaces.{ReplacesTo};
ghost use Rattle.commands.specs.Searched.{SearchesTo};
ghost use Rattle.commands.specs.Streams.{FailsByRead, FailsByWrite};

use crate::Job;
use crate::fallible::{FallibleRead, FallibleWrite};
use crate::files::Source;
use crate::outputs::Output;
use crate::performing::answer;
use crate::placing::place;
use crate::progress_line::Unseen;
use crate::whole_file::WholeFile;
use std::alloc::Global;
use std::sync::Wait;
use std::thread::Threads;

/// Performs a job as [`perform`](crate::perform) does, and lays a plan out if the job asks for that. If the job names a
/// file, and the status is 0, the text goes to `file` in place of standard output, whole or not at all; with another
/// status it is printed, and the file isn't touched. The status is also 2 if the file can't be written.
pub fn perform_placed<
    H: Threads + Wait + Sync,
    P: FallibleRead,
    S: FallibleRead,
    F: WholeFile,
    O: FallibleWrite,
    E: FallibleWrite,
>(
    rt: &H,
    alloc: Global,
    job: &Job<'_>,
    plan: &mut Source<P>,
    script: &mut Source<S>,
    file: &mut F,
    out: &mut Output<O>,
    err: &mut Output<E>,
) -> u8
    ensures status { result ≤ 2 }

    // The answers of a search, a replacement, a new plan and a drawing are those of `perform`.
    ensures searches { job.now.action ≡ Search → EndsIn F.holds O.contents E.contents job.now.pretty
        (output_of job.now) (AnswersOf (file_of P.remaining job.now.plan.now plan.old plan.new) SearchesTo) result
        file.old file.new out.old out.new err.old err.new }
    ensures replaces { (options : Options) → job.now.action ≡ Replace options → EndsIn F.holds O.contents E.contents
        job.now.pretty (output_of job.now)
        (AnswersOf (file_of P.remaining job.now.plan.now plan.old plan.new) (ReplacesTo options)) result file.old
        file.new out.old out.new err.old err.new }
    ensures begins { job.now.action ≡ New → EndsIn F.holds O.contents E.contents job.now.pretty (output_of job.now)
        (BeginsTo job.now.request) result file.old file.new out.old out.new err.old err.new }
    ensures draws { job.now.action ≡ Draw → job.now.script ≡ None → EndsIn F.holds O.contents E.contents
        job.now.pretty (output_of job.now)
        (AnswersOf (file_of P.remaining job.now.plan.now plan.old plan.new) DrawsTo) result file.old file.new out.old
        out.new err.old err.new }
    ensures draws_run { job.now.action ≡ Draw → IsSome job.now.script → EndsIn F.holds O.contents E.contents
        job.now.pretty (output_of job.now) (AnswersOf (file_of P.remaining job.now.plan.now plan.old plan.new)
        (DrawsRunTo (file_of S.remaining (script_name job.now) script.old script.new))) result file.old file.new out.old
        out.new err.old err.new }
    ensures plan_read { FailsByRead P.answers plan.old plan.new }
    ensures script_read { FailsByRead S.answers script.old script.new }
    ensures out_written { FailsByWrite O.answers out.old out.new }
    ensures err_written { FailsByWrite E.answers err.old err.new }
{
    let reply = answer(rt, alloc, job, plan, script, &Unseen);
    place(alloc, reply, job, file, out, err)
}
