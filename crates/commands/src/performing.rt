//! A job, done on the contents of its files.

ghost use Rattle.std.specs.Prelude.{◌≡◌, ◌≢◌, ◌≤◌, ◌<◌, IsSome, None, false};
ghost use Rattle.commands.specs.declared.action.Action.TheVariants.{Check, Draw, Explain, Fleet, Make, New, Replace, Run, Search};
ghost use Rattle.commands.specs.declared.action.Making.{Making as ToMake};
ghost use Rattle.commands.specs.declared.action.ReplaceOptions.{ReplaceOptions as Options};
ghost use Rattle.commands.specs.Answers.{AnswersOf, ChecksTo, FleetsTo, RunsTo, file_of, script_name};
ghost use Rattle.commands.specs.Begins.{BeginsTo};
ghost use Rattle.commands.specs.Draws.{DrawsRunTo, DrawsTo};
ghost use Rattle.commands.specs.FaultQuery.{ExplainsJob, HasFile};
ghost use Rattle.commands.specs.Held.{HoldsCertified, HoldsFault};
ghost use Rattle.commands.specs.JobAnswers.{AnswersJob};
ghost use Rattle.commands.specs.Jobs.{prints_plan};
ghost use Rattle.commands.specs.Makes.{MakesTo};
ghost use Rattle.commands.specs.Replaces.{ReplacesTo};
ghost use Rattle.commands.specs.Reports.{ExplainsFault};
ghost use Rattle.commands.specs.Searched.{SearchesTo};
ghost use Rattle.commands.specs.ShownName.{shown_name};
ghost use Rattle.commands.specs.Stops.{answer_of};
ghost use Rattle.commands.specs.Streams.{Ends, FailsByRead, FailsByWrite};

use crate::beginning::begun;
use crate::checking::check;
use crate::explaining::explain;
use crate::fallible::{FallibleRead, FallibleWrite};
use crate::files::Source;
use crate::finishing::finish;
use crate::making::make;
use crate::outputs::Output;
use crate::pictures::drawn;
use crate::progress_line::Progress;
use crate::replacing::replaced;
use crate::reply::{Reply, Stop};
use crate::run_explaining::explain_script;
use crate::running::{ScriptUse, use_script};
use crate::search::search;
use crate::{Action, Job};
use std::alloc::Global;
use std::sync::Wait;
use std::thread::Threads;

/// Returns the answer of a job.
pub fn answer<H: Threads + Wait + Sync, P: FallibleRead, S: FallibleRead, G: Progress>(
    rt: &H,
    alloc: Global,
    job: &Job<'_>,
    plan: &mut Source<P>,
    script: &mut Source<S>,
    progress: &G,
) -> Result<Reply, Stop>
    ensures answers { AnswersJob P.remaining S.remaining job.now plan.old plan.new script.old script.new
        (answer_of result) }
    ensures plan_read { FailsByRead P.answers plan.old plan.new }
    ensures script_read { FailsByRead S.answers script.old script.new }
{
    match job.action {
        Action::Check => check(alloc, job.plan, plan),
        Action::Run => use_script(rt, alloc, job, ScriptUse::Run, plan, script),
        Action::Fleet => use_script(rt, alloc, job, ScriptUse::Fleet, plan, script),
        Action::Search => search(rt, alloc, job, plan),
        Action::Explain => match job.script {
            Some(name) => explain_script(alloc, job, name, plan, script),
            None => explain(alloc, job, plan),
        },
        Action::Replace(options) => replaced(rt, alloc, job, options, plan),
        Action::Make(making) => make(alloc, job, making, plan, progress),
        Action::New => begun(rt, alloc, &job.request, job.workers),
        Action::Draw => match job.script {
            Some(_) => use_script(rt, alloc, job, ScriptUse::Draw, plan, script),
            None => drawn(alloc, job.plan, plan),
        },
    }
}

/// Performs a job on the contents of its files, prints its answer, and returns the exit status: 0 for yes, 1 for a
/// refusal, 2 for an input that can't be used (printed to `err` alone) or an output that can't be written. Only `run`,
/// `fleet` and an `explain` or a `draw` with a script read the script; `new` reads no file; only `fleet`, `search`,
/// `replace` and `new` start threads. `simulate` shows its progress. Plans and outcomes are leaked: the end of the
/// process frees all memory at once.
pub fn perform<
    H: Threads + Wait + Sync,
    P: FallibleRead,
    S: FallibleRead,
    G: Progress,
    O: FallibleWrite,
    E: FallibleWrite,
>(
    rt: &H,
    alloc: Global,
    job: &Job<'_>,
    plan: &mut Source<P>,
    script: &mut Source<S>,
    progress: &G,
    out: &mut Output<O>,
    err: &mut Output<E>,
) -> u8
    ensures status { result ≤ 2 }

    // The status 0 of a check, an explanation of a plan or of a script over one, a run or a fleet says that the plan's
    // text spells a plan without a fault, whose quorums all meet.
    ensures yes { prints_plan job.now.action ≡ false → HasFile job.now → result ≡ 0
        → HoldsCertified P.remaining plan.old }

    // A check answers 1 only where the text has a fault.
    ensures no { job.now.action ≡ Check → result ≡ 1 → HoldsFault P.remaining plan.old }
    ensures quiet { job.now.action ≢ Search → result < 2 → err.new ≡ err.old }

    // With the status 0 nothing is written to `err`, by a search neither.
    ensures silent { result ≡ 0 → err.new ≡ err.old }

    // A check prints one line, which the text of its file determines: that of a plan without a fault, or that of the
    // text's first fault.
    ensures checks { job.now.action ≡ Check → Ends O.contents E.contents
        (AnswersOf (file_of P.remaining job.now.plan.now plan.old plan.new) ChecksTo) result out.old out.new err.old
        err.new }

    // The texts of its files determine what a run prints: the line of the plan's first fault; else the number of the
    // script's first bad line; else the lines of the model's run of the script over the plan.
    ensures runs { job.now.action ≡ Run → Ends O.contents E.contents
        (AnswersOf (file_of P.remaining job.now.plan.now plan.old plan.new)
        (RunsTo (file_of S.remaining (script_name job.now) script.old script.new))) result out.old out.new err.old
        err.new }

    // A fleet prints the line of the plan's first fault; else the number of the script's first bad line; else the
    // lines of a run on threads of as many events as the script has.
    ensures fleets { job.now.action ≡ Fleet → Ends O.contents E.contents
        (AnswersOf (file_of P.remaining job.now.plan.now plan.old plan.new)
        (FleetsTo (file_of S.remaining (script_name job.now) script.old script.new))) result out.old out.new err.old
        err.new }

    // A search prints the line of the first fault of the plan or of its claims; else the plan with the certificates
    // that were found, each expression as the text of the file spells it, and a line for each claim without a
    // certificate.
    ensures searches { job.now.action ≡ Search → Ends O.contents E.contents
        (AnswersOf (file_of P.remaining job.now.plan.now plan.old plan.new) SearchesTo) result out.old out.new err.old
        err.new }

    // A replacement prints the line of the text's fault; else, with the status 0, a plan without a fault that begins
    // as the text's plan and has the configurations of the replacement behind those of the group; else the line of that
    // plan's fault, or a line that says why there is none.
    ensures replaces { (options : Options) → job.now.action ≡ Replace options → Ends O.contents E.contents
        (AnswersOf (file_of P.remaining job.now.plan.now plan.old plan.new) (ReplacesTo options)) result out.old out.new
        err.old err.new }

    // A step's script and random runs are made only of a plan without a fault: else its first fault is printed.
    ensures makes { (making : ToMake) → job.now.action ≡ Make making → Ends O.contents E.contents
        (AnswersOf (file_of P.remaining job.now.plan.now plan.old plan.new) MakesTo) result out.old out.new err.old
        err.new }

    // A new plan: with the status 0, the line of a plan without a fault that has what the words ask for; else a line
    // that says why there is none.
    ensures begins { job.now.action ≡ New → Ends O.contents E.contents (BeginsTo job.now.request) result out.old
        out.new err.old err.new }

    // A drawing prints the line of the text's fault; else a picture of the plan, certified or not, or the line of a
    // fault of its parents or members. That of a script's run prints the line of the plan's first fault; else the
    // number of the script's first bad line; else a picture, or a line that says why there is none.
    ensures draws { job.now.action ≡ Draw → job.now.script ≡ None → Ends O.contents E.contents
        (AnswersOf (file_of P.remaining job.now.plan.now plan.old plan.new) DrawsTo) result out.old out.new err.old
        err.new }
    ensures draws_run { job.now.action ≡ Draw → IsSome job.now.script → Ends O.contents E.contents
        (AnswersOf (file_of P.remaining job.now.plan.now plan.old plan.new)
        (DrawsRunTo (file_of S.remaining (script_name job.now) script.old script.new))) result out.old out.new err.old
        err.new }

    // An explanation of a plan's text has the status and the last line of a check, on the same output; as JSON, the
    // status and what a check prints to standard error. One of a number prints the refusal with that number in words.
    ensures explains { job.now.action ≡ Explain → job.now.script ≡ None → Ends O.contents E.contents
        (ExplainsJob P.remaining job.now plan.old plan.new) result out.old out.new err.old err.new }

    // An explanation of a script over a plan with a fault prints what a check prints; as JSON, it has the status of a
    // check and prints what a check prints to standard error. Of one over a plan without a fault nothing is said here
    // but its status and that a status below 2 leaves `err` as it was.
    ensures explains_fault { job.now.action ≡ Explain → IsSome job.now.script → Ends O.contents E.contents
        (ExplainsFault job.now.json (file_of P.remaining (shown_name job.now.plan.now) plan.old plan.new)) result
        out.old out.new err.old err.new }

    // A file is said to be one that can't be read only where it couldn't be opened, or a read of it failed; and an
    // output one that can't be written only where a write to it failed, or took none of its bytes.
    ensures plan_read { FailsByRead P.answers plan.old plan.new }
    ensures script_read { FailsByRead S.answers script.old script.new }
    ensures out_written { FailsByWrite O.answers out.old out.new }
    ensures err_written { FailsByWrite E.answers err.old err.new }
{
    let reply = answer(rt, alloc, job, plan, script, progress);
    finish(alloc, &reply, out, err)
}
