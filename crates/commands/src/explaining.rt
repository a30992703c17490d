//! A plan in words or as JSON: `explain`.

ghost use Rattle.std.specs.Prelude.{◌≡◌, Err, IfErr, IfOk, Ok, Some};
ghost use Rattle.plan.specs.Common.{plan_data, plan_fault, plan_of};
ghost use Rattle.commands.specs.Answer.{Says};
ghost use Rattle.commands.specs.Answers.{AnswersOf, file_of};
ghost use Rattle.commands.specs.Explains.{ExplainsTo};
ghost use Rattle.commands.specs.JobAnswers.{ExplainsPlan};
ghost use Rattle.commands.specs.Reports.{ExplainsAs};
ghost use Rattle.commands.specs.ShownName.{shown_name};
ghost use Rattle.commands.specs.Stops.{StopsBy, answer_of, said, stop_answer};
ghost use Rattle.commands.specs.Streams.{FailsByRead};
ghost use Rattle.commands.specs.declared.reply.Stop.TheVariants.{NoMemory};

use crate::Job;
use crate::fallible::FallibleRead;
use crate::fault_query::{explain_number, number_in};
use crate::files::Source;
use crate::inputs::{checked_plan, contents, plan_in};
use crate::names::shown_name;
use crate::reply::{Reply, Stop};
use crate::reporting::reported_text;
use crate::run_text::checked_line;
use explain::{place_lines, warning_lines};
use plan::{Plan, PlanFault};
use std::alloc::Global;
use std::mem::forget;

/// Returns the warnings about a plan's text, and the plan in words, if it has claims: its parents and fresh members
/// have no fault.
fn words_of(alloc: Global, text: &[u8], plan: &Plan) -> Result<String, Stop>
    ensures { IfErr result (λ stop. stop ≡ NoMemory) }
{
    let mut words = warning_lines(alloc, text)?;
    match explain::explain(alloc, plan) {
        Ok(said) => {
            words.push_str(said.as_str())?;
            Ok(words)
        }
        Err(PlanFault::Text(_)) => Err(Stop::NoMemory),
        Err(_) => Ok(words),
    }
}

/// Returns the plan of a text in words, and below that the line that `check` prints of it.
fn explained_plan(alloc: Global, text: &[u8], plan: Plan) -> Result<Reply, Stop>
    ensures reply { plan_of text.now ≡ Ok (plan_data plan)
        → IfOk result (λ reply. ExplainsTo text.now (said reply)) }
    ensures stop { IfErr result (StopsBy (λ fault. plan_fault (plan_data plan) ≡ Some fault)) }
{
    let mut lines = words_of(alloc, text, &plan)?;
    match checked_plan(alloc, plan) {
        Ok(plan) => {
            let line = checked_line(alloc, &plan)?;
            forget(plan);
            lines.push_str(line.as_str())?;
            Ok(Reply::printed(alloc, 0, lines.into_bytes()))
        }
        Err(stop) => {
            if stop.is_input() {
                return Err(stop);
            }
            write!(lines, "{stop}")?;
            Ok(Reply::printed(alloc, 1, lines.into_bytes()))
        }
    }
}

/// Returns the fault of a text that isn't a plan's, and its place.
fn placed(alloc: Global, text: &[u8], fault: PlanFault) -> Stop
    ensures { plan_of text.now ≡ Err fault → Says (ExplainsTo text.now) (stop_answer result) }
{
    match place_lines(alloc, text) {
        Ok(lines) => Stop::Placed(lines, fault),
        Err(_) => Stop::NoMemory,
    }
}

/// Returns the plan of a text in words, or the place of the text's fault, and below that the line that `check` prints.
fn explained_text(alloc: Global, text: &[u8]) -> Result<Reply, Stop>
    ensures { Says (ExplainsTo text.now) (answer_of result) }
{
    match plan_in(alloc, text) {
        Ok(plan) => explained_plan(alloc, text, plan),
        Err(Stop::Plan(fault)) => Err(placed(alloc, text, fault)),
        Err(stop) => Err(stop),
    }
}

/// Returns the plan of a text as JSON or in words.
fn explained_as(alloc: Global, json: bool, text: &[u8]) -> Result<Reply, Stop>
    ensures { Says (ExplainsAs json text.now) (answer_of result) }
{
    if json {
        reported_text(alloc, text)
    } else {
        explained_text(alloc, text)
    }
}

/// Returns the plan of a job's file, whose name is printed with escapes, as JSON or in words.
fn explain_file<P: FallibleRead>(
    alloc: Global,
    job: &Job<'_>,
    plan: &mut Source<P>,
) -> Result<Reply, Stop>
    ensures answers { AnswersOf (file_of P.remaining (shown_name job.now.plan.now) plan.old plan.new)
        (ExplainsAs job.now.json) (answer_of result) }
    ensures reason { FailsByRead P.answers plan.old plan.new }
{
    let name = shown_name(alloc, job.plan)?;
    let text = contents(alloc, name.as_str(), plan)?;
    explained_as(alloc, job.json, text.as_slice())
}

/// Returns the answer of `explain` to the number of a refusal or to a plan's file.
pub fn explain<P: FallibleRead>(
    alloc: Global,
    job: &Job<'_>,
    plan: &mut Source<P>,
) -> Result<Reply, Stop>
    ensures answers { ExplainsPlan P.remaining job.now plan.old plan.new (answer_of result) }
    ensures reason { FailsByRead P.answers plan.old plan.new }
{
    match number_in(job.plan) {
        Some(number) => explain_number(alloc, number),
        None => explain_file(alloc, job, plan),
    }
}
