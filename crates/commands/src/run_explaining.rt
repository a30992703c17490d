//! A script's run in words or as JSON: `explain PLAN SCRIPT`.

ghost use Rattle.std.specs.Prelude.{◌≡◌, IfErr, IfOk};
ghost use Rattle.commands.specs.Answer.{IsQuiet, Says, fault_answer};
ghost use Rattle.commands.specs.Answers.{file_of};
ghost use Rattle.commands.specs.Reports.{ExplainsFault, IsReportOf};
ghost use Rattle.commands.specs.ShownName.{shown_name};
ghost use Rattle.commands.specs.Stops.{answer_of, said, stop_answer};
ghost use Rattle.commands.specs.Streams.{FailsByRead};
ghost use Rattle.commands.specs.declared.reply.Stop.TheVariants.{NoMemory};

use crate::Job;
use crate::fallible::FallibleRead;
use crate::files::Source;
use crate::inputs::{checked, contents};
use crate::names::shown_name;
use crate::reply::{Reply, Stop};
use crate::reporting::{report_of, status_of};
use crate::run_json::{refusal_report, run_report};
use crate::run_state::run_facts;
use crate::run_steps::{step_events, steps_facts};
use crate::run_tables::run_words;
use crate::run_text::{end_lines, run_status};
use drivers::{Script, ScriptFault, read_script};
use explain::bad_line;
use plan::{CheckedPlan, PlanFault};
use std::alloc::Global;
use std::mem::forget;
use std::sync::Arc;
use world::run_orders;

/// Returns the report of a script's run over a plan.
fn explained_run(
    alloc: Global,
    json: bool,
    plan: Arc<CheckedPlan>,
    script: Script,
) -> Result<Reply, Stop>
    ensures quiet { IfOk result (λ reply. IsQuiet (said reply)) }
{
    let Script { steps, orders } = script;
    let events = step_events(alloc, orders.as_slice())?;
    let Ok(outcome) = run_orders(alloc, &plan, orders) else {
        return Err(Stop::NoMemory);
    };
    let (lines, results) = (steps.as_slice(), outcome.results.as_slice());
    let membership = steps_facts(alloc, &plan, lines, events, results)?;
    forget(plan);
    let ends = end_lines(alloc, &outcome)?;
    let status = run_status(&outcome);
    let facts = run_facts(alloc, steps.as_slice(), outcome)?;
    let value = if json {
        run_report(alloc, facts, membership, status)?
    } else {
        let mut words = run_words(alloc, &facts, &membership)?;
        words.push_str(ends.as_str())?;
        words
    };
    Ok(Reply::printed(alloc, status, value.into_bytes()))
}

/// Returns the report of a script whose line `number` is the first bad one.
fn explained_line(alloc: Global, json: bool, text: &[u8], number: usize) -> Result<Reply, Stop>
    ensures quiet { IfOk result (λ reply. IsQuiet (said reply)) }
{
    let mut lines = bad_line(alloc, text, number)?.unwrap_or(String::new(alloc));
    let verdict = format!(in alloc; "input: line {number}\n")?;
    let mut value = String::new(alloc);
    if json {
        value = refusal_report(alloc, 2, verdict.as_str(), Some(lines.as_str().trim_end()))?;
        lines = String::new(alloc);
    }
    lines.push_str(verdict.as_str())?;
    Ok(Reply {
        status: 2,
        out: value.into_bytes(),
        err: lines.into_bytes(),
    })
}

/// Returns the report of a plan's fault, as JSON.
fn explained_fault(alloc: Global, fault: PlanFault) -> Result<Reply, Stop>
    ensures report { IfOk result (λ reply. IsReportOf (fault_answer fault) (said reply)) }
    ensures stop { IfErr result (λ stop. stop ≡ NoMemory) }
    ensures quiet { IfOk result (λ reply. IsQuiet (said reply)) }
{
    let status = status_of(&fault);
    let text = format!(in alloc; "{fault}\n")?;
    let line = text.as_str();
    let value = refusal_report(alloc, status, line, None)?;
    report_of(alloc, value, status, line)
}

/// Returns the report of a plan that can't be used, as JSON if the plan has a fault.
fn explained_stop(alloc: Global, stop: Stop) -> Result<Reply, Stop>
    ensures answers { Says (IsReportOf (stop_answer stop)) (answer_of result) }
    ensures quiet { IfOk result (λ reply. IsQuiet (said reply)) }
{
    match stop {
        Stop::Plan(fault) => explained_fault(alloc, fault),
        other => Err(other),
    }
}

/// Returns the report of a script's text over a plan.
fn explained_script(
    alloc: Global,
    json: bool,
    plan: CheckedPlan,
    text: &[u8],
) -> Result<Reply, Stop>
    ensures quiet { IfOk result (λ reply. IsQuiet (said reply)) }
{
    let plan = Arc::new(alloc, plan)?;
    match read_script(alloc, text) {
        Ok(script) => explained_run(alloc, json, plan, script),
        Err(ScriptFault::Line(number)) => explained_line(alloc, json, text, number),
        Err(ScriptFault::NoMemory) => Err(Stop::NoMemory),
    }
}

/// Returns the report of a script's file over a plan.
fn over_plan<S: FallibleRead>(
    alloc: Global,
    json: bool,
    plan: CheckedPlan,
    name: &str,
    script: &mut Source<S>,
) -> Result<Reply, Stop>
    ensures quiet { IfOk result (λ reply. IsQuiet (said reply)) }
    ensures reason { FailsByRead S.answers script.old script.new }
{
    let name = shown_name(alloc, name)?;
    let text = contents(alloc, name.as_str(), script)?;
    explained_script(alloc, json, plan, text.as_slice())
}

/// Returns the answer of `explain PLAN SCRIPT`. The files' names are printed with escapes.
pub fn explain_script<P: FallibleRead, S: FallibleRead>(
    alloc: Global,
    job: &Job<'_>,
    name: &str,
    plan: &mut Source<P>,
    script: &mut Source<S>,
) -> Result<Reply, Stop>
    ensures answers { ExplainsFault job.now.json
        (file_of P.remaining (shown_name job.now.plan.now) plan.old plan.new) (answer_of result) }
    ensures quiet { IfOk result (λ reply. IsQuiet (said reply)) }
    ensures plan_read { FailsByRead P.answers plan.old plan.new }
    ensures script_read { FailsByRead S.answers script.old script.new }
{
    let plan_name = shown_name(alloc, job.plan)?;
    match checked(alloc, plan_name.as_str(), plan) {
        Ok(plan) => over_plan(alloc, job.json, plan, name, script),
        Err(stop) if job.json => explained_stop(alloc, stop),
        Err(stop) => Err(stop),
    }
}
