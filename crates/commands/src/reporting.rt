//! A plan as JSON: `explain --json`.

ghost use Rattle.std.specs.Prelude.{◌≡◌, ◌≤◌, Err, IfErr, IfOk, Ok, Some};
ghost use Rattle.plan.specs.Common.{is_input, plan_data, plan_fault, plan_of};
ghost use Rattle.commands.specs.Answer.{Says};
ghost use Rattle.commands.specs.Reports.{IsReport, ReportsTo, status_of};
ghost use Rattle.commands.specs.Stops.{StopsBy, answer_of, said};
ghost use Rattle.commands.specs.declared.reply.Stop.TheVariants.{NoMemory};

use crate::inputs::{checked_plan, plan_in};
use crate::reply::{Reply, Stop};
use crate::run_text::checked_line;
use explain::{ConfigurationFacts, json_report, known_configurations};
use plan::{Plan, PlanFault};
use std::alloc::Global;
use std::mem::forget;

/// Returns a report with this value, beside the status and the line of a check.
pub(crate) fn report_of(alloc: Global, value: String, status: u8, line: &str) -> Result<Reply, Stop>
    requires { status ≤ 2 }
    ensures report { IfOk result (λ reply. IsReport status line.now (said reply)) }
    ensures stop { IfErr result (λ stop. stop ≡ NoMemory) }
{
    let shown = if status < 2 { "" } else { line };
    let line = String::from_str(alloc, shown)?;
    Ok(Reply {
        status,
        out: value.into_bytes(),
        err: line.into_bytes(),
    })
}

/// Returns the report of a text with what is known of its configurations, beside the status and the line of a check.
fn made(
    alloc: Global,
    text: &[u8],
    known: Option<Vec<ConfigurationFacts>>,
    status: u8,
    line: &str,
) -> Result<Reply, Stop>
    requires { status ≤ 2 }
    ensures report { IfOk result (λ reply. IsReport status line.now (said reply)) }
    ensures stop { IfErr result (λ stop. stop ≡ NoMemory) }
{
    let value = json_report(alloc, text, known, status, line)?;
    report_of(alloc, value, status, line)
}

/// Returns the report of a text that spells a plan.
fn reported_plan(alloc: Global, text: &[u8], plan: Plan) -> Result<Reply, Stop>
    ensures report { plan_of text.now ≡ Ok (plan_data plan)
        → IfOk result (λ reply. ReportsTo text.now (said reply)) }
    ensures stop { IfErr result (StopsBy (λ fault. plan_fault (plan_data plan) ≡ Some fault)) }
{
    let known = Some(known_configurations(alloc, &plan)?);
    match checked_plan(alloc, plan) {
        Ok(plan) => {
            let line = checked_line(alloc, &plan)?;
            forget(plan);
            made(alloc, text, known, 0, line.as_str())
        }
        Err(stop) => {
            if stop.is_input() {
                return Err(stop);
            }
            let line = format!(in alloc; "{stop}")?;
            made(alloc, text, known, 1, line.as_str())
        }
    }
}

/// Returns the status of a check that finds a fault.
pub(crate) fn status_of(fault: &PlanFault) -> u8
    ensures { result ≡ status_of (is_input fault.now) }
{
    match fault.is_input() {
        true => 2,
        false => 1,
    }
}

/// Returns the report of a text that isn't a plan's.
fn reported_fault(alloc: Global, text: &[u8], fault: PlanFault) -> Result<Reply, Stop>
    ensures report { plan_of text.now ≡ Err fault
        → IfOk result (λ reply. ReportsTo text.now (said reply)) }
    ensures stop { IfErr result (λ stop. stop ≡ NoMemory) }
{
    let status = status_of(&fault);
    let line = format!(in alloc; "{fault}\n")?;
    made(alloc, text, None, status, line.as_str())
}

/// Returns the report of a text.
pub fn reported_text(alloc: Global, text: &[u8]) -> Result<Reply, Stop>
    ensures { Says (ReportsTo text.now) (answer_of result) }
{
    match plan_in(alloc, text) {
        Ok(plan) => reported_plan(alloc, text, plan),
        Err(Stop::Plan(fault)) => reported_fault(alloc, text, fault),
        Err(stop) => Err(stop),
    }
}
