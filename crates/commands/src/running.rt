//! A script over a plan: `run`, `fleet` on threads, and `draw`.

ghost use Rattle.std.specs.Prelude.{◌≡◌, ◌≤◌, IfErr, IfOk, vec_len};
ghost use Rattle.std.specs.Arc.{arc_value};
ghost use Rattle.plan.specs.Common.{checked_model};
ghost use Rattle.commands.specs.Answers.{AnswersOf, IsText, PrintsOrders, file_of, script_name};
ghost use Rattle.commands.specs.Draws.{UsesTo};
ghost use Rattle.commands.specs.Stops.{answer_of, said};
ghost use Rattle.commands.specs.Streams.{FailsByRead};
ghost use Rattle.commands.specs.FleetText.{PrintsFleet};
ghost use Rattle.commands.specs.declared.reply.Stop.TheVariants.{NoMemory};

use crate::Job;
use crate::fallible::FallibleRead;
use crate::files::Source;
use crate::inputs::{PlanAndScript, plan_and_script};
use crate::pictures::drawn_run;
use crate::reply::{Reply, Stop};
use crate::run_text::{fleet_lines, run_lines, run_status};
use drivers::{Script, drive};
use plan::CheckedPlan;
use std::alloc::Global;
use std::mem::forget;
use std::sync::{Arc, Wait};
use std::thread::Threads;
use world::run_orders;

/// Returns the answer of a script's run over a plan.
fn ran(alloc: Global, both: PlanAndScript) -> Result<Reply, Stop>
    ensures reported { IfOk result (λ reply. IsText (PrintsOrders (checked_model (arc_value both.plan))
        both.script.steps.items both.script.orders.items) (said reply)) }
    ensures stop { IfErr result (λ stop. stop ≡ NoMemory) }
{
    let PlanAndScript { plan, script } = both;
    let Script { steps, orders } = script;
    match run_orders(alloc, &plan, orders) {
        Ok(outcome) => {
            let text = run_lines(alloc, steps.as_slice(), &outcome)?;
            let status = run_status(&outcome);
            forget(outcome);
            forget(steps);
            forget(plan);
            Ok(Reply::printed(alloc, status, text.into_bytes()))
        }
        Err(_) => Err(Stop::NoMemory),
    }
}

/// Returns the answer of a script's run on threads by `workers` drivers.
fn driven<H: Threads + Wait + Sync>(
    rt: &H,
    alloc: Global,
    plan: &Arc<CheckedPlan>,
    script: &Script,
    workers: u8,
) -> Result<Reply, Stop>
    requires { (1 ≤ workers) × (workers ≤ 16) }
    ensures reported { IfOk result (λ reply. IsText (PrintsFleet (checked_model (arc_value plan.now))
        (vec_len script.now.orders)) (said reply)) }
    ensures stop { IfErr result (λ stop. stop ≡ NoMemory) }
{
    match drive(rt, alloc, plan, script, workers) {
        Ok(driven) => {
            let reported = fleet_lines(alloc, &driven)?;
            forget(driven);
            Ok(reported)
        }
        Err(_) => Err(Stop::NoMemory),
    }
}

/// What is done with a script over a plan.
#[derive(Clone, Copy)]
pub enum ScriptUse {
    /// It is run.
    Run,
    /// It is run on threads.
    Fleet,
    /// A picture of its run is drawn.
    Draw,
}

/// Returns the answer of `run`, `fleet`, or `draw` with a script: checks the plan, reads the whole script, then uses
/// it.
pub fn use_script<H: Threads + Wait + Sync, P: FallibleRead, S: FallibleRead>(
    rt: &H,
    alloc: Global,
    job: &Job<'_>,
    script_use: ScriptUse,
    plan: &mut Source<P>,
    script: &mut Source<S>,
) -> Result<Reply, Stop>
    ensures answers { AnswersOf (file_of P.remaining job.now.plan.now plan.old plan.new)
        (UsesTo script_use (file_of S.remaining (script_name job.now) script.old script.new)) (answer_of result) }
    ensures plan_read { FailsByRead P.answers plan.old plan.new }
    ensures script_read { FailsByRead S.answers script.old script.new }
{
    match plan_and_script(alloc, job, plan, script) {
        Ok(both) => match script_use {
            ScriptUse::Run => ran(alloc, both),
            ScriptUse::Fleet => driven(rt, alloc, &both.plan, &both.script, job.workers),
            ScriptUse::Draw => drawn_run(alloc, both),
        },
        Err(stop) => Err(stop),
    }
}
