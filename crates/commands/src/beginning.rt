//! A plan made from words: `new`.

ghost use Rattle.std.specs.Prelude.{◌≡◌, ◌<◌, ◌≤◌, IfErr, IfOk};
ghost use Rattle.commands.specs.Begins.{BeginsTo};
ghost use Rattle.commands.specs.Stops.{answer_of, said};
ghost use Rattle.commands.specs.declared.reply.Stop.TheVariants.{NoMemory};

use crate::reply::{Reply, Stop};
use plan_edit::{NewRefusal, PlanRequest, refusal_lines, requested_plan};
use std::alloc::Global;
use std::sync::Wait;
use std::thread::Threads;

/// Returns why there is no plan.
fn refused(alloc: Global, request: &PlanRequest<'_>, refusal: &NewRefusal) -> Result<Reply, Stop>
    ensures begins { IfOk result (λ reply. BeginsTo request.now (said reply)) }
    ensures stop { IfErr result (λ stop. stop ≡ NoMemory) }
{
    let lines = refusal_lines(alloc, refusal)?.into_bytes();
    if refusal.is_usage() {
        return Ok(Reply {
            status: 2,
            out: Vec::new(alloc),
            err: lines,
        });
    }
    Ok(Reply::printed(alloc, 1, lines))
}

/// Returns the answer of `new`.
pub fn begun<H: Threads + Wait + Sync>(
    rt: &H,
    alloc: Global,
    request: &PlanRequest<'_>,
    workers: u8,
) -> Result<Reply, Stop>
    requires { (0 < workers) × (workers ≤ 16) }
    ensures { BeginsTo request.now (answer_of result) }
{
    match requested_plan(rt, alloc, request, workers) {
        Ok(line) => Ok(Reply::printed(alloc, 0, line)),
        Err(refusal) if refusal.is_no_memory() => Err(Stop::NoMemory),
        Err(refusal) => refused(alloc, request, &refusal),
    }
}
