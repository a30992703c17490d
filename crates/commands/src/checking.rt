//! The check of a plan: `check`.

ghost use Rattle.std.specs.Prelude.{◌≡◌, IfErr, IfOk};
ghost use Rattle.plan.specs.Common.{checked_model};
ghost use Rattle.commands.specs.Answer.{printed};
ghost use Rattle.commands.specs.Answers.{AnswersOf, ChecksTo, file_of};
ghost use Rattle.commands.specs.RunText.{plan_line};
ghost use Rattle.commands.specs.Stops.{answer_of, said};
ghost use Rattle.commands.specs.Streams.{FailsByRead};
ghost use Rattle.commands.specs.declared.reply.Stop.TheVariants.{NoMemory};

use crate::fallible::FallibleRead;
use crate::files::Source;
use crate::inputs::checked;
use crate::reply::{Reply, Stop};
use crate::run_text::checked_line;
use plan::CheckedPlan;
use std::alloc::Global;
use std::mem::forget;

/// Returns the answer to the check of a plan without a fault.
fn plan_reported(alloc: Global, plan: &CheckedPlan) -> Result<Reply, Stop>
    ensures line { IfOk result (λ reply. said reply ≡ printed 0 (plan_line (checked_model plan.now))) }
    ensures stop { IfErr result (λ stop. stop ≡ NoMemory) }
{
    let line = checked_line(alloc, plan)?;
    Ok(Reply::printed(alloc, 0, line.into_bytes()))
}

/// Returns the answer of `check`.
pub fn check<P: FallibleRead>(
    alloc: Global,
    name: &str,
    plan: &mut Source<P>,
) -> Result<Reply, Stop>
    ensures answers { AnswersOf (file_of P.remaining name.now plan.old plan.new) ChecksTo (answer_of result) }
    ensures reason { FailsByRead P.answers plan.old plan.new }
{
    match checked(alloc, name, plan) {
        Ok(plan) => {
            let reported = plan_reported(alloc, &plan);
            forget(plan);
            reported
        }
        Err(stop) => Err(stop),
    }
}
