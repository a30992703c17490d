//! Pictures of a plan and of a script's run over it: `draw`.

ghost use Rattle.std.specs.Prelude.{◌≡◌, IfErr, IfOk, List, ℕ};
ghost use Rattle.commands.specs.Answer.{Says, printed};
ghost use Rattle.commands.specs.Answers.{AnswersOf, file_of};
ghost use Rattle.commands.specs.Draws.{DrawsTo};
ghost use Rattle.commands.specs.Makes.{IsMade};
ghost use Rattle.commands.specs.Stops.{StopsBy, answer_of, said};
ghost use Rattle.commands.specs.Streams.{FailsByRead};
ghost use Rattle.commands.specs.declared.reply.Stop.TheVariants.{NoMemory};

use crate::fallible::FallibleRead;
use crate::files::Source;
use crate::inputs::{PlanAndScript, contents, plan_in};
use crate::reply::{Reply, Stop};
use crate::run_state::event_lines;
use drawing::{MOST_ROWS, draw_plan, draw_run};
use drivers::Script;
use plan::Plan;
use std::alloc::Global;
use volume_model::Fault;

/// Returns the picture of a plan.
fn drawn_plan(alloc: Global, plan: &Plan) -> Result<Reply, Stop>
    ensures picture { IfOk result (λ reply. (picture : List ℕ) × (said reply ≡ printed 0 picture)) }
    ensures stop { IfErr result (StopsBy (λ _. Unit {0})) }
{
    match draw_plan(alloc, plan) {
        Ok(text) => Ok(Reply::printed(alloc, 0, text.into_bytes())),
        Err(fault) => Err(Stop::of_plan(fault)),
    }
}

/// Returns the picture of a text's plan.
fn drawn_text(alloc: Global, text: &[u8]) -> Result<Reply, Stop>
    ensures { Says (DrawsTo text.now) (answer_of result) }
{
    match plan_in(alloc, text) {
        Ok(plan) => drawn_plan(alloc, &plan),
        Err(stop) => Err(stop),
    }
}

/// Returns the answer of `draw` to a plan's file.
pub fn drawn<P: FallibleRead>(
    alloc: Global,
    name: &str,
    plan: &mut Source<P>,
) -> Result<Reply, Stop>
    ensures answers { AnswersOf (file_of P.remaining name.now plan.old plan.new) DrawsTo (answer_of result) }
    ensures reason { FailsByRead P.answers plan.old plan.new }
{
    let text = contents(alloc, name, plan)?;
    drawn_text(alloc, text.as_slice())
}

/// Returns the picture of a script's run over a plan, or a line that says why there is none.
pub fn drawn_run(alloc: Global, both: PlanAndScript) -> Result<Reply, Stop>
    ensures made { IfOk result (λ reply. IsMade (said reply)) }
    ensures stop { IfErr result (λ stop. stop ≡ NoMemory) }
{
    let PlanAndScript { plan, script } = both;
    let Script { steps, orders } = script;
    let lines = event_lines(alloc, steps.as_slice())?;
    match draw_run(alloc, &plan, lines.as_slice(), orders.as_slice()) {
        Ok(text) => Ok(Reply::printed(alloc, 0, text.into_bytes())),
        Err(Fault::NoMemory) => Err(Stop::NoMemory),
        Err(_) => {
            let count = orders.len();
            let text = format!(in alloc;
                "no: the script has {count} events, and at most {MOST_ROWS} are drawn\n"
            )?;
            Ok(Reply::printed(alloc, 1, text.into_bytes()))
        }
    }
}
