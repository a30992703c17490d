//! What is made of a checked plan: the script of a step, random runs.

ghost use Rattle.std.specs.Prelude.{◌≡◌, ◌<◌, IfErr, IfOk};
ghost use Rattle.commands.specs.Answers.{AnswersOf, file_of};
ghost use Rattle.commands.specs.Makes.{IsMade, MakesTo};
ghost use Rattle.commands.specs.Stops.{answer_of, said};
ghost use Rattle.commands.specs.Streams.{FailsByRead};
ghost use Rattle.commands.specs.declared.reply.Stop.TheVariants.{NoMemory};

use crate::action::{Job, Making};
use crate::fallible::FallibleRead;
use crate::files::Source;
use crate::inputs::checked;
use crate::progress_line::Progress;
use crate::reply::{Reply, Stop};
use crate::run_steps::{step_events, steps_facts};
use crate::run_text::run_lines;
use drivers::{Script, read_script};
use explain::{NoStep, step_script};
use fuzzing::{Broken, ScriptRun, ScriptRunner, Simulation, simulate};
use plan::CheckedPlan;
use std::alloc::{AllocError, Global};
use std::sync::Arc;
use world::run_orders;

/// The greatest LAL with which no simulated run comes near the greatest LSN, 2^62: each of a script's recoveries may
/// skip a LAL of LSNs, and it has at most 25.
const MOST_LAL: u64 = 1 << 57;

/// Runs scripts over a plan as `run` does.
#[derive(Drop)]
struct PlanRunner<'a, G> {
    plan: &'a Arc<CheckedPlan>,
    progress: &'a G,
    runs: u32,
}

impl<G: Progress> ScriptRunner for PlanRunner<'_, G> {
    fn run(&self, alloc: Global, script: &str) -> Result<ScriptRun, Broken> {
        let Ok(script) = read_script(alloc, script.as_bytes()) else {
            return Err(Broken::new("a script has a bad line", [0; 4]));
        };
        let Script { steps, orders } = script;
        let steps = steps.as_slice();
        let events = step_events(alloc, orders.as_slice())?;
        let Ok(outcome) = run_orders(alloc, self.plan, orders) else {
            return Err(Broken::from(AllocError));
        };
        let membership = steps_facts(alloc, self.plan, steps, events, outcome.results.as_slice())?;
        Ok(ScriptRun {
            text: run_lines(alloc, steps, &outcome)?,
            waited: self.plan.lal() <= MOST_LAL && membership.waited(),
        })
    }

    fn ended(&self, runs: u32) {
        self.progress.show(runs, self.runs);
    }
}

/// Returns the answer of random runs over a plan.
fn simulated<G: Progress>(
    alloc: Global,
    plan: CheckedPlan,
    simulation: Simulation,
    progress: &G,
) -> Result<Reply, Stop>
    ensures made { IfOk result (λ reply. IsMade (said reply)) }
    ensures stop { IfErr result (λ stop. stop ≡ NoMemory) }
{
    let plan = Arc::new(alloc, plan)?;
    let runner = PlanRunner {
        plan: &plan,
        progress,
        runs: simulation.runs,
    };
    let verdict = simulate(alloc, &plan, simulation, &runner);
    progress.clear();
    let verdict = verdict?;
    Ok(Reply::printed(alloc, verdict.status, verdict.text.into_bytes()))
}

/// Returns why a step has no script.
fn no_step(alloc: Global, why: NoStep, group: u8, configuration: u8) -> Result<String, AllocError> {
    match why {
        NoStep::NotInPlan | NoStep::NoMemory => {
            format!(in alloc; "no: group {group} has no configuration {configuration}\n")
        }
        NoStep::IsRoot => {
            format!(in alloc; "no: no step leads to configuration {configuration}\n")
        }
        NoStep::CannotRead(number) => format!(in alloc;
            "no: the members that the step to configuration {number} of group {group} keeps aren't a read set of it\n"
        ),
    }
}

/// Returns the answer to a step of a plan.
fn stepped(alloc: Global, plan: &CheckedPlan, group: u8, configuration: u8) -> Result<Reply, Stop>
    ensures made { IfOk result (λ reply. IsMade (said reply)) }
    ensures stop { IfErr result (λ stop. stop ≡ NoMemory) }
{
    match step_script(alloc, plan, group, configuration) {
        Ok(text) => Ok(Reply::printed(alloc, 0, text.into_bytes())),
        Err(NoStep::NoMemory) => Err(Stop::NoMemory),
        Err(why) => {
            let text = no_step(alloc, why, group, configuration)?;
            Ok(Reply::printed(alloc, 1, text.into_bytes()))
        }
    }
}

/// Returns what is made of a checked plan.
fn made<G: Progress>(
    alloc: Global,
    plan: CheckedPlan,
    making: Making,
    progress: &G,
) -> Result<Reply, Stop>
    ensures made { IfOk result (λ reply. IsMade (said reply)) }
    ensures stop { IfErr result (λ stop. stop ≡ NoMemory) }
{
    match making {
        Making::Steps {
            group,
            configuration,
        } => stepped(alloc, &plan, group, configuration),
        Making::Simulate(simulation) => simulated(alloc, plan, simulation, progress),
    }
}

/// Returns the answer of `steps` or `simulate`: checks the plan, and makes what is asked for.
pub fn make<P: FallibleRead, G: Progress>(
    alloc: Global,
    job: &Job<'_>,
    making: Making,
    plan: &mut Source<P>,
    progress: &G,
) -> Result<Reply, Stop>
    ensures answers { AnswersOf (file_of P.remaining job.now.plan.now plan.old plan.new) MakesTo (answer_of result) }
    ensures reason { FailsByRead P.answers plan.old plan.new }
{
    match checked(alloc, job.plan, plan) {
        Ok(plan) => made(alloc, plan, making, progress),
        Err(stop) => Err(stop),
    }
}
