//! Many random runs of a plan, and the line that says what they showed.

ghost use Rattle.std.specs.Prelude.{◌≤◌};

use crate::broken::Broken;
use crate::judge::{check_promises, check_run};
use crate::outcome::Outcome;
use crate::rng::Rng;
use crate::schedule::{Events, Schedule};
use crate::shortening::shortened;
use crate::written::Written;
use plan::CheckedPlan;
use std::alloc::{AllocError, Global};
use std::fmt;
use std::sync::Arc;

/// Which random runs to make.
#[derive(Clone, Copy, Debug, PartialEq, Eq)]
pub struct Simulation {
    /// The seed of the first run. Each run has the next one.
    pub seed: u64,
    /// The number of runs.
    pub runs: u32,
    /// What happens in them.
    pub events: Events,
}

/// A run of a script.
#[derive(Drop)]
pub struct ScriptRun {
    /// What it prints.
    pub text: String,
    /// Whether the last advance of each group waited: whether the group's whole members were a read set of the
    /// configuration to which it leads.
    pub waited: bool,
}

/// Runs scripts over a plan.
pub trait ScriptRunner {
    /// Runs a script.
    ///
    /// # Errors
    /// That the script can't be run, or that memory ran out.
    fn run(&self, alloc: Global, script: &str) -> Result<ScriptRun, Broken>;

    /// Learns how many runs of a simulation have ended.
    fn ended(&self, _runs: u32) {}
}

/// What the runs showed: an exit status, 1 if a promise is broken, and a text.
#[derive(Drop)]
pub struct Verdict {
    /// 0, or 1 if a run breaks a promise.
    pub status: u8,
    /// A line, and behind it the script of a run that breaks a promise.
    pub text: String,
    ghost few: { status ≤ 1 },
}

/// What was checked in all runs.
#[derive(Clone, Copy, Default)]
struct Counts {
    /// The number of runs.
    runs: u64,
    /// The number of events that weren't refused.
    events: u64,
    /// The number of acknowledged transactions: those up to their writer's durable point.
    acknowledged: u64,
    /// The number of recoveries that have cut.
    recoveries: u64,
    /// The number of runs in which the last advance of each group waited.
    waited: u64,
}

/// Checks the promises in a run of a script.
fn check_script<R: ScriptRunner>(alloc: Global, runner: &R, script: &str) -> Result<(), Broken> {
    let run = runner.run(alloc, script)?;
    let outcome = Outcome::of_text(alloc, run.text.as_str())?;
    check_promises(&outcome)
}

/// Returns whether a run of a script breaks a promise.
pub(crate) fn breaks<R: ScriptRunner>(alloc: Global, runner: &R, script: &str) -> bool {
    match check_script(alloc, runner, script) {
        Ok(()) => false,
        Err(broken) => !broken.is_memory(),
    }
}

/// Makes a run, checks what it prints, and counts it.
fn try_run<R: ScriptRunner>(
    alloc: Global,
    runner: &R,
    script: &Written,
    counts: &mut Counts,
) -> Result<(), Broken> {
    let run = runner.run(alloc, script.text.as_str())?;
    let outcome = Outcome::of_text(alloc, run.text.as_str())?;
    let shown = check_run(alloc, &outcome, script)?;
    if run.waited {
        counts.waited = counts.waited.saturating_add(1);
        if !shown.continued {
            let what = "each last advance waited, but the last recovery commits nothing (events)";
            return Err(Broken::new(what, [outcome.happened(), 0, 0, 0]));
        }
    }
    counts.runs = counts.runs.saturating_add(1);
    counts.events = counts.events.saturating_add(outcome.happened());
    counts.acknowledged = counts.acknowledged.saturating_add(shown.acknowledged);
    counts.recoveries = counts.recoveries.saturating_add(shown.recoveries);
    Ok(())
}

/// A number, written with a comma between groups of three digits.
#[derive(Clone, Copy)]
struct Grouped(u64);

impl fmt::Display for Grouped {
    fn fmt<W: fmt::Write>(&self, f: &mut fmt::Formatter<W>) -> fmt::Result {
        let (millions, rest) = (self.0 / 1_000_000, self.0 % 1_000_000);
        let (thousands, ones) = (rest / 1000, rest % 1000);
        if millions > 0 {
            return write!(f, "{millions},{thousands:03},{ones:03}");
        }
        if thousands > 0 {
            return write!(f, "{thousands},{ones:03}");
        }
        write!(f, "{ones}")
    }
}

/// Returns the lines of runs that all keep the promises.
fn kept_line(alloc: Global, counts: Counts) -> Result<String, AllocError> {
    let (runs, waited) = (Grouped(counts.runs), Grouped(counts.waited));
    let (events, acknowledged) = (Grouped(counts.events), Grouped(counts.acknowledged));
    let recoveries = Grouped(counts.recoveries);
    format!(in alloc;
        "{runs} runs, {events} events, {acknowledged} commits acknowledged, {recoveries} recoveries, \
        0 promises broken\n{waited} runs whose last advances waited, all led on to a commit\n"
    )
}

/// Returns the line of a run that breaks a promise, and its script with the lines that matter.
fn broken_text<R: ScriptRunner>(
    alloc: Global,
    runner: &R,
    seed: u64,
    script: Written,
    broken: Broken,
) -> Result<String, AllocError> {
    let script = shortened(alloc, script.text, runner)?;
    let ([first, second, third, fourth], what) = (broken.numbers, broken.what);
    format!(in alloc; "seed {seed}: {what}: {first} {second} {third} {fourth}\n{script}")
}

/// Makes random runs of a plan, one for each seed, and judges each by what it prints: whether each later recovery has
/// all acknowledged commits, and no LSN is given twice. It ends at the first run that breaks a promise.
///
/// # Errors
/// `AllocError` if memory runs out.
pub fn simulate<R: ScriptRunner>(
    alloc: Global,
    plan: &Arc<CheckedPlan>,
    simulation: Simulation,
    runner: &R,
) -> Result<Verdict, AllocError> {
    let mut counts = Counts::default();
    for run in 0..simulation.runs {
        let seed = simulation.seed.wrapping_add(u64::from(run));
        let schedule = Schedule::new(alloc, plan.clone()?, Rng::new(seed), simulation.events);
        let script = schedule.filled(alloc)?;
        match try_run(alloc, runner, &script, &mut counts) {
            Ok(()) => runner.ended(run.saturating_add(1)),
            Err(broken) if broken.is_memory() => return Err(AllocError),
            Err(broken) => {
                let text = broken_text(alloc, runner, seed, script, broken)?;
                return Ok(Verdict { status: 1, text });
            }
        }
    }
    let text = kept_line(alloc, counts)?;
    Ok(Verdict { status: 0, text })
}
