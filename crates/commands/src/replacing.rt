//! The replacement of a member: `replace`.

ghost use Rattle.std.specs.Prelude.{◌≡◌, ◌<◌, ◌≤◌, IfErr, IfOk, List, ℕ};
ghost use Rattle.commands.specs.Answer.{Says, printed};
ghost use Rattle.commands.specs.Answers.{AnswersOf, file_of};
ghost use Rattle.commands.specs.Replaces.{IsEdit, ReplacesTo, replacement_of};
ghost use Rattle.commands.specs.Stops.{StopsBy, answer_of, said};
ghost use Rattle.commands.specs.Streams.{FailsByRead};

use crate::action::{Job, ReplaceOptions};
use crate::fallible::FallibleRead;
use crate::files::Source;
use crate::inputs::{contents, plan_in};
use crate::reply::{Reply, Stop};
use plan::Plan;
use plan_edit::{EditRefusal, Replacement, reason, replace};
use std::alloc::{AllocError, Global};
use std::sync::Wait;
use std::thread::Threads;

/// Returns the replacement that the options ask for.
fn replacement_of(options: ReplaceOptions) -> Replacement
    ensures { result ≡ replacement_of options }
{
    Replacement {
        group: options.group,
        configuration: options.configuration.unwrap_or(0),
        old: options.old,
        new: options.new,
        is_tail: options.is_tail,
        is_direct: options.is_direct,
    }
}

/// Returns whether a group has more than one configuration.
fn has_choice(plan: &Plan, group: u8) -> bool {
    match plan.groups.get(usize::from(group)) {
        Some(group) => group.configurations.len() > 1,
        None => false,
    }
}

/// Returns the line that asks for the number of a configuration.
fn question(alloc: Global, group: u8) -> Result<String, AllocError> {
    format!(in alloc;
        "no: group {group} has more than one configuration: say by -c which one is meant\n"
    )
}

/// Returns why a member isn't replaced.
fn refused(alloc: Global, refusal: EditRefusal, replacement: Replacement) -> Result<Reply, Stop>
    ensures line { IfOk result (λ reply. (line : List ℕ) × (said reply ≡ printed 1 line)) }
    ensures stop { IfErr result (StopsBy (λ _. Unit {0})) }
{
    let line = match refusal {
        EditRefusal::Plan(fault) => return Err(Stop::of_plan(fault)),
        EditRefusal::NoMemory => return Err(Stop::NoMemory),
        other => reason(alloc, &other, replacement)?,
    };
    Ok(Reply::printed(alloc, 1, line.into_bytes()))
}

/// Returns the new plan of a text, or why there is none. The options must name the configuration that is left, unless
/// the group has only one.
fn edited_plan<H: Threads + Wait + Sync>(
    rt: &H,
    alloc: Global,
    text: &[u8],
    plan: &Plan,
    options: ReplaceOptions,
    workers: u8,
) -> Result<Reply, Stop>
    requires { (0 < workers) × (workers ≤ 16) }
    ensures edit { IfOk result (λ reply. IsEdit (replacement_of options) text.now (said reply)) }
    ensures stop { IfErr result (StopsBy (λ _. Unit {0})) }
{
    if options.configuration.is_none() && has_choice(plan, options.group) {
        let question = question(alloc, options.group)?;
        return Ok(Reply::printed(alloc, 1, question.into_bytes()));
    }
    let replacement = replacement_of(options);
    match replace(rt, alloc, text, replacement, workers) {
        Ok(line) => Ok(Reply::printed(alloc, 0, line)),
        Err(refusal) => refused(alloc, refusal, replacement),
    }
}

/// Returns the answer to a plan's text.
fn edited_text<H: Threads + Wait + Sync>(
    rt: &H,
    alloc: Global,
    text: &[u8],
    options: ReplaceOptions,
    workers: u8,
) -> Result<Reply, Stop>
    requires { (0 < workers) × (workers ≤ 16) }
    ensures { Says (ReplacesTo options text.now) (answer_of result) }
{
    match plan_in(alloc, text) {
        Ok(plan) => edited_plan(rt, alloc, text, &plan, options, workers),
        Err(stop) => Err(stop),
    }
}

/// Returns the answer of `replace`.
pub fn replaced<H: Threads + Wait + Sync, P: FallibleRead>(
    rt: &H,
    alloc: Global,
    job: &Job<'_>,
    options: ReplaceOptions,
    plan: &mut Source<P>,
) -> Result<Reply, Stop>
    ensures answers { AnswersOf (file_of P.remaining job.now.plan.now plan.old plan.new) (ReplacesTo options)
        (answer_of result) }
    ensures reason { FailsByRead P.answers plan.old plan.new }
{
    let text = contents(alloc, job.plan, plan)?;
    edited_text(rt, alloc, text.as_slice(), options, job.workers)
}
