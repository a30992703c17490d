//! The lines that the program prints.

ghost use Rattle.std.specs.Prelude.{◌≡◌, ◌≤◌, ◌++◌, IfOk, OnOk, codes, decimal, is_err, map, string_bytes};
ghost use Rattle.std.specs.List.{list_any};
ghost use Rattle.std.specs.Option.{option_copied};
ghost use Rattle.plan.specs.Common.{checked_model, sum_below};
ghost use Rattle.world.specs.Outcomes.{find_of, opened_of};
ghost use Rattle.commands.specs.Answers.{IsText};
ghost use Rattle.commands.specs.Stops.{said};
ghost use Rattle.commands.specs.RunText.{PrintsRun, counts_line, each_line, find_line, first_if, next_lsn, plan_line, refused_line, rest_if, status_of, writer_line};
ghost use Rattle.commands.specs.FleetText.{PrintsDriven, journal_line, numbers_lines};
ghost use Rattle.commands.specs.RunLines.{AppendsLine, AppendsLines};

use crate::reply::Reply;
use drivers::{Driven, Step};
use itoa::Buffer;
use plan::CheckedPlan;
use std::alloc::{AllocError, Global};
use volume_model::Fault;
use world::{Outcome, RecoveryOutcome, WriterOutcome};

/// The bytes of most lines of steps.
const LINE_BYTES: usize = 12;

/// The bytes of most lines of writers and recoveries.
const END_BYTES: usize = 40;

/// Returns how many bytes to reserve for the lines of this many steps, writers and recoveries.
fn room_for(steps: usize, ends: usize) -> usize {
    let lines = steps.saturating_mul(LINE_BYTES);
    lines.saturating_add(ends.saturating_mul(END_BYTES))
}

/// Returns the number of configurations of all groups.
fn configurations(plan: &CheckedPlan) -> u64
    ensures counted { result ≡ sum_below (checked_model plan.now).configurations (checked_model plan.now).groups }
    ensures few { result ≤ 4080 }
{
    let mut count = 0u64;
    for group in 0..plan.groups() {
        count += u64::from(plan.configurations(group));
    }
    count
}

/// Returns the line of a plan without a fault. It has a certificate a configuration, and one more for each that has a
/// parent.
pub fn checked_line(alloc: Global, plan: &CheckedPlan) -> Result<String, AllocError>
    ensures { IfOk result (λ text. string_bytes text ≡ plan_line (checked_model plan.now)) }
{
    let groups = u64::from(plan.groups());
    let configurations = configurations(plan);
    let certificates = (2 * configurations).saturating_sub(groups);
    counts_line(alloc, groups, configurations, certificates)
}

/// Returns the line of a plan with these counts.
fn counts_line(
    alloc: Global,
    groups: u64,
    configurations: u64,
    certificates: u64,
) -> Result<String, AllocError>
    ensures { IfOk result (λ text. string_bytes text ≡ counts_line groups configurations certificates) }
{
    let mut text = String::new(alloc);
    write!(
        text,
        "yes: {groups} groups, {configurations} configurations, {certificates} certificates\n"
    )?;
    Ok(text)
}

/// Returns whether an event was refused.
fn has_refusal(results: &[Result<u32, Fault>]) -> bool
    ensures { result ≡ list_any (λ reported. is_err reported) results.now }
{
    results.iter().any(|reported| reported.is_err())
}

/// Returns the result of a step's event, if it has one, and the results of the later ones.
fn first_result(
    has_event: bool,
    results: &[Result<u32, Fault>],
) -> (Option<&Result<u32, Fault>>, &[Result<u32, Fault>])
    ensures first { option_copied result.0 ≡ first_if has_event results.now }
    ensures rest { result.1.now ≡ rest_if has_event results.now }
{
    if !has_event {
        return (None, results);
    }
    match results.split_first() {
        Some((first, later)) => (Some(first), later),
        None => (None, results),
    }
}

/// Appends the line of a step whose event was refused.
fn add_refusal(text: &mut String, line: u32, fault: Fault) -> Result<(), AllocError>
    ensures { OnOk result (string_bytes text.new ≡ string_bytes text.old ++ refused_line line fault) }
{
    write!(text, "{line} refused {fault}\n")
}

/// Appends a number in decimal.
fn add_number(text: &mut String, number: u64) -> Result<(), AllocError>
    ensures { OnOk result (string_bytes text.new ≡ string_bytes text.old ++ decimal number) }
{
    let mut digits = Buffer::new();
    text.push_str(digits.format(number))
}

/// Appends how many messages an event made.
fn add_count(text: &mut String, made: u64) -> Result<(), AllocError>
    ensures { OnOk result (string_bytes text.new ≡ string_bytes text.old
        ++ (codes " ok " ++ decimal made ++ codes "\n")) }
{
    match made {
        // Most events make one message or none.
        0 => text.push_str(" ok 0\n"),
        1 => text.push_str(" ok 1\n"),
        _ => {
            text.push_str(" ok ")?;
            add_number(text, made)?;
            text.push_str("\n")
        }
    }
}

/// Appends the line of a step whose event made this many messages.
fn add_made(text: &mut String, line: u32, made: u64) -> Result<(), AllocError>
    ensures { OnOk result (string_bytes text.new ≡ string_bytes text.old
        ++ (decimal line ++ codes " ok " ++ decimal made ++ codes "\n")) }
{
    add_number(text, u64::from(line))?;
    add_count(text, made)
}

/// Appends the line of a step without an event.
fn add_wait(text: &mut String, line: u32) -> Result<(), AllocError>
    ensures { OnOk result (string_bytes text.new ≡ string_bytes text.old ++ (decimal line ++ codes " ok 0\n")) }
{
    add_number(text, u64::from(line))?;
    text.push_str(" ok 0\n")
}

/// Appends the line of a step's event.
fn add_result(text: &mut String, line: u32, reported: &Result<u32, Fault>) -> Result<(), AllocError>
    ensures { OnOk result (AppendsLine line (Some reported.now) (string_bytes text.old) (string_bytes text.new)) }
{
    match reported {
        Ok(made) => add_made(text, line, u64::from(*made)),
        Err(fault) => add_refusal(text, line, *fault),
    }
}

/// Appends a step's line.
fn add_step(
    text: &mut String,
    line: u32,
    reported: Option<&Result<u32, Fault>>,
) -> Result<(), AllocError>
    ensures { OnOk result (AppendsLine line (option_copied reported.entry) (string_bytes text.old)
        (string_bytes text.new)) }
{
    match reported {
        None => add_wait(text, line),
        Some(reported) => add_result(text, line, reported),
    }
}

/// Appends a line for each step.
fn add_steps(
    text: &mut String,
    steps: &[Step],
    results: &[Result<u32, Fault>],
) -> Result<(), AllocError>
    ensures { OnOk result (AppendsLines steps.now results.now (string_bytes text.old) (string_bytes text.new)) }
{
    let mut left = results;
    for step in steps {
        let (reported, later) = first_result(step.has_event, left);
        add_step(text, step.line, reported)?;
        left = later;
    }
    Ok(())
}

/// Returns the LSN of the writer's next record: one above the greater of its log's last LSN (0 if empty) and its
/// start.
pub fn next_lsn(writer: &WriterOutcome) -> u64
    ensures { result ≡ next_lsn (opened_of writer.now) }
{
    writer.log.last_lsn().max(writer.start).saturating_add(1)
}

/// Appends the line of an opened writer.
fn add_writer(text: &mut String, writer: &WriterOutcome) -> Result<(), AllocError>
    ensures { OnOk result (string_bytes text.new ≡ string_bytes text.old ++ writer_line (opened_of writer.now)) }
{
    let volume = writer.volume;
    let durable = writer.durable;
    let next = next_lsn(writer);
    write!(text, "writer {volume} durable {durable} next {next}\n")
}

/// Appends the line of a recovery that has cut.
fn add_find(text: &mut String, find: &RecoveryOutcome) -> Result<(), AllocError>
    ensures { OnOk result (string_bytes text.new ≡ string_bytes text.old ++ find_line (find_of find.now)) }
{
    let volume = find.volume;
    let cut = find.found.cut;
    let start = find.found.lineage.last_start();
    write!(text, "recovery {volume} cut {cut} start {start}\n")
}

/// Appends a line for each recovery that has cut.
fn add_finds(text: &mut String, finds: &[RecoveryOutcome]) -> Result<(), AllocError>
    ensures { OnOk result (string_bytes text.new ≡ string_bytes text.old ++ each_line find_line
        (map find_of finds.now)) }
{
    for find in finds {
        add_find(text, find)?;
    }
    Ok(())
}

/// Appends a line for each opened writer.
fn add_writers(text: &mut String, writers: &[WriterOutcome]) -> Result<(), AllocError>
    ensures { OnOk result (string_bytes text.new ≡ string_bytes text.old ++ each_line writer_line
        (map opened_of writers.now)) }
{
    for writer in writers {
        add_writer(text, writer)?;
    }
    Ok(())
}

/// Returns the status of a run: 1 if a step was refused.
pub fn run_status(outcome: &Outcome) -> u8
    ensures status { result ≡ status_of outcome.now.results.items }
    ensures small { result ≤ 1 }
{
    u8::from(has_refusal(outcome.results.as_slice()))
}

/// Returns the lines of the opened writers and of the recoveries that have cut.
pub fn end_lines(alloc: Global, outcome: &Outcome) -> Result<String, AllocError>
    ensures { IfOk result (λ text. string_bytes text ≡ each_line writer_line (map opened_of outcome.now.writers.items)
        ++ each_line find_line (map find_of outcome.now.finds.items)) }
{
    let ends = outcome.writers.len().saturating_add(outcome.finds.len());
    let mut text = String::with_capacity(alloc, room_for(0, ends))?;
    add_writers(&mut text, outcome.writers.as_slice())?;
    add_finds(&mut text, outcome.finds.as_slice())?;
    Ok(text)
}

/// Returns a line for each step of a script, for each opened writer, and for each recovery that has cut.
pub fn run_lines(alloc: Global, steps: &[Step], outcome: &Outcome) -> Result<String, AllocError>
    ensures { IfOk result (λ text. PrintsRun steps.now outcome.now.results.items
        (map opened_of outcome.now.writers.items) (map find_of outcome.now.finds.items)
        (status_of outcome.now.results.items) (string_bytes text)) }
{
    let ends = outcome.writers.len().saturating_add(outcome.finds.len());
    let mut text = String::with_capacity(alloc, room_for(steps.len(), ends))?;
    add_steps(&mut text, steps, outcome.results.as_slice())?;
    add_writers(&mut text, outcome.writers.as_slice())?;
    add_finds(&mut text, outcome.finds.as_slice())?;
    Ok(text)
}

/// Returns the lines of how many events were made and refused.
fn numbers(alloc: Global, steps: usize, refused: usize) -> Result<String, AllocError>
    ensures { IfOk result (λ text. string_bytes text ≡ numbers_lines steps refused) }
{
    let mut text = String::new(alloc);
    write!(text, "steps {steps}\nrefused {refused}\n")?;
    Ok(text)
}

/// Returns the line that says whether the journal's run refuses nothing and has as many steps.
fn journal_line(agrees: bool) -> &'static str
    ensures { result.now ≡ journal_line agrees }
{
    if agrees {
        "journal yes\n"
    } else {
        "journal no\n"
    }
}

/// Returns the lines of a script's run on threads: how many events were made and refused, a line for each opened
/// writer and each recovery that has cut, and whether the journal agrees. The status is 0 if no event was refused and
/// it agrees, else 1.
pub fn fleet_lines(alloc: Global, driven: &Driven) -> Result<Reply, AllocError>
    ensures { IfOk result (λ reply. IsText (PrintsDriven driven.now) (said reply)) }
{
    let mut text = numbers(alloc, driven.steps, driven.refused)?;
    add_writers(&mut text, driven.outcome.writers.as_slice())?;
    add_finds(&mut text, driven.outcome.finds.as_slice())?;
    text.push_str(journal_line(driven.agrees))?;
    let status = if driven.refused == 0 && driven.agrees {
        0
    } else {
        1
    };
    Ok(Reply::printed(alloc, status, text.into_bytes()))
}
