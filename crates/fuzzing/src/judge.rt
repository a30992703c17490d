//! Checks that a run's output keeps the volume's promises.

use crate::broken::Broken;
use crate::outcome::{Find, Outcome, Writer};
use crate::verdicts::{is_given, is_kept};
use crate::written::{Issue, Written};
use std::alloc::{AllocError, Global};

/// The last record of a transaction that was issued.
#[derive(Clone, Copy)]
struct End {
    client: u64,
    last: u64,
}

/// What was checked in a run.
#[derive(Clone, Copy)]
pub struct Shown {
    /// Transactions that are acknowledged: at or below their writer's durable point.
    pub acknowledged: u64,
    /// Recoveries that have cut.
    pub recoveries: u64,
    /// Whether the newest writer has committed a transaction of its own.
    pub continued: bool,
}

/// Checks that each line of a script has its answer, in order.
fn check_answers(outcome: &Outcome, lines: u64) -> Result<(), Broken> {
    let mut place = 0u64;
    for answer in outcome.answers.iter() {
        place = place.saturating_add(1);
        if answer.line != place {
            let numbers = [place, answer.line, 0, 0];
            return Err(Broken::new("an answer is of another line (place, line)", numbers));
        }
    }
    if place != lines {
        let numbers = [place, lines, 0, 0];
        return Err(Broken::new("not one answer a line (answers, lines)", numbers));
    }
    Ok(())
}

/// Returns the cut of a writer's recovery and the start of its own LSNs, which are above it; 0 if there was none.
fn found_by(outcome: &Outcome, client: u64) -> (u64, u64) {
    match outcome.finds.iter().find(|find| find.client == client) {
        Some(find) => (find.cut, find.start),
        None => (0, 0),
    }
}

/// Returns the last LSN of a writer, given the ends of its transactions.
fn last_of(outcome: &Outcome, ends: &[End], client: u64) -> u64 {
    match ends.iter().rev().find(|end| end.client == client) {
        Some(end) => end.last,
        None => found_by(outcome, client).1,
    }
}

/// Returns the number of messages that a line made, if it wasn't refused.
fn made_by(outcome: &Outcome, line: u64) -> Option<u64> {
    outcome
        .answers
        .iter()
        .find(|answer| answer.line == line)?
        .made
}

/// Returns the last LSN of each transaction that was issued.
fn ends_of(alloc: Global, outcome: &Outcome, issues: &[Issue]) -> Result<Vec<End>, Broken> {
    let mut ends: Vec<End> = Vec::new(alloc);
    for issue in issues.iter() {
        let (line, changes) = (issue.line, issue.changes);
        if let Some(made) = made_by(outcome, line) {
            if made != changes {
                let what = "not one message a change (line, changes, messages)";
                return Err(Broken::new(what, [line, changes, made, 0]));
            }
            let client = u64::from(issue.client);
            let last = last_of(outcome, ends.as_slice(), client).saturating_add(changes);
            if ends.push(End { client, last }).is_err() {
                return Err(Broken::from(AllocError));
            }
        }
    }
    Ok(ends)
}

/// Checks that a writer's points are below its next LSN, and its durable point isn't below the cut of its own recovery.
fn check_points(outcome: &Outcome, writer: &Writer) -> Result<(), Broken> {
    let (client, durable, next) = (writer.client, writer.durable, writer.next);
    let (cut, start) = found_by(outcome, client);
    if !is_given(durable, next) || !is_given(start, next) {
        let what = "a writer's next LSN isn't above its points (writer, durable, next)";
        return Err(Broken::new(what, [client, durable, next, 0]));
    }
    if !is_kept(cut, durable) {
        let what = "a writer's durable point is below its cut (writer, durable, cut)";
        return Err(Broken::new(what, [client, durable, cut, 0]));
    }
    Ok(())
}

/// Checks that a writer numbered the records of its transactions consecutively, and that its durable point doesn't
/// divide a transaction.
fn check_log(outcome: &Outcome, ends: &[End], writer: &Writer) -> Result<(), Broken> {
    let (client, durable, next) = (writer.client, writer.durable, writer.next);
    let last = last_of(outcome, ends, client);
    if last.saturating_add(1) != next {
        let what = "a writer's next LSN isn't behind its last (writer, last, next)";
        return Err(Broken::new(what, [client, last, next, 0]));
    }
    let (cut, _) = found_by(outcome, client);
    let is_end = |end: &End| end.client == client && end.last == durable;
    if durable != cut && !ends.iter().any(is_end) {
        let what = "a writer's durable point ends no transaction of it (writer, durable)";
        return Err(Broken::new(what, [client, durable, 0, 0]));
    }
    Ok(())
}

/// Checks that the cut of a recovery doesn't divide a transaction.
fn check_cut(ends: &[End], find: &Find) -> Result<(), Broken> {
    let (client, cut) = (find.client, find.cut);
    let is_end = |end: &End| end.client < client && end.last == cut;
    if cut != 0 && !ends.iter().any(is_end) {
        let what = "a recovery's cut ends no transaction of an earlier writer (recovery, cut)";
        return Err(Broken::new(what, [client, cut, 0, 0]));
    }
    Ok(())
}

/// Checks that a later recovery has a writer's commits, and reuses none of the writer's LSNs.
fn check_pair(writer: &Writer, find: &Find) -> Result<(), Broken> {
    if !is_kept(writer.durable, find.cut) {
        let what = "a later recovery lost commits (writer, durable, recovery, cut)";
        let numbers = [writer.client, writer.durable, find.client, find.cut];
        return Err(Broken::new(what, numbers));
    }
    if find.start < writer.next.saturating_sub(1) {
        let what = "a later recovery gives LSNs again (writer, next, recovery, start)";
        let numbers = [writer.client, writer.next, find.client, find.start];
        return Err(Broken::new(what, numbers));
    }
    Ok(())
}

/// Checks all recoveries against all earlier writers, and that each starts at its cut or above.
pub fn check_promises(outcome: &Outcome) -> Result<(), Broken> {
    for writer in outcome.writers.iter() {
        check_points(outcome, writer)?;
    }
    for find in outcome.finds.iter() {
        if !is_kept(find.cut, find.start) {
            let what = "a recovery starts below its cut (recovery, cut, start)";
            return Err(Broken::new(what, [find.client, find.cut, find.start, 0]));
        }
        for writer in outcome.writers.iter() {
            if writer.client < find.client {
                check_pair(writer, find)?;
            }
        }
    }
    Ok(())
}

/// Checks what a run prints for a script: the answer to each line, and the points of all clients.
pub fn check_run(alloc: Global, outcome: &Outcome, script: &Written) -> Result<Shown, Broken> {
    let issues = script.issues.as_slice();
    check_answers(outcome, script.lines)?;
    check_promises(outcome)?;
    let newest = issues.last().map_or(0, |issue| u64::from(issue.client));
    let ends = ends_of(alloc, outcome, issues)?;
    let mut shown = Shown {
        acknowledged: 0,
        recoveries: outcome.finds.len() as u64,
        continued: false,
    };
    for writer in outcome.writers.iter() {
        check_log(outcome, ends.as_slice(), writer)?;
        let is_kept = |end: &&End| end.client == writer.client && end.last <= writer.durable;
        let own = ends.iter().filter(is_kept).count() as u64;
        shown.acknowledged = shown.acknowledged.saturating_add(own);
        shown.continued = own > 0 && writer.client == newest;
    }
    for find in outcome.finds.iter() {
        check_cut(ends.as_slice(), find)?;
    }
    Ok(shown)
}
