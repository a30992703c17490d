//! What is known of a script's run, as JSON.

use crate::run_state::{ClientFacts, RefusalFacts, RunFacts};
use crate::run_steps::{AdvanceFacts, LostGroup, StepsFacts};
use serde::Serialize;
use std::alloc::{AllocError, Global};
use world::NodeState;

/// A node at the end of a run.
#[derive(Clone, Copy, Serialize)]
struct NodeRow {
    group: u8,
    member: u8,
    volume_epoch: u32,
    membership_epoch: u32,
    is_whole: bool,
    complete_point: u64,
    records: usize,
}

/// What is known of a script's run.
#[derive(Drop, Serialize)]
struct RunReport<'a> {
    /// The exit status of `run`.
    status: u8,
    /// The line of `run` on a plan's fault or a bad line, else nothing.
    verdict: &'a str,
    /// What is wrong with the first bad line, in words.
    bad_line: Option<&'a str>,
    /// The lines whose events were refused.
    refused: Vec<RefusalFacts>,
    /// The nodes at the end.
    nodes: Vec<NodeRow>,
    /// The clients at the end.
    clients: Vec<ClientFacts>,
    /// The advances.
    advances: Vec<AdvanceFacts>,
    /// The groups that no later recovery can read.
    lost: Vec<LostGroup>,
}

/// Returns the row of a node.
fn node_row(node: &NodeState) -> NodeRow {
    NodeRow {
        group: node.group,
        member: node.member,
        volume_epoch: node.volume_epoch,
        membership_epoch: node.membership_epoch,
        is_whole: node.is_whole,
        complete_point: node.complete_point,
        records: node.records,
    }
}

/// Returns the rows of nodes.
fn node_rows(alloc: Global, nodes: &[NodeState]) -> Result<Vec<NodeRow>, AllocError> {
    let mut rows = Vec::with_capacity(alloc, nodes.len())?;
    for node in nodes {
        rows.push(node_row(node))?;
    }
    Ok(rows)
}

/// Writes a report as one line.
fn line_of(alloc: Global, report: &RunReport<'_>) -> Result<String, AllocError> {
    match serde_json::to_string(alloc, report) {
        Ok(mut line) => {
            line.push_str("\n")?;
            Ok(line)
        }
        Err(_) => Err(AllocError),
    }
}

/// Returns what is known of a run as one line of JSON, beside its status.
///
/// # Errors
/// Memory ran out.
pub fn run_report(
    alloc: Global,
    facts: RunFacts,
    membership: StepsFacts,
    status: u8,
) -> Result<String, AllocError> {
    let report = RunReport {
        status,
        verdict: "",
        bad_line: None,
        refused: facts.refused,
        nodes: node_rows(alloc, facts.nodes.as_slice())?,
        clients: facts.clients,
        advances: membership.advances,
        lost: membership.lost,
    };
    line_of(alloc, &report)
}

/// Returns as one line of JSON that a script wasn't run: the line of `run`, and what is wrong with the script's first
/// bad line, if it has one.
///
/// # Errors
/// Memory ran out.
pub fn refusal_report(
    alloc: Global,
    status: u8,
    verdict: &str,
    bad_line: Option<&str>,
) -> Result<String, AllocError> {
    let report = RunReport {
        status,
        verdict: verdict.trim_end(),
        bad_line,
        refused: Vec::new(alloc),
        nodes: Vec::new(alloc),
        clients: Vec::new(alloc),
        advances: Vec::new(alloc),
        lost: Vec::new(alloc),
    };
    line_of(alloc, &report)
}
