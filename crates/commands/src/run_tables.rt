//! A script's run in words.

use crate::run_state::{ClientFacts, ClientStage, RefusalFacts, RunFacts};
use crate::run_steps::{AdvanceFacts, StepsFacts};
use explain::{FAULTS, Page, add_meaning, fault_words};
use std::alloc::{AllocError, Global};
use volume_model::Fault;
use world::NodeState;

/// How many refused lines are printed in full.
const SHOWN: usize = 100;

/// The heading of the table of nodes.
const NODES: &str = "nodes\n  group  member  volume epoch  membership epoch  whole  \
    complete point  records\n";

/// The heading of the table of clients.
const CLIENTS: &str = "clients\n  volume epoch  state         durable point         next LSN\
    \u{20}             cut            start\n";

/// The heading of the table of advances.
const ADVANCES: &str = "advances\n    line  group  configuration  waited\n";

/// Appends a refused line, and what the refusal means.
fn add_refusal(alloc: Global, page: &mut Page, refusal: &RefusalFacts) -> Result<(), AllocError> {
    let (line, fault) = (refusal.line, refusal.fault);
    let text = format!(in alloc; "line {line} refused {fault}")?;
    page.add(0, text.as_str())?;
    match fault_words(refusal.number) {
        Some(entry) => add_meaning(alloc, page, entry),
        None => Ok(()),
    }
}

/// Returns how many of these refusals are for this reason.
fn count_of(refused: &[RefusalFacts], fault: Fault) -> usize {
    refused
        .iter()
        .filter(|refusal| refusal.fault == fault)
        .count()
}

/// Appends how many lines were refused for each reason.
fn add_counts(alloc: Global, page: &mut Page, refused: &[RefusalFacts]) -> Result<(), AllocError> {
    for entry in FAULTS {
        let fault = entry.fault;
        let count = count_of(refused, fault);
        if count > 0 {
            let text = format!(in alloc; "{count} more refused {fault}")?;
            page.add(0, text.as_str())?;
        }
    }
    Ok(())
}

/// Appends a node's row.
fn add_node(text: &mut String, node: &NodeState) -> Result<(), AllocError> {
    let (group, member) = (node.group, node.member);
    let (volume, epoch) = (node.volume_epoch, node.membership_epoch);
    write!(text, "  {group:>5}  {member:>6}  {volume:>12}  {epoch:>16}")?;
    text.push_str(if node.is_whole { "    yes" } else { "     no" })?;
    let (point, records) = (node.complete_point, node.records);
    write!(text, "  {point:>14}  {records:>7}\n")
}

/// Appends a number, or a dash where there is none.
fn add_number(text: &mut String, number: Option<u64>) -> Result<(), AllocError> {
    match number {
        Some(number) => write!(text, "  {number:>15}"),
        None => text.push_str("                -"),
    }
}

/// Appends a client's row.
fn add_client(text: &mut String, client: &ClientFacts) -> Result<(), AllocError> {
    let volume = client.volume_epoch;
    write!(text, "  {volume:>12}")?;
    text.push_str(match client.stage {
        ClientStage::Recovering => "  recovering",
        ClientStage::Cut => "  cut       ",
        ClientStage::Writer => "  writer    ",
    })?;
    add_number(text, client.durable_point)?;
    add_number(text, client.next_lsn)?;
    add_number(text, client.cut)?;
    add_number(text, client.start)?;
    text.push_str("\n")
}

/// Appends an advance's row.
fn add_advance(text: &mut String, advance: &AdvanceFacts) -> Result<(), AllocError> {
    let AdvanceFacts {
        line,
        group,
        configuration,
        waited,
    } = *advance;
    write!(text, "  {line:>6}  {group:>5}  {configuration:>13}")?;
    text.push_str(if waited { "     yes\n" } else { "      no\n" })
}

/// Appends the advances and what they have led to, if there are any.
fn add_steps(text: &mut String, membership: &StepsFacts) -> Result<(), AllocError> {
    if membership.advances.is_empty() {
        return Ok(());
    }
    text.push_str(ADVANCES)?;
    for advance in &membership.advances {
        add_advance(text, advance)?;
    }
    if membership.lost.is_empty() {
        return text.push_str("a later recovery can read each group\n");
    }
    for lost in &membership.lost {
        let (group, line) = (lost.group, lost.line);
        write!(
            text,
            "since line {line} no later recovery can read group {group}\n"
        )?;
    }
    Ok(())
}

/// Returns a run in words: its refused lines, of the first 100 also why, how many more were refused for each reason,
/// a table of its nodes and of its clients, and its advances.
///
/// # Errors
/// Memory ran out.
pub fn run_words(
    alloc: Global,
    facts: &RunFacts,
    membership: &StepsFacts,
) -> Result<String, AllocError> {
    let mut page = Page::new(alloc);
    let refused = facts.refused.as_slice();
    let (shown, others) = refused.split_at(refused.len().min(SHOWN));
    for refusal in shown {
        add_refusal(alloc, &mut page, refusal)?;
    }
    add_counts(alloc, &mut page, others)?;
    let mut text = page.into_text();
    text.push_str(NODES)?;
    for node in &facts.nodes {
        add_node(&mut text, node)?;
    }
    text.push_str(CLIENTS)?;
    for client in &facts.clients {
        add_client(&mut text, client)?;
    }
    add_steps(&mut text, membership)?;
    Ok(text)
}
