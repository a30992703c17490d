//! Describes a plan in words.

use crate::configurations::plan_facts;
use crate::facts::{
    ClaimFacts, ClaimState, ConfigurationFacts, QuorumFacts, StepFacts, WitnessFacts,
};
use crate::page::Page;
use crate::wording::{Each, add_kind};
use plan::{Plan, PlanFault, claim_name};
use std::alloc::{AllocError, Global};

/// Appends the headings of a configuration, and of its group before the first one, and the members: those that keep
/// whole pages, and those that keep only the log.
fn add_membership(page: &mut Page, this: &ConfigurationFacts) -> Result<(), AllocError> {
    let (number, members) = (this.configuration, this.members);
    if number == 0 {
        let text = format!(in page.alloc; "group {}", this.group)?;
        page.add(0, text.as_str())?;
    }
    let text = format!(in page.alloc; "configuration {number}")?;
    page.add(2, text.as_str())?;
    let mut text = format!(in page.alloc; "members {members}")?;
    add_kind(&mut text, ", full ", this.full)?;
    add_kind(&mut text, ", tail ", this.tail)?;
    page.add(4, text.as_str())
}

/// Appends how many members an expression can lose.
fn add_smallest(text: &mut String, quorum: &QuorumFacts) -> Result<(), AllocError> {
    let (Some(survives), Some(smallest)) = (quorum.survives, quorum.stopped_by) else {
        return text.push_str("how many losses it survives is unknown");
    };
    match survives {
        0 => text.push_str("survives no loss")?,
        1 => text.push_str("survives the loss of any 1 member")?,
        most => write!(text, "survives the loss of any {most} members")?,
    }
    let smallest = Each(smallest);
    write!(text, "; the loss of {smallest} stops it")
}

/// Appends what an expression asks for and survives: also which members alone stop it, if there are several, and
/// whether it survives the loss of all members of each of its child lists.
fn add_quorum(page: &mut Page, word: &str, quorum: &QuorumFacts) -> Result<(), AllocError> {
    let text = format!(in page.alloc; "{word} {}", quorum.expression)?;
    page.add(4, text.as_str())?;
    let mut text = String::new(page.alloc);
    add_smallest(&mut text, quorum)?;
    page.add(6, text.as_str())?;
    if quorum.single.0.len() >= 2 {
        let single = Each(quorum.single);
        let text = format!(in page.alloc; "the loss of any one of {single} stops it")?;
        page.add(6, text.as_str())?;
    }
    for block in &quorum.blocks {
        let does = if block.survived {
            "survives"
        } else {
            "doesn't survive"
        };
        let members = Each(block.members);
        let text = format!(in page.alloc; "{does} the loss of the whole block {members}")?;
        page.add(6, text.as_str())?;
    }
    Ok(())
}

/// Appends the two sets that show that a claim fails, and what to do.
fn add_witness(page: &mut Page, is_step: bool, witness: &WitnessFacts) -> Result<(), AllocError> {
    let (read, other) = (Each(witness.read), Each(witness.other));
    if is_step {
        let text = format!(in page.alloc;
            "step fails: read {read} contains no read set of the parent, each of which has one of {other}"
        )?;
        page.add(6, text.as_str())?;
        return page.add(8, STEP_ADVICE);
    }
    let text = format!(in page.alloc; "meets fails: read {read} and write {other} are disjoint")?;
    page.add(4, text.as_str())?;
    page.add(6, "do: ask for more members in `write` or in `read`")
}

/// Appends what is known of a claim.
fn add_claim(page: &mut Page, is_step: bool, claim: &ClaimFacts) -> Result<(), AllocError> {
    if let Some(witness) = &claim.witness {
        return add_witness(page, is_step, witness);
    }
    let words = match claim.state {
        ClaimState::Certified => "certified",
        ClaimState::Holds => "holds, but no certificate shows it: let `search` find one",
        ClaimState::Fails => "fails",
        ClaimState::Unknown => "not certified: whether it holds is unknown",
    };
    let text = format!(in page.alloc; "{} {words}", claim_name(is_step))?;
    page.add(if is_step { 6 } else { 4 }, text.as_str())
}

/// Appends the step from a parent: which members it adds, all of them fresh, which it drops, what is known of its
/// claim, and whether it can't be taken safely.
fn add_step(page: &mut Page, step: &StepFacts) -> Result<(), AllocError> {
    let mut text = String::from_str(page.alloc, "step")?;
    if let Some(number) = step.parent {
        write!(text, " from configuration {number}")?;
    }
    add_kind(&mut text, ", adds ", step.adds)?;
    add_kind(&mut text, ", drops ", step.drops)?;
    page.add(4, text.as_str())?;
    add_claim(page, true, &step.claim)?;
    if step.kept_can_read {
        return Ok(());
    }
    page.add(6, WARNING)?;
    page.add(
        8,
        "do: keep more members of the parent, and replace the others in later steps",
    )
}

const STEP_ADVICE: &str =
    "do: step to a joint configuration first, whose writes satisfy the old and the new expression";

const WARNING: &str =
    "warning: never take this step: the members kept from the parent don't satisfy `read`. Once its nodes have taken \
    it, no recovery can read the group and no fresh member can hydrate";

/// Appends what is known of a configuration.
fn add_configuration(page: &mut Page, this: &ConfigurationFacts) -> Result<(), AllocError> {
    add_membership(page, this)?;
    add_quorum(page, "read", &this.read)?;
    add_quorum(page, "write", &this.write)?;
    add_claim(page, false, &this.meets)?;
    match &this.step {
        Some(step) => add_step(page, step),
        None => Ok(()),
    }
}

/// Returns a plan in words: of each group and configuration its members, what its expressions ask for and survive, its
/// step, and whether each claim is certified, or by which two sets it fails.
///
/// # Errors
/// The plan's first fault of parents or fresh members, or [`NoMemory`](volume_model::Fault::NoMemory).
pub fn explain(alloc: Global, plan: &Plan) -> Result<String, PlanFault> {
    let configurations = plan_facts(alloc, plan)?;
    let mut page = Page::new(alloc);
    for configuration in &configurations {
        add_configuration(&mut page, configuration)?;
    }
    Ok(page.into_text())
}
