//! Claims, steps and quorums in sentences.

use crate::sheet::{Sheet, Style, clipped};
use explain::{
    BlockFacts, ClaimFacts, ClaimState, ConfigurationFacts, QuorumFacts, StepFacts, WitnessFacts,
    add_kind,
};
use plan::claim_name;
use std::alloc::AllocError;

/// Adds how many members an expression can lose, and a smallest set that it can't lose.
fn add_smallest(sheet: &mut Sheet, quorum: &QuorumFacts) -> Result<(), AllocError> {
    let (Some(survives), Some(smallest)) = (quorum.survives, quorum.stopped_by) else {
        sheet
            .text
            .push_str("how many losses it survives is unknown")?;
        return sheet.end(Style::Detail);
    };
    match survives {
        0 => sheet.text.push_str("survives no loss")?,
        1 => sheet.text.push_str("survives any one loss")?,
        most => write!(sheet.text, "survives any {most} losses")?,
    }
    write!(sheet.text, "; that of {{{smallest}}} stops it")?;
    sheet.end(Style::Detail)
}

/// Adds the lists among an expression's children, such as zones, whose loss it survives, or those whose loss stops it.
fn add_blocks(sheet: &mut Sheet, blocks: &[BlockFacts], survived: bool) -> Result<(), AllocError> {
    let mut is_first = true;
    for block in blocks {
        if block.survived == survived && sheet.has_room() {
            sheet.text.push_str(match (is_first, survived) {
                (true, true) => "survives losing all of ",
                (true, false) => "stopped by losing all of ",
                _ => "; all of ",
            })?;
            is_first = false;
            write!(sheet.text, "{}", block.members)?;
        }
    }
    sheet.end(Style::Detail)
}

/// Adds what an expression asks for and survives, and which members alone stop it, if there are several.
fn add_quorum(sheet: &mut Sheet, word: &str, quorum: &QuorumFacts) -> Result<(), AllocError> {
    let expression = clipped(quorum.expression.as_str());
    write!(sheet.text, "{word} {expression}")?;
    sheet.end(Style::Plain)?;
    add_smallest(sheet, quorum)?;
    if quorum.single.0.len() >= 2 {
        write!(
            sheet.text,
            "the loss of any one of {{{}}} stops it",
            quorum.single
        )?;
        sheet.end(Style::Detail)?;
    }
    add_blocks(sheet, quorum.blocks.as_slice(), true)?;
    add_blocks(sheet, quorum.blocks.as_slice(), false)
}

/// Adds the two sets that show that a claim fails.
fn add_witness(sheet: &mut Sheet, is_step: bool, witness: &WitnessFacts) -> Result<(), AllocError> {
    let WitnessFacts { read, other } = *witness;
    if is_step {
        write!(
            sheet.text,
            "✗ step fails: read {{{read}}} contains no read set of the parent, each of which has one of {{{other}}}"
        )?;
    } else {
        write!(
            sheet.text,
            "✗ meets fails: read {{{read}}} and write {{{other}}} are disjoint"
        )?;
    }
    sheet.end(Style::Bad)
}

/// Adds whether a claim is certified, and what is known of it if it isn't.
fn add_claim(sheet: &mut Sheet, is_step: bool, claim: &ClaimFacts) -> Result<(), AllocError> {
    if let Some(witness) = &claim.witness {
        return add_witness(sheet, is_step, witness);
    }
    let (mark, words, style) = match claim.state {
        ClaimState::Certified => ("✓", "certified", Style::Good),
        ClaimState::Holds => ("✗", "not certified: it holds, try `search`", Style::Bad),
        ClaimState::Fails => ("✗", "fails", Style::Bad),
        ClaimState::Unknown => ("✗", "not certified: unknown whether it holds", Style::Bad),
    };
    let name = claim_name(is_step);
    write!(sheet.text, "{mark} {name} {words}")?;
    sheet.end(style)
}

/// Returns whether a claim is certified.
pub(crate) fn is_certified(claim: &ClaimFacts) -> bool {
    claim.state == ClaimState::Certified
}

/// Adds a step: which members it adds and drops, whether it is certified, and whether it must never be taken.
fn add_step(sheet: &mut Sheet, step: &StepFacts) -> Result<(), AllocError> {
    let parent = step.parent.unwrap_or(0);
    write!(sheet.text, "step from configuration {parent}")?;
    add_kind(&mut sheet.text, ", adds ", step.adds)?;
    add_kind(&mut sheet.text, ", drops ", step.drops)?;
    sheet.end(Style::Plain)?;
    add_claim(sheet, true, &step.claim)?;
    if step.kept_can_read {
        return Ok(());
    }
    sheet.text.push_str(
        "✗ never take this step: the members kept from the parent don't satisfy the read expression",
    )?;
    sheet.end(Style::Bad)
}

/// Adds the sentences about a configuration.
pub(crate) fn add_configuration(
    sheet: &mut Sheet,
    this: &ConfigurationFacts,
) -> Result<(), AllocError> {
    add_quorum(sheet, "read", &this.read)?;
    add_quorum(sheet, "write", &this.write)?;
    add_claim(sheet, false, &this.meets)?;
    match &this.step {
        Some(step) => add_step(sheet, step),
        None => Ok(()),
    }
}
