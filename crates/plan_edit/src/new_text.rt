//! Writes a new plan. What is read from the text is compared with what was asked for.

use crate::new_checking::weight_of;
use crate::new_refusal::NewRefusal;
use crate::picking::{Counts, apart_after_losses, check_zones, counts_for, largest, part_of};
use crate::plan_words::{PlanWords, Quorums};
use crate::text::add_members;
use quorum_expr::{MEMBERS, MemberSet};
use std::alloc::{AllocError, Global};

/// Returns whether a member has another weight than 1.
fn is_weighted(members: MemberSet, weights: &[u8]) -> bool {
    (0..MEMBERS).any(|member| members.contains(member) && weight_of(weights, member) != 1)
}

/// Appends the weights of members as an array, if one isn't 1.
fn add_weights(text: &mut String, members: MemberSet, weights: &[u8]) -> Result<(), AllocError> {
    if !is_weighted(members, weights) {
        return Ok(());
    }
    let mut comma = "";
    text.push_str(",\"weights\":[")?;
    for member in 0..MEMBERS {
        if members.contains(member) {
            let weight = weight_of(weights, member);
            write!(text, "{comma}{weight}")?;
            comma = ",";
        }
    }
    text.push_str("]")
}

/// Appends a threshold over all members.
fn add_count(
    text: &mut String,
    k: u16,
    members: MemberSet,
    weights: &[u8],
) -> Result<(), AllocError> {
    write!(text, "{{\"k\":{k},\"of\":\"all\"")?;
    add_weights(text, members, weights)?;
    text.push_str("}")
}

/// Appends a threshold over the parts of zones.
fn add_zones(
    text: &mut String,
    k: usize,
    zones: &[MemberSet],
    is_one_more: bool,
    is_write: bool,
) -> Result<(), AllocError> {
    let mut comma = "";
    write!(text, "{{\"k\":{k},\"of\":[")?;
    for zone in zones {
        let counts = part_of(zone.len(), zones.len(), is_one_more);
        let part = if is_write { counts.write } else { counts.read };
        write!(text, "{comma}{{\"k\":{part},\"of\":")?;
        add_members(text, *zone)?;
        text.push_str("}")?;
        comma = ",";
    }
    text.push_str("]}")
}

/// Appends thresholds over all members as the expressions of a configuration.
fn add_counts(
    text: &mut String,
    counts: Counts,
    members: MemberSet,
    weights: &[u8],
) -> Result<(), AllocError> {
    text.push_str("\"read\":")?;
    add_count(text, counts.read, members, weights)?;
    text.push_str(",\"write\":")?;
    add_count(text, counts.write, members, weights)
}

/// Appends Aurora's full and tail form.
fn add_full_and_tail(text: &mut String, counts: Counts, full: u8) -> Result<(), AllocError> {
    let (read, write) = (counts.read, counts.write);
    write!(
        text,
        "\"read\":{{\"k\":2,\"of\":[{{\"k\":{read},\"of\":\"all\"}},{{\"k\":1,\"of\":\"full\"}}]}},"
    )?;
    write!(
        text,
        "\"write\":{{\"k\":1,\"of\":[{{\"k\":{write},\"of\":\"all\"}},{{\"k\":{full},\"of\":\"full\"}}]}}"
    )
}

/// Appends thresholds that survive the loss of zones.
fn add_zone_quorums(
    text: &mut String,
    members: MemberSet,
    zones: &[MemberSet],
    is_one_more: bool,
) -> Result<(), NewRefusal> {
    check_zones(members, zones, is_one_more)?;
    if let Some(counts) = counts_for(members.len(), largest(zones), u8::from(is_one_more)) {
        add_counts(text, counts, members, &[])?;
        return Ok(());
    }
    text.push_str("\"read\":")?;
    add_zones(text, 2, zones, is_one_more, false)?;
    text.push_str(",\"write\":")?;
    let all_but_one = zones.len().saturating_sub(1);
    add_zones(text, all_but_one, zones, is_one_more, true)?;
    Ok(())
}

/// Appends the expressions of a configuration.
fn add_quorums(text: &mut String, words: &PlanWords<'_>) -> Result<(), NewRefusal> {
    let members = words.members;
    match words.quorums {
        Quorums::Counted {
            read,
            write,
            weights,
        } => add_counts(text, Counts { read, write }, members, weights)?,
        Quorums::FullAndTail { read, write } => {
            let full = members.difference(words.tail).len();
            add_full_and_tail(text, Counts { read, write }, full)?;
        }
        Quorums::Surviving(lost) => match counts_for(members.len(), lost, 0) {
            Some(counts) => add_counts(text, counts, members, &[])?,
            None => return Err(apart_after_losses(members, lost)),
        },
        Quorums::Zones { zones, is_one_more } => {
            add_zone_quorums(text, members, zones, is_one_more)?;
        }
    }
    Ok(())
}

/// Appends a group with its configuration.
fn add_group(text: &mut String, words: &PlanWords<'_>) -> Result<(), NewRefusal> {
    text.push_str("{\"configurations\":[{\"parent\":null,\"members\":")?;
    add_members(text, words.members)?;
    text.push_str(",\"full\":")?;
    add_members(text, words.members.difference(words.tail))?;
    text.push_str(",")?;
    add_quorums(text, words)?;
    text.push_str(",\"meets\":null,\"step\":null}]}")?;
    Ok(())
}

/// Appends the format, the LAL, and the number of groups at birth if some join later.
fn add_header(text: &mut String, words: &PlanWords<'_>) -> Result<(), AllocError> {
    let (lal, born) = (words.lal, words.born);
    if born != words.groups {
        return write!(
            text,
            "{{\"format\":3,\"lal\":{lal},\"born\":{born},\"groups\":["
        );
    }
    let format = match words.quorums {
        Quorums::Counted { weights, .. } if is_weighted(words.members, weights) => 2u8,
        _ => 1,
    };
    write!(text, "{{\"format\":{format},\"lal\":{lal},\"groups\":[")
}

/// Returns the text of a new plan without certificates.
///
/// # Errors
/// `Apart` if read sets and write sets that survive what is asked can't always meet; `NoMemory`.
pub fn plan_text(alloc: Global, words: &PlanWords<'_>) -> Result<String, NewRefusal> {
    let mut text = String::new(alloc);
    add_header(&mut text, words)?;
    for group in 0..words.groups {
        text.push_str(if group == 0 { "" } else { "," })?;
        add_group(&mut text, words)?;
    }
    text.push_str("]}")?;
    Ok(text)
}
