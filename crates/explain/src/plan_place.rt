//! The place of a plan's fault: each check ends at the first one, to which the trail leads.

use crate::certificate_place::check_certificate;
use crate::expression_place::check_expression;
use crate::trail::Trail;
use plan::{Fields, fields_at};
use quorum_expr::{Lists, MemberSet, Node, TapeItems, TapeNode, count_items};
use refutation::has_keys;

const PLAN: &str = "an object with the keys \"format\", \"groups\" and \"lal\", and no others";

const GROWING_PLAN: &str =
    "an object with the keys \"born\", \"format\", \"groups\" and \"lal\", and no others";

const GROUP: &str = "an object with the one key \"configurations\"";

const CONFIGURATION: &str =
    "an object with the keys \"full\", \"meets\", \"members\", \"parent\", \"read\", \"step\" and \
    \"write\", and no others";

/// Returns whether a node is a whole number from 1 to a limit.
fn is_from_one(node: &TapeNode<'_, '_>, most: u64) -> bool {
    matches!(node.as_u64(), Some(number) if 1 <= number && number <= most)
}

/// Returns the items of an array of 1 to `most` items, and how many they are.
fn items_of<'t, 'a>(array: &TapeNode<'t, 'a>, most: usize) -> Option<(TapeItems<'t, 'a>, usize)> {
    let count = count_items(array, most.saturating_add(1));
    match array.items() {
        Some(items) if 1 <= count && count <= most => Some((items, count)),
        _ => None,
    }
}

/// Reads members in growing order at a key.
fn members_of(
    key: &'static str,
    node: &TapeNode<'_, '_>,
    trail: &mut Trail,
) -> Result<MemberSet, &'static str> {
    trail.enter(key);
    let Some(mut rest) = node.items() else {
        return Err("an array of members");
    };
    let mut set = MemberSet::empty();
    let mut least = 0u64;
    for item in 0..=64usize {
        let Some(member) = TapeNode::next(&mut rest) else {
            break;
        };
        match member.as_u64() {
            Some(number) if least <= number && number < 64 => {
                set = set.with(number as u8);
                least = number + 1;
            }
            _ => {
                trail.enter_item(item);
                return Err("a whole number from 0 to 63, greater than the one before it");
            }
        }
    }
    trail.leave();
    Ok(set)
}

/// Reads the members of a configuration and the full ones.
fn lists_of(
    of: &Fields<TapeNode<'_, '_>>,
    is_weighted: bool,
    trail: &mut Trail,
) -> Result<Lists, &'static str> {
    let has_some = count_items(&of.members, 1) > 0;
    trail.require(has_some, "members", "an array of one or more members")?;
    let members = match members_of("members", &of.members, trail) {
        Ok(members) => members,
        Err(expected) => return Err(expected),
    };
    let full = match members_of("full", &of.full, trail) {
        Ok(full) => full,
        Err(expected) => return Err(expected),
    };
    let is_within = full.is_subset(members);
    trail.require(is_within, "full", "members of the configuration alone")?;
    Ok(Lists {
        members,
        full,
        is_weighted,
    })
}

/// Checks the certificate at a key, or null.
fn check_claim(
    key: &'static str,
    certificate: &TapeNode<'_, '_>,
    trail: &mut Trail,
) -> Result<(), &'static str> {
    if certificate.is_null() {
        return Ok(());
    }
    trail.enter(key);
    check_certificate(certificate, trail)?;
    trail.leave();
    Ok(())
}

/// Checks a configuration.
fn check_configuration(
    node: &TapeNode<'_, '_>,
    number: usize,
    is_weighted: bool,
    trail: &mut Trail,
) -> Result<(), &'static str> {
    let Ok(of) = fields_at(node) else {
        return Err(CONFIGURATION);
    };
    let is_parent = of.parent.is_null() || of.parent.as_u64().is_some();
    trail.require(
        is_parent,
        "parent",
        "null, or the number of an earlier configuration",
    )?;
    let lists = match lists_of(&of, is_weighted, trail) {
        Ok(lists) => lists,
        Err(expected) => return Err(expected),
    };
    for (key, expression) in [("read", &of.read), ("write", &of.write)] {
        trail.enter(key);
        check_expression(expression, &lists, trail)?;
        trail.leave();
    }
    check_claim("meets", &of.meets, trail)?;
    let may_step = number > 0 || of.step.is_null();
    trail.require(
        may_step,
        "step",
        "null, since configuration 0 has no parent",
    )?;
    check_claim("step", &of.step, trail)
}

/// Checks a group.
fn check_group(
    node: &TapeNode<'_, '_>,
    is_weighted: bool,
    trail: &mut Trail,
) -> Result<(), &'static str> {
    let list = match node.get("configurations") {
        Some(list) if has_keys(node, 1).is_ok() => list,
        _ => return Err(GROUP),
    };
    trail.enter("configurations");
    let Some((mut rest, count)) = items_of(&list, 64) else {
        return Err("an array of 1 to 64 configurations");
    };
    for number in 0..count {
        let Some(configuration) = TapeNode::next(&mut rest) else {
            break;
        };
        trail.enter_item(number);
        check_configuration(&configuration, number, is_weighted, trail)?;
        trail.leave();
    }
    trail.leave();
    Ok(())
}

/// Checks a plan in the order in which it is read.
pub(crate) fn check_plan(node: &TapeNode<'_, '_>, trail: &mut Trail) -> Result<(), &'static str> {
    let Some(format) = node.get("format") else {
        return Err(PLAN);
    };
    let (keys, shape, is_weighted) = match format.as_u64() {
        Some(1) => (3usize, PLAN, false),
        Some(2) => (3, PLAN, true),
        Some(3) => (4, GROWING_PLAN, true),
        _ => return Err(trail.expect_at("format", "1, 2 or 3")),
    };
    let (Some(lal), Some(groups)) = (node.get("lal"), node.get("groups")) else {
        return Err(shape);
    };
    let born = node.get("born");
    if has_keys(node, keys).is_err() || (keys == 4 && born.is_none()) {
        return Err(shape);
    }
    let is_lal = is_from_one(&lal, 10_000_000);
    trail.require(is_lal, "lal", "a whole number from 1 to 10,000,000")?;
    let Some((mut rest, count)) = items_of(&groups, 16) else {
        return Err(trail.expect_at("groups", "an array of 1 to 16 groups"));
    };
    if let Some(born) = born {
        let is_born = is_from_one(&born, count as u64);
        trail.require(
            is_born,
            "born",
            "a whole number from 1 to the number of groups",
        )?;
    }
    trail.enter("groups");
    for number in 0..count {
        let Some(group) = TapeNode::next(&mut rest) else {
            break;
        };
        trail.enter_item(number);
        check_group(&group, is_weighted, trail)?;
        trail.leave();
    }
    trail.leave();
    Ok(())
}
