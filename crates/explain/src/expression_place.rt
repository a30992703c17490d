//! The place of an expression's fault: each check ends at the first one, to which the trail leads.

use crate::trail::Trail;
use quorum_expr::{Lists, MemberSet, Node, TapeItems, TapeNode, count_items};

/// The most levels of an expression.
const LEVELS: u8 = 6;

/// One more than the most members and thresholds of an expression.
const NODES: u32 = 4_097;

const SHAPE: &str = "a member's number, or an object with the keys \"k\" and \"of\"";

const WEIGHTED_SHAPE: &str =
    "a member's number, or an object with the keys \"k\", \"of\" and, if need be, \"weights\"";

const CHILDREN: &str = "a list of expressions or one of \"all\", \"full\", \"tail\"";

const WEIGHTS: &str = "an array with a weight from 1 to 255 for each child";

const TOO_DEEP: &str = "an expression of at most six levels";

const THRESHOLD: &str =
    "a threshold from 1 to the number of children, or to the sum of their weights";

/// Returns the members that a list's name stands for.
fn named(node: &TapeNode<'_, '_>, lists: &Lists) -> Option<MemberSet> {
    if node.is_text("all") {
        Some(lists.members)
    } else if node.is_text("full") {
        Some(lists.full)
    } else if node.is_text("tail") {
        Some(lists.members.difference(lists.full))
    } else {
        None
    }
}

/// Returns the number of children, up to 65, if these are children.
fn child_count(of: &TapeNode<'_, '_>, lists: &Lists) -> Option<usize> {
    match named(of, lists) {
        Some(members) => Some(usize::from(members.len())),
        None if of.items().is_some() => Some(count_items(of, 65)),
        None => None,
    }
}

/// Returns the sum of `count` weights, `None` if one isn't a whole number from 1 to 255 or they aren't so many.
fn sum_of(weights: &TapeNode<'_, '_>, count: usize) -> Option<u64> {
    let mut rest = weights.items()?;
    let mut sum = 0u64;
    for _ in 0..count {
        let weight = TapeNode::next(&mut rest)?.as_u64()?;
        if weight < 1 || weight > 255 {
            return None;
        }
        sum = sum.saturating_add(weight);
    }
    match TapeNode::next(&mut rest) {
        Some(_) => None,
        None => Some(sum),
    }
}

/// Returns the threshold of an object and its children.
fn parts_of<'t, 'a>(
    node: &TapeNode<'t, 'a>,
    lists: &Lists,
) -> Result<(TapeNode<'t, 'a>, TapeNode<'t, 'a>), &'static str> {
    let is_keyed = match node.keys(4) {
        Some(2) => true,
        Some(3) => lists.is_weighted && node.get("weights").is_some(),
        _ => false,
    };
    match (node.get("k"), node.get("of")) {
        (Some(k), Some(of)) if is_keyed => Ok((k, of)),
        _ if lists.is_weighted => Err(WEIGHTED_SHAPE),
        _ => Err(SHAPE),
    }
}

/// Checks a threshold of at most `left` levels without its children. Returns them, and how many they are.
fn check_threshold<'t, 'a>(
    node: &TapeNode<'t, 'a>,
    lists: &Lists,
    left: u8,
    trail: &mut Trail,
) -> Result<(TapeNode<'t, 'a>, usize), &'static str> {
    let (k, of) = parts_of(node, lists)?;
    let Some(k) = k.as_u64() else {
        return Err(trail.expect_at("k", "a whole number"));
    };
    let Some(count) = child_count(&of, lists) else {
        return Err(trail.expect_at("of", CHILDREN));
    };
    trail.require(count <= 64, "of", "at most 64 children")?;
    let sum = match node.get("weights") {
        None => Some(count as u64),
        Some(weights) => sum_of(&weights, count),
    };
    let Some(sum) = sum else {
        return Err(trail.expect_at("weights", WEIGHTS));
    };
    if left == 0 {
        return Err(TOO_DEEP);
    }
    trail.require(1 <= k && k <= sum, "k", THRESHOLD)?;
    Ok((of, count))
}

/// Checks an expression of at most `left` levels. Subtracts its nodes from `room`, down to 0.
#[cycle(tree)]
fn check_tree(
    node: &TapeNode<'_, '_>,
    lists: &Lists,
    left: u8,
    room: &mut u32,
    trail: &mut Trail,
) -> Result<(), &'static str> {
    *room = room.saturating_sub(1);
    if node.is_number() {
        return match node.as_u64() {
            _ if left == 0 => Err(TOO_DEEP),
            Some(number) if number < 64 && lists.members.contains(number as u8) => Ok(()),
            _ => Err("the number of a member of the configuration"),
        };
    }
    let (of, count) = check_threshold(node, lists, left, trail)?;
    if left == 0 {
        return Err(TOO_DEEP);
    }
    trail.enter("of");
    if let Some(mut rest) = of.items() {
        check_children(&mut rest, lists, left - 1, room, trail)?;
    } else {
        *room = room.saturating_sub(u32::try_from(count).unwrap_or(u32::MAX));
        if left == 1 {
            return Err(TOO_DEEP);
        }
    }
    trail.leave();
    Ok(())
}

/// Checks a threshold's children, of at most `left` levels each.
#[cycle(tree)]
fn check_children(
    rest: &mut TapeItems<'_, '_>,
    lists: &Lists,
    left: u8,
    room: &mut u32,
    trail: &mut Trail,
) -> Result<(), &'static str> {
    for item in 0..64usize {
        let Some(child) = TapeNode::next(rest) else {
            break;
        };
        trail.enter_item(item);
        check_tree(&child, lists, left, room, trail)?;
        trail.leave();
    }
    Ok(())
}

/// Checks an expression over the members of these lists.
pub(crate) fn check_expression(
    node: &TapeNode<'_, '_>,
    lists: &Lists,
    trail: &mut Trail,
) -> Result<(), &'static str> {
    let mut room = NODES;
    check_tree(node, lists, LEVELS, &mut room, trail)?;
    match room {
        0 => Err("at most 4,096 members and thresholds"),
        _ => Ok(()),
    }
}
