//! The place of a certificate's fault: each check ends at the first one, to which the trail leads.

use crate::trail::Trail;
use quorum_expr::{Node, TapeNode, count_items};
use refutation::{MAX_DEPTH, MAX_LIST, MAX_NODES, has_keys, number_to};

/// What a rule has at a key.
#[derive(Clone, Copy)]
enum Part {
    Side,
    Item,
    Member,
    Children,
    Pairs,
    Branch,
    Branches,
}

/// The name of each rule, and its other keys in the order in which they are checked.
const RULES: &[(&str, &[(&str, Part)])] = &[
    ("dead", &[SIDE, ITEM]),
    ("clash", &[LEFT, RIGHT]),
    ("open", &[SIDE, ITEM, ("then", Part::Branch)]),
    ("pick", &[SIDE, ITEM, ("children", Part::Children), THEN]),
    ("match", &[LEFT, RIGHT, ("pairs", Part::Pairs), THEN]),
    (
        "split",
        &[
            ("member", Part::Member),
            ("left", Part::Branch),
            ("right", Part::Branch),
        ],
    ),
];

const SIDE: (&str, Part) = ("side", Part::Side);

const ITEM: (&str, Part) = ("item", Part::Item);

const LEFT: (&str, Part) = ("left", Part::Item);

const RIGHT: (&str, Part) = ("right", Part::Item);

const THEN: (&str, Part) = ("then", Part::Branches);

const NAMES: &str = "one of \"dead\", \"clash\", \"open\", \"pick\", \"match\", \"split\"";

/// Returns whether a value is a child's number.
fn is_child(value: &TapeNode<'_, '_>) -> bool {
    number_to(value, 255).is_ok()
}

/// Returns whether a value is a pair of children's numbers.
fn is_pair(value: &TapeNode<'_, '_>) -> bool {
    let Some(mut rest) = value.items() else {
        return false;
    };
    for _ in 0..2 {
        match TapeNode::next(&mut rest) {
            Some(child) if is_child(&child) => {}
            _ => return false,
        }
    }
    TapeNode::next(&mut rest).is_none()
}

/// Returns whether a value is a list of at most 255 children's numbers, or of pairs of them.
fn is_list(value: &TapeNode<'_, '_>, has_pairs: bool) -> bool {
    let Some(mut rest) = value.items() else {
        return false;
    };
    for _ in 0..=MAX_LIST {
        match TapeNode::next(&mut rest) {
            Some(entry) if has_pairs && is_pair(&entry) => {}
            Some(entry) if !has_pairs && is_child(&entry) => {}
            Some(_) => return false,
            None => return true,
        }
    }
    false
}

impl Part {
    /// Returns whether a value is as expected. Branches are checked behind their rule.
    fn accepts(self, value: &TapeNode<'_, '_>) -> bool {
        match self {
            Part::Side => value.is_text("left") || value.is_text("right"),
            Part::Item => number_to(value, 65_535).is_ok(),
            Part::Member => number_to(value, 63).is_ok(),
            Part::Children => is_list(value, false),
            Part::Pairs => is_list(value, true),
            Part::Branch => true,
            Part::Branches => value.items().is_some(),
        }
    }

    /// Returns the words for what is expected.
    fn expected(self) -> &'static str {
        match self {
            Part::Side => "\"left\" or \"right\"",
            Part::Item => "an item's number, from 0 to 65,535",
            Part::Member => "a member, from 0 to 63",
            Part::Children => "at most 255 children's numbers, from 0 to 255",
            Part::Pairs => "at most 255 pairs of children's numbers, from 0 to 255",
            Part::Branch => "a rule",
            Part::Branches => "an array of rules",
        }
    }
}

/// Checks a part of a rule, which has this value.
fn check_part(
    key: &'static str,
    part: Part,
    value: Option<TapeNode<'_, '_>>,
    trail: &mut Trail,
) -> Result<(), &'static str> {
    let Some(value) = value else {
        return match part {
            Part::Branch => Ok(()),
            Part::Children | Part::Pairs => trail.require(false, key, "a list of children"),
            _ => trail.require(false, key, part.expected()),
        };
    };
    trail.require(part.accepts(&value), key, part.expected())?;
    if let Part::Branches = part {
        let is_short = count_items(&value, MAX_LIST + 1) <= MAX_LIST;
        return trail.require(is_short, key, "at most 255 rules");
    }
    Ok(())
}

/// Checks a rule without its branches. Returns its parts.
fn check_level(
    node: &TapeNode<'_, '_>,
    trail: &mut Trail,
) -> Result<&'static [(&'static str, Part)], &'static str> {
    let Some(name) = node.get("rule") else {
        return Err("an object with the key \"rule\"");
    };
    for (word, parts) in RULES {
        if name.is_text(word) {
            if parts.len() > 4 || has_keys(node, parts.len() + 1).is_err() {
                return Err("the keys of its rule, and no others");
            }
            for (key, part) in *parts {
                check_part(key, *part, node.get(key), trail)?;
            }
            return Ok(parts);
        }
    }
    trail.enter("rule");
    Err(NAMES)
}

/// Checks the branches in the array at a key, or the one branch there.
#[cycle(rule)]
fn check_branches(
    node: &TapeNode<'_, '_>,
    key: &'static str,
    part: Part,
    left: u8,
    room: &mut u32,
    trail: &mut Trail,
) -> Result<(), &'static str> {
    trail.enter(key);
    let Some(branches) = node.get(key) else {
        return Err(part.expected());
    };
    if let Part::Branch = part {
        check_rule(&branches, left, room, trail)?;
    } else if let Some(mut rest) = branches.items() {
        for item in 0..MAX_LIST {
            let Some(branch) = TapeNode::next(&mut rest) else {
                break;
            };
            trail.enter_item(item);
            check_rule(&branch, left, room, trail)?;
            trail.leave();
        }
    }
    trail.leave();
    Ok(())
}

/// Checks a rule of at most `left` levels. Subtracts its rules from `room`, down to 0.
#[cycle(rule)]
fn check_rule(
    node: &TapeNode<'_, '_>,
    left: u8,
    room: &mut u32,
    trail: &mut Trail,
) -> Result<(), &'static str> {
    *room = room.saturating_sub(1);
    let parts = check_level(node, trail)?;
    if left == 0 {
        return Err("a certificate of at most 40 levels");
    }
    for (key, part) in parts {
        if matches!(part, Part::Branch | Part::Branches) {
            check_branches(node, key, *part, left - 1, room, trail)?;
        }
    }
    Ok(())
}

/// Checks a certificate.
pub(crate) fn check_certificate(
    node: &TapeNode<'_, '_>,
    trail: &mut Trail,
) -> Result<(), &'static str> {
    let mut room = MAX_NODES + 1;
    check_rule(node, MAX_DEPTH, &mut room, trail)?;
    match room {
        0 => Err("a certificate of at most 100,000 rules"),
        _ => Ok(()),
    }
}
