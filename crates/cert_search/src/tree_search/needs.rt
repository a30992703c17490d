//! What a choice inherits from its children: whether it can be satisfied, and which members it requires.

use crate::tree_search::parts::{Choice, Form, Part};

/// Returns whether the children are members of weight 1, and those that aren't absent are distinct.
fn are_flat(children: &[Part]) -> bool {
    let mut members = 0u64;
    for child in children {
        match child.form {
            Form::Member(_) => {}
            Form::KOf(_) => return false,
        }
        if child.weight != 1 || members & child.members != 0 {
            return false;
        }
        members |= child.members;
    }
    true
}

/// Returns the weight of the children that can be satisfied, but not without these members.
fn weight_of(children: &[Part], members: u64) -> usize {
    let mut weight = 0usize;
    for child in children {
        if child.is_live && child.needs & members != 0 {
            weight = weight.saturating_add(usize::from(child.weight));
        }
    }
    weight
}

/// Returns the members that are each required by children of weight `needed` or more that can be satisfied.
fn needed_by(children: &[Part], needed: usize) -> u64 {
    let mut sure = 0u64;
    let mut some = 0u64;
    for child in children {
        if child.is_live {
            some |= child.needs;
            if usize::from(child.weight) >= needed {
                sure |= child.needs;
            }
        }
    }
    let mut left = some & !sure;
    for _ in 0..64 {
        if left == 0 {
            break;
        }
        let member = left & left.wrapping_neg();
        left &= !member;
        if weight_of(children, member) >= needed {
            sure |= member;
        }
    }
    sure
}

/// Returns the part of a choice with this weight, with its properties computed from its children.
pub fn known_part(choice: Choice, weight: u8, children: &[Part]) -> Part {
    let mut members = 0u64;
    let mut live = 0usize;
    for child in children {
        members |= child.members;
        if child.is_live {
            live = live.saturating_add(usize::from(child.weight));
        }
    }
    let is_live = live >= usize::from(choice.k);
    let is_flat = are_flat(children);
    let needed = live.saturating_add(1).saturating_sub(usize::from(choice.k));
    let needs = if !is_live {
        u64::MAX
    } else if !is_flat {
        needed_by(children, needed)
    } else if needed <= 1 {
        members
    } else {
        0
    };
    Part {
        form: Form::KOf(Choice { is_flat, ..choice }),
        weight,
        is_live,
        members,
        needs,
    }
}
