//! The depth of a refutation, the lengths of its lists, and its number of rules.

ghost use Rattle.std.specs.Prelude.{◌≡◌, ◌-◌, ◌&&◌, nat_le, map};
ghost use Rattle.refutation.specs.Rule.{branches_of, depth_of, branch_depth};
ghost use Rattle.refutation.specs.Refutation.{rule_of};
ghost use Rattle.refutation.specs.Limits.{keeps_lists, each_keeps_lists, nodes_of, branch_nodes};

use crate::Refutation;
use std::alloc::Allocator;

/// The most entries that a list may have.
pub const MAX_LIST: usize = 255;

/// Returns whether there are at most `levels` levels.
#[cycle(levels)]
pub fn is_shallow<A: Allocator>(rule: &Refutation<A>, levels: u8) -> bool
    ensures { result ≡ nat_le (depth_of (rule_of rule.now)) levels }
{
    if levels == 0 {
        return false;
    }
    match rule {
        Refutation::Dead { .. } | Refutation::Clash { .. } => true,
        Refutation::Open { then, .. } => is_shallow(then, levels - 1),
        Refutation::Pick { then, .. } => are_shallow(then, levels - 1),
        Refutation::Match { then, .. } => are_shallow(then, levels - 1),
        Refutation::Split { left, right, .. } => {
            is_shallow(left, levels - 1) && is_shallow(right, levels - 1)
        }
    }
}

#[cycle(levels)]
fn are_shallow<A: Allocator>(branches: &[Refutation<A>], levels: u8) -> bool
    ensures { result ≡ nat_le (branch_depth (branches_of (map rule_of branches.now))) levels }
{
    for branch in branches {
        if !is_shallow(branch, levels) {
            return false;
        }
    }
    true
}

fn are_short(entries: usize, branches: usize) -> bool
    ensures { result ≡ (nat_le entries 255 && nat_le branches 255) }
{
    entries <= MAX_LIST && branches <= MAX_LIST
}

/// Returns whether no list has more than 255 entries, and each member is below 64.
#[cycle(lists)]
pub fn keep_lists<A: Allocator>(rule: &Refutation<A>) -> bool
    ensures { result ≡ keeps_lists (rule_of rule.now) }
{
    match rule {
        Refutation::Dead { .. } | Refutation::Clash { .. } => true,
        Refutation::Open { then, .. } => keep_lists(then),
        Refutation::Pick { children, then, .. } => {
            are_short(children.len(), then.len()) && each_keep_lists(then)
        }
        Refutation::Match { pairs, then, .. } => {
            are_short(pairs.len(), then.len()) && each_keep_lists(then)
        }
        Refutation::Split {
            member,
            left,
            right,
        } => *member < 64 && keep_lists(left) && keep_lists(right),
    }
}

#[cycle(lists)]
fn each_keep_lists<A: Allocator>(branches: &[Refutation<A>]) -> bool
    ensures { result ≡ each_keeps_lists (branches_of (map rule_of branches.now)) }
{
    for branch in branches {
        if !keep_lists(branch) {
            return false;
        }
    }
    true
}

/// Subtracts the number of rules from `room`, down to 0.
#[cycle(count)]
pub fn room_after<A: Allocator>(rule: &Refutation<A>, room: u32) -> u32
    ensures { result ≡ room - nodes_of (rule_of rule.now) }
{
    let room = room.saturating_sub(1);
    match rule {
        Refutation::Dead { .. } | Refutation::Clash { .. } => room,
        Refutation::Open { then, .. } => room_after(then, room),
        Refutation::Pick { then, .. } => room_after_each(then, room),
        Refutation::Match { then, .. } => room_after_each(then, room),
        Refutation::Split { left, right, .. } => room_after(right, room_after(left, room)),
    }
}

#[cycle(count)]
fn room_after_each<A: Allocator>(branches: &[Refutation<A>], room: u32) -> u32
    ensures { result ≡ room - branch_nodes (branches_of (map rule_of branches.now)) }
{
    let mut left = room;
    for branch in branches {
        left = room_after(branch, left);
    }
    left
}
