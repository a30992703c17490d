//! The length of a certificate's text.

ghost use Rattle.std.specs.Prelude.{◌≡◌, ◌-◌, map};
ghost use Rattle.refutation.specs.Common.{branches_of, rule_of, certificate_rule};
ghost use Rattle.cert_search.specs.Lengths.{branches_length, digits, head_length, length_of, name_length, numbers_length, pairs_length, rule_length};

use plan::PLAN_BYTES;
use refutation::{Certificate, Refutation, Side};
use std::alloc::Allocator;

fn digits(number: u16) -> u32
    ensures { result ≡ digits number }
{
    if number < 10 {
        1
    } else if number < 100 {
        2
    } else if number < 1_000 {
        3
    } else if number < 10_000 {
        4
    } else {
        5
    }
}

fn name_length(side: Side) -> u32
    ensures { result ≡ name_length side }
{
    match side {
        Side::Left => 4,
        Side::Right => 5,
    }
}

/// Subtracts `bytes` and the digits of a number from `room`, down to 0.
fn behind_number(room: u32, bytes: u32, number: u16) -> u32
    ensures { result ≡ room - bytes - digits number }
{
    room.saturating_sub(bytes).saturating_sub(digits(number))
}

/// Subtracts `bytes` and the digits of two items' numbers from `room`, down to 0.
fn behind_items(room: u32, bytes: u32, left: u16, right: u16) -> u32
    ensures { result ≡ room - bytes - digits left - digits right }
{
    behind_number(room, bytes, left).saturating_sub(digits(right))
}

/// Subtracts `bytes`, the name of a side and the digits of an item's number from `room`, down to 0.
fn behind_item(room: u32, bytes: u32, side: Side, item: u16) -> u32
    ensures { result ≡ room - bytes - name_length side - digits item }
{
    room.saturating_sub(bytes)
        .saturating_sub(name_length(side))
        .saturating_sub(digits(item))
}

/// Subtracts the numbers of a list from `room`, down to 0.
fn behind_numbers(numbers: &[u8], room: u32) -> u32
    ensures { result ≡ room - numbers_length numbers.now }
{
    let mut left = room;
    for number in numbers {
        left = behind_number(left, 1, u16::from(*number));
    }
    left
}

/// Subtracts the pairs of a list from `room`, down to 0.
fn behind_pairs(pairs: &[(u8, u8)], room: u32) -> u32
    ensures { result ≡ room - pairs_length pairs.now }
{
    let mut left = room;
    for pair in pairs {
        left = behind_items(left, 4, u16::from(pair.0), u16::from(pair.1));
    }
    left
}

/// Subtracts a rule without its branches from `room`, down to 0.
fn behind_head<A: Allocator>(rule: &Refutation<A>, room: u32) -> u32
    ensures { result ≡ room - head_length (rule_of rule.now) }
{
    match rule {
        Refutation::Dead { side, item } => behind_item(room, 34, *side, *item),
        Refutation::Clash { left, right } => behind_items(room, 34, *left, *right),
        Refutation::Open { side, item, .. } => behind_item(room, 42, *side, *item),
        Refutation::Pick {
            side,
            item,
            children,
            ..
        } => behind_numbers(children, behind_item(room, 58, *side, *item)),
        Refutation::Match {
            left,
            right,
            pairs,
            ..
        } => behind_pairs(pairs, behind_items(room, 55, *left, *right)),
        Refutation::Split { member, .. } => behind_number(room, 44, u16::from(*member)),
    }
}

/// Subtracts a rule and its branches from `room`, down to 0.
#[cycle(length)]
fn behind_rule<A: Allocator>(rule: &Refutation<A>, room: u32) -> u32
    ensures { result ≡ room - rule_length (rule_of rule.now) }
{
    let room = behind_head(rule, room);
    match rule {
        Refutation::Dead { .. } | Refutation::Clash { .. } => room,
        Refutation::Open { then, .. } => behind_rule(then, room),
        Refutation::Pick { then, .. } => behind_branches(then, room),
        Refutation::Match { then, .. } => behind_branches(then, room),
        Refutation::Split { left, right, .. } => behind_rule(right, behind_rule(left, room)),
    }
}

#[cycle(length)]
fn behind_branches<A: Allocator>(branches: &[Refutation<A>], room: u32) -> u32
    ensures { result ≡ room - branches_length (branches_of (map rule_of branches.now)) }
{
    let mut left = room;
    for branch in branches {
        left = behind_rule(branch, left);
    }
    left
}

/// Returns the bytes of a certificate's text, at most one more than a plan's text may have. Counts a comma after each
/// entry of a list and each rule.
pub fn length_of<A: Allocator>(certificate: &Certificate<A>) -> u32
    ensures { result ≡ length_of (certificate_rule certificate.now) }
{
    let most = PLAN_BYTES + 1;
    most - behind_rule(certificate.tree(), most)
}
