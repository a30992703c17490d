//! Bounds on the length of certificates' texts.

ghost use Rattle.std.specs.Prelude.{◌≤◌, All, option_map};
ghost use Rattle.refutation.specs.Common.{rule_of, certificate_rule, IsPairInRange, HasRanges};
ghost use Rattle.plan.specs.Certificates.{IsReadBack};
ghost use Rattle.plan.specs.Rules.{EachInRange};

use refutation::{Certificate, Refutation};
use std::alloc::{Allocator, Global};

/// The bytes of `null`.
const NULL_BYTES: usize = 4;

/// The bytes of a rule without its numbers and branches, with a comma: those of a `pick`, which has the most.
const RULE_BYTES: usize = 63;

/// The most bytes of a child's number with a comma.
const CHILD_BYTES: usize = 4;

/// The bytes of a pair without its two numbers, with a comma.
const PAIR_BYTES: usize = 4;

fn digits(number: u16) -> usize
    ensures { result ≤ 5 }
{
    match number {
        0..=9 => 1,
        10..=99 => 2,
        100..=999 => 3,
        1000..=9999 => 4,
        _ => 5,
    }
}

/// Adds the bytes of an item's number to `room`.
fn with_item(room: usize, item: u16) -> usize
    ensures { item ≤ 65535 }
{
    room.saturating_add(digits(item))
}

/// Adds the bytes of children's numbers to `room`.
fn with_children(room: usize, children: &[u8]) -> usize
    ensures { All (λ n. n ≤ 255) children.now }
{
    room.saturating_add(children.len().saturating_mul(CHILD_BYTES))
}

/// Adds the bytes of a pair of children's numbers to `room`.
fn with_pair(room: usize, pair: (u8, u8)) -> usize
    ensures { IsPairInRange pair }
{
    let both = digits(u16::from(pair.0)) + digits(u16::from(pair.1));
    room.saturating_add(PAIR_BYTES + both)
}

/// Adds the bytes of pairs of children's numbers to `room`.
fn with_pairs(room: usize, pairs: &[(u8, u8)]) -> usize
    ensures { All IsPairInRange pairs.now }
{
    let mut room = room;
    for pair in pairs {
        room = with_pair(room, *pair);
    }
    room
}

/// Adds the bytes of a rule and its branches to `room`.
#[cycle(size)]
fn with_rule<A: Allocator>(room: usize, rule: &Refutation<A>) -> usize
    ensures { HasRanges (rule_of rule.now) }
{
    let room = room.saturating_add(RULE_BYTES);
    match rule {
        Refutation::Dead { item, .. } => with_item(room, *item),
        Refutation::Clash { left, right } => with_item(with_item(room, *left), *right),
        Refutation::Open { item, then, .. } => with_rule(with_item(room, *item), then),
        Refutation::Pick {
            item,
            children,
            then,
            ..
        } => with_branches(with_children(with_item(room, *item), children), then),
        Refutation::Match {
            left,
            right,
            pairs,
            then,
        } => {
            let room = with_item(with_item(room, *left), *right);
            with_branches(with_pairs(room, pairs), then)
        }
        Refutation::Split { left, right, .. } => with_rule(with_rule(room, left), right),
    }
}

/// Adds the bytes of branches to `room`.
#[cycle(size)]
fn with_branches<A: Allocator>(room: usize, then: &[Refutation<A>]) -> usize
    ensures { EachInRange then.now }
{
    let mut room = room;
    for branch in then {
        room = with_rule(room, branch);
    }
    room
}

/// Adds the bytes of a certificate or of a null to `room`.
fn with_certificate(room: usize, certificate: &Option<Certificate<Global>>) -> usize
    ensures { IsReadBack (option_map certificate_rule certificate.now) }
{
    match certificate {
        None => room.saturating_add(NULL_BYTES),
        Some(certificate) => with_rule(room, certificate.tree()),
    }
}

/// Returns an upper bound of the bytes of certificates' texts. Its contract says that all their numbers are in range,
/// so that each certificate can be read back.
pub(crate) fn room_for(certificates: &[Option<Certificate<Global>>]) -> usize
    ensures { All (λ c. IsReadBack (option_map certificate_rule c)) certificates.now }
{
    let mut room: usize = 0;
    for certificate in certificates {
        room = with_certificate(room, certificate);
    }
    room
}
