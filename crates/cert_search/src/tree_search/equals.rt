//! Matches of equal members.

use crate::tree_search::lists::append;
use crate::tree_search::parts::Part;
use refutation::Refutation;
use std::alloc::{AllocError, Allocator};

/// A set of members as bits, and for each of them the number of the first child that is this member.
#[derive(Drop)]
struct Chosen {
    members: u64,
    numbers: [u8; 64],
}

/// Returns the first `count` children that are one of these members.
fn first_of(of: &[Part], members: u64, count: usize) -> Chosen {
    let mut chosen = Chosen {
        members: 0,
        numbers: [0; 64],
    };
    let mut missing = count;
    for (number, child) in (0..64u8).zip(of) {
        if missing == 0 {
            break;
        }
        let member = child.members & members;
        if let Some(place) = chosen.numbers.get_mut(member.trailing_zeros() as usize) {
            *place = number;
            chosen.members |= member;
            missing -= 1;
        }
    }
    chosen
}

/// Returns the match of `count` pairs of children that are the same one of these members. The state's only items are
/// the two choices, whose children are distinct members.
pub fn equal_match<B: Allocator + Clone>(
    arena: &B,
    of: &[Part],
    others: &[Part],
    members: u64,
    count: usize,
) -> Result<Refutation<B>, AllocError> {
    let chosen = first_of(of, members, count);
    let mut pairs = Vec::with_capacity(arena.clone()?, count)?;
    let mut then = Vec::with_capacity(arena.clone()?, count)?;
    for (right, other) in (0..64u8).zip(others) {
        let member = other.members & chosen.members;
        if member != 0 {
            let left = chosen.numbers.get(member.trailing_zeros() as usize);
            append(&mut pairs, (left.copied().unwrap_or(0), right))?;
            append(&mut then, Refutation::Clash { left: 0, right: 0 })?;
        }
    }
    Ok(Refutation::Match {
        left: 0,
        right: 0,
        pairs,
        then,
    })
}
