//! Builds the tree of a pair of subexpressions that closes.

use crate::tree_search::closing::{Closing, Way, equal_members};
use crate::tree_search::equals::equal_match;
use crate::tree_search::parts::{Form, Part};
use crate::tree_search::spending::Search;
use refutation::{Refutation, Side};
use std::alloc::{AllocError, Allocator};

/// Refutes the state whose only items are these two, in a tree of at most `levels` levels.
#[cycle(closed)]
pub fn closed<B: Allocator + Clone, C: Allocator>(
    search: &mut Search<B>,
    closing: &Closing<C>,
    one: &Part,
    other: &Part,
    levels: u8,
) -> Result<Option<Refutation<B>>, AllocError> {
    if levels == 0 || !search.spend(1, closing.steps(one, other)) {
        return Ok(None);
    }
    match closing.way(one, other) {
        None => Ok(None),
        Some(Way::Dead(side)) => Ok(Some(Refutation::Dead { side, item: 0 })),
        Some(Way::Clash) => Ok(Some(Refutation::Clash { left: 0, right: 0 })),
        Some(Way::Match) => matched(search, closing, one, other, levels - 1),
        Some(Way::Pick(side)) => picked(search, closing, side, one, other, levels - 1),
    }
}

/// Returns the pair with one of its sides replaced by a child.
fn pair<'p>(side: Side, both: (&'p Part, &'p Part), child: &'p Part) -> (&'p Part, &'p Part) {
    match side {
        Side::Left => (child, both.1),
        Side::Right => (both.0, child),
    }
}

/// Returns a bit for each of the first children that close with the other side, until their weight is enough.
fn chosen<C: Allocator>(
    closing: &Closing<C>,
    side: Side,
    both: (&Part, &Part),
    children: &[Part],
    needed: usize,
) -> u64 {
    let mut chosen = 0u64;
    let mut bit = 1u64;
    let mut missing = needed;
    for child in children {
        if missing == 0 {
            break;
        }
        let (left, right) = pair(side, both, child);
        if closing.closes(left, right) {
            chosen |= bit;
            missing = missing.saturating_sub(usize::from(child.weight));
        }
        bit = bit.wrapping_add(bit);
    }
    chosen
}

/// Returns the pick of a side's only item: of children that close with the other side, until their weight is enough.
#[cycle(closed)]
fn picked<B: Allocator + Clone, C: Allocator>(
    search: &mut Search<B>,
    closing: &Closing<C>,
    side: Side,
    one: &Part,
    other: &Part,
    levels: u8,
) -> Result<Option<Refutation<B>>, AllocError> {
    let (choice, candidates) = match (side, &one.form, &other.form) {
        (Side::Left, Form::KOf(of), _) => (of, closing.lefts(of)),
        (Side::Right, _, Form::KOf(others)) => (others, closing.rights(others)),
        _ => return Ok(None),
    };
    let chosen = chosen(closing, side, (one, other), candidates, choice.needed());
    let count = chosen.count_ones() as usize;
    let mut children = Vec::with_capacity(search.arena.clone()?, count)?;
    let mut then = Vec::with_capacity(search.arena.clone()?, count)?;
    let mut bit = 1u64;
    for (number, child) in (0..64u8).zip(candidates) {
        if chosen & bit != 0 {
            let (left, right) = pair(side, (one, other), child);
            let Some(tree) = closed(search, closing, left, right, levels)? else {
                return Ok(None);
            };
            children.push(number)?;
            then.push(tree)?;
        }
        bit = bit.wrapping_add(bit);
    }
    Ok(Some(Refutation::Pick {
        side,
        item: 0,
        children,
        then,
    }))
}

/// Returns the match of the only items: of closing pairs of their children.
#[cycle(closed)]
fn matched<B: Allocator + Clone, C: Allocator>(
    search: &mut Search<B>,
    closing: &Closing<C>,
    one: &Part,
    other: &Part,
    levels: u8,
) -> Result<Option<Refutation<B>>, AllocError> {
    let (Form::KOf(of), Form::KOf(others)) = (&one.form, &other.form) else {
        return Ok(None);
    };
    if let Some(count) = equal_members(one, of, other, others) {
        if levels == 0 || !search.spend(count as u64, count as u64) {
            return Ok(None);
        }
        let (lefts, rights) = (closing.lefts(of), closing.rights(others));
        let members = one.members & other.members;
        let tree = equal_match(&search.arena, lefts, rights, members, count)?;
        return Ok(Some(tree));
    }
    let Some(mates) = closing.mates(of, others) else {
        return Ok(None);
    };
    let lefts = closing.lefts(of);
    let count = mates.len();
    let mut pairs = Vec::with_capacity(search.arena.clone()?, count)?;
    let mut then = Vec::with_capacity(search.arena.clone()?, count)?;
    for (right, other) in (0..64u8).zip(closing.rights(others)) {
        if let Some(left) = mates.of(right) {
            let Some(one) = lefts.get(usize::from(left)) else {
                return Ok(None);
            };
            let Some(tree) = closed(search, closing, one, other, levels)? else {
                return Ok(None);
            };
            pairs.push((left, right))?;
            then.push(tree)?;
        }
    }
    Ok(Some(Refutation::Match {
        left: 0,
        right: 0,
        pairs,
        then,
    }))
}
