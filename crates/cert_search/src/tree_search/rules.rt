//! The search by the rules over items. It first opens an item that requires all its children, then picks from one that
//! requires any, then tries matches, then other picks.

use crate::tree_search::leaves::{has_counterexample, leaf};
use crate::tree_search::matching::{Mates, steps_of};
use crate::tree_search::parts::total;
use crate::tree_search::spending::Search;
use crate::tree_search::state::{Row, State};
use quorum_expr::Expr;
use refutation::{Refutation, Side};
use std::alloc::{AllocError, Allocator};

/// A pair of children that closes, with its tree.
#[derive(Drop)]
struct Closed<B: Allocator> {
    left: u8,
    right: u8,
    tree: Refutation<B>,
}

/// The closing pairs, and for each left child a bit for each right child that closes with it.
#[derive(Drop)]
struct Closing<B: Allocator> {
    pairs: Vec<Closed<B>, B>,
    edges: Vec<u64, B>,
}

/// Returns the first item that requires all its children.
fn first_all<A: Allocator>(row: &Row<'_, A>) -> Option<usize> {
    row.items.iter().position(|item| match *item {
        Expr::Member(_) => false,
        Expr::KOf { k, of } => usize::from(*k) == total(of.as_slice()),
    })
}

/// Returns the first item that requires only one of its children.
fn first_any<A: Allocator>(row: &Row<'_, A>) -> Option<usize> {
    row.items.iter().position(|item| match *item {
        Expr::Member(_) => false,
        Expr::KOf { k, of } => of.iter().all(|child| u16::from(child.0) >= *k),
    })
}

/// Returns the weight of the first 64 children.
fn weights<A: Allocator>(of: &[(u8, Expr<A>)]) -> [u8; 64] {
    let mut weights = [0u8; 64];
    for (place, child) in weights.iter_mut().zip(of) {
        *place = child.0;
    }
    weights
}

/// Returns whether it is worth while to search for a tree that closes a pair of children.
fn may_close<A: Allocator>(state: &State<'_, A>, left: &Expr<A>, right: &Expr<A>) -> bool {
    match (left, right) {
        (Expr::Member(one), Expr::Member(other)) => {
            one == other || state.left.absent.contains(*one) || state.right.absent.contains(*other)
        }
        _ => true,
    }
}

/// Refutes a state by its items, in a tree of at most `levels` levels.
#[cycle(rules)]
pub fn refute<A: Allocator, B: Allocator + Clone>(
    search: &mut Search<B>,
    state: &State<'_, A>,
    levels: u8,
) -> Result<Option<Refutation<B>>, AllocError> {
    if levels == 0 || !search.spend_state() {
        return Ok(None);
    }
    if let Some(tree) = leaf(state) {
        return Ok(Some(tree));
    }
    if has_counterexample(state) {
        return Ok(None);
    }
    for side in [Side::Left, Side::Right] {
        if let Some(at) = first_all(&state.row(side)) {
            return open(search, state, side, at, levels - 1);
        }
    }
    for side in [Side::Left, Side::Right] {
        if let Some(at) = first_any(&state.row(side)) {
            return pick(search, state, side, at, levels - 1);
        }
    }
    match match_some(search, state, levels - 1)? {
        Some(tree) => Ok(Some(tree)),
        None => pick_some(search, state, levels - 1),
    }
}

/// Refutes a state by replacing an item by all its children.
#[cycle(rules)]
fn open<A: Allocator, B: Allocator + Clone>(
    search: &mut Search<B>,
    state: &State<'_, A>,
    side: Side,
    at: usize,
    levels: u8,
) -> Result<Option<Refutation<B>>, AllocError> {
    if !search.may_try(levels) {
        return Ok(None);
    }
    let row = state.row(side);
    let Some(Expr::KOf { of, .. }) = row.items.get(at).copied() else {
        return Ok(None);
    };
    let list = row.replaced(search.arena.clone()?, at, of)?;
    let Some(then) = refute(search, &state.changed(side, &list), levels)? else {
        return Ok(None);
    };
    let Some(item) = row.number(at) else {
        return Ok(None);
    };
    let then = Box::new(search.arena.clone()?, then)?;
    Ok(Some(Refutation::Open { side, item, then }))
}

/// Refutes a state by picking children of an item, until the weight of the others is below the threshold.
#[cycle(rules)]
fn pick<A: Allocator, B: Allocator + Clone>(
    search: &mut Search<B>,
    state: &State<'_, A>,
    side: Side,
    at: usize,
    levels: u8,
) -> Result<Option<Refutation<B>>, AllocError> {
    let row = state.row(side);
    let Some(Expr::KOf { k, of }) = row.items.get(at).copied() else {
        return Ok(None);
    };
    let Some(item) = row.number(at) else {
        return Ok(None);
    };
    let mut spare = usize::from(*k).saturating_sub(1);
    let mut missing = total(of.as_slice()).saturating_sub(spare);
    let mut children = Vec::new(search.arena.clone()?);
    let mut then = Vec::new(search.arena.clone()?);
    for (number, (weight, child)) in of.iter().enumerate() {
        if missing == 0 {
            break;
        }
        if !search.may_try(levels) {
            return Ok(None);
        }
        let weight = usize::from(*weight);
        let list = row.replaced_by_one(search.arena.clone()?, at, child)?;
        match refute(search, &state.changed(side, &list), levels)? {
            Some(tree) => {
                let Ok(number) = u8::try_from(number) else {
                    return Ok(None);
                };
                children.push(number)?;
                then.push(tree)?;
                missing = missing.saturating_sub(weight);
            }
            None => match spare.checked_sub(weight) {
                Some(rest) => spare = rest,
                None => return Ok(None),
            },
        }
    }
    Ok(Some(Refutation::Pick {
        side,
        item,
        children,
        then,
    }))
}

/// Refutes a state by a match of two of its thresholds.
#[cycle(rules)]
fn match_some<A: Allocator, B: Allocator + Clone>(
    search: &mut Search<B>,
    state: &State<'_, A>,
    levels: u8,
) -> Result<Option<Refutation<B>>, AllocError> {
    for i in 0..state.left.items.len() {
        for j in 0..state.right.items.len() {
            if !search.may_try(levels) || !search.step(1) {
                return Ok(None);
            }
            if let Some(tree) = match_two(search, state, i, j, levels)? {
                return Ok(Some(tree));
            }
        }
    }
    Ok(None)
}

/// Refutes a state by picks from one of its thresholds.
#[cycle(rules)]
fn pick_some<A: Allocator, B: Allocator + Clone>(
    search: &mut Search<B>,
    state: &State<'_, A>,
    levels: u8,
) -> Result<Option<Refutation<B>>, AllocError> {
    for side in [Side::Left, Side::Right] {
        for at in 0..state.row(side).items.len() {
            if !search.may_try(levels) {
                return Ok(None);
            }
            if let Some(tree) = pick(search, state, side, at, levels)? {
                return Ok(Some(tree));
            }
        }
    }
    Ok(None)
}

/// Returns the closing pairs of children of two thresholds, and for each left child a bit for each right child that
/// closes with it.
#[cycle(rules)]
fn close_pairs<A: Allocator, B: Allocator + Clone>(
    search: &mut Search<B>,
    state: &State<'_, A>,
    of: &[(u8, Expr<A>)],
    others: &[(u8, Expr<A>)],
    levels: u8,
) -> Result<Closing<B>, AllocError> {
    let mut pairs = Vec::new(search.arena.clone()?);
    let mut edges = Vec::new(search.arena.clone()?);
    for (left, (_, child)) in (0..64u8).zip(of) {
        let mut edge = 0u64;
        for (right, (_, other)) in (0..64u8).zip(others) {
            if !may_close(state, child, other) {
                continue;
            }
            let lefts = [child];
            let rights = [other];
            let narrow = State {
                left: state.left.narrowed(&lefts),
                right: state.right.narrowed(&rights),
            };
            if let Some(tree) = refute(search, &narrow, levels)? {
                edge |= 1u64.checked_shl(u32::from(right)).unwrap_or(0);
                pairs.push(Closed { left, right, tree })?;
            }
        }
        edges.push(edge)?;
    }
    Ok(Closing { pairs, edges })
}

/// Refutes a state by a match of two of its items.
#[cycle(rules)]
fn match_two<A: Allocator, B: Allocator + Clone>(
    search: &mut Search<B>,
    state: &State<'_, A>,
    i: usize,
    j: usize,
    levels: u8,
) -> Result<Option<Refutation<B>>, AllocError> {
    let Some(Expr::KOf { k, of }) = state.left.items.get(i).copied() else {
        return Ok(None);
    };
    let Some(Expr::KOf { k: l, of: others }) = state.right.items.get(j).copied() else {
        return Ok(None);
    };
    let (Some(left), Some(right)) = (state.left.number(i), state.right.number(j)) else {
        return Ok(None);
    };
    if !search.step(of.len().saturating_add(others.len()) as u64) {
        return Ok(None);
    }
    let spare = usize::from(*k).saturating_add(usize::from(*l));
    let (all, rest) = (total(of.as_slice()), total(others.as_slice()));
    let wanted = (all.saturating_add(rest).saturating_add(1)).saturating_sub(spare);
    let is_of_ones = all == of.len() && rest == others.len();
    if wanted > all.min(rest) || !search.step(steps_of(of.len(), others.len(), is_of_ones)) {
        return Ok(None);
    }
    let closing = close_pairs(search, state, of, others, levels)?;
    let edges = closing.edges.as_slice();
    let mates = if is_of_ones {
        Mates::find(edges, wanted)
    } else {
        Mates::heaviest(
            edges,
            &weights(of.as_slice()),
            &weights(others.as_slice()),
            wanted,
        )
    };
    let Some(mates) = mates else {
        return Ok(None);
    };
    Ok(Some(matched(&search.arena, left, right, &mates, closing.pairs)?))
}

/// Returns the match of the pairs of a matching.
fn matched<B: Allocator + Clone>(
    arena: &B,
    left: u16,
    right: u16,
    mates: &Mates,
    closed: Vec<Closed<B>, B>,
) -> Result<Refutation<B>, AllocError> {
    let mut pairs = Vec::new(arena.clone()?);
    let mut then = Vec::new(arena.clone()?);
    for pair in closed {
        if mates.are_mates(pair.left, pair.right) {
            pairs.push((pair.left, pair.right))?;
            then.push(pair.tree)?;
        }
    }
    Ok(Refutation::Match {
        left,
        right,
        pairs,
        then,
    })
}
