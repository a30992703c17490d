//! Searches for a tree that refutes a claim.

use crate::tree_search::cases::split;
use crate::tree_search::closed::closed;
use crate::tree_search::closing::Closing;
use crate::tree_search::leaves::has_counterexample;
use crate::tree_search::parts::parts_of;
use crate::tree_search::rules::refute;
use crate::tree_search::spending::Search;
use crate::tree_search::state::State;
use quorum_checker::Claim;
use quorum_expr::MemberSet;
use refutation::{MAX_DEPTH, MAX_NODES, Refutation, Side};
use std::alloc::{AllocError, Allocator, Global};

/// The steps that a search may take for each node of its budget.
const NODE_STEPS: u64 = 2_000;

/// How often the rules over items visit each subexpression of a state: with and without each member, on both sides.
const ITEM_LOOKS: u64 = 128;

/// A tree that was found, and where it is stored.
#[derive(Drop)]
pub enum Tree<B: Allocator> {
    /// The tree has its own memory.
    Kept(Refutation<Global>),
    /// The tree is in the arena of the search.
    InArena(Refutation<B>),
}

/// Finds the closing pairs of subexpressions of a claim, with at most half of the steps.
fn closing_of<A: Allocator, B: Allocator + Clone>(
    search: &mut Search<B>,
    claim: &Claim<A>,
) -> Result<Option<Closing<B>>, AllocError> {
    let rest = search.steps / 2;
    search.steps -= rest;
    let Some(lefts) = parts_of(search, &claim.left, claim.clear)? else {
        return Ok(None);
    };
    let Some(rights) = parts_of(search, &claim.right, MemberSet::empty())? else {
        return Ok(None);
    };
    let closing = Closing::new(search, lefts, rights)?;
    search.steps = search.steps.saturating_add(rest);
    Ok(closing)
}

/// Refutes a claim whose two whole expressions close.
fn whole<B: Allocator>(
    search: &mut Search<Global>,
    closing: &Closing<B>,
) -> Result<Option<Refutation<Global>>, AllocError> {
    match (closing.left(0), closing.right(0)) {
        (Some(one), Some(other)) => closed(search, closing, one, other, MAX_DEPTH),
        _ => Ok(None),
    }
}

/// Refutes a claim whose two whole expressions don't close: by the rules over items, with half of the nodes and steps,
/// then by cases of members, with the rest.
fn searched<A: Allocator, B: Allocator + Clone>(
    search: &mut Search<B>,
    claim: &Claim<A>,
    closing: &Closing<B>,
) -> Result<Option<Refutation<B>>, AllocError> {
    let size = closing.size() as u64;
    let lefts = [&claim.left];
    let rights = [&claim.right];
    let state = State::new(&lefts, &rights, (claim.clear, MemberSet::empty()));
    let (nodes, steps) = (search.nodes / 2, search.steps / 2);
    search.nodes -= nodes;
    search.steps -= steps;
    search.state_steps = size.saturating_mul(ITEM_LOOKS);
    if let Some(tree) = refute(search, &state, MAX_DEPTH)? {
        return Ok(Some(tree));
    }
    search.nodes = search.nodes.saturating_add(nodes);
    search.steps = search.steps.saturating_add(steps);
    if search.step(search.state_steps) && has_counterexample(&state) {
        return Ok(None);
    }
    search.state_steps = size;
    if !search.step(size) {
        return Ok(None);
    }
    let members = closing.members(&search.arena)?;
    split(search, &state, Side::Left, members.as_slice(), MAX_DEPTH)
}

/// Returns a tree that should refute a claim, or `None` if the search gives up. Tries closing pairs of subexpressions,
/// then the rules over items, then cases of members. The budget bounds the nodes that are tried, and so the steps, the
/// time and the memory. The arena holds tables and items, and the tree unless it comes from the closing pairs.
///
/// # Errors
/// [`AllocError`] if memory runs out.
pub fn find_tree<A: Allocator, B: Allocator + Clone>(
    alloc: Global,
    arena: &B,
    claim: &Claim<A>,
    budget: u64,
) -> Result<Option<Tree<B>>, AllocError> {
    let mut search = Search {
        arena: arena.clone()?,
        nodes: budget,
        steps: budget.saturating_mul(NODE_STEPS),
        state_steps: 0,
    };
    let Some(closing) = closing_of(&mut search, claim)? else {
        return Ok(None);
    };
    let mut pairs = Search {
        arena: alloc,
        nodes: budget.min(u64::from(MAX_NODES)),
        steps: search.steps,
        state_steps: 0,
    };
    if let Some(tree) = whole(&mut pairs, &closing)? {
        return Ok(Some(Tree::Kept(tree)));
    }
    search.steps = pairs.steps;
    match searched(&mut search, claim, &closing)? {
        Some(tree) => Ok(Some(Tree::InArena(tree))),
        None => Ok(None),
    }
}
