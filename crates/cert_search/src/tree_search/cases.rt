//! The search by cases: each member that both sides name is absent from one or the other.

use crate::tree_search::leaves::dead_on;
use crate::tree_search::spending::Search;
use crate::tree_search::state::State;
use quorum_expr::MEMBERS;
use refutation::{Refutation, Side};
use std::alloc::{AllocError, Allocator};

/// Refutes a state by splitting on these members, in a tree of at most `levels` levels. Looks for an item that can't be
/// satisfied only on the side `lost`, from which a member was removed last.
pub fn split<A: Allocator, B: Allocator + Clone>(
    search: &mut Search<B>,
    state: &State<'_, A>,
    lost: Side,
    members: &[u8],
    levels: u8,
) -> Result<Option<Refutation<B>>, AllocError> {
    if levels == 0 || !search.spend_state() {
        return Ok(None);
    }
    if let Some(tree) = dead_on(state, lost) {
        return Ok(Some(tree));
    }
    let [member, others @ ..] = members else {
        return Ok(None);
    };
    let member = *member % MEMBERS;
    let lefts = state.lacking(Side::Left, member);
    let Some(left) = split(search, &lefts, Side::Left, others, levels - 1)? else {
        return Ok(None);
    };
    let rights = state.lacking(Side::Right, member);
    let Some(right) = split(search, &rights, Side::Right, others, levels - 1)? else {
        return Ok(None);
    };
    let left = Box::new(search.arena.clone()?, left)?;
    let right = Box::new(search.arena.clone()?, right)?;
    Ok(Some(Refutation::Split {
        member,
        left,
        right,
    }))
}
