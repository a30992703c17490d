//! The leaves of a search: states that a rule without branches refutes, and states that two disjoint sets satisfy.

use crate::tree_search::state::{Row, State};
use quorum_checker::members_named;
use quorum_expr::{Expr, MEMBERS, MemberSet};
use refutation::{Refutation, Side};
use std::alloc::Allocator;

/// Refutes a state by an item of one side that can't be satisfied.
pub fn dead_on<A: Allocator, B: Allocator>(
    state: &State<'_, A>,
    side: Side,
) -> Option<Refutation<B>> {
    let row = state.row(side);
    let item = row.number(row.first_dead()?)?;
    Some(Refutation::Dead { side, item })
}

/// Refutes a state by an item that can't be satisfied.
fn dead<A: Allocator, B: Allocator>(state: &State<'_, A>) -> Option<Refutation<B>> {
    match dead_on(state, Side::Left) {
        Some(tree) => Some(tree),
        None => dead_on(state, Side::Right),
    }
}

/// Refutes a state by two items that are the same member.
fn clash<A: Allocator, B: Allocator>(state: &State<'_, A>) -> Option<Refutation<B>> {
    let rights = state.right.members();
    for (i, item) in state.left.items.iter().enumerate() {
        if let Expr::Member(member) = *item {
            if rights.contains(*member) {
                let left = state.left.number(i)?;
                let right = state.right.number(state.right.place_of(*member)?)?;
                return Some(Refutation::Clash { left, right });
            }
        }
    }
    None
}

/// Refutes a state by a rule without branches.
pub fn leaf<A: Allocator, B: Allocator>(state: &State<'_, A>) -> Option<Refutation<B>> {
    match dead(state) {
        Some(tree) => Some(tree),
        None => clash(state),
    }
}

/// Returns the members that the items name and that aren't absent.
fn members_in<A: Allocator>(row: &Row<'_, A>) -> MemberSet {
    let mut members = MemberSet::empty();
    for item in row.items {
        members = members.union(members_named(*item));
    }
    members.difference(row.absent)
}

/// Returns whether two disjoint sets satisfy all items of both sides if the first side gives up each common member that
/// it doesn't need.
fn leaves_enough<A: Allocator>(one: &Row<'_, A>, other: &Row<'_, A>) -> bool {
    let mut first = one.absent.complement();
    let mut second = other.absent.complement();
    let common = members_in(one).intersection(members_in(other));
    for member in 0..MEMBERS {
        if common.contains(member) {
            let fewer = first.without(member);
            if one.hold(fewer) {
                first = fewer;
            } else {
                second = second.without(member);
            }
        }
    }
    other.hold(second)
}

/// Returns whether two disjoint sets that satisfy both sides are found quickly. No item may be unsatisfiable.
pub fn has_counterexample<A: Allocator>(state: &State<'_, A>) -> bool {
    leaves_enough(&state.left, &state.right) || leaves_enough(&state.right, &state.left)
}
