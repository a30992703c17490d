//! How many members an expression can lose.

ghost use Rattle.std.specs.Prelude.{◌≡◌, ℕ, IfOk, IfSome};
ghost use Rattle.std.specs.FinSet.{contains};
ghost use Rattle.quorum_expr.specs.Common.{formula_of};
ghost use Rattle.quorum_checker.specs.Tolerance.{IsLeastLoss, is_stopping};

use crate::facts::{BlockFacts, Members, QuorumFacts};
use crate::wording::{add_expr, nodes};
use quorum_checker::{members_named, stopping_members, stopping_set};
use quorum_expr::{Expr, MemberSet, holds};
use std::alloc::{AllocError, Allocator, Global};
use volume_model::Fault;

/// What an expression survives.
#[derive(Debug, Drop)]
pub struct Survival {
    /// A smallest set whose loss stops it, if it is known.
    pub smallest: Option<MemberSet>,
    /// The members whose loss alone stops it.
    pub alone: MemberSet,
}

/// Returns how many losses of `count` members have to be tried at least before a smallest one is known, if the loss of
/// one member may stop the expression: no loss, and each of one member. If it can't: also each of two members.
fn least_tried(count: u8, may_one: bool) -> u64 {
    let more = u64::from(count).saturating_add(1);
    if may_one {
        more
    } else {
        more.saturating_mul(more.saturating_add(1)) / 2
    }
}

/// Returns what an expression survives over these members. `budget` bounds how many losses are tried. If it is too
/// small to find anything, only the loss of no member is tried.
///
/// # Errors
/// [`NoMemory`](Fault::NoMemory).
pub fn survival_of<A: Allocator>(
    alloc: Global,
    expr: &Expr<A>,
    members: MemberSet,
    budget: u64,
) -> Result<Survival, Fault>
    ensures smallest { IfOk result (λ s. IfSome s.smallest (IsLeastLoss (formula_of expr.now) members)) }
    ensures alone { IfOk result (λ s. (x : ℕ) → contains s.alone x
        ≡ is_stopping (formula_of expr.now) members x) }
{
    let alone = stopping_members(expr, members);
    let tries = if budget < least_tried(members.len(), !alone.is_empty()) {
        budget.min(1)
    } else {
        budget
    };
    let smallest = stopping_set(alloc, expr, members, tries)?;
    Ok(Survival { smallest, alone })
}

/// Returns each list among an expression's children, such as a zone, and whether the expression survives the loss of
/// all members that the list names.
fn blocks_of(
    alloc: Global,
    expr: &Expr<Global>,
    members: MemberSet,
) -> Result<Vec<BlockFacts>, AllocError> {
    let mut blocks = Vec::new(alloc);
    let Expr::KOf { of, .. } = expr else {
        return Ok(blocks);
    };
    for (_, child) in of {
        if let Expr::KOf { .. } = child {
            let block = members_named(child);
            blocks.push(BlockFacts {
                members: Members(block),
                survived: holds(expr, members.difference(block)),
            })?;
        }
    }
    Ok(blocks)
}

/// Returns what is known of an expression over these members. `budget` bounds how many members and thresholds are
/// looked at.
///
/// # Errors
/// [`NoMemory`](Fault::NoMemory).
pub(crate) fn quorum_facts(
    alloc: Global,
    expr: &Expr<Global>,
    members: MemberSet,
    budget: u64,
) -> Result<QuorumFacts, Fault> {
    let mut expression = String::new(alloc);
    add_expr(&mut expression, expr)?;
    let survival = survival_of(alloc, expr, members, budget / nodes(expr))?;
    let smallest = survival.smallest;
    Ok(QuorumFacts {
        expression,
        survives: smallest.map(|smallest| smallest.len().saturating_sub(1)),
        stopped_by: smallest.map(|smallest| Members(smallest)),
        single: Members(survival.alone),
        blocks: blocks_of(alloc, expr, members)?,
    })
}
