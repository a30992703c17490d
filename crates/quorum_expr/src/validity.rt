//! Checks that an expression is valid.

ghost use Rattle.std.specs.Prelude.{◌≡◌, ◌-◌, None, Some, OnOk, IfErr, IfNone};
ghost use Rattle.quorum_expr.specs.Expr.{formula_of, weighed};
ghost use Rattle.quorum_expr.specs.Valid.{good_choice, shape_fault, expression_fault, nodes};

use crate::expression::{Expr, wide};
use std::alloc::Allocator;
use volume_model::Fault;

/// The most levels that an expression may have.
pub const LEVELS: u8 = 6;

/// The most nodes that an expression may have.
pub const NODES: u32 = 4_096;

/// Returns whether there are at most 64 children of weight 1 or more, and the threshold is from 1 to the sum of the
/// weights.
fn is_good_choice<A: Allocator>(k: u16, of: &[(u8, Expr<A>)]) -> bool
    ensures { result ≡ good_choice k (weighed formula_of of.now) }
{
    if of.len() > 64 {
        return false;
    }
    let mut all = 0u128;
    for (weight, _) in of {
        if *weight == 0 {
            return false;
        }
        all += wide(*weight);
    }
    1 <= k && u128::from(k) <= all
}

/// Returns the first fault of an expression that may have `levels` levels. Subtracts its nodes from `room`, down to 0.
fn fault_within<A: Allocator>(expr: &Expr<A>, levels: u8, room: &mut u32) -> Option<Fault>
    ensures fault { result ≡ shape_fault (formula_of expr.now) levels }
    ensures counted { IfNone result (room.new ≡ room.old - nodes (formula_of expr.now)) }
{
    if levels == 0 {
        return Some(Fault::TooDeep);
    }
    *room = room.saturating_sub(1);
    match expr {
        Expr::Member(member) => {
            if *member < 64 {
                None
            } else {
                Some(Fault::NotAMember)
            }
        }
        Expr::KOf { k, of } => {
            if !is_good_choice(*k, of.as_slice()) {
                return Some(Fault::BadCount);
            }
            for (_, child) in of {
                if let Some(fault) = fault_within(child, levels - 1, room) {
                    return Some(fault);
                }
            }
            None
        }
    }
}

/// Returns whether an expression has at most six levels and 4,096 nodes, only members from 0 to 63, and only valid
/// thresholds: at most 64 children of weights from 1 to 255, and a threshold from 1 to their sum. Allocates nothing.
///
/// # Errors
/// The first fault, outer ones before inner ones and children in order: `TooDeep`, `BadCount` for a threshold, or
/// `NotAMember`. `OverLimit` for more than 4,096 nodes, which are counted last.
pub fn valid<A: Allocator>(expr: &Expr<A>) -> Result<(), Fault>
    ensures ok { OnOk result (expression_fault (formula_of expr.now) ≡ None) }
    ensures err { IfErr result (λ fault. expression_fault (formula_of expr.now) ≡ Some fault) }
{
    // Starts at one more than the limit: room is left exactly if the limit isn't passed.
    let mut room = NODES + 1;
    if let Some(fault) = fault_within(expr, LEVELS, &mut room) {
        return Err(fault);
    }
    if room == 0 {
        return Err(Fault::OverLimit);
    }
    Ok(())
}
