//! Quorum expressions and their meaning.

ghost use Rattle.std.specs.Prelude.{◌≡◌, ◌≤◌};
ghost use Rattle.std.specs.FinSet as set;
ghost use Rattle.volume_model.specs.Common.{sat, dual_of};
ghost use Rattle.quorum_expr.specs.Expr.{formula_of};

use crate::MemberSet;
use std::alloc::Allocator;

/// A member of a group, or a threshold over weighted expressions.
#[derive(Drop)]
pub enum Expr<A: Allocator> {
    /// The member with this number.
    Member(u8),
    /// The weights of the satisfied expressions add up to at least the threshold.
    KOf {
        /// The threshold.
        k: u16,
        /// The expressions, each with its weight.
        of: Vec<(u8, Expr<A>), A>,
    },
}

/// Returns a weight as a `u128`, so that sums of weights don't overflow.
pub fn wide(weight: u8) -> u128
    ensures same { result ≡ weight }
    ensures small { result ≤ 255 }
{
    u128::from(weight)
}

/// Returns whether a set of members satisfies an expression.
pub fn holds<A: Allocator>(expr: &Expr<A>, members: MemberSet) -> bool
    ensures { result ≡ sat (formula_of expr.now) (set.contains members) }
{
    match expr {
        Expr::Member(member) => members.contains(*member),
        Expr::KOf { k, of } => {
            let mut missing = *k;
            for (weight, child) in of {
                let is_held = match child {
                    Expr::Member(member) => members.contains(*member),
                    Expr::KOf { .. } => holds(child, members),
                };
                if is_held {
                    missing = missing.saturating_sub(u16::from(*weight));
                }
            }
            missing == 0
        }
    }
}

/// Returns whether a set of members satisfies the dual of an expression.
pub fn holds_dual<A: Allocator>(expr: &Expr<A>, members: MemberSet) -> bool
    ensures { result ≡ sat (dual_of (formula_of expr.now)) (set.contains members) }
{
    match expr {
        Expr::Member(member) => members.contains(*member),
        Expr::KOf { k, of } => {
            let (mut held, mut all) = (0u128, 0u128);
            for (weight, child) in of {
                all += wide(*weight);
                if holds_dual(child, members) {
                    held += wide(*weight);
                }
            }
            all < held + u128::from(*k)
        }
    }
}
