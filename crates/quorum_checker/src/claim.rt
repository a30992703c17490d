//! Claims, which certificates refute or not.

ghost use Rattle.std.specs.Prelude.{◌≡◌, None};
ghost use Rattle.quorum_expr.specs.Common.{formula_of, expression_fault};

use quorum_expr::{Expr, MemberSet};
use std::alloc::Allocator;

/// The claim that each set that satisfies the left expression and has none of the `clear` members shares a member with
/// each set that satisfies the right expression. Both expressions are valid.
#[derive(Drop)]
pub struct Claim<A: Allocator> {
    /// The expression that the first set satisfies.
    pub left: Expr<A>,
    /// The expression that the second set satisfies.
    pub right: Expr<A>,
    /// The members that the first set doesn't have.
    pub clear: MemberSet,
    pub ghost left_valid: { expression_fault (formula_of left) ≡ None },
    pub ghost right_valid: { expression_fault (formula_of right) ≡ None },
}
