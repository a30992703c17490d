//! Expressions made from others: copies and duals.

ghost use Rattle.std.specs.Prelude.{◌≡◌, IfOk, Ok, None, not};
ghost use Rattle.volume_model.specs.Common.{Gives, Members, sat, dual_of, HasCounts};
ghost use Rattle.quorum_expr.specs.Expr.{formula_of};
ghost use Rattle.quorum_expr.specs.Valid.{expression_fault};

use crate::expression::{Expr, wide};
use std::alloc::Allocator;
use volume_model::Fault;

/// Copies an expression into another allocator.
///
/// # Errors
/// `NoMemory` if memory runs out.
pub fn copy_in<A: Allocator, B: Allocator + Clone>(
    expr: &Expr<A>,
    alloc: B,
) -> Result<Expr<B>, Fault>
    ensures { Gives formula_of result (Ok (formula_of expr.now)) }
{
    match expr {
        Expr::Member(member) => Ok(Expr::Member(*member)),
        Expr::KOf { k, of } => {
            let mut copies = Vec::new(alloc.clone()?);
            for (weight, child) in of {
                copies.push((*weight, copy_in(child, alloc.clone()?)?))?;
            }
            Ok(Expr::KOf { k: *k, of: copies })
        }
    }
}

/// Returns the dual of an expression with valid thresholds.
fn dual_formula<A: Allocator, B: Allocator + Clone>(
    expr: &Expr<A>,
    alloc: B,
) -> Result<Expr<B>, Fault>
    requires { HasCounts (formula_of expr.now) }
    ensures { Gives formula_of result (Ok (dual_of (formula_of expr.now))) }
{
    match expr {
        Expr::Member(member) => Ok(Expr::Member(*member)),
        Expr::KOf { k, of } => {
            let mut duals = Vec::new(alloc.clone()?);
            let mut all = 0u128;
            for (weight, child) in of {
                all += wide(*weight);
                duals.push((*weight, dual_formula(child, alloc.clone()?)?))?;
            }
            Ok(Expr::KOf {
                k: (all + 1 - u128::from(*k)) as u16,
                of: duals,
            })
        }
    }
}

/// Returns the dual of a valid expression: a set satisfies it exactly if its complement doesn't satisfy the given one.
///
/// # Errors
/// `NoMemory` if memory runs out.
pub fn dual_in<A: Allocator, B: Allocator + Clone>(
    expr: &Expr<A>,
    alloc: B,
) -> Result<Expr<B>, Fault>
    requires { expression_fault (formula_of expr.now) ≡ None }
    ensures dual { Gives formula_of result (Ok (dual_of (formula_of expr.now))) }
    ensures law { IfOk result (λ dual. (s : Members) → sat (formula_of dual) s
        ≡ not (sat (formula_of expr.now) (λ x. not (s x)))) }
    ensures valid { IfOk result (λ dual. expression_fault (formula_of dual) ≡ None) }
{
    dual_formula(expr, alloc)
}
