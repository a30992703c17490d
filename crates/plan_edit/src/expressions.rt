//! Expressions over members of which one was replaced.

ghost use Rattle.std.specs.Prelude.{◌≡◌, Ok, true};
ghost use Rattle.volume_model.specs.Common.{Gives};
ghost use Rattle.quorum_expr.specs.Common.{formula_of};
ghost use Rattle.plan_edit.specs.Renamed.{renamed, two_of};

use quorum_expr::{Expr, copy_in};
use std::alloc::Global;
use volume_model::Fault;

/// Returns an expression with the member `new` in the places of `old`.
///
/// # Errors
/// `NoMemory` if memory runs out.
pub fn renamed(alloc: Global, expr: &Expr<Global>, old: u8, new: u8) -> Result<Expr<Global>, Fault>
    ensures { Gives formula_of result (Ok (renamed old new (formula_of expr.now))) }
{
    match expr {
        Expr::Member(member) => Ok(Expr::Member(if *member == old { new } else { *member })),
        Expr::KOf { k, of } => {
            let mut others = Vec::new(alloc);
            for (weight, child) in of {
                others.push((*weight, renamed(alloc, child, old, new)?))?;
            }
            Ok(Expr::KOf { k: *k, of: others })
        }
    }
}

/// Returns the expression that holds if `k` of two expressions hold: the given one, and the one in which `new` replaces
/// `old`.
///
/// # Errors
/// `NoMemory` if memory runs out.
pub fn joined(
    alloc: Global,
    k: u16,
    expr: &Expr<Global>,
    old: u8,
    new: u8,
) -> Result<Expr<Global>, Fault>
    ensures { Gives formula_of result
        (Ok (two_of k (formula_of expr.now) (renamed old new (formula_of expr.now)))) }
{
    let mut of = Vec::with_capacity(alloc, 2)?;
    of.push((1, copy_in(expr, alloc)?))?;
    of.push((1, renamed(alloc, expr, old, new)?))?;
    Ok(Expr::KOf { k, of })
}

/// Returns whether two expressions are the same.
pub fn are_same(left: &Expr<Global>, right: &Expr<Global>) -> bool
    ensures { result ≡ true → formula_of left.now ≡ formula_of right.now }
{
    match left {
        Expr::Member(member) => match right {
            Expr::Member(other) => *member == *other,
            Expr::KOf { .. } => false,
        },
        Expr::KOf { k, of } => {
            let Expr::KOf {
                k: other,
                of: others,
            } = right
            else {
                return false;
            };
            if *k != *other || of.len() != others.len() {
                return false;
            }
            let (of, others) = (of.as_slice(), others.as_slice());
            for i in 0..of.len() {
                let (here, there) = (&of[i], &others[i]);
                if here.0 != there.0 || !are_same(&here.1, &there.1) {
                    return false;
                }
            }
            true
        }
    }
}
