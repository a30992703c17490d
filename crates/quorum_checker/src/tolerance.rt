//! How many members an expression can lose.

ghost use Rattle.std.specs.Prelude.{◌≡◌, ℕ, ◌+◌, ◌<◌, ◌≤◌, None, IfErr, IfNone, IfOk, IfSome, IsSome, length};
ghost use Rattle.std.specs.FinSet.{contains, difference, insert};
ghost use Rattle.volume_model.specs.declared.fault.Fault.TheVariants.{NoMemory};
ghost use Rattle.quorum_expr.specs.Common.{formula_of, expression_fault};
ghost use Rattle.quorum_checker.specs.Cases.{AreSmall};
ghost use Rattle.quorum_checker.specs.Tolerance.{IsLeastAfter, IsLeastLoss, IsLoss, all_of, count_of, evaluations, is_stopping};

use crate::naming::list_of;
use crate::plain::plain_loss;
use quorum_expr::{Expr, MEMBERS, MemberSet, holds};
use std::alloc::{Allocator, Global};
use volume_model::Fault;

/// Members that are lost.
#[derive(Drop)]
struct Loss {
    gone: MemberSet,
    /// The number of lost members.
    size: u8,
}

impl Loss {
    /// Returns the loss of one more member.
    fn with(&self, member: u8) -> Loss
        requires member { member < 64 }
        requires room { self.now.size < 255 }
        requires counted { count_of self.now.gone ≤ self.now.size }
        ensures gone { result.gone ≡ insert self.now.gone member }
        ensures size { result.size ≡ self.now.size + 1 }
        ensures counted { count_of result.gone ≤ result.size }
    {
        Loss {
            gone: self.gone.with(member),
            size: self.size + 1,
        }
    }
}

/// Returns the number of members of a set.
#[tactic(auto, unfolding(crate::specs::Tolerance::count_of))]
pub(crate) fn count(members: MemberSet) -> u8
    ensures { result ≡ count_of members }
{
    members.len()
}

/// Returns the members of a set, in growing order.
#[tactic(auto, unfolding(crate::specs::Tolerance::all_of))]
fn list_all(alloc: Global, members: MemberSet) -> Result<Vec<u8>, Fault>
    ensures listed { IfOk result (λ v. v.items ≡ all_of members) }
    ensures memory { IfErr result (λ e. e ≡ NoMemory) }
{
    list_of(alloc, members)
}

/// Returns the smallest loss that consists of `gone` and some of `rest` and stops the expression, or `best` if none is
/// smaller. Returns `None` if `steps` runs out.
fn smallest<A: Allocator>(
    expr: &Expr<A>,
    members: MemberSet,
    rest: &[u8],
    gone: &Loss,
    best: Loss,
    steps: &mut u64,
) -> Option<Loss>
    requires small { AreSmall rest.now }
    requires room { gone.now.size + length rest.now < 255 }
    requires gone { count_of gone.now.gone ≤ gone.now.size }
    requires best { IsLoss (formula_of expr.now) members best.gone best.size }
    ensures loss { IfSome result (λ r. IsLoss (formula_of expr.now) members r.gone r.size) }
    ensures least { IfSome result (λ r. IsLeastAfter (formula_of expr.now) (difference members gone.now.gone) rest.now
        gone.now.size best.size r.size) }
    ensures spent { IfSome result (λ r. steps.old ≤ steps.new + evaluations (length rest.now)) }
    ensures stuck { IfNone result (steps.old < evaluations (length rest.now)) }
{
    if best.size <= gone.size {
        return Some(best);
    }
    if *steps == 0 {
        return None;
    }
    *steps -= 1;
    let left = members.difference(gone.gone);
    if !holds(expr, left) {
        return Some(Loss {
            gone: gone.gone,
            size: gone.size,
        });
    }
    let [member, others @ ..] = rest else {
        return Some(best);
    };
    let more = gone.with(*member);
    let found = smallest(expr, members, others, &more, best, steps)?;
    smallest(expr, members, others, gone, found, steps)
}

/// Returns a smallest set of members whose loss stops an expression: each loss of fewer members leaves it satisfied.
/// Returns nothing if more than `budget` sets would have to be tried, which 20 members never need with 2,097,151. None
/// is tried for a threshold over different members that weigh one each.
///
/// # Errors
/// [`NoMemory`](Fault::NoMemory).
pub fn stopping_set<A: Allocator>(
    alloc: Global,
    expr: &Expr<A>,
    members: MemberSet,
    budget: u64,
) -> Result<Option<MemberSet>, Fault>
    ensures least { IfOk result (λ found. IfSome found (IsLeastLoss (formula_of expr.now) members)) }
    ensures known { expression_fault (formula_of expr.now) ≡ None → evaluations (count_of members) ≤ budget
        → IfOk result (λ found. IsSome found) }
    ensures memory { IfErr result (λ e. e ≡ NoMemory) }
{
    if let Some(lost) = plain_loss(expr, members) {
        return Ok(Some(lost));
    }
    // Called for its contract: each member is below 64.
    let _ = members.contains(0);
    if holds(expr, MemberSet::empty()) {
        return Ok(None);
    }
    let list = list_all(alloc, members)?;
    let none = Loss {
        gone: MemberSet::empty(),
        size: 0,
    };
    let all = Loss {
        gone: members,
        size: count(members),
    };
    let mut steps = budget;
    match smallest(expr, members, list.as_slice(), &none, all, &mut steps) {
        Some(loss) => Ok(Some(loss.gone)),
        None => Ok(None),
    }
}

/// Returns whether the loss of one member stops an expression.
fn is_critical<A: Allocator>(expr: &Expr<A>, members: MemberSet, member: u8) -> bool
    requires { member < 64 }
    ensures { result ≡ is_stopping (formula_of expr.now) members member }
{
    if !members.contains(member) {
        return false;
    }
    !holds(expr, members.without(member))
}

/// Returns the members whose loss alone stops an expression.
pub fn stopping_members<A: Allocator>(expr: &Expr<A>, members: MemberSet) -> MemberSet
    ensures { (x : ℕ) → contains result x ≡ is_stopping (formula_of expr.now) members x }
{
    // Called for its contract: each member is below 64.
    let _ = members.contains(0);
    let mut stopping = MemberSet::empty();
    for member in 0..MEMBERS {
        if is_critical(expr, members, member) {
            stopping = stopping.with(member);
        }
    }
    stopping
}
