//! Thresholds over different members that weigh one each.

ghost use Rattle.std.specs.Prelude.{◌≡◌, IfSome, true};
ghost use Rattle.std.specs.FinSet.{empty};
ghost use Rattle.quorum_expr.specs.Common.{formula_of, weighed};
ghost use Rattle.quorum_checker.specs.PlainChildren.{are_plain};
ghost use Rattle.quorum_checker.specs.Tolerance.{IsLeastLoss};

use crate::naming::members_named;
use crate::tolerance::count;
use quorum_expr::{Expr, MEMBERS, MemberSet, holds};
use std::alloc::Allocator;

/// Returns whether children are different members of a set that weigh one each.
fn are_plain<A: Allocator>(of: &[(u8, Expr<A>)], members: MemberSet) -> bool
    ensures { result ≡ true → are_plain (weighed formula_of of.now) members empty ≡ true }
{
    let mut seen = MemberSet::empty();
    for (weight, child) in of {
        let Expr::Member(member) = child else {
            return false;
        };
        if *weight != 1 || !members.contains(*member) || seen.contains(*member) {
            return false;
        }
        seen = seen.with(*member);
    }
    true
}

/// Returns the least members of a set, this many if it has as many.
fn least_members(members: MemberSet, count: usize) -> MemberSet {
    let mut least = MemberSet::empty();
    let mut left = count;
    for member in 0..MEMBERS {
        if left > 0 && members.contains(member) {
            least = least.with(member);
            left -= 1;
        }
    }
    least
}

/// Returns a smallest set of members whose loss stops a threshold over different members that weigh one each, and
/// nothing for any other expression. A threshold of k of n members survives the loss of n - k.
pub(crate) fn plain_loss<A: Allocator>(expr: &Expr<A>, members: MemberSet) -> Option<MemberSet>
    ensures { IfSome result (IsLeastLoss (formula_of expr.now) members) }
{
    // (its contract says that each member is below 64)
    let _ = members.contains(0);
    let Expr::KOf { k, of } = expr else {
        return None;
    };
    if !are_plain(of.as_slice(), members) {
        return None;
    }
    let most = of.len().saturating_add(1);
    let lost = least_members(members_named(expr), most.saturating_sub(usize::from(*k)));
    let is_least = usize::from(count(lost)).saturating_add(usize::from(*k)) <= most;
    if is_least && !holds(expr, members.difference(lost)) {
        Some(lost)
    } else {
        None
    }
}
