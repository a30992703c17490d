//! The search by cases: each member is absent from one or the other of two disjoint sets.

ghost use Rattle.std.specs.Prelude.{◌≡◌, IfOk, IfErr};
ghost use Rattle.volume_model.specs.declared.fault.Fault.TheVariants.{NoMemory};
ghost use Rattle.quorum_expr.specs.Common.{formula_of};
ghost use Rattle.quorum_checker.specs.Cases.{AreSmall, both, cases, refuted};
ghost use Rattle.refutation.specs.Rule as rules;
ghost use Rattle.refutation.specs.Common.{rule_of};
ghost use Rattle.quorum_checker.specs.Decision.{cases_of};

use crate::claim::Claim;
use quorum_expr::{MemberSet, holds};
use refutation::{Refutation, Side};
use std::alloc::{Allocator, Global};
use volume_model::Fault;

/// The result of trying all cases.
#[derive(Drop)]
pub(crate) enum Ended {
    /// A refutation.
    Refuted(Refutation<Global>),
    /// The members absent from each of two sets that satisfy their sides.
    Apart(MemberSet, MemberSet),
}

/// Returns the rule that the side can't be satisfied.
fn dead(side: Side) -> Ended
    ensures { cases_of result ≡ refuted (rules.dead side 0) }
{
    Ended::Refuted(Refutation::Dead { side, item: 0 })
}

/// Returns the result of both cases of a member.
fn join(
    alloc: Global,
    member: u8,
    left: Refutation<Global>,
    right: Refutation<Global>,
) -> Result<Ended, Fault>
    ensures joined { IfOk result
        (λ ended. cases_of ended ≡ refuted (rules.split member (rule_of left) (rule_of right))) }
    ensures memory { IfErr result (λ e. e ≡ NoMemory) }
{
    let left = Box::new(alloc, left)?;
    let right = Box::new(alloc, right)?;
    Ok(Ended::Refuted(Refutation::Split {
        member,
        left,
        right,
    }))
}

/// Tries all cases of these members. `absent_left` and `absent_right` are the members absent so far.
pub(crate) fn split<A: Allocator>(
    alloc: Global,
    claim: &Claim<A>,
    members: &[u8],
    absent_left: MemberSet,
    absent_right: MemberSet,
) -> Result<Ended, Fault>
    requires { AreSmall members.now }
    ensures cases { IfOk result (λ ended. cases_of ended ≡ cases members.now (formula_of claim.now.left)
        (formula_of claim.now.right) absent_left absent_right) }
    ensures memory { IfErr result (λ e. e ≡ NoMemory) }
{
    if !holds(&claim.left, absent_left.complement()) {
        return Ok(dead(Side::Left));
    }
    if !holds(&claim.right, absent_right.complement()) {
        return Ok(dead(Side::Right));
    }
    let [member, others @ ..] = members else {
        return Ok(Ended::Apart(absent_left, absent_right));
    };
    let left = match split(
        alloc,
        claim,
        others,
        absent_left.with(*member),
        absent_right,
    )? {
        Ended::Refuted(left) => left,
        Ended::Apart(one, other) => return Ok(Ended::Apart(one, other)),
    };
    let right = match split(
        alloc,
        claim,
        others,
        absent_left,
        absent_right.with(*member),
    )? {
        Ended::Refuted(right) => right,
        Ended::Apart(one, other) => return Ok(Ended::Apart(one, other)),
    };
    join(alloc, *member, left, right)
}
