//! Decides whether a claim holds.

ghost use Rattle.std.specs.Prelude.{◌≡◌, ◌≤◌, IfErr, IfOk, IfSome};
ghost use Rattle.volume_model.specs.declared.fault.Fault.TheVariants.{NoMemory};
ghost use Rattle.quorum_checker.specs.Decision.{AreApart, IsCertifying, IsDecision, IsKnown, breadth, common};
ghost use Rattle.refutation.specs.Common.{rule_of};
ghost use Rattle.quorum_checker.specs.Witness.{IsWitnessOf};

use crate::cases::{Ended, split};
use crate::claim::Claim;
use crate::naming::{list_of, members_named};
use crate::showing::{Witness, shows};
use quorum_expr::{Expr, MEMBERS, MemberSet, holds};
use refutation::{Certificate, Refutation};
use std::alloc::{Allocator, Global};
use volume_model::Fault;

/// [`decide`] tries all cases of at most this many common members: the tree then has fewer than 65,536 rules.
const MOST_COMMON: u8 = 15;

/// What is known of a claim.
#[derive(Drop)]
pub enum Decision {
    /// The claim holds; the certificate shows it.
    Holds(Certificate<Global>),
    /// The claim fails; the witness shows it.
    Fails(Witness),
    /// The claim has too many common members to try all cases.
    Unknown,
}

/// Drops members from the greatest down, as long as the expression stays satisfied.
fn trimmed<A: Allocator>(expr: &Expr<A>, members: MemberSet) -> MemberSet {
    let mut kept = members;
    for number in 0..MEMBERS {
        let fewer = kept.without(MEMBERS - 1 - number);
        if holds(expr, fewer) {
            kept = fewer;
        }
    }
    kept
}

/// Returns a witness with fewer members on both sides, or the same one if the smaller sets aren't a witness.
fn trim<A: Allocator>(claim: &Claim<A>, witness: &Witness) -> Witness
    ensures { IsWitnessOf claim.now witness.now → IsWitnessOf claim.now result }
{
    let left = trimmed(&claim.left, witness.left);
    let right = trimmed(&claim.right, witness.right);
    let fewer = Witness { left, right };
    if shows(claim, &fewer) {
        fewer
    } else {
        *witness
    }
}

/// Looks for a witness that gives one side as few members as it needs, and the other side the rest.
pub fn find_witness<A: Allocator>(claim: &Claim<A>) -> Option<Witness>
    ensures { IfSome result (λ w. IsWitnessOf claim.now w) }
{
    let left = trimmed(&claim.left, claim.clear.complement());
    let first = Witness {
        left,
        right: left.complement(),
    };
    if shows(claim, &first) {
        return Some(trim(claim, &first));
    }
    let right = trimmed(&claim.right, MemberSet::empty().complement());
    let second = Witness {
        left: right.complement().difference(claim.clear),
        right,
    };
    if shows(claim, &second) {
        return Some(trim(claim, &second));
    }
    None
}

/// Returns the certificate of a tree, or `Unknown` if it passes a limit.
fn certified(tree: Refutation<Global>) -> Decision
    ensures { IsCertifying (rule_of tree) result }
{
    match Certificate::new(tree) {
        Ok(certificate) => Decision::Holds(certificate),
        Err(_) => Decision::Unknown,
    }
}

/// Returns the members that both sides of a claim name and that the first set may have.
fn common_members<A: Allocator>(claim: &Claim<A>) -> MemberSet
    ensures { result ≡ common claim.now }
{
    let lefts = members_named(&claim.left).difference(claim.clear);
    lefts.intersection(members_named(&claim.right))
}

/// Returns the decision for a claim whose sides are satisfied without these absent members.
fn apart<A: Allocator>(
    claim: &Claim<A>,
    absent_left: MemberSet,
    absent_right: MemberSet,
) -> Decision
    ensures decision { IsDecision claim.now result }
    ensures known { AreApart claim.now absent_left absent_right → IsKnown result }
{
    let witness = Witness {
        left: members_named(&claim.left).difference(absent_left),
        right: members_named(&claim.right).difference(absent_right),
    };
    if shows(claim, &witness) {
        Decision::Fails(trim(claim, &witness))
    } else {
        Decision::Unknown
    }
}

/// Decides a claim by trying all cases of the common members.
fn decide_by_cases<A: Allocator>(alloc: Global, claim: &Claim<A>) -> Result<Decision, Fault>
    ensures decision { IfOk result (IsDecision claim.now) }
    ensures known { breadth claim.now ≤ 15 → IfOk result IsKnown }
    ensures memory { IfErr result (λ e. e ≡ NoMemory) }
{
    let members = list_of(alloc, common_members(claim))?;
    match split(
        alloc,
        claim,
        members.as_slice(),
        claim.clear,
        MemberSet::empty(),
    )? {
        Ended::Refuted(tree) => Ok(certified(tree)),
        Ended::Apart(absent_left, absent_right) => Ok(apart(claim, absent_left, absent_right)),
    }
}

/// Decides a claim: by a witness that is found quickly, or else by all cases of the members that both sides name, if
/// there are at most `most`, and at most 15.
///
/// # Errors
/// [`NoMemory`](Fault::NoMemory) if memory runs out.
pub fn decide<A: Allocator>(alloc: Global, claim: &Claim<A>, most: u8) -> Result<Decision, Fault>
    ensures decision { IfOk result (IsDecision claim.now) }
    ensures known { breadth claim.now ≤ most → breadth claim.now ≤ 15 → IfOk result IsKnown }
    ensures memory { IfErr result (λ e. e ≡ NoMemory) }
{
    if let Some(witness) = find_witness(claim) {
        return Ok(Decision::Fails(witness));
    }
    let breadth = common_members(claim).len();
    if breadth > most || breadth > MOST_COMMON {
        return Ok(Decision::Unknown);
    }
    decide_by_cases(alloc, claim)
}
