//! Witnesses: two sets that show that a claim fails.

ghost use Rattle.std.specs.Prelude.{◌≡◌, true};
ghost use Rattle.std.specs.Ordering.{nat_cmp};
ghost use Rattle.std.specs.FinSet.{FinSet, contains};
ghost use Rattle.volume_model.specs.Common.{AreDisjoint, AreMembers, Formula};
ghost use Rattle.refutation.specs.Common.{Rule};
ghost use Rattle.quorum_checker.specs.Refutes.{Refutes, claim_state};
ghost use Rattle.quorum_checker.specs.Witness.{IsWitness, IsWitnessOf};

use crate::claim::Claim;
use crate::refuted_claim_meets;
use quorum_expr::{MemberSet, holds};
use std::alloc::Allocator;

/// Two sets of members that may show that a claim fails.
#[derive(Clone, Copy, Debug)]
pub struct Witness {
    /// Satisfies the claim's left expression, and has none of the members that the claim excludes there.
    pub left: MemberSet,
    /// Satisfies the claim's right expression.
    pub right: MemberSet,
}

/// Returns whether no member is in both sets.
fn are_disjoint(one: MemberSet, other: MemberSet) -> bool
    ensures disjoint { result ≡ true → AreDisjoint (contains one) (contains other) }
    ensures found { AreDisjoint (contains one) (contains other) → result ≡ true }
    ensures members { AreMembers (contains one) }
{
    // Called for its contract: each member is below 64.
    let _ = one.contains(0);
    one.is_subset(other.complement())
}

/// Returns whether two sets show that a claim fails: they are disjoint and satisfy its two sides, and the first has
/// none of the members that the claim excludes.
pub fn shows<A: Allocator>(claim: &Claim<A>, witness: &Witness) -> bool
    ensures shows { result ≡ true → IsWitnessOf claim.now witness.now }
    ensures found { IsWitnessOf claim.now witness.now → result ≡ true }
{
    // Called for its contract: each member is below 64.
    let _ = witness.right.contains(0);
    if !are_disjoint(witness.left, witness.right) {
        return false;
    }
    if !are_disjoint(witness.left, claim.clear) {
        return false;
    }
    if !holds(&claim.left, witness.left) {
        return false;
    }
    holds(&claim.right, witness.right)
}

/// Proves that a claim that has a witness has no certificate.
pub fn no_certificate()
    ensures { (rule : Rule) (left right : Formula) (clear : FinSet nat_cmp) (w : Witness) → IsWitness left right clear w
        → Refutes rule (claim_state left right clear) → ⊥ }
{
    refuted_claim_meets();
}
