//! Decides whether a certificate refutes a claim, and finds the witness of a claim that has none: two disjoint sets.
//! Finds the smallest losses that stop an expression.
#![tactic(auto)]

ghost use Rattle.std.specs.Prelude.{◌≡◌, ◌≢◌, None, Some, OnOk, IfErr};
ghost use Rattle.std.specs.Ordering.{nat_cmp};
ghost use Rattle.std.specs.FinSet.{FinSet};
ghost use Rattle.volume_model.specs.Common.{Formula, Meets};
ghost use Rattle.quorum_expr.specs.Common.{formula_of};
ghost use Rattle.refutation.specs.Common.{Rule, certificate_rule};
ghost use Rattle.quorum_checker.specs.Refutes.{Refutes, State, claim_state};
ghost use Rattle.quorum_checker.specs.Claim.{first_state};
ghost use Rattle.quorum_checker.specs.FirstFault.{first_fault};
ghost use Rattle.quorum_checker.specs.Items.{shown};

mod cases;
mod claim;
mod deciding;
mod fault;
mod item;
mod items;
mod naming;
mod node;
mod path;
mod plain;
mod rules;
mod showing;
mod tolerance;
mod weights;

pub use claim::Claim;
pub use deciding::{Decision, decide, find_witness};
pub use fault::FaultAt;
pub use item::Item;
use items::Items;
pub use naming::members_named;
pub use node::children;
pub use path::Path;
use quorum_expr::MemberSet;
use refutation::Certificate;
use rules::check_rule;
pub use showing::{Witness, no_certificate, shows};
use std::alloc::{Allocator, Global};
pub use tolerance::{stopping_members, stopping_set};
use volume_model::Fault;

/// Checks that a certificate refutes a claim. Allocates only the lists of items.
///
/// # Errors
/// The certificate's first fault, numbered from 20 to 27, with its path; or `NoMemory` if memory runs out.
pub fn check<A: Allocator, B: Allocator>(
    alloc: Global,
    claim: &Claim<A>,
    certificate: &Certificate<B>,
) -> Result<(), FaultAt>
    // Ok exactly if the certificate refutes the claim, unless memory runs out.
    ensures refutes { OnOk result (Refutes (certificate_rule certificate.now) (first_state claim.now)) }
    ensures accepted { IfErr result
        (λ e. e.fault ≢ Fault.NoMemory → ¬ (Refutes (certificate_rule certificate.now) (first_state claim.now))) }
    ensures fault { IfErr result (λ e. e.fault ≢ Fault.NoMemory → first_fault (certificate_rule certificate.now)
        (first_state claim.now) ≡ Some e) }

    // The meaning of Ok, for all sets.
    ensures meets { OnOk result (Meets (formula_of claim.now.left) (formula_of claim.now.right) claim.now.clear) }
{
    let left = Item::plain(&claim.left);
    let right = Item::plain(&claim.right);
    check_lent(alloc, left, right, claim.clear, certificate)
}

/// Checks that a certificate refutes the claim that each set that satisfies the left item and has none of the `clear`
/// members shares a member with each set that satisfies the right item.
///
/// # Errors
/// Those of [`check`].
pub fn check_lent<A: Allocator, B: Allocator>(
    alloc: Global,
    left: Item<'_, A>,
    right: Item<'_, A>,
    clear: MemberSet,
    certificate: &Certificate<B>,
) -> Result<(), FaultAt>
    // Ok exactly if the certificate refutes the claim, unless memory runs out.
    ensures refutes { OnOk result (Refutes (certificate_rule certificate.now)
        (claim_state (shown left.entry) (shown right.entry) clear)) }
    ensures accepted { IfErr result
        (λ e. e.fault ≢ Fault.NoMemory → ¬ (Refutes (certificate_rule certificate.now)
        (claim_state (shown left.entry) (shown right.entry) clear))) }
    ensures fault { IfErr result (λ e. e.fault ≢ Fault.NoMemory → first_fault (certificate_rule certificate.now)
        (claim_state (shown left.entry) (shown right.entry) clear) ≡ Some e) }

    // The meaning of Ok, for all sets.
    ensures meets { OnOk result (Meets (shown left.entry) (shown right.entry) clear) }
{
    let mut items = Items::of_claim(alloc, left, right, clear)?;
    check_rule(certificate.tree(), &mut items)
}

/// Proves that a refuted claim is true: each set that satisfies its left expression and has none of the `clear` members
/// shares a member with each set that satisfies its right expression.
pub fn refuted_claim_meets()
    ensures { (rule : Rule) (left right : Formula) (clear : FinSet nat_cmp) → Refutes rule
        (claim_state left right clear) → Meets left right clear }
{}

/// Proves that no fault is found exactly if the rule refutes the state.
pub fn no_fault_refutes()
    ensures refutes { (rule : Rule) (state : State) → first_fault rule state ≡ None → Refutes rule state }
    ensures accepted { (rule : Rule) (state : State) → Refutes rule state → first_fault rule state ≡ None }
{}
