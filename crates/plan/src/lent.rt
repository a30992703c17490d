//! Claims that borrow their plan's expressions.

ghost use Rattle.std.specs.Prelude.{Ok, ◌≡◌, ◌≢◌, Some, OnOk, IfErr};
ghost use Rattle.std.specs.FinSet.{difference};
ghost use Rattle.volume_model.specs.Common.{Gives, dual_of};
ghost use Rattle.quorum_expr.specs.Common.{formula_of};
ghost use Rattle.quorum_checker.specs.Claim.{first_state};
ghost use Rattle.quorum_checker.specs.Refutes.{claim_state, Refutes};
ghost use Rattle.plan.specs.Plan.{configuration_data};
ghost use Rattle.plan.specs.PlanFaults.{meets_claim};

use crate::configurations::Configuration;
use quorum_checker::{Claim, FaultAt, Item, check_lent};
use quorum_expr::{MemberSet, copy_in, dual_in};
use refutation::Certificate;
use std::alloc::{Allocator, Global};
use volume_model::Fault;

/// Returns the `meets` claim of a configuration.
fn meets_claim<B: Allocator + Clone>(
    alloc: B,
    configuration: &Configuration,
) -> Result<Claim<B>, Fault>
    ensures { Gives first_state result (Ok (meets_claim (configuration_data configuration.now))) }
{
    let left = copy_in(&configuration.read, alloc.clone()?)?;
    let right = copy_in(&configuration.write, alloc)?;
    Ok(Claim {
        left,
        right,
        clear: MemberSet::empty(),
    })
}

/// Returns the claim that each read set of the child without fresh members shares a member with each set that satisfies
/// the dual of the parent's read expression.
fn step_claim<B: Allocator + Clone>(
    alloc: B,
    child: &Configuration,
    parent: &Configuration,
) -> Result<Claim<B>, Fault>
    ensures { Gives first_state result
        (Ok (claim_state (formula_of child.now.read) (dual_of (formula_of parent.now.read))
        (difference child.now.members parent.now.members))) }
{
    let left = copy_in(&child.read, alloc.clone()?)?;
    let right = dual_in(&parent.read, alloc)?;
    Ok(Claim {
        left,
        right,
        clear: child.members.difference(parent.members),
    })
}

/// A claim of a configuration, which borrows from the plan: the `step` claim if it has a parent here, else `meets`.
#[derive(Clone, Copy)]
pub struct ClaimRef<'p> {
    /// The number of the configuration's group, from 0.
    pub group: u8,
    /// The number of the configuration in its group, from 0.
    pub configuration: u8,
    /// The configuration.
    pub this: &'p Configuration,
    /// The parent, if this is the `step` claim.
    pub parent: Option<&'p Configuration>,
}

impl ClaimRef<'_> {
    ghost use Rattle.volume_model.specs.declared.fault.Fault.TheVariants.{NoMemory};
    ghost use Rattle.refutation.specs.Common.{certificate_rule};
    ghost use Rattle.quorum_checker.specs.FirstFault.{first_fault};
    ghost use Rattle.plan.specs.LentClaims.{lent_state};

    /// Returns the claim, with copies of its expressions.
    ///
    /// # Errors
    /// `NoMemory` if memory runs out.
    pub fn claim_in<B: Allocator + Clone>(&self, alloc: B) -> Result<Claim<B>, Fault>
        ensures { Gives first_state result (Ok (lent_state self.now)) }
    {
        match self.parent {
            None => meets_claim(alloc, self.this),
            Some(parent) => step_claim(alloc, self.this, parent),
        }
    }

    /// Checks that a certificate refutes the claim. Doesn't copy the expressions.
    ///
    /// # Errors
    /// The certificate's first fault, with its path; or `NoMemory` if memory runs out.
    pub fn check<B: Allocator>(
        &self,
        alloc: Global,
        certificate: &Certificate<B>,
    ) -> Result<(), FaultAt>
        ensures refutes { OnOk result (Refutes (certificate_rule certificate.now) (lent_state self.now)) }
        ensures fault { IfErr result (λ e. e.fault ≢ NoMemory → first_fault (certificate_rule certificate.now)
            (lent_state self.now) ≡ Some e) }
    {
        let left = Item::plain(&self.this.read);
        match self.parent {
            None => {
                let right = Item::plain(&self.this.write);
                check_lent(alloc, left, right, MemberSet::empty(), certificate)
            }
            Some(parent) => {
                let right = Item::dual(&parent.read);
                let clear = self.this.members.difference(parent.members);
                check_lent(alloc, left, right, clear, certificate)
            }
        }
    }
}
