//! Facts about the configurations of a plan.

ghost use Rattle.std.specs.Prelude.{◌≡◌};
ghost use Rattle.std.specs.FinSet.{contains, intersection};
ghost use Rattle.volume_model.specs.Common.{sat};
ghost use Rattle.quorum_expr.specs.Common.{formula_of};

use crate::claims::{answer_claim, claim_facts};
use crate::facts::{ClaimFacts, ConfigurationFacts, Members, StepFacts};
use crate::survival::quorum_facts;
use plan::{ClaimRef, Configuration, Plan, PlanFault, lent_claims};
use quorum_expr::holds;
use std::alloc::Global;
use volume_model::Fault;

/// How many members and thresholds are looked at to find what the expressions of a plan survive, and whether its claims
/// hold.
const LOOKS: u64 = 150_000_000;

/// Returns what is known of the configuration of a claim that read sets meet write sets.
fn configuration_facts(
    alloc: Global,
    claim: &ClaimRef<'_>,
    budget: u64,
) -> Result<ConfigurationFacts, Fault> {
    let this = claim.this;
    let read = quorum_facts(alloc, &this.read, this.members, budget)?;
    let write = quorum_facts(alloc, &this.write, this.members, budget)?;
    let meets = answer_claim(alloc, claim, this.meets.as_ref(), budget)?;
    Ok(ConfigurationFacts {
        group: claim.group,
        configuration: claim.configuration,
        members: Members(this.members),
        full: Members(this.full),
        tail: Members(this.members.difference(this.full)),
        read,
        write,
        meets: claim_facts(&meets),
        step: None,
    })
}

/// Returns whether the members that are those of a parent too satisfy the read expression. Only they can be whole when
/// an advance leads to the configuration.
fn kept_can_read(this: &Configuration, parent: &Configuration) -> bool
    ensures { result ≡ sat (formula_of this.now.read) (contains (intersection this.now.members parent.now.members)) }
{
    holds(&this.read, this.members.intersection(parent.members))
}

/// Returns what is known of a step.
fn step_facts(this: &Configuration, parent: &Configuration, claim: ClaimFacts) -> StepFacts {
    StepFacts {
        parent: this.parent,
        adds: Members(this.members.difference(parent.members)),
        drops: Members(parent.members.difference(this.members)),
        kept_can_read: kept_can_read(this, parent),
        claim,
    }
}

/// Appends what is known of a claim: a configuration, or the step to the last one.
fn add_claim(
    alloc: Global,
    configurations: &mut Vec<ConfigurationFacts>,
    claim: &ClaimRef<'_>,
    budget: u64,
) -> Result<(), Fault> {
    let this = claim.this;
    let Some(parent) = claim.parent else {
        configurations.push(configuration_facts(alloc, claim, budget)?)?;
        return Ok(());
    };
    let answer = answer_claim(alloc, claim, this.step.as_ref(), budget)?;
    if let Some(last) = configurations.last_mut() {
        last.step = Some(step_facts(this, parent, claim_facts(&answer)));
    }
    Ok(())
}

/// Returns the facts about each configuration of a plan: its members, what its expressions require and survive, its
/// step, and whether its claims hold. All claims are decided, also after the first without a certificate.
///
/// # Errors
/// The plan's first fault of parents or fresh members, or [`NoMemory`](Fault::NoMemory).
pub fn plan_facts(alloc: Global, plan: &Plan) -> Result<Vec<ConfigurationFacts>, PlanFault> {
    let claims = lent_claims(alloc, plan)?;
    let budget = LOOKS / (claims.len() as u64).max(1);
    let mut configurations = Vec::new(alloc);
    for claim in &claims {
        add_claim(alloc, &mut configurations, claim, budget)?;
    }
    Ok(configurations)
}
