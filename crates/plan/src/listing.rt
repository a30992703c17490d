//! Lists a plan's claims.

ghost use Rattle.std.specs.Prelude.{◌≡◌, ◌<◌, ◌≤◌, IfErr, IsOk, Ok, length, map};
ghost use Rattle.volume_model.specs.declared.fault.Fault.TheVariants.{NoMemory};
ghost use Rattle.plan.specs.FaultKinds.{kind_of};
ghost use Rattle.plan.specs.Plan.{configuration_data, group_data, plan_data};
ghost use Rattle.plan.specs.PlanText.{Reads};
ghost use Rattle.plan.specs.NamedClaims.{all_placed};
ghost use Rattle.plan.specs.LentClaims.{all_lent};
ghost use Rattle.plan.specs.PlanClaims.{configuration_claims, group_claims, claims_of_groups, claims_in};

use crate::configurations::{Configuration, Group, Plan};
use crate::fault::PlanFault;
use crate::lent::ClaimRef;
use crate::parents::check_shape;
use crate::placed::NamedClaim;
use crate::shapes::check_shapes;
use std::alloc::Global;

/// Returns the claims of a configuration.
fn of_configuration<'p>(
    alloc: Global,
    group: u8,
    configurations: &'p [Configuration],
    configuration: u8,
) -> Result<Vec<ClaimRef<'p>>, PlanFault>
    requires { configuration < length configurations.now }
    ensures { Reads (λ v. all_lent v.items) result
        (configuration_claims group (map configuration_data configurations.entry.now) configuration) }
{
    check_shape(group, configurations, configuration)?;
    let this = &configurations[usize::from(configuration)];
    let mut list = Vec::new(alloc);
    list.push(ClaimRef {
        group,
        configuration,
        this,
        parent: None,
    })?;
    let Some(parent) = this.parent else {
        return Ok(list);
    };
    list.push(ClaimRef {
        group,
        configuration,
        this,
        parent: Some(&configurations[parent as usize]),
    })?;
    Ok(list)
}

/// Returns the claims of a group's configurations.
fn of_group<'p>(
    alloc: Global,
    group: u8,
    configurations: &'p [Configuration],
) -> Result<Vec<ClaimRef<'p>>, PlanFault>
    requires { length configurations.now ≤ 64 }
    ensures { Reads (λ v. all_lent v.items) result
        (group_claims group (map configuration_data configurations.entry.now)) }
{
    let mut list = Vec::new(alloc);
    for configuration in 0..configurations.len() as u8 {
        let mut claims = of_configuration(alloc, group, configurations, configuration)?;
        list.append(&mut claims)?;
    }
    Ok(list)
}

/// Returns the claims of all groups.
fn of_groups<'p>(alloc: Global, groups: &'p [Group]) -> Result<Vec<ClaimRef<'p>>, PlanFault>
    requires { length groups.now ≤ 16 }
    ensures { Reads (λ v. all_lent v.items) result (claims_of_groups (map group_data groups.entry.now)) }
{
    let mut list = Vec::new(alloc);
    for group in 0..groups.len() as u8 {
        let mut claims = of_group(alloc, group, &groups[usize::from(group)].configurations)?;
        list.append(&mut claims)?;
    }
    Ok(list)
}

/// Returns the claims of a plan, which borrow from it, in order of group and configuration; `meets` before `step`.
///
/// # Errors
/// The first [`PlanFault::BadParent`] or [`PlanFault::MemberReused`], which is found before anything is allocated; else
/// `NoMemory` if memory runs out.
#[tactic(auto, unfolding(crate::specs::PlanClaims::claims_in))]
pub fn lent_claims<'p>(alloc: Global, plan: &'p Plan) -> Result<Vec<ClaimRef<'p>>, PlanFault>
    ensures claims { Reads (λ v. all_lent v.items) result (claims_in (plan_data plan.entry.now)) }
    ensures memory { IfErr result (λ e. kind_of e ≡ NoMemory → IsOk (claims_in (plan_data plan.entry.now))) }
{
    check_shapes(&plan.groups)?;
    of_groups(alloc, &plan.groups)
}

/// Returns the claims with copies of their expressions.
fn named(alloc: Global, lent: &[ClaimRef<'_>]) -> Result<Vec<NamedClaim>, PlanFault>
    ensures { Reads (λ v. all_placed v.items) result (Ok (all_lent lent.now)) }
{
    let mut list = Vec::new(alloc);
    for claim in lent {
        list.push(NamedClaim {
            group: claim.group,
            configuration: claim.configuration,
            step: claim.parent.is_some(),
            claim: claim.claim_in(alloc)?,
        })?;
    }
    Ok(list)
}

/// Returns the claims of a plan with copies of their expressions, in the order of [`lent_claims`].
///
/// # Errors
/// Those of [`lent_claims`].
pub fn claims(alloc: Global, plan: &Plan) -> Result<Vec<NamedClaim>, PlanFault>
    ensures claims { Reads (λ v. all_placed v.items) result (claims_in (plan_data plan.now)) }
    ensures memory { IfErr result (λ e. kind_of e ≡ NoMemory → IsOk (claims_in (plan_data plan.now))) }
{
    let lent = lent_claims(alloc, plan)?;
    named(alloc, lent.as_slice())
}
