//! Checks plans.

ghost use Rattle.std.specs.Prelude.{◌<◌, ◌≤◌, true, false, is_some, length, map, option_map};
ghost use Rattle.std.specs.FinSet.{difference};
ghost use Rattle.volume_model.specs.Common.{dual_of};
ghost use Rattle.quorum_expr.specs.Common.{formula_of};
ghost use Rattle.refutation.specs.Common.{certificate_rule};
ghost use Rattle.quorum_checker.specs.Refutes.{claim_state};
ghost use Rattle.plan.specs.Plan.{configuration_data, group_data};
ghost use Rattle.plan.specs.PlanFaults.{Finds, certificate_fault, claim_fault, meets_claim, configuration_fault, group_fault, groups_fault};
ghost use Rattle.plan.specs.LentClaims.{lent_state};
ghost use Rattle.plan.specs.CheckedModel.{ChecksTo};
ghost use Rattle.quorum_checker.specs.FirstFault.{first_fault};

use crate::checked::CheckedPlan;
use crate::configurations::{Configuration, Group, Plan};
use crate::fault::PlanFault;
use crate::lent::ClaimRef;
use crate::parents::check_shape;
use quorum_checker::no_fault_refutes;
use refutation::Certificate;
use std::alloc::Global;
use volume_model::Fault;

/// Checks that a certificate refutes a claim.
fn check_certificate(
    alloc: Global,
    claim: &ClaimRef<'_>,
    certificate: &Certificate<Global>,
) -> Result<(), PlanFault>
    ensures { Finds result (certificate_fault claim.now.group claim.now.configuration (is_some claim.now.parent)
        (first_fault (certificate_rule certificate.now) (lent_state claim.now))) }
{
    no_fault_refutes();
    match claim.check(alloc, certificate) {
        Ok(()) => Ok(()),
        Err(at) => match at.fault {
            Fault::NoMemory => Err(PlanFault::Text(Fault::NoMemory)),
            _ => Err(PlanFault::Certificate {
                group: claim.group,
                configuration: claim.configuration,
                step: claim.parent.is_some(),
                at,
            }),
        },
    }
}

/// Checks that the configuration has a certificate that its read sets meet its write sets.
fn check_meets(
    alloc: Global,
    group: u8,
    configuration: u8,
    this: &Configuration,
) -> Result<(), PlanFault>
    ensures { Finds result (claim_fault group configuration false (option_map certificate_rule this.now.meets)
        (meets_claim (configuration_data this.now))) }
{
    match &this.meets {
        None => Err(PlanFault::NoCertificate {
            group,
            configuration,
            step: false,
        }),
        Some(certificate) => {
            let claim = ClaimRef {
                group,
                configuration,
                this,
                parent: None,
            };
            check_certificate(alloc, &claim, certificate)
        }
    }
}

/// Checks that the child has a certificate that its read sets without fresh members are read sets of its parent.
fn check_step(
    alloc: Global,
    group: u8,
    configuration: u8,
    child: &Configuration,
    parent: &Configuration,
) -> Result<(), PlanFault>
    ensures { Finds result (claim_fault group configuration true (option_map certificate_rule child.now.step)
        (claim_state (formula_of child.now.read) (dual_of (formula_of parent.now.read)) (difference child.now.members parent.now.members))) }
{
    match &child.step {
        None => Err(PlanFault::NoCertificate {
            group,
            configuration,
            step: true,
        }),
        Some(certificate) => {
            let claim = ClaimRef {
                group,
                configuration,
                this: child,
                parent: Some(parent),
            };
            check_certificate(alloc, &claim, certificate)
        }
    }
}

/// Returns the first fault of a configuration: of its parent, its fresh members, its `meets` claim and its `step`
/// claim.
fn check_configuration(
    alloc: Global,
    group: u8,
    configurations: &[Configuration],
    configuration: u8,
) -> Result<(), PlanFault>
    requires { configuration < length configurations.now }
    ensures { Finds result (configuration_fault group (map configuration_data configurations.now) configuration) }
{
    check_shape(group, configurations, configuration)?;
    let this = &configurations[usize::from(configuration)];
    check_meets(alloc, group, configuration, this)?;
    match this.parent {
        None => Ok(()),
        Some(parent) => check_step(
            alloc,
            group,
            configuration,
            this,
            &configurations[parent as usize],
        ),
    }
}

/// Returns the first fault of a group's configurations.
fn check_group(alloc: Global, group: u8, configurations: &[Configuration]) -> Result<(), PlanFault>
    requires { length configurations.now ≤ 64 }
    ensures { Finds result (group_fault group (map configuration_data configurations.now)) }
{
    for configuration in 0..configurations.len() as u8 {
        check_configuration(alloc, group, configurations, configuration)?;
    }
    Ok(())
}

/// Returns the first fault of all groups.
fn check_groups(alloc: Global, groups: &[Group]) -> Result<(), PlanFault>
    requires { length groups.now ≤ 16 }
    ensures { Finds result (groups_fault (map group_data groups.now)) }
{
    for group in 0..groups.len() as u8 {
        check_group(alloc, group, &groups[usize::from(group)].configurations)?;
    }
    Ok(())
}

/// Checks a plan, and returns it as a checked one.
///
/// # Errors
/// The plan's first fault, with the plan. For each configuration in order: [`PlanFault::BadParent`], then
/// [`PlanFault::MemberReused`], then [`PlanFault::NoCertificate`] or [`PlanFault::Certificate`] of its `meets` claim,
/// then those of its `step` claim.
#[tactic(auto, unfolding(crate::specs::PlanFaults::plan_fault))]
pub fn check_plan(alloc: Global, plan: Plan) -> Result<CheckedPlan, (PlanFault, Plan)>
    ensures { ChecksTo result plan }
{
    match check_groups(alloc, &plan.groups) {
        Ok(()) => Ok(CheckedPlan::trusted(plan)),
        Err(fault) => Err((fault, plan)),
    }
}
