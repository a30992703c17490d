//! Checks whether configurations may have claims: their parents and their fresh members. Allocates nothing.

ghost use Rattle.std.specs.Prelude.{◌<◌, ◌≤◌, length, map};
ghost use Rattle.plan.specs.Plan.{configuration_data, group_data};
ghost use Rattle.plan.specs.PlanClaims.{configuration_claims, group_claims, claims_of_groups};
ghost use Rattle.plan.specs.Shapes.{Admits};

use crate::configurations::{Configuration, Group};
use crate::fault::PlanFault;
use crate::parents::fault_of_shape;

/// Checks the parent and the fresh members of a configuration.
fn check_configuration(
    group: u8,
    configurations: &[Configuration],
    configuration: u8,
) -> Result<(), PlanFault>
    requires { configuration < length configurations.now }
    ensures { Admits result (configuration_claims group (map configuration_data configurations.now) configuration) }
{
    match fault_of_shape(group, configurations, configuration) {
        None => Ok(()),
        Some(fault) => Err(fault),
    }
}

/// Checks the parents and the fresh members of a group's configurations.
fn check_group(group: u8, configurations: &[Configuration]) -> Result<(), PlanFault>
    requires { length configurations.now ≤ 64 }
    ensures { Admits result (group_claims group (map configuration_data configurations.now)) }
{
    for configuration in 0..configurations.len() as u8 {
        check_configuration(group, configurations, configuration)?;
    }
    Ok(())
}

/// Checks the parents and the fresh members of all groups' configurations.
pub fn check_shapes(groups: &[Group]) -> Result<(), PlanFault>
    requires { length groups.now ≤ 16 }
    ensures { Admits result (claims_of_groups (map group_data groups.now)) }
{
    for group in 0..groups.len() as u8 {
        check_group(group, &groups[usize::from(group)].configurations)?;
    }
    Ok(())
}
