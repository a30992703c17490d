//! The parents of configurations, and the fresh members, which the parent doesn't have.

ghost use Rattle.std.specs.Prelude.{◌≡◌, ◌≢◌, ◌<◌, IfSome, length, map};
ghost use Rattle.volume_model.specs.declared.fault.Fault.TheVariants.{NoMemory};
ghost use Rattle.plan.specs.FaultKinds.{kind_of};
ghost use Rattle.plan.specs.PlanData.{configuration_at, parent_at};
ghost use Rattle.plan.specs.Plan.{configuration_data};
ghost use Rattle.plan.specs.PlanFaults.{Finds, is_good_parent, parent_fault, fresh_at, unused_within, reuse_fault, shape_fault};

use crate::configurations::Configuration;
use crate::fault::PlanFault;
use quorum_expr::MemberSet;

/// Returns whether a configuration may have this parent: configuration 0 none, each other one a parent with a smaller
/// number.
fn is_good_parent(configuration: u8, parent: Option<u64>) -> bool
    ensures { result ≡ is_good_parent configuration parent }
{
    match parent {
        None => configuration == 0,
        Some(parent) => parent < u64::from(configuration),
    }
}

/// Returns the fault of a configuration's parent.
fn fault_of_parent(
    group: u8,
    configurations: &[Configuration],
    configuration: u8,
) -> Option<PlanFault>
    requires { configuration < length configurations.now }
    ensures fault { result ≡ parent_fault group (map configuration_data configurations.now) configuration }
    ensures own { IfSome result (λ f. kind_of f ≢ NoMemory) }
{
    let parent = configurations[usize::from(configuration)].parent;
    if !is_good_parent(configuration, parent) {
        return Some(PlanFault::BadParent {
            group,
            configuration,
        });
    }
    None
}

/// Returns the members of the configuration with a number. No members if there is no such configuration.
fn members_at(configurations: &[Configuration], number: u64) -> MemberSet
    ensures { result ≡ (configuration_at (map configuration_data configurations.now) number).members }
{
    match configurations.get(number as usize) {
        Some(configuration) => configuration.members,
        None => MemberSet::empty(),
    }
}

/// Returns the parent of a configuration, if its number is smaller.
pub fn parent_of(configurations: &[Configuration], number: u64) -> Option<u64>
    ensures { result ≡ parent_at (map configuration_data configurations.now) number }
{
    let parent = configurations.get(number as usize)?.parent?;
    if parent < number { Some(parent) } else { None }
}

/// Returns the members that the parent doesn't have.
fn fresh_members(configurations: &[Configuration], configuration: u8) -> MemberSet
    requires { configuration < length configurations.now }
    ensures { result ≡ fresh_at (map configuration_data configurations.now) configuration }
{
    let child = &configurations[usize::from(configuration)];
    match child.parent {
        None => MemberSet::empty(),
        Some(parent) => child.members.difference(members_at(configurations, parent)),
    }
}

/// Returns the members of `set` that no ancestor has, of the ancestors at most `steps` above.
fn unused(configurations: &[Configuration], steps: u8, number: u64, set: MemberSet) -> MemberSet
    ensures { result ≡ unused_within steps (map configuration_data configurations.now) number set }
{
    if steps == 0 {
        return set;
    }
    match parent_of(configurations, number) {
        None => set,
        Some(parent) => unused(
            configurations,
            steps - 1,
            parent,
            set.difference(members_at(configurations, parent)),
        ),
    }
}

/// Returns the fault of a configuration's fresh members: the least one that an ancestor has.
fn fault_of_fresh(
    group: u8,
    configurations: &[Configuration],
    configuration: u8,
) -> Option<PlanFault>
    requires { configuration < length configurations.now }
    ensures fault { result ≡ reuse_fault group (map configuration_data configurations.now) configuration }
    ensures own { IfSome result (λ f. kind_of f ≢ NoMemory) }
{
    let fresh = fresh_members(configurations, configuration);
    let left = unused(
        configurations,
        configuration,
        u64::from(configuration),
        fresh,
    );
    match fresh.difference(left).first() {
        None => None,
        Some(member) => Some(PlanFault::MemberReused {
            group,
            configuration,
            member,
        }),
    }
}

/// Returns the first fault of a configuration's parent and fresh members. Allocates nothing.
pub fn fault_of_shape(
    group: u8,
    configurations: &[Configuration],
    configuration: u8,
) -> Option<PlanFault>
    requires { configuration < length configurations.now }
    ensures fault { result ≡ shape_fault group (map configuration_data configurations.now) configuration }
    ensures own { IfSome result (λ f. kind_of f ≢ NoMemory) }
{
    match fault_of_parent(group, configurations, configuration) {
        Some(fault) => Some(fault),
        None => fault_of_fresh(group, configurations, configuration),
    }
}

/// Checks a configuration's parent and fresh members.
pub fn check_shape(
    group: u8,
    configurations: &[Configuration],
    configuration: u8,
) -> Result<(), PlanFault>
    requires { configuration < length configurations.now }
    ensures { Finds result (shape_fault group (map configuration_data configurations.now) configuration) }
{
    match fault_of_shape(group, configurations, configuration) {
        None => Ok(()),
        Some(fault) => Err(fault),
    }
}
