//! The configurations of a checked plan as trees.

ghost use Rattle.std.specs.Prelude.{◌≡◌, ◌+◌, ◌≤◌, map, ◌&&◌, ◌==◌, nat_lt};
ghost use Rattle.plan.specs.PlanData.{epoch_within};
ghost use Rattle.plan.specs.Plan.{configuration_data};

use crate::checked::CheckedPlan;
use crate::configurations::Configuration;
use crate::parents::parent_of;

/// Returns the membership epoch of the configuration with a number: 1 for a root, one more than its parent's for a
/// child. Climbs at most `steps` parents.
fn epoch_within(configurations: &[Configuration], steps: u8, number: u64) -> u32
    ensures epoch { result ≡ epoch_within steps (map configuration_data configurations.now) number }
    ensures small { result ≤ steps + 1 }
{
    if steps == 0 {
        return 1;
    }
    match parent_of(configurations, number) {
        None => 1,
        Some(parent) => epoch_within(configurations, steps - 1, parent) + 1,
    }
}

impl CheckedPlan {
    ghost use Rattle.volume_model.specs.Common.{epoch_of, parent_of, is_configuration};
    ghost use Rattle.plan.specs.CheckedModel.{checked_model};

    /// Returns the membership epoch of a configuration: 1 for a root, one more than its parent's for a child.
    pub fn epoch(&self, group: u8, configuration: u8) -> u32
        ensures { result ≡ epoch_of (checked_model self.now) group configuration }
    {
        match self.group(group) {
            Some(group) => epoch_within(
                group.configurations.as_slice(),
                configuration,
                u64::from(configuration),
            ),
            None => 1,
        }
    }

    /// Returns whether the group has a configuration with this number and this membership epoch.
    pub fn is_configuration(&self, group: u8, configuration: u8, epoch: u32) -> bool
        ensures { result ≡ is_configuration (checked_model self.now) group configuration epoch }
    {
        configuration < self.configurations(group) && self.epoch(group, configuration) == epoch
    }

    /// Returns whether a configuration of a group is a child of the one with the number `parent`.
    pub fn is_child(&self, group: u8, configuration: u8, parent: u8) -> bool
        ensures { result ≡ (nat_lt 0 configuration &&
            (nat_lt configuration ((checked_model self.now).configurations group) && parent_of (checked_model self.now)
            group configuration == parent)) }
    {
        match self.configuration(group, configuration) {
            Some(child) if 0 < configuration => child.parent.unwrap_or(0) == u64::from(parent),
            _ => false,
        }
    }
}
