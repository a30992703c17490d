//! The places of a client's groups, and how they change.

ghost use Rattle.std.specs.Prelude.{◌≡◌, ◌≤◌, ◌-◌, ◌++◌, length, map, replicate, OnErr, OnOk};
ghost use Rattle.volume_model.specs.Common.{no_group, raised, with_places, later_group, reread_group, are_places};
ghost use Rattle.plan.specs.Common.{checked_model};
ghost use Rattle.wire.specs.Common.{place_of};
ghost use Rattle.writer_core.specs.GroupStates.{groups_of, ArePlaced};

use crate::group_state::GroupState;
use plan::CheckedPlan;
use std::alloc::AllocError;
use wire::Place;

/// Returns whether there is a place for each group of the birth, for no more groups than the plan has, and each place
/// is a configuration of its group.
pub fn are_places(plan: &CheckedPlan, places: &[Place]) -> bool
    ensures { result ≡ are_places (checked_model plan.now) (map place_of places.now) }
{
    if places.len() < usize::from(plan.born()) || usize::from(plan.groups()) < places.len() {
        return false;
    }
    for (group, place) in places.iter().enumerate() {
        if !plan.is_configuration(group as u8, place.configuration, place.epoch) {
            return false;
        }
    }
    true
}

/// Raises the points of all groups to what the counted acknowledgements satisfy now.
pub fn raise(plan: &CheckedPlan, group_states: &mut [GroupState])
    requires many { length group_states.old ≤ (checked_model plan.now).groups }
    requires placed { ArePlaced (checked_model plan.now) (groups_of group_states.old) }
    ensures raised { groups_of group_states.new ≡ raised (checked_model plan.now) (groups_of group_states.old) }
    ensures many { length group_states.new ≡ length group_states.old }
    ensures placed { ArePlaced (checked_model plan.now) (groups_of group_states.new) }
{
    for group in 0..group_states.len() {
        group_states[group].raise(plan, group as u8);
    }
}

/// Adds groups without a place, up to this many. On error nothing has changed.
pub fn extend(group_states: &mut Vec<GroupState>, groups: usize) -> Result<(), AllocError>
    ensures more { OnOk result (groups_of group_states.new.items ≡ groups_of group_states.old.items
        ++ replicate (groups - length group_states.old.items) no_group) }
    ensures same { OnErr result (groups_of group_states.new.items ≡ groups_of group_states.old.items) }
{
    let alloc = *group_states.allocator();
    let before = group_states.len();
    'more: while group_states.len() < groups {
        let nowhere = Place {
            configuration: 0,
            epoch: 0,
        };
        if let Err(failed) = group_states.push(GroupState::at(alloc, nowhere)) {
            group_states.truncate(before);
            return Err(AllocError::from(failed));
        }
    }
    Ok(())
}

/// Moves each group to its place, if that is of a later epoch.
pub fn follow(group_states: &mut [GroupState], places: &[Place])
    requires { length places.now ≤ length group_states.old }
    ensures moved { groups_of group_states.new ≡ with_places later_group (groups_of group_states.old)
        (map place_of places.now) }
    ensures many { length group_states.new ≡ length group_states.old }
{
    for group in 0..places.len() {
        group_states[group].follow(places[group]);
    }
}

/// Moves each group to its place, if that is of a later epoch, and drops its reports then.
pub fn reread(group_states: &mut [GroupState], places: &[Place])
    requires { length places.now ≤ length group_states.old }
    ensures moved { groups_of group_states.new ≡ with_places reread_group (groups_of group_states.old)
        (map place_of places.now) }
    ensures many { length group_states.new ≡ length group_states.old }
{
    for group in 0..places.len() {
        group_states[group].reread(places[group]);
    }
}
