//! The nodes that a plan names, in slots: one for each member of each group.

ghost use Rattle.std.specs.Prelude.{◌≡◌, IfOk, IfErr, option_map};
ghost use Rattle.std.specs.Arc.{arc_value};
ghost use Rattle.volume_model.specs.declared.fault.Fault.TheVariants.{NoMemory};
ghost use Rattle.volume_model.specs.Common.{born_node};
ghost use Rattle.plan.specs.Common.{checked_model};
ghost use Rattle.segment_core.specs.Segment.{node_of};
ghost use Rattle.world.specs.Slots.{node_at, node_or, FindsSlot};
ghost use Rattle.world.specs.Homes.{nodes_of, AreHomes, IsPlace};

use plan::CheckedPlan;
use segment_core::Segment;
use std::alloc::Global;
use std::sync::Arc;
use volume_model::Fault;

/// The most members of a group.
pub const MEMBERS: usize = 64;

/// Returns the slot of a member of a group among `slots` slots, if there is one.
pub fn slot(slots: usize, group: u8, member: u8) -> Option<usize>
    ensures { FindsSlot result slots group member }
{
    let slot = usize::from(group) * MEMBERS + usize::from(member);
    if usize::from(member) < MEMBERS && slot < slots {
        Some(slot)
    } else {
        None
    }
}

/// Returns a member's newborn segment, or `None` if the plan doesn't name the member.
fn born(
    alloc: Global,
    plan: &Arc<CheckedPlan>,
    group: u8,
    member: u8,
) -> Result<Option<Segment>, Fault>
    ensures place { IfOk result (IsPlace (checked_model (arc_value plan.now)) group member) }
    ensures node { IfOk result (λ o. node_or (born_node (checked_model (arc_value plan.now)) group member)
        (option_map node_of o) ≡ born_node (checked_model (arc_value plan.now)) group member) }
    ensures memory { IfErr result (λ e. e ≡ NoMemory) }
{
    if !plan.names(group, member) {
        return Ok(None);
    }
    Ok(Some(Segment::new(alloc, plan.clone()?, group, member)?))
}

/// Returns all newborn nodes.
pub fn all_born(alloc: Global, plan: &Arc<CheckedPlan>) -> Result<Vec<Option<Segment>>, Fault>
    ensures homes { IfOk result (λ slots. AreHomes (checked_model (arc_value plan.now)) slots.items) }
    ensures nodes { IfOk result (λ slots. node_at (checked_model (arc_value plan.now)) (nodes_of slots.items)
        ≡ born_node (checked_model (arc_value plan.now))) }
    ensures memory { IfErr result (λ e. e ≡ NoMemory) }
{
    let mut slots = Vec::new(alloc);
    for k in 0..usize::from(plan.groups()) * MEMBERS {
        slots.push(born(alloc, plan, (k / MEMBERS) as u8, (k % MEMBERS) as u8)?)?;
    }
    Ok(slots)
}
