//! Checks what is asked for, and what was made.

ghost use Rattle.std.specs.Prelude.{◌≡◌, ◌<◌, IfOk, OnOk, length, map};
ghost use Rattle.plan.specs.Common.{configuration_data, plan_data};
ghost use Rattle.plan_edit.specs.Drafts.{draft_data};
ghost use Rattle.plan_edit.specs.Replaced.{HasNumbers, edited_group};
ghost use Rattle.plan_edit.specs.Edited.{IsExtension};

use crate::comparing::extends;
use crate::drafts::Draft;
use crate::refusal::EditRefusal;
use crate::replacement::Replacement;
use plan::{Configuration, Plan, check_plan, read_plan};
use quorum_expr::MEMBERS;
use std::alloc::Global;

/// The most configurations of a group.
const CONFIGURATIONS: usize = 64;

/// Returns whether a configuration or one on the way to it from the root has the member.
fn has_on_way(configurations: &[Configuration], configuration: u8, member: u8) -> bool {
    let mut at = usize::from(configuration);
    for _ in 0..configurations.len() {
        let Some(here) = configurations.get(at) else {
            return false;
        };
        if here.members.contains(member) {
            return true;
        }
        match here.parent {
            Some(parent) => at = parent as usize,
            None => return false,
        }
    }
    false
}

/// Returns the configurations of the group in which a member is to be replaced.
///
/// # Errors
/// The first of `NotInPlan`, `NotAMember`, `NotANumber`, `MemberReused` and `NoPlace`.
pub fn configurations_for(
    plan: &Plan,
    replacement: Replacement,
) -> Result<&[Configuration], EditRefusal>
    ensures group { IfOk result (λ v. map configuration_data v.now ≡ edited_group replacement plan.now) }
    ensures base { IfOk result (λ v. replacement.configuration < length v.now) }
    ensures numbers { OnOk result (HasNumbers replacement) }
{
    let Some(group) = plan.groups.get(usize::from(replacement.group)) else {
        return Err(EditRefusal::NotInPlan);
    };
    let configurations = group.configurations.as_slice();
    let configuration = replacement.configuration;
    let Some(base) = configurations.get(usize::from(configuration)) else {
        return Err(EditRefusal::NotInPlan);
    };
    if !base.members.contains(replacement.old) {
        return Err(EditRefusal::NotAMember);
    }
    if replacement.new >= MEMBERS {
        return Err(EditRefusal::NotANumber);
    }
    if has_on_way(configurations, configuration, replacement.new) {
        return Err(EditRefusal::MemberReused);
    }
    let added = if replacement.is_direct { 1 } else { 3 };
    if CONFIGURATIONS.saturating_sub(configurations.len()) < added {
        return Err(EditRefusal::NoPlace);
    }
    Ok(configurations)
}

/// Checks that a line is the text of a plan without a fault: of the old plan, with the drafts behind the configurations
/// of a group.
///
/// # Errors
/// The first fault of the text; `Defect` if its plan is another one; the first fault of the plan.
pub fn check_line(
    alloc: Global,
    old: &Plan,
    group: u8,
    drafts: &[Draft],
    line: &[u8],
) -> Result<(), EditRefusal>
    ensures { OnOk result (IsExtension group (map draft_data drafts.now) (plan_data old.now) line.now) }
{
    let new = read_plan(alloc, line)?;
    if !extends(old, &new, group, drafts) {
        return Err(EditRefusal::Defect);
    }
    match check_plan(alloc, new) {
        Ok(_checked) => Ok(()),
        Err(refused) => Err(EditRefusal::from(refused.0)),
    }
}
