//! Compares a new plan with the plan that it was made of.

ghost use Rattle.std.specs.Prelude.{◌≡◌, ◌++◌, [], if◌then◌else◌, map, true};
ghost use Rattle.plan.specs.Common.{configuration_data, plan_data};
ghost use Rattle.plan_edit.specs.Drafts.{bare, draft_data, uncertified};
ghost use Rattle.plan_edit.specs.Edited.{Extends};

use crate::drafts::Draft;
use crate::expressions::are_same;
use plan::{Configuration, Plan};
use quorum_expr::MemberSet;

/// Returns whether two sets have the same members.
pub fn is_same_set(left: MemberSet, right: MemberSet) -> bool
    ensures { result ≡ true → left ≡ right }
{
    left.is_subset(right) && right.is_subset(left)
}

/// Returns whether a configuration of a new plan is one of the old plan, certificates aside.
fn is_kept(old: &Configuration, new: &Configuration) -> bool
    ensures { result ≡ true → bare new.now ≡ bare old.now }
{
    old.parent == new.parent
        && is_same_set(old.members, new.members)
        && is_same_set(old.full, new.full)
        && are_same(&old.read, &new.read)
        && are_same(&old.write, &new.write)
}

/// Returns whether a configuration of a new plan is the draft.
fn is_drafted(draft: &Draft, new: &Configuration) -> bool
    ensures { result ≡ true → bare new.now ≡ draft_data draft.now }
{
    new.parent == Some(draft.parent)
        && is_same_set(draft.members, new.members)
        && is_same_set(draft.full, new.full)
        && are_same(&draft.read, &new.read)
        && are_same(&draft.write, &new.write)
}

/// Returns whether configurations of a new plan are those of the old plan, certificates aside.
fn are_kept(old: &[Configuration], new: &[Configuration]) -> bool
    ensures { result ≡ true → map uncertified (map configuration_data new.now)
        ≡ map uncertified (map configuration_data old.now) }
{
    if old.len() != new.len() {
        return false;
    }
    for i in 0..old.len() {
        if !is_kept(&old[i], &new[i]) {
            return false;
        }
    }
    true
}

/// Returns whether configurations of a new plan are the drafts.
fn are_drafted(drafts: &[Draft], new: &[Configuration]) -> bool
    ensures { result ≡ true → map uncertified (map configuration_data new.now) ≡ map draft_data drafts.now }
{
    if drafts.len() != new.len() {
        return false;
    }
    for i in 0..drafts.len() {
        if !is_drafted(&drafts[i], &new[i]) {
            return false;
        }
    }
    true
}

/// Returns whether the configurations of a group are those that it had, with the drafts behind them.
fn is_extended(old: &[Configuration], new: &[Configuration], drafts: &[Draft]) -> bool
    ensures { result ≡ true → map uncertified (map configuration_data new.now)
        ≡ map uncertified (map configuration_data old.now) ++ map draft_data drafts.now }
{
    if new.len() < old.len() {
        return false;
    }
    let (front, back) = new.split_at(old.len());
    are_kept(old, front) && are_drafted(drafts, back)
}

/// Returns the drafts if the group is the one that gets them.
fn drafts_for(drafts: &[Draft], is_edited: bool) -> &[Draft]
    ensures { result.now ≡ (if is_edited then drafts.now else []) }
{
    if is_edited { drafts } else { &[] }
}

/// Returns whether a new plan is the old one with the drafts behind the configurations of a group.
pub fn extends(old: &Plan, new: &Plan, group: u8, drafts: &[Draft]) -> bool
    ensures { result ≡ true → Extends group (map draft_data drafts.now) (plan_data old.now) (plan_data new.now) }
{
    if old.format != new.format
        || old.lal != new.lal
        || old.born != new.born
        || old.groups.len() != new.groups.len()
    {
        return false;
    }
    for g in 0..old.groups.len() {
        let (here, there) = (&old.groups[g], &new.groups[g]);
        let more = drafts_for(drafts, g == usize::from(group));
        if !is_extended(&here.configurations, &there.configurations, more) {
            return false;
        }
    }
    true
}
