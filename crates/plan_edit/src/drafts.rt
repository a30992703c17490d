//! The configurations that a replacement adds to a group.

ghost use Rattle.std.specs.Prelude.{◌≡◌, ◌<◌, Ok, length, map};
ghost use Rattle.volume_model.specs.Common.{Gives};
ghost use Rattle.plan.specs.Common.{configuration_data};
ghost use Rattle.plan_edit.specs.Drafts.{draft_data};
ghost use Rattle.plan_edit.specs.Replaced.{HasNumbers, full_with, joint, swapped, back, added};

use crate::expressions::{joined, renamed};
use crate::replacement::Replacement;
use plan::Configuration;
use quorum_expr::{Expr, MemberSet, copy_in};
use std::alloc::Global;
use volume_model::Fault;

/// A configuration that isn't part of a plan yet. It has a parent, and no certificates.
#[derive(Drop)]
pub struct Draft {
    pub parent: u64,
    pub members: MemberSet,
    pub full: MemberSet,
    pub read: Expr<Global>,
    pub write: Expr<Global>,
}

/// Returns the full members with the new one, if it is full.
fn full_with(full: MemberSet, replacement: Replacement) -> MemberSet
    requires { HasNumbers replacement }
    ensures { result ≡ full_with replacement full }
{
    if !replacement.is_tail && full.contains(replacement.old) {
        full.with(replacement.new)
    } else {
        full
    }
}

/// Returns the joint configuration: it has the old and the new member, a write satisfies the old and the new write
/// expression, and a read the old or the new read expression.
fn joint(
    alloc: Global,
    base: &Configuration,
    parent: u64,
    replacement: Replacement,
) -> Result<Draft, Fault>
    requires { HasNumbers replacement }
    ensures { Gives draft_data result (Ok (joint replacement parent (configuration_data base.now))) }
{
    let (old, new) = (replacement.old, replacement.new);
    let read = joined(alloc, 1, &base.read, old, new)?;
    let write = joined(alloc, 2, &base.write, old, new)?;
    Ok(Draft {
        parent,
        members: base.members.with(new),
        full: full_with(base.full, replacement),
        read,
        write,
    })
}

/// Returns the new membership.
fn swapped(
    alloc: Global,
    base: &Configuration,
    parent: u64,
    replacement: Replacement,
) -> Result<Draft, Fault>
    requires { HasNumbers replacement }
    ensures { Gives draft_data result (Ok (swapped replacement parent (configuration_data base.now))) }
{
    let (old, new) = (replacement.old, replacement.new);
    let read = renamed(alloc, &base.read, old, new)?;
    let write = renamed(alloc, &base.write, old, new)?;
    Ok(Draft {
        parent,
        members: base.members.with(new).without(old),
        full: full_with(base.full, replacement).without(old),
        read,
        write,
    })
}

/// Returns the old membership, as a step leads back to it.
fn back(alloc: Global, base: &Configuration, parent: u64) -> Result<Draft, Fault>
    ensures { Gives draft_data result (Ok (back parent (configuration_data base.now))) }
{
    let read = copy_in(&base.read, alloc)?;
    let write = copy_in(&base.write, alloc)?;
    Ok(Draft {
        parent,
        members: base.members,
        full: base.full,
        read,
        write,
    })
}

/// Returns the configurations that a replacement adds behind those of a group: the new membership if it is direct; else
/// the joint configuration, and those of the two steps from there.
///
/// # Errors
/// `NoMemory` if memory runs out.
pub fn replacement_drafts(
    alloc: Global,
    configurations: &[Configuration],
    replacement: Replacement,
) -> Result<Vec<Draft>, Fault>
    requires numbers { HasNumbers replacement }
    requires base { replacement.configuration < length configurations.now }
    ensures { Gives (λ v. map draft_data v.items) result
        (Ok (added replacement (map configuration_data configurations.now))) }
{
    let base = &configurations[usize::from(replacement.configuration)];
    let parent = u64::from(replacement.configuration);
    if replacement.is_direct {
        return Ok(vec![in alloc; swapped(alloc, base, parent, replacement)?]?);
    }
    let number = configurations.len() as u64;
    let mut drafts = Vec::with_capacity(alloc, 3)?;
    drafts.push(joint(alloc, base, parent, replacement)?)?;
    drafts.push(swapped(alloc, base, number, replacement)?)?;
    drafts.push(back(alloc, base, number)?)?;
    Ok(drafts)
}
