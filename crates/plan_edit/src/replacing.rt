//! Replaces a member of a group.

ghost use Rattle.std.specs.Prelude.{◌<◌, ◌≤◌, IfOk};
ghost use Rattle.plan_edit.specs.Edited.{IsReplaced};

use crate::certifying::certified;
use crate::checking::{check_line, configurations_for};
use crate::drafts::replacement_drafts;
use crate::refusal::EditRefusal;
use crate::replacement::Replacement;
use crate::splicing::with_configurations;
use crate::text::drafts_text;
use plan::read_plan;
use std::alloc::Global;
use std::sync::Wait;
use std::thread::Threads;

/// Returns a line with the text of a plan in which a member of a group may be replaced: the text's plan, with the
/// configurations of the replacement behind those of the group. Each claim has a certificate. Expressions of the given
/// text stay as they are written.
///
/// # Errors
/// The first fault of the text; then the first that applies of `NotInPlan`, `NotAMember`, `NotANumber`, `MemberReused`
/// and `NoPlace`; then the first fault of the new plan: an expression that is too long or has too many levels, a claim
/// for which no certificate is found. `NoMemory` if memory runs out.
pub fn replace<H: Threads + Wait + Sync>(
    rt: &H,
    alloc: Global,
    text: &[u8],
    replacement: Replacement,
    workers: u8,
) -> Result<Vec<u8>, EditRefusal>
    requires { (0 < workers) × (workers ≤ 16) }
    ensures { IfOk result (λ line. IsReplaced replacement text.now line.items) }
{
    let old = read_plan(alloc, text)?;
    let configurations = configurations_for(&old, replacement)?;
    let drafts = replacement_drafts(alloc, configurations, replacement)?;
    let more = drafts_text(alloc, &drafts)?;
    let draft = with_configurations(alloc, text, replacement.group, more.as_str())?;
    let line = certified(rt, alloc, &draft, workers)?;
    check_line(alloc, &old, replacement.group, &drafts, &line)?;
    Ok(line)
}
