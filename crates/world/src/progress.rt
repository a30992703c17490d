//! Which volumes can go on: laws about all runs of the model.

ghost use Rattle.world.specs.Waiting.{WaitingKeepsReaders};
ghost use Rattle.world.specs.Lost.{EarlyStepsLose};
ghost use Rattle.world.specs.Readable.{ReadableVolumesRecover};
ghost use Rattle.std.specs.Prelude.{List};
ghost use Rattle.volume_model.specs.Common.{Event};
ghost use Rattle.plan.specs.Common.{checked_model};
ghost use Rattle.world.specs.Onward.{ReadableVolumesCommit, VolumeGoesOn, WaitingGroupsCanBeRead};

use plan::CheckedPlan;

/// Proves that a group whose last advance waited can be read: in every run its whole members satisfy its
/// configuration's read expression, if the root's members satisfy the root's.
pub fn waiting_keeps_readers()
    ensures { WaitingKeepsReaders }
{}

/// Proves that a volume is lost if a group takes a step too early: if the group's whole members don't satisfy its
/// configuration's read expression, and each of its nodes has taken the step to that configuration, no recovery whose
/// volume epoch is assigned later ever cuts, whatever happens.
pub fn early_steps_lose()
    ensures { EarlyStepsLose }
{}

/// Proves that a volume whose groups can be read can be recovered, if all claims of its plan hold: some events lead the
/// recovery of the next volume epoch to its cut, unless volume epochs or LSNs are spent.
pub fn readable_volumes_recover()
    ensures { ReadableVolumesRecover }
{}

/// Proves that a volume whose groups can be read goes on, if all claims of its plan hold and the members of each
/// configuration satisfy its write expression: some events lead the recovery of the next volume epoch to its cut, and
/// then to a commit of its own, unless volume epochs, LSNs, room in segments or numbers of copies are spent.
pub fn readable_volumes_commit()
    ensures { ReadableVolumesCommit }
{}

/// Proves both for the runs of all lists of events over a plan without a fault: a group whose last advance waited can
/// be read, and a volume whose groups can be read goes on.
pub fn volumes_go_on(plan: &CheckedPlan)
    ensures goes_on { (events : List Event) → VolumeGoesOn (checked_model plan.now) events }
    ensures can_be_read { WaitingGroupsCanBeRead (checked_model plan.now) }
{
    plan.keeps_claims();
    readable_volumes_commit();
    waiting_keeps_readers();
}
