//! The contents of all groups' reports together.

ghost use Rattle.std.specs.Prelude.{◌≡◌, ◌-◌, ◌^◌, min, IfOk};
ghost use Rattle.volume_model.specs.Common.{records_in, newest, newest_with, contents_of};
ghost use Rattle.volume_model.specs.Lineage.{found_in};
ghost use Rattle.hydration.specs.Copies.{copies_in};
ghost use Rattle.lineage.specs.Lineage.{lineage_of};
ghost use Rattle.redo_record.specs.Common.{records_of};
ghost use Rattle.writer_core.specs.GroupStates.{groups_of};
ghost use Rattle.recovery.specs.Reported.{reports_in};

use hydration::{Copied, newest_with, with_found};
use lineage::Lineage;
use redo_record::RecordSet;
use std::alloc::{AllocError, Global};
use writer_core::GroupState;

/// Returns the newest of the lineages of all reports and `last`.
fn newest_reported<'a>(group_states: &'a [GroupState], last: &'a Lineage) -> &'a Lineage
    ensures { lineage_of result.now ≡ newest_with (lineage_of last.now) (reports_in (groups_of group_states.now)) }
{
    match group_states {
        [] => last,
        [first, rest @ ..] => newest_with(first.copies.as_slice(), newest_reported(rest, last)),
    }
}

/// Returns the newest lineage of all reports, or the empty lineage if there is no report.
///
/// # Errors
/// `AllocError` if memory runs out.
pub fn newest_lineage(alloc: Global, group_states: &[GroupState]) -> Result<Lineage, AllocError>
    ensures { IfOk result (λ lineage. lineage_of lineage ≡ newest (reports_in (groups_of group_states.now))) }
{
    let none = Lineage::empty(alloc);
    newest_reported(group_states, &none).clone()
}

/// Returns all reported records that are live in the lineage.
///
/// # Errors
/// `AllocError` if memory runs out.
pub fn found_in(
    alloc: Global,
    lineage: &Lineage,
    group_states: &[GroupState],
) -> Result<RecordSet, AllocError>
    ensures { IfOk result (λ set. records_of set ≡ found_in (lineage_of lineage.now)
        (reports_in (groups_of group_states.now))) }
{
    match group_states {
        [] => Ok(RecordSet::new(alloc)),
        [first, rest @ ..] => {
            let found = found_in(alloc, lineage, rest)?;
            with_found(alloc, lineage, first.copies.as_slice(), found)
        }
    }
}

/// Returns the number of records in a group's reports; a record counts as often as it is reported. Saturates.
fn records_in(copies: &[Copied]) -> usize
    ensures { result ≡ min (records_in (contents_of (copies_in copies.now))) (2 ^ 64 - 1) }
{
    match copies {
        [] => 0,
        [first, rest @ ..] => records_in(rest).saturating_add(first.contents.records.len()),
    }
}

/// Returns the number of records in the reports of all groups; a record counts as often as it is reported. Saturates.
pub fn records_said(group_states: &[GroupState]) -> usize
    ensures { result ≡ min (records_in (reports_in (groups_of group_states.now))) (2 ^ 64 - 1) }
{
    match group_states {
        [] => 0,
        [first, rest @ ..] => {
            records_said(rest).saturating_add(records_in(first.copies.as_slice()))
        }
    }
}
