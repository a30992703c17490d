//! Looks up records in lists and runs in order of LSN.

ghost use Rattle.std.specs.Prelude.{◌≡◌, ◌<◌, ◌≤◌, length, true, option_copied, option_map};
ghost use Rattle.volume_model.specs.Common.{record_at};
ghost use Rattle.redo_record.specs.Common.{joined, runs_in, shared_redo};
ghost use Rattle.writer_core.specs.Ending.{EndsWith};
ghost use Rattle.writer_core.specs.Logs.{log_of, is_growing};

use redo_record::{Run, SharedRecord};

/// Returns the record with this LSN, if there is one.
pub fn record_at(log: &[SharedRecord], lsn: u64) -> Option<&SharedRecord>
    requires { is_growing (log_of log.now) ≡ true }
    ensures { option_map shared_redo (option_copied result) ≡ record_at (log_of log.now) lsn }
{
    let place = log.partition_point(|packet| packet.lsn() < lsn);
    let packet = log.get(place)?;
    if packet.lsn() == lsn {
        Some(packet)
    } else {
        None
    }
}

/// Returns the records of a run that are right before a place in all runs.
pub fn run_before(runs: &[Run], place: usize) -> &[SharedRecord]
    requires within { place ≤ length (joined (runs_in runs.now)) }
    ensures some { 0 < place → 0 < length result.now }
    ensures before { EndsWith result.now place (joined (runs_in runs.now)) }
{
    let mut left = place;
    for run in runs {
        let packets = run.as_slice();
        if left <= packets.len() {
            return &packets[..left];
        }
        left -= packets.len();
    }
    &[]
}
