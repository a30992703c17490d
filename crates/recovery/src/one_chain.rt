//! Finds the last consistency point of records that are one chain.

ghost use Rattle.std.specs.Prelude.{◌≡◌, ◌<◌, ◌≤◌, List, [], length, map, take, IsTrue};
ghost use Rattle.volume_model.specs.Common.{added, Redo, last_lsn};
ghost use Rattle.redo_record.specs.Common.{records_of, shared_redo};
ghost use Rattle.writer_core.specs.Logs.{log_of_set};
ghost use Rattle.recovery.specs.Chains.{up_to_point, IsChainTo};

use redo_record::{RecordSet, SharedRecord};

/// Returns whether a set is known to be one chain by `prev_volume` from its last record down to 0, without looking at
/// all records.
pub fn is_one_chain(set: &RecordSet) -> bool
    ensures { IsTrue result → IsChainTo (last_lsn (log_of_set set.now)) (log_of_set set.now) }
{
    let mut last = 0;
    for run in set.runs() {
        let packets = run.as_slice();
        let Some(first) = packets.first() else {
            return false;
        };
        let Some(end) = packets.last() else {
            return false;
        };
        if !run.is_volume_chain() || first.record().prev_volume != last {
            return false;
        }
        last = end.lsn();
    }
    true
}

/// Returns the number of records up to the last consistency point, 0 if there is none.
fn count_to_point(packets: &[SharedRecord]) -> usize
    ensures within { result ≤ length packets.now }
    ensures same { (older : List Redo) → up_to_point (added (map shared_redo packets.now) older)
        ≡ up_to_point (added (take result (map shared_redo packets.now)) older) }
    ensures point { 0 < result → (older : List Redo) → up_to_point (added (take result (map shared_redo packets.now))
        older) ≡ added (take result (map shared_redo packets.now)) older }
{
    let mut count = packets.len();
    while count > 0 {
        if packets[count - 1].record().point {
            return count;
        }
        count -= 1;
    }
    0
}

/// Returns the number of records of a set up to its last consistency point, and that point's LSN; both are 0 if there
/// is none.
pub fn last_point(set: &RecordSet) -> (usize, u64)
    ensures within { result.0 ≤ length (records_of set.now) }
    ensures count { added (take result.0 (records_of set.now)) [] ≡ up_to_point (log_of_set set.now) }
    ensures lsn { result.1 ≡ last_lsn (up_to_point (log_of_set set.now)) }
{
    let runs = set.runs();
    let (mut place, mut count) = (runs.len(), set.len());
    while place > 0 {
        place -= 1;
        let packets = runs[place].as_slice();
        count -= packets.len();
        let len = count_to_point(packets);
        if len > 0 {
            return (count + len, packets[len - 1].lsn());
        }
    }
    (0, 0)
}
