//! Finds the log among records.

ghost use Rattle.std.specs.Prelude.{◌≡◌, ◌≤◌, ℕ, true, [], take, length, IfOk, IfSome, is_some};
ghost use Rattle.volume_model.specs.Common.{added, record_at, chain_from, chain_or_none};
ghost use Rattle.redo_record.specs.Common.{records_of};
ghost use Rattle.writer_core.specs.Logs.{log_of, log_of_set, is_growing};
ghost use Rattle.recovery.specs.Chains.{IsChainTo};

use crate::cut_reader::are_growing;
use redo_record::{RecordSet, SharedRecord};
use std::alloc::{AllocError, Global};

/// Returns the first record of each LSN of a set. Shares the records if no LSN occurs twice.
///
/// # Errors
/// `AllocError` if memory runs out.
pub fn firsts(alloc: Global, set: &RecordSet) -> Result<RecordSet, AllocError>
    ensures growing { IfOk result (λ firsts. is_growing (log_of_set firsts) ≡ true) }
    ensures same { IfOk result (λ firsts. (n : ℕ) → record_at (log_of_set firsts) n ≡ record_at (records_of set.now)
        n) }
{
    if are_growing(set) {
        return set.clone();
    }
    let mut firsts = RecordSet::new(alloc);
    let mut last = 0;
    let mut left = set.records();
    while let Some(packet) = left.next() {
        if last < packet.lsn() {
            last = packet.lsn();
            firsts.push(packet.clone()?)?;
        }
    }
    firsts.share()?;
    Ok(firsts)
}

/// Returns the number of first records that are the chain by `prev_volume` from an LSN down to 0, or `None` if other
/// records are between them.
fn chain_length(records: &RecordSet, lsn: u64) -> Option<usize>
    requires { is_growing (log_of_set records.now) ≡ true }
    ensures chain { IfSome result (λ len. IsChainTo lsn (added (take len (records_of records.now)) [])) }
    ensures within { IfSome result (λ len. len ≤ length (records_of records.now)) }
{
    let (mut last, mut len) = (0, 0);
    let mut left = records.records();
    while last != lsn {
        let record = left.next()?.record();
        if record.prev_volume != last {
            return None;
        }
        last = record.lsn;
        len += 1;
    }
    Some(len)
}

/// Returns the records of the chain by `prev_volume` from an LSN down to 0, in order of LSN.
fn chain_packets(
    alloc: Global,
    records: &RecordSet,
    lsn: u64,
) -> Result<Vec<SharedRecord>, AllocError>
    requires growing { is_growing (log_of_set records.now) ≡ true }
    requires there { is_some (chain_from lsn (log_of_set records.now) lsn) ≡ true }
    ensures chain { IfOk result (λ log. log_of log.items ≡ chain_or_none (chain_from lsn (log_of_set records.now)
        lsn)) }
    ensures growing { IfOk result (λ log. is_growing (log_of log.items) ≡ true) }
{
    let mut log = Vec::new(alloc);
    let mut next = lsn;
    while let Some(packet) = records.record_at(next) {
        log.push(packet.clone()?)?;
        next = packet.record().prev_volume;
    }
    log.reverse();
    Ok(log)
}

/// Returns the chain by `prev_volume` from an LSN down to 0. Shares the records if no others are between them.
///
/// # Errors
/// `AllocError` if memory runs out.
pub fn chain_of(alloc: Global, records: &RecordSet, lsn: u64) -> Result<RecordSet, AllocError>
    requires growing { is_growing (log_of_set records.now) ≡ true }
    requires there { is_some (chain_from lsn (log_of_set records.now) lsn) ≡ true }
    ensures chain { IfOk result (λ log. log_of_set log ≡ chain_or_none (chain_from lsn (log_of_set records.now) lsn)) }
    ensures growing { IfOk result (λ log. is_growing (log_of_set log) ≡ true) }
{
    if let Some(len) = chain_length(records, lsn) {
        return records.front(len);
    }
    let packets = chain_packets(alloc, records, lsn)?;
    let mut log = RecordSet::from_slice(alloc, &packets)?;
    log.share()?;
    Ok(log)
}
