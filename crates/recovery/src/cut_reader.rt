//! Computes the cut of a log.

ghost use Rattle.std.specs.Prelude.{◌≡◌, true, Ok, ◌≤◌, ℕ, [], OnOk};
ghost use Rattle.volume_model.specs.Common.{Gives, cut_of};
ghost use Rattle.writer_core.specs.Logs.{log_of_set, is_growing};
ghost use Rattle.recovery.specs.CutReader.{log_of_records};

use crate::grounded_lsns::GroundedLsns;
use redo_record::{Record, RecordSet};
use std::alloc::{AllocError, Global};
use volume_model::Fault;

/// The cut of the records read so far, in order of LSN.
#[derive(Drop)]
pub struct CutReader {
    /// The LSNs whose chain by `prev_volume` leads down to 0.
    grounded: GroundedLsns,
    cut: u64,
}

impl CutReader {
    ghost use Rattle.redo_record.specs.Common.{redo_of};
    ghost use Rattle.recovery.specs.GroundedLsns.{is_grounded};
    ghost use Rattle.recovery.specs.CutReader.{IsCutOf, ReadsOneMore};

    /// Makes the cut of no records.
    fn new(alloc: Global) -> CutReader
        ensures { IsCutOf result [] }
    {
        CutReader {
            grounded: GroundedLsns::new(alloc),
            cut: 0,
        }
    }

    /// Reads one more record, whose LSN is greater than those before it.
    ///
    /// # Errors
    /// `AllocError` if memory runs out.
    #[inline]
    fn read(&mut self, record: &Record) -> Result<(), AllocError>
        requires { (n : ℕ) → is_grounded self.old.grounded n ≡ true → n ≤ «record».now.lsn }
        ensures { OnOk result (ReadsOneMore self.old self.new (redo_of «record».now)) }
    {
        if record.prev_volume == 0 || self.grounded.contains(record.prev_volume) {
            self.grounded.push(record.lsn)?;
            if record.point {
                self.cut = record.lsn;
            }
        }
        Ok(())
    }
}

/// Returns whether the LSNs of a set grow.
pub fn are_growing(set: &RecordSet) -> bool
    ensures { result ≡ is_growing (log_of_set set.now) }
{
    let mut growing = true;
    let mut last = 0;
    let mut left = set.records();
    while let Some(packet) = left.next() {
        growing = last < packet.lsn() && growing;
        last = packet.lsn();
    }
    growing
}

/// Returns the cut of a set, as [`cut_of`] does.
///
/// # Errors
/// `NoMemory` if memory runs out.
pub fn shared_cut_of(alloc: Global, set: &RecordSet) -> Result<u64, Fault>
    requires { is_growing (log_of_set set.now) ≡ true }
    ensures { Gives (λ cut. cut) result (Ok (cut_of (log_of_set set.now))) }
{
    let mut reader = CutReader::new(alloc);
    let mut left = set.records();
    while let Some(packet) = left.next() {
        reader.read(packet.record())?;
    }
    Ok(reader.cut)
}

/// Returns whether the LSNs of records grow.
pub fn is_growing(records: &[Record]) -> bool
    ensures { result ≡ is_growing (log_of_records records.now) }
{
    let mut growing = true;
    let mut last = 0;
    for record in records {
        growing = last < record.lsn && growing;
        last = record.lsn;
    }
    growing
}

/// Returns the cut of records in order of LSN: the greatest consistency point whose chain by `prev_volume` leads
/// through the records down to 0, or 0 if there is none.
///
/// # Errors
/// `NoMemory` if memory runs out.
pub fn cut_of(alloc: Global, records: &[Record]) -> Result<u64, Fault>
    requires { is_growing (log_of_records records.now) ≡ true }
    ensures { Gives (λ cut. cut) result (Ok (cut_of (log_of_records records.now))) }
{
    let mut reader = CutReader::new(alloc);
    for record in records {
        reader.read(record)?;
    }
    Ok(reader.cut)
}
