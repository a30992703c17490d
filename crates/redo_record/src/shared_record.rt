//! Shared records.

ghost use Rattle.redo_record.specs.SharedRecord.{shared_redo};

use crate::comparing::{are_equal, compare};
use crate::record::Record;
use std::alloc::{AllocError, Global};
use std::cmp::Ordering;
use std::sync::Arc;

/// A shared pointer to a record. Logs, messages and segments keep records in this way.
#[derive(Drop)]
pub struct SharedRecord {
    shared: Arc<Record>,
}

impl SharedRecord {
    ghost use Rattle.std.specs.Prelude.{◌≡◌, IfOk};
    ghost use Rattle.std.specs.Ordering.{is_lt, is_eq};
    ghost use Rattle.volume_model.specs.Common.{spelling, is_same, numbers_before};
    ghost use Rattle.redo_record.specs.Record.{redo_of};

    /// Shares a record. Fails only with `NoMemory`.
    #[tactic(auto, unfolding(crate::specs::SharedRecord::shared_redo))]
    pub fn pack(alloc: Global, record: Record) -> Result<SharedRecord, AllocError>
        ensures { IfOk result (λ packet. shared_redo packet ≡ redo_of «record») }
    {
        Ok(SharedRecord {
            shared: Arc::new(alloc, record)?,
        })
    }

    /// Returns the record.
    #[tactic(auto, unfolding(crate::specs::SharedRecord::shared_redo))]
    pub fn record(&self) -> &Record
        ensures { redo_of result.now ≡ shared_redo self.now }
    {
        &self.shared
    }

    /// Returns the record's LSN.
    pub fn lsn(&self) -> u64
        ensures { result ≡ (shared_redo self.now).lsn }
    {
        self.record().lsn
    }

    /// Returns the volume epoch of the record's writer.
    pub fn volume_epoch(&self) -> u32
        ensures { result ≡ (shared_redo self.now).volume }
    {
        self.record().volume_epoch
    }

    /// Returns the LSN of the record before it in its group, 0 if there is none.
    pub fn prev_group(&self) -> u64
        ensures { result ≡ (shared_redo self.now).prev_group }
    {
        self.record().prev_group
    }

    /// Returns the record's group.
    pub fn group(&self) -> u8
        ensures { result ≡ (shared_redo self.now).group }
    {
        self.record().group
    }

    /// Compares two records in the order of their bytes.
    pub(crate) fn compare(&self, other: &SharedRecord) -> Ordering
        ensures same { is_eq result ≡ is_same (shared_redo self.now) (shared_redo other.now) }
        ensures before { is_lt result ≡ numbers_before (spelling (shared_redo self.now))
            (spelling (shared_redo other.now)) }
    {
        compare(self.record(), other.record())
    }

    /// Returns whether both records are equal.
    pub fn is_same(&self, other: &SharedRecord) -> bool
        ensures { result ≡ is_same (shared_redo self.now) (shared_redo other.now) }
    {
        are_equal(self.record(), other.record())
    }

    /// Returns whether this record comes before the other in the order of their bytes.
    pub fn is_before(&self, other: &SharedRecord) -> bool
        ensures { result ≡ numbers_before (spelling (shared_redo self.now)) (spelling (shared_redo other.now)) }
    {
        let (own, others) = (self.lsn(), other.lsn());
        if own == others {
            self.compare(other).is_lt()
        } else {
            own < others
        }
    }
}

impl Clone for SharedRecord {
    ghost use Rattle.std.specs.Prelude.{◌≡◌};

    ghost is_clone = { λ packet copy. shared_redo copy ≡ shared_redo packet };

    #[tactic(auto, unfolding(crate::specs::SharedRecord::shared_redo))]
    fn clone(&self) -> Result<SharedRecord, AllocError> {
        Ok(SharedRecord {
            shared: self.shared.clone()?,
        })
    }
}
