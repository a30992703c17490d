//! The result of a recovery's cut.

ghost use Rattle.std.specs.Prelude.{◌≡◌, true, IfOk};
ghost use Rattle.lineage.specs.Lineage.{lineage_of};
ghost use Rattle.writer_core.specs.Logs.{log_of_set, is_growing};
ghost use Rattle.volume_model.specs.Common.{last_cut};

use lineage::Lineage;
use redo_record::RecordSet;
use std::alloc::AllocError;
use writer_core::Writer;

/// The result of a recovery's cut.
#[derive(Drop)]
pub struct Found {
    /// The log found, up to the cut, in order of LSN.
    pub log: RecordSet,
    /// The cut: the LSN up to which the log is kept.
    pub cut: u64,
    /// The lineage, with the recovery's own entry.
    pub lineage: Lineage,
    pub ghost growing: { is_growing (log_of_set log) ≡ true },
    pub ghost entered: { last_cut (lineage_of lineage) ≡ cut },
}

impl Found {
    ghost use Rattle.writer_core.specs.Writers.{client_of};
    ghost use Rattle.recovery.specs.Finds.{IsFindOf};

    /// Returns the result of the recovery that became this writer. The first writer has no recovery: its log found is
    /// empty.
    ///
    /// # Errors
    /// `AllocError` if memory runs out.
    pub fn of_writer(writer: &Writer) -> Result<Found, AllocError>
        ensures { IfOk result (IsFindOf (client_of writer.now)) }
    {
        Ok(Found {
            log: writer.found().clone()?,
            cut: writer.lineage().last_cut(),
            lineage: writer.lineage().clone()?,
        })
    }
}

impl Clone for Found {
    ghost use Rattle.recovery.specs.Finds.{IsSameFind};

    ghost is_clone = { IsSameFind };

    fn clone(&self) -> Result<Found, AllocError> {
        Ok(Found {
            log: self.log.clone()?,
            cut: self.cut,
            lineage: self.lineage.clone()?,
        })
    }
}
