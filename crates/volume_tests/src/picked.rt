//! The records of one block, for pages.

ghost use Rattle.std.specs.Prelude.{◌≡◌, All, IfOk};
ghost use Rattle.redo_record.specs.Common.{shared_redo};

use redo_record::{RecordSet, SharedRecord};
use std::alloc::{AllocError, Global};

/// Returns the records that are of the block.
pub fn of_block(
    alloc: Global,
    records: &RecordSet,
    block: u32,
) -> Result<Vec<SharedRecord>, AllocError>
    ensures { IfOk result (λ found. All (λ packet. (shared_redo packet).block ≡ block) found.items) }
{
    let mut found = Vec::new(alloc);
    let mut left = records.records();
    while let Some(packet) = left.next() {
        let packet = packet.clone()?;
        if packet.record().block == block {
            found.push(packet)?;
        }
    }
    Ok(found)
}
