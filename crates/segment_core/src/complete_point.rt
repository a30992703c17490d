//! Computes the complete point of any records.

ghost use Rattle.std.specs.Prelude.{◌≡◌, IfOk};
ghost use Rattle.volume_model.specs.Common.{scl};
ghost use Rattle.redo_record.specs.Common.{records_of};

use redo_record::RecordSet;
use std::alloc::{AllocError, Global};

/// Returns the complete point: the greatest LSN with a chain of records down to 0, else 0. Collects the records that
/// have such a chain. Fails only with `NoMemory`.
pub fn complete_point(alloc: Global, set: &RecordSet) -> Result<u64, AllocError>
    ensures { IfOk result (λ point. point ≡ scl (records_of set.now)) }
{
    let mut grounded = RecordSet::new(alloc);
    let mut point = 0;
    let mut left = set.records();
    while let Some(packet) = left.next() {
        let before = packet.prev_group();
        if before == 0 || grounded.record_at(before).is_some() {
            grounded.push(packet.clone()?)?;
            point = packet.lsn();
        }
    }
    Ok(point)
}
