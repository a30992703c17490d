//! Checks the group of records.

ghost use Rattle.std.specs.Prelude.{◌≡◌, ◌==◌, map};
ghost use Rattle.volume_model.specs.Common.{every};
ghost use Rattle.redo_record.specs.SharedRecord.{shared_redo};

use crate::shared_record::SharedRecord;

/// Returns whether each record is of the group.
pub fn are_of(packets: &[SharedRecord], group: u8) -> bool
    ensures { result ≡ every (λ r. r.group == group) (map shared_redo packets.now) }
{
    packets.iter().all(|packet| packet.group() == group)
}
