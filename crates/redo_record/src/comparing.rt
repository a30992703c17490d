//! Compares records in the order of their bytes.

ghost use Rattle.std.specs.Prelude.{◌≡◌, ◌∷◌, length};
ghost use Rattle.std.specs.Ordering.{is_lt, is_eq};
ghost use Rattle.volume_model.specs.Common.{spelling, is_same, same_numbers, numbers_before};
ghost use Rattle.redo_record.specs.Payload.{payload_bytes};
ghost use Rattle.redo_record.specs.Record.{redo_of};

use crate::payload::Payload;
use crate::record::Record;
use std::cmp::Ordering;

/// Compares payloads: the shorter one comes first; of equally long ones, the first in order of bytes.
fn compare_bytes(own: &Payload, others: &Payload) -> Ordering
    ensures same { is_eq result ≡ same_numbers (length (payload_bytes own.now) ∷ payload_bytes own.now)
        (length (payload_bytes others.now) ∷ payload_bytes others.now) }
    ensures before { is_lt result ≡ numbers_before (length (payload_bytes own.now) ∷ payload_bytes own.now)
        (length (payload_bytes others.now) ∷ payload_bytes others.now) }
{
    let (own, others) = (own.as_slice(), others.as_slice());
    own.len().cmp(&others.len()).then(own.cmp(&others))
}

/// Compares two records in the order of their bytes, field by field.
pub fn compare(own: &Record, others: &Record) -> Ordering
    ensures same { is_eq result ≡ is_same (redo_of own.now) (redo_of others.now) }
    ensures before { is_lt result ≡ numbers_before (spelling (redo_of own.now)) (spelling (redo_of others.now)) }
{
    own.lsn
        .cmp(&others.lsn)
        .then(own.volume_epoch.cmp(&others.volume_epoch))
        .then(own.prev_volume.cmp(&others.prev_volume))
        .then(own.prev_group.cmp(&others.prev_group))
        .then(own.prev_block.cmp(&others.prev_block))
        .then(own.group.cmp(&others.group))
        .then(own.block.cmp(&others.block))
        .then(own.offset.cmp(&others.offset))
        .then(u8::from(own.point).cmp(&u8::from(others.point)))
        .then(compare_bytes(&own.bytes, &others.bytes))
}

/// Returns whether two records are equal, field by field up to the first difference.
pub fn are_equal(own: &Record, others: &Record) -> bool
    ensures { result ≡ is_same (redo_of own.now) (redo_of others.now) }
{
    own.lsn == others.lsn
        && own.volume_epoch == others.volume_epoch
        && own.prev_volume == others.prev_volume
        && own.prev_group == others.prev_group
        && own.prev_block == others.prev_block
        && own.group == others.group
        && own.block == others.block
        && own.offset == others.offset
        && u8::from(own.point) == u8::from(others.point)
        && own.bytes.is_same(&others.bytes)
}
