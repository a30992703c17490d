//! Decodes records from bytes.

ghost use Rattle.std.specs.Prelude.{◌≡◌, Ok, Err, length, drop, true, MatchResult, IfOk};
ghost use Rattle.redo_record.specs.Head.{head_in, is_allowed, redo_from};
ghost use Rattle.redo_record.specs.Record.{redo_of};
ghost use Rattle.redo_record.specs.Spelling.{spelled, decoded};

use crate::head::{HEAD_BYTES, Head, head_of, is_allowed};
use crate::payload::Payload;
use crate::record::Record;
use volume_model::Fault;

/// Checks that the bytes encode a record. Returns its fields without the bytes that it writes.
///
/// # Errors
/// `Short` if there are too few bytes, `BadField` if a field isn't allowed, `Trailing` if there are too many.
#[tactic(auto, unfolding(crate::specs::Spelling::decoded))]
pub fn checked_head(bytes: &[u8]) -> Result<Head, Fault>
    ensures head { IfOk result (λ head. head ≡ head_in bytes.now) }
    ensures exact { MatchResult result (λ head. decoded bytes.now ≡ Ok (redo_from head (drop 45 bytes.now)))
        (λ fault. decoded bytes.now ≡ Err fault) }
{
    if bytes.len() < HEAD_BYTES {
        return Err(Fault::Short);
    }
    let head = head_of(bytes);
    if !is_allowed(&head) {
        return Err(Fault::BadField);
    }
    let (_, written) = bytes.split_at(HEAD_BYTES);
    if written.len() < usize::from(head.length) {
        return Err(Fault::Short);
    }
    if written.len() > usize::from(head.length) {
        return Err(Fault::Trailing);
    }
    Ok(head)
}

/// Returns the record with these fields, which writes these bytes.
pub fn record_from(head: &Head, written: &[u8]) -> Record
    requires allowed { is_allowed head.now ≡ true }
    requires whole { length written.now ≡ head.now.length }
    ensures { redo_of result ≡ redo_from head.now written.now }
{
    let Some(payload) = Payload::new(written) else {
        unreachable!()
    };
    Record {
        lsn: head.lsn,
        volume_epoch: head.volume_epoch,
        prev_volume: head.prev_volume,
        prev_group: head.prev_group,
        prev_block: head.prev_block,
        group: head.group,
        block: head.block,
        offset: head.offset,
        bytes: payload,
        point: head.point == 1,
    }
}

/// Decodes a record. Allocates nothing.
///
/// # Errors
/// `Short` if there are too few bytes, `BadField` if a field isn't allowed, `Trailing` if there are too many.
pub fn decode(bytes: &[u8]) -> Result<Record, Fault>
    ensures exact { MatchResult result (λ r. decoded bytes.now ≡ Ok (redo_of r))
        (λ fault. decoded bytes.now ≡ Err fault) }
    ensures found { IfOk result (λ r. bytes.now ≡ spelled (redo_of r)) }
{
    let head = checked_head(bytes)?;
    let (_, written) = bytes.split_at(HEAD_BYTES);
    Ok(record_from(&head, written))
}
