//! A redo record.

ghost use Rattle.std.specs.Prelude.{◌+◌, ◌^◌, ◌<◌, ◌≤◌, length};
ghost use Rattle.redo_record.specs.Payload.{payload_bytes};

use crate::payload::Payload;

/// A redo record: one change to a block, with its LSN and the LSNs of the records before it. Fields are in the order of
/// their sizes, so that a record takes 112 bytes.
#[derive(Clone, Copy)]
pub struct Record {
    /// The record's LSN.
    pub lsn: u64,
    /// The LSN of the record before it in the volume, 0 if there is none.
    pub prev_volume: u64,
    /// The LSN of the record before it in its group, 0 if there is none.
    pub prev_group: u64,
    /// The LSN of the record before it on its block, 0 if there is none.
    pub prev_block: u64,
    /// The volume epoch of the record's writer.
    pub volume_epoch: u32,
    /// The block of the group.
    pub block: u32,
    /// The offset in the block of the first byte that it writes.
    pub offset: u16,
    /// The protection group.
    pub group: u8,
    /// Whether it is a consistency point, the end of a mini-transaction.
    pub point: bool,
    /// The bytes that it writes.
    pub bytes: Payload,
    pub ghost lsn_positive: { 1 ≤ lsn },
    pub ghost lsn_in_range: { lsn ≤ 2 ^ 62 },
    pub ghost volume_epoch_positive: { 1 ≤ volume_epoch },
    pub ghost prev_volume_before: { prev_volume < lsn },
    pub ghost prev_group_in_volume: { prev_group ≤ prev_volume },
    pub ghost prev_block_in_group: { prev_block ≤ prev_group },
    pub ghost group_in_range: { group < 16 },
    pub ghost bytes_within: { offset + length (payload_bytes bytes) ≤ 512 },
}
