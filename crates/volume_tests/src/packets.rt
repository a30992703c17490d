//! Records for tests.

use lineage::Lineage;
use redo_record::{Payload, Record, RecordSet, SharedRecord};
use std::alloc::Global;
use std::sync::Arc;
use volume_model::Fault;
use wire::Contents;

/// A record that writes one byte. The fields are those of a record.
#[derive(Clone, Copy)]
pub struct Line {
    pub lsn: u64,
    pub volume_epoch: u32,
    pub prev_volume: u64,
    pub prev_group: u64,
    pub prev_block: u64,
    pub group: u8,
    pub block: u32,
    pub offset: u16,
    pub byte: u8,
    pub point: bool,
}

/// The record with LSN 1, a consistency point of volume epoch 1, which writes `a` at the beginning of block 0 of group
/// 0.
pub const FIRST: Line = Line {
    lsn: 1,
    volume_epoch: 1,
    prev_volume: 0,
    prev_group: 0,
    prev_block: 0,
    group: 0,
    block: 0,
    offset: 0,
    byte: b'a',
    point: true,
};

/// Returns the same record with another LSN, chained to the LSN before it.
pub fn chained(lsn: u64) -> Line {
    let before = lsn.saturating_sub(1);
    Line {
        lsn,
        prev_volume: before,
        prev_group: before,
        prev_block: before,
        ..FIRST
    }
}

/// Returns a shared record; `BadField` if there is no such record.
pub fn packet(alloc: Global, line: Line) -> Result<SharedRecord, Fault> {
    let Some(bytes) = Payload::new(&[line.byte]) else {
        return Err(Fault::BadField);
    };
    if line.lsn > 1 << 62
        || line.volume_epoch == 0
        || line.prev_volume >= line.lsn
        || line.prev_group > line.prev_volume
        || line.prev_block > line.prev_group
        || line.group > 15
        || line.offset > 511
    {
        return Err(Fault::BadField);
    }
    let record = Record {
        lsn: line.lsn,
        volume_epoch: line.volume_epoch,
        prev_volume: line.prev_volume,
        prev_group: line.prev_group,
        prev_block: line.prev_block,
        group: line.group,
        block: line.block,
        offset: line.offset,
        bytes,
        point: line.point,
    };
    Ok(SharedRecord::pack(alloc, record)?)
}

/// Returns the chained records from one LSN up to another.
pub fn chain(alloc: Global, first: u64, last: u64) -> Result<RecordSet, Fault> {
    let mut records = RecordSet::new(alloc);
    for lsn in first..=last {
        records.insert(packet(alloc, chained(lsn))?)?;
    }
    Ok(records)
}

/// Returns the lineage of a volume's first recovery, with this volume epoch and cut and a LAL of 10. The volume was
/// born with volume epoch 1.
pub fn recovered(alloc: Global, volume_epoch: u32, cut: u64) -> Result<Lineage, Fault> {
    let birth = Lineage::birth(alloc)?;
    if volume_epoch <= birth.last_epoch() {
        return Ok(birth);
    }
    birth.extend(volume_epoch, cut, 10)
}

/// Returns shared contents, as reports have them.
pub fn shared(alloc: Global, lineage: Lineage, records: RecordSet) -> Result<Arc<Contents>, Fault> {
    Ok(Arc::new(alloc, Contents { lineage, records })?)
}
