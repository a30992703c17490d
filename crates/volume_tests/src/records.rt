//! Tests of encoded records and of sets of records.

use super::packets::{FIRST, Line, packet};
use redo_record::{RecordSet, SharedRecord, decode, encode};
use std::alloc::Global;
use std::test::*;
use volume_model::Fault;

/// The record with LSN 1, a consistency point that writes 61 at the beginning of block 0 of group 0.
const BYTES: [u8; 46] = [
    0, 0, 0, 0, 0, 0, 0, 1, 0, 0, 0, 1, 0, 0, 0, 0, 0, 0, 0, 0, 0, 0, 0, 0, 0, 0, 0, 0, 0, 0, 0, 0,
    0, 0, 0, 0, 0, 0, 0, 0, 0, 0, 0, 1, 1, 0x61,
];

/// Returns the LSN and the volume epoch of a record, and whether it is a consistency point.
fn read(bytes: &[u8]) -> Result<(u64, u32, bool), Fault> {
    let record = decode(bytes)?;
    Ok((record.lsn, record.volume_epoch, record.point))
}

/// Returns whether the record writes `a`, its packets are the same, and it is encoded as it was decoded.
fn written(alloc: Global) -> Result<[bool; 3], Fault> {
    let record = decode(&BYTES)?;
    let packet = SharedRecord::pack(alloc, record)?;
    let again = SharedRecord::pack(alloc, *packet.record())?;
    let bytes = encode(alloc, packet.record())?;
    Ok([
        record.bytes.as_slice() == b"a".as_slice(),
        packet.is_same(&again),
        bytes.as_slice() == BYTES.as_slice(),
    ])
}

#[test]
fn one_record(rt: HostRuntime) {
    assert_eq!(rt; read(&BYTES), Ok((1, 1, true)));
    assert_eq!(rt; written(rt.alloc()), Ok([true, true, true]));
}

#[test]
fn faults(rt: HostRuntime) {
    for length in 0..46 {
        assert_eq!(rt; read(&BYTES[..length]), Err(Fault::Short));
    }
    let mut longer = [0; 47];
    longer[..46].copy_from_slice(&BYTES);
    assert_eq!(rt; read(&longer), Err(Fault::Trailing));
    let mut flagged = BYTES;
    flagged[43] = 2;
    assert_eq!(rt; read(&flagged), Err(Fault::BadField));
}

/// Returns the shared record with this LSN that writes one byte.
fn writing(alloc: Global, lsn: u64, byte: u8) -> Result<SharedRecord, Fault> {
    packet(alloc, Line { lsn, byte, ..FIRST })
}

/// Returns the set of the records with these LSNs that write these bytes; each is added twice.
fn set(alloc: Global, records: &[(u64, u8)]) -> Result<RecordSet, Fault> {
    let mut set = RecordSet::new(alloc);
    for (lsn, byte) in records {
        let packet = writing(alloc, *lsn, *byte)?;
        set.insert(packet.clone()?)?;
        set.insert(packet)?;
    }
    Ok(set)
}

/// Returns whether the set has these records, in order.
fn has(set: &RecordSet, records: &[(u64, u8)]) -> bool {
    let mut left = set.records();
    for (lsn, byte) in records {
        let Some(packet) = left.next() else {
            return false;
        };
        if packet.lsn() != *lsn || packet.record().bytes.as_slice() != [*byte].as_slice() {
            return false;
        }
    }
    set.len() == records.len()
}

/// Returns whether a new set is empty, the number of records of the first of two sets, whether the second has a record
/// of the first, and whether their union has all.
fn sets_of_two(alloc: Global) -> Result<(bool, usize, bool, bool), Fault> {
    let empty = RecordSet::new(alloc).is_empty();
    let left = set(alloc, &[(3, 1), (1, 2), (2, 1), (1, 1)])?;
    let right = set(alloc, &[(1, 2), (9, 1)])?;
    let contained = right.contains(&writing(alloc, 3, 1)?);
    let both = left.union(alloc, &right)?;
    let all = has(&both, &[(1, 1), (1, 2), (2, 1), (3, 1), (9, 1)]);
    Ok((empty, left.len(), contained, all))
}

#[test]
fn sets(rt: HostRuntime) {
    assert_eq!(rt; sets_of_two(rt.alloc()), Ok((true, 4, false, true)));
}
