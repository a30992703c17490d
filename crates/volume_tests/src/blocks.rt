//! Tests of pages.

use super::packets::{Line, chained, packet};
use crate::picked::of_block;
use pages::{BLOCK, page_of};
use redo_record::RecordSet;
use std::alloc::Global;
use std::test::*;
use volume_model::Fault;

/// Returns the records 1, 2 and 3, which write 61, 62 and 63 to the first bytes of block 0. The last is a consistency
/// point.
fn three(alloc: Global) -> Result<RecordSet, Fault> {
    let mut records = RecordSet::new(alloc);
    for (lsn, offset, byte) in [(1, 0, 0x61), (2, 1, 0x62), (3, 2, 0x63)] {
        let line = Line {
            offset,
            byte,
            point: lsn == 3,
            ..chained(lsn)
        };
        records.insert(packet(alloc, line)?)?;
    }
    Ok(records)
}

/// Returns whether the page of a block at a point has these first bytes and is 0 after them.
fn begins_by(alloc: Global, block: u32, point: u64, bytes: [u8; 3]) -> Result<bool, Fault> {
    let records = three(alloc)?;
    let found = of_block(alloc, &records, block)?;
    let mut expected = [0; BLOCK];
    expected[..3].copy_from_slice(&bytes);
    Ok(page_of(&found, block, point).as_slice() == expected.as_slice())
}

/// A block, a point, and the first bytes of its page.
const PAGES: &[(u32, u64, [u8; 3])] = &[
    (1, 3, [0, 0, 0]),
    (0, 2, [0x61, 0x62, 0]),
    (0, 3, [0x61, 0x62, 0x63]),
];

#[test]
fn three_bytes(rt: HostRuntime) {
    for (block, point, bytes) in PAGES {
        assert_eq!(rt;
            begins_by(rt.alloc(), *block, *point, *bytes),
            Ok(true),
            "{block} at {point}"
        );
    }
}
