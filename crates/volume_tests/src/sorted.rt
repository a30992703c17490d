//! Tests of sorted runs, with records that come in several orders.

use redo_record::{Payload, Record, RecordSet, SharedRecord};
use std::alloc::{AllocError, Global};
use std::test::*;

const COUNT: u64 = 10_000;

// Returns the record with this LSN on this block, without links.
fn packet(alloc: Global, lsn: u64, block: u32) -> Result<SharedRecord, Fail> {
    let record = Record {
        lsn: lsn.clamp(1, 2 * COUNT),
        volume_epoch: 1,
        prev_volume: 0,
        prev_group: 0,
        prev_block: 0,
        group: 0,
        block,
        offset: 0,
        bytes: Payload::new(b"a").ok_or("one byte is a payload")?,
        point: false,
    };
    Ok(SharedRecord::pack(alloc, record)?)
}

// Adds a record. Returns whether it is new.
fn take(runs: &mut RecordSet, packet: SharedRecord) -> Result<bool, AllocError> {
    let Some(place) = runs.place_for(&packet) else {
        return Ok(false);
    };
    let place = runs.make_room(place)?;
    runs.insert_at(place, packet);
    Ok(true)
}

// Returns the number of records with this LSN.
fn count_of(runs: &RecordSet, lsn: u64) -> usize {
    let mut place = runs.first_at_least(lsn);
    let mut count: usize = 0;
    while let Some(packet) = runs.get(place) {
        if packet.lsn() != lsn {
            break;
        }
        count = count.saturating_add(1);
        place = runs.next(place);
    }
    count
}

// Adds the records 1 to 10,000 in steps of `step`. Returns whether the runs have them in order.
fn is_sorted(alloc: Global, step: u64) -> Result<bool, Fail> {
    let mut runs = RecordSet::new(alloc);
    for k in 0..COUNT {
        take(
            &mut runs,
            packet(alloc, k.wrapping_mul(step) % COUNT + 1, 0)?,
        )?;
    }
    let mut next = 1;
    let mut records = runs.records();
    while let Some(packet) = records.next() {
        if packet.lsn() != next {
            return Ok(false);
        }
        next = packet.lsn().saturating_add(1);
    }
    Ok(next == COUNT + 1)
}

#[test]
fn records_come_in_order_again(rt: HostRuntime) -> Result<(), Fail> {
    for step in [1, COUNT - 1, 7919] {
        assert!(rt; is_sorted(rt.alloc(), step)?, "in steps of {step}");
    }
    Ok(())
}

// Returns the records 2, 4 to 1024, which fill two runs.
fn evens(alloc: Global) -> Result<RecordSet, Fail> {
    let mut set = RecordSet::new(alloc);
    for k in 1..513 {
        set.insert(packet(alloc, 2 * k, 0)?)?;
    }
    Ok(set)
}

// A record is added before the first, after each sixteenth, and so after the last.
#[test]
fn a_full_run_takes_one_more(rt: HostRuntime) -> Result<(), Fail> {
    let set = evens(rt.alloc())?;
    for k in 0..33 {
        let mut runs = set.clone()?;
        assert!(rt; take(&mut runs, packet(rt.alloc(), 32 * k + 1, 0)?)?);
        assert_eq!(rt; runs.len(), 513);
        assert_eq!(rt; set.len(), 512);
        assert!(rt; runs.record_at(32 * k + 1).is_some());
    }
    Ok(())
}

#[test]
fn records_of_one_number_stand_together(rt: HostRuntime) -> Result<(), Fail> {
    let mut runs = evens(rt.alloc())?;
    assert!(rt; !take(&mut runs, packet(rt.alloc(), 512, 0)?)?);
    for block in 1..5 {
        assert!(rt; take(&mut runs, packet(rt.alloc(), 512, block)?)?);
    }
    assert_eq!(rt; count_of(&runs, 512), 5);
    assert_eq!(rt; count_of(&runs, 513), 0);
    Ok(())
}
