//! Tests of the complete point of records that come in several orders.

use crate::packets::{FIRST, Line, packet};
use redo_record::RecordSet;
use segment_core::Chains;
use std::alloc::Global;
use std::test::*;
use volume_model::Fault;

// Records, and their chains.
#[derive(Drop)]
struct Held {
    set: RecordSet,
    chains: Chains,
}

// Holds no records.
fn nothing(alloc: Global) -> Held {
    Held {
        set: RecordSet::new(alloc),
        chains: Chains::new(),
    }
}

// Adds the record with an LSN that links to another LSN. Returns the complete point.
fn take(alloc: Global, held: &mut Held, lsn: u64, before: u64) -> Result<u64, Fault> {
    let line = Line {
        lsn,
        prev_volume: before,
        prev_group: before,
        ..FIRST
    };
    let packet = packet(alloc, line)?;
    if let Some(place) = held.set.place_for(&packet) {
        let place = held.set.make_room(place)?;
        held.chains = held.chains.with_record(alloc, &held.set, place, &packet)?;
        held.set.insert_at(place, packet);
    }
    Ok(held.chains.point())
}

#[test]
fn a_record_wakes_a_later_one(rt: HostRuntime) -> Result<(), Fail> {
    let mut held = nothing(rt.alloc());
    assert_eq!(rt; take(rt.alloc(), &mut held, 3, 2)?, 0);
    assert_eq!(rt; take(rt.alloc(), &mut held, 1, 0)?, 1);
    assert_eq!(rt; take(rt.alloc(), &mut held, 2, 0)?, 3);
    Ok(())
}

#[test]
fn the_first_of_a_chain_comes_last(rt: HostRuntime) -> Result<(), Fail> {
    let mut held = nothing(rt.alloc());
    for before in (1..2000).rev() {
        assert_eq!(rt; take(rt.alloc(), &mut held, before + 1, before)?, 0);
    }
    assert_eq!(rt; take(rt.alloc(), &mut held, 1, 0)?, 2000);
    Ok(())
}

#[test]
fn two_arms_of_a_fork_end_in_either_order(rt: HostRuntime) -> Result<(), Fail> {
    for ends in [(1, 5), (2, 6)] {
        let mut held = nothing(rt.alloc());
        for late in [5, 6, 3, 4] {
            assert_eq!(rt; take(rt.alloc(), &mut held, late, late - 2)?, 0);
        }
        assert_eq!(rt; take(rt.alloc(), &mut held, ends.0, 0)?, ends.1);
        assert_eq!(rt; take(rt.alloc(), &mut held, 3 - ends.0, 0)?, 6);
    }
    Ok(())
}
