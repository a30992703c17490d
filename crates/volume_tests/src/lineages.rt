//! Tests of lineages of several recoveries, and of live records.

use super::packets::{FIRST, Line, packet, recovered};
use lineage::Lineage;
use redo_record::RecordSet;
use std::alloc::Global;
use std::test::*;
use volume_model::Fault;

/// A recovery: its volume epoch, its cut, and the plan's LAL.
type Step = (u32, u64, u64);

/// Returns the lineage after these recoveries; `NotAddressed` if one has an earlier volume epoch.
fn after(alloc: Global, steps: &[Step]) -> Result<Lineage, Fault> {
    let mut lineage = Lineage::birth(alloc)?;
    for (volume_epoch, cut, allowance) in steps {
        if *volume_epoch <= lineage.last_epoch() || *allowance == 0 {
            return Err(Fault::NotAddressed);
        }
        lineage = lineage.extend(*volume_epoch, *cut, *allowance)?;
    }
    Ok(lineage)
}

/// Returns the last volume epoch and the last start after these recoveries.
fn last(alloc: Global, steps: &[Step]) -> Result<(u32, u64), Fault> {
    let lineage = after(alloc, steps)?;
    Ok((lineage.last_epoch(), lineage.last_start()))
}

/// The recoveries of a volume, and its last volume epoch and start, or the refusal of the last recovery.
const STARTS: &[(&[Step], Result<(u32, u64), Fault>)] = &[
    (&[], Ok((1, 0))),
    (&[(2, 1000, 10_000_000)], Ok((2, 10_001_000))),
    (&[(2, 1 << 62, 1)], Err(Fault::LsnSpent)),
    (&[(2, u64::MAX, 10)], Err(Fault::LsnSpent)),
    (&[(2, 5, 10)], Ok((2, 15))),
    (&[(2, 5, 10), (4, 5, 10)], Ok((4, 25))),
    (&[(3, 3, 10)], Ok((3, 13))),
    (&[(3, 3, 10), (4, 3, 10)], Ok((4, 23))),
];

#[test]
fn starts(rt: HostRuntime) {
    for (steps, expected) in STARTS {
        assert_eq!(rt; last(rt.alloc(), steps), *expected, "of {steps:?}");
    }
}

/// Returns whether a record is live after the recovery of volume epoch 3 that cut at 3.
fn is_live(alloc: Global, volume_epoch: u32, lsn: u64) -> Result<bool, Fault> {
    Ok(recovered(alloc, 3, 3)?.is_live(volume_epoch, lsn))
}

/// A volume epoch, an LSN, and whether the record is live.
const LIVES: &[(u32, u64, bool)] = &[
    (1, 3, true),
    (1, 4, false),
    (2, 16, false),
    (3, 13, false),
    (3, 14, true),
];

#[test]
fn lives(rt: HostRuntime) {
    for (volume_epoch, lsn, expected) in LIVES {
        assert_eq!(rt;
            is_live(rt.alloc(), *volume_epoch, *lsn),
            Ok(*expected),
            "{lsn} of {volume_epoch}"
        );
    }
}

/// Returns the cut of the newer of two lineages, each of one recovery with this volume epoch and cut, or of the birth.
fn newer_cut(alloc: Global, one: (u32, u64), other: (u32, u64)) -> Result<u64, Fault> {
    let one = recovered(alloc, one.0, one.1)?;
    let other = recovered(alloc, other.0, other.1)?;
    Ok(one.newer(&other).last_cut())
}

/// The newer lineage has the greater last epoch; of two with the same it is the first.
#[test]
fn newer_of_two(rt: HostRuntime) {
    assert_eq!(rt; newer_cut(rt.alloc(), (1, 0), (3, 3)), Ok(3));
    assert_eq!(rt; newer_cut(rt.alloc(), (3, 3), (1, 0)), Ok(3));
    assert_eq!(rt; newer_cut(rt.alloc(), (3, 3), (3, 5)), Ok(3));
}

/// Returns the set of records with these volume epochs and LSNs, each the first of its chain.
fn set(alloc: Global, records: &[(u32, u64)]) -> Result<RecordSet, Fault> {
    let mut set = RecordSet::new(alloc);
    for (volume_epoch, lsn) in records {
        let line = Line {
            lsn: *lsn,
            volume_epoch: *volume_epoch,
            ..FIRST
        };
        set.insert(packet(alloc, line)?)?;
    }
    Ok(set)
}

/// Recoveries, the records that a member reports after them, and those of them that are live.
type Live = (
    &'static [Step],
    &'static [(u32, u64)],
    &'static [(u32, u64)],
);

/// The second recovery starts at 15, the third at 30, the fourth at 40. Records of epoch 2 are live up to the cut of the
/// fourth. An epoch that no recovery had, or one that comes late in the order of LSNs, has no live record.
const LIVE_RECORDS: &[Live] = &[
    (
        &[(3, 3, 10)],
        &[(1, 2), (1, 3), (1, 4), (2, 14), (3, 13), (3, 14)],
        &[(1, 2), (1, 3), (3, 14)],
    ),
    (
        &[(2, 5, 10), (4, 20, 10), (5, 18, 10)],
        &[
            (1, 5),
            (1, 6),
            (3, 12),
            (2, 16),
            (1, 17),
            (2, 18),
            (2, 19),
            (4, 31),
            (5, 41),
        ],
        &[(1, 5), (2, 16), (2, 18), (5, 41)],
    ),
];

/// Returns whether a set has exactly these records.
fn is_set(records: &RecordSet, numbers: &[(u32, u64)]) -> bool {
    let mut left = records.records();
    for (volume_epoch, lsn) in numbers {
        let Some(packet) = left.next() else {
            return false;
        };
        if packet.volume_epoch() != *volume_epoch || packet.lsn() != *lsn {
            return false;
        }
    }
    records.len() == numbers.len()
}

/// Returns whether these are the live ones among reported records and one kept record, which is live.
fn are_live(
    alloc: Global,
    steps: &[Step],
    reported: &[(u32, u64)],
    live: &[(u32, u64)],
) -> Result<bool, Fault> {
    let reported = set(alloc, reported)?;
    let kept = set(alloc, &live[..1.min(live.len())])?;
    Ok(is_set(
        &after(alloc, steps)?.with_live(alloc, &reported, &kept)?,
        live,
    ))
}

#[test]
fn live_records(rt: HostRuntime) {
    for (steps, reported, live) in LIVE_RECORDS {
        assert_eq!(rt;
            are_live(rt.alloc(), steps, reported, live),
            Ok(true),
            "after {steps:?}"
        );
    }
}
