//! Tests of numbers that run out: volume epochs, copies and LSNs.

use super::texts::{SIX, checked};
use super::writers::changes;
use epochs::{Authority, AuthoritySnapshot};
use lineage::{Entry, Lineage};
use recovery::Recovery;
use redo_record::RecordSet;
use segment_core::{Segment, SegmentSnapshot};
use std::alloc::Global;
use std::sync::Arc;
use std::test::*;
use volume_model::Fault::{self, EpochsSpent, LsnSpent, SeriesSpent};
use wire::{Ack, Contents, CopyAsk, Label, Message, Place, Report, View};

/// The place of a group at its root.
const ROOT: Place = Place {
    configuration: 0,
    epoch: 1,
};

/// The label of volume epoch 3.
const LABEL: Label = Label {
    volume: 3,
    member: 1,
};

/// The greatest LSN.
const LAST_LSN: u64 = 1 << 62;

/// Returns whether the authority may assign a volume epoch, and whether it does, once it has assigned this one.
fn assigned(alloc: Global, last_volume: u32) -> Result<[Result<(), Fault>; 2], Fault> {
    let snapshot = AuthoritySnapshot {
        last_volume,
        configurations: vec![in alloc; 0u8]?,
    };
    let mut authority = Authority::resumed(checked(alloc, SIX)?, snapshot)?;
    let may = authority.admits_assign();
    let done = match authority.assign(alloc) {
        Ok(_) => Ok(()),
        Err(fault) => Err(fault),
    };
    Ok([may, done])
}

#[test]
fn the_last_volume_epoch(rt: HostRuntime) {
    assert_eq!(rt; assigned(rt.alloc(), u32::MAX - 1), Ok([Ok(()), Ok(())]));
    assert_eq!(rt;
        assigned(rt.alloc(), u32::MAX),
        Ok([Err(EpochsSpent), Err(EpochsSpent)])
    );
}

/// Returns the number of messages that answer a CopyAsk, by a segment that has made this many copies.
fn copied(alloc: Global, copied: u64) -> Result<usize, Fault> {
    let contents = Contents {
        lineage: Lineage::birth(alloc)?,
        records: RecordSet::new(alloc),
    };
    let snapshot = SegmentSnapshot {
        volume: 1,
        place: ROOT,
        whole: true,
        contents: Arc::new(alloc, contents)?,
        copied,
    };
    let mut segment = Segment::resumed(alloc, checked(alloc, SIX)?, 0, 0, snapshot)?;
    let ask = Message::CopyAsk(CopyAsk { group: 0, epoch: 1 });
    Ok(segment.deliver(alloc, &ask)?.len())
}

#[test]
fn the_last_copy(rt: HostRuntime) {
    assert_eq!(rt; copied(rt.alloc(), LAST_LSN - 1), Ok(1));
    assert_eq!(rt; copied(rt.alloc(), LAST_LSN), Err(SeriesSpent));
}

/// Returns a recovery of volume epoch 3 with reports of three members that hold no record; their lineage's start is
/// this LSN.
fn reading(alloc: Global, start: u64) -> Result<Recovery, Fault> {
    let view = Message::View(View {
        volume: 3,
        places: Box::new(alloc, vec![in alloc; ROOT]?)?,
    });
    let (mut recovery, _) = Recovery::new(alloc, checked(alloc, SIX)?, &view)?;
    let entry = Entry {
        volume_epoch: 2,
        cut: 0,
        start,
    };
    let contents = Contents {
        lineage: Lineage::birth(alloc)?.added(entry)?,
        records: RecordSet::new(alloc),
    };
    let contents = Arc::new(alloc, contents)?;
    for from in 0..3u8 {
        recovery.take_report(&Report {
            group: 0,
            label: LABEL,
            from,
            contents: contents.clone()?,
        })?;
    }
    Ok(recovery)
}

/// Returns the start of the writer that a recovery becomes, and the refusal of an Issue.
fn opened(alloc: Global, start: u64) -> Result<(u64, Option<Fault>), Fault> {
    let mut recovery = reading(alloc, start)?;
    recovery.cut(alloc)?;
    for from in 0..4u8 {
        recovery.take_ack(&Ack {
            group: 0,
            label: LABEL,
            from,
            scl: 0,
        })?;
    }
    let Ok(mut writer) = recovery.open() else {
        return Err(Fault::NotReady);
    };
    let refused = writer.issue(alloc, &changes(alloc, &[0])?).err();
    Ok((writer.start(), refused))
}

/// The plan's LAL is 10.
#[test]
fn the_last_lsn(rt: HostRuntime) {
    assert_eq!(rt; opened(rt.alloc(), LAST_LSN - 11), Ok((LAST_LSN - 1, None)));
    assert_eq!(rt;
        opened(rt.alloc(), LAST_LSN - 10),
        Ok((LAST_LSN, Some(LsnSpent)))
    );
    assert_eq!(rt; opened(rt.alloc(), LAST_LSN - 9), Err(LsnSpent));
}
