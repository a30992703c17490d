//! Tests of copies in pieces, and of what they hold together.

use super::packets::{chain, recovered};
use hydration::{Change, Copied, Hydration, Keeping, newest_with, senders, with_found};
use lineage::Lineage;
use quorum_expr::Expr;
use redo_record::RecordSet;
use std::alloc::Global;
use std::sync::Arc;
use std::test::*;
use volume_model::Fault;
use wire::{Contents, CopyPart, CopyReport};

/// A piece of a copy: its number, the number of pieces, and its records, which are those above one LSN up to another.
type Part = (u16, u16, u64, u64);

/// A lineage: the volume epoch and the cut of the volume's only recovery.
type Past = (u32, u64);

/// The lineage that a volume is born with.
const BIRTH: Past = (1, 0);

/// A message of a member.
#[derive(Clone, Copy)]
enum Sent {
    /// A piece, sent by member 0, of the copy with this number, with the lineage of the birth.
    Piece(u64, Part),
    /// A member's first copy, in one piece: the records from 1 up to an LSN, with a lineage.
    Copy(u8, Past, u64),
}

/// The hydration of member 0's copies: the volume epoch and the start of the lineage, and the number of records; `None`
/// if the copies aren't enough. Or the refusal of a piece.
type Answer = Result<Option<(u32, u64, usize)>, Fault>;

/// A message, and the expected hydration after it.
type Row = (Sent, Answer);

/// Returns the message of a member at membership epoch 2.
fn report(alloc: Global, sent: Sent) -> Result<CopyReport, Fault> {
    let (from, (volume, cut), series, (piece, of, before, last)) = match sent {
        Sent::Piece(series, part) => (0, BIRTH, series, part),
        Sent::Copy(from, past, last) => (from, past, 1, (0, 1, 0, last)),
    };
    let lineage = recovered(alloc, volume, cut)?;
    let records = chain(alloc, before.saturating_add(1), last)?;
    Ok(CopyReport {
        group: 0,
        epoch: 2,
        from,
        piece,
        of,
        part: Box::new(
            alloc,
            CopyPart {
                series,
                contents: Contents { lineage, records },
            },
        )?,
    })
}

/// Returns the hydration of the copies.
fn made(alloc: Global, hydration: &Hydration) -> Answer {
    let Some(state) = hydration.finish(alloc, &Expr::Member(0))? else {
        return Ok(None);
    };
    let start = state.contents.lineage.last_start();
    Ok(Some((state.volume, start, state.contents.records.len())))
}

/// Takes a message. Returns the hydration after it.
fn answer(alloc: Global, hydration: &mut Hydration, sent: Sent) -> Answer {
    hydration.take(&report(alloc, sent)?)?;
    made(alloc, hydration)
}

/// Returns the index of the first row with another answer, `None` if there is none.
fn first_wrong(alloc: Global, rows: &[Row]) -> Option<usize> {
    let mut hydration = Hydration::new(alloc);
    for (place, (sent, expected)) in rows.iter().enumerate() {
        if answer(alloc, &mut hydration, *sent) != *expected {
            return Some(place);
        }
    }
    None
}

/// Copies of a number that isn't a member; of a member that isn't read; of member 0, with the newer lineage; and
/// another one of it, which is ignored.
const OF_A_READ_SET: &[Row] = &[
    (Sent::Copy(64, BIRTH, 1), Err(Fault::NotAddressed)),
    (Sent::Copy(1, BIRTH, 5), Ok(None)),
    (Sent::Copy(0, (2, 3), 2), Ok(Some((2, 13, 3)))),
    (Sent::Copy(0, BIRTH, 9), Ok(Some((2, 13, 3)))),
];

/// Pieces of two copies don't make one. A sender counts once all pieces of one copy came; later pieces are ignored.
const OF_TWO_COPIES: &[Row] = &[
    (Sent::Piece(1, (0, 3, 0, 256)), Ok(None)),
    (Sent::Piece(2, (0, 3, 0, 256)), Ok(None)),
    (Sent::Piece(1, (1, 3, 256, 512)), Ok(None)),
    (Sent::Piece(2, (2, 3, 512, 600)), Ok(None)),
    (Sent::Piece(2, (2, 3, 512, 600)), Ok(None)),
    (Sent::Piece(1, (2, 3, 512, 600)), Ok(None)),
    (Sent::Piece(2, (1, 4, 256, 512)), Err(Fault::BadPiece)),
    (Sent::Piece(2, (3, 3, 256, 512)), Err(Fault::BadPiece)),
    (Sent::Piece(2, (1, 3, 256, 512)), Ok(Some((1, 0, 600)))),
    (Sent::Piece(3, (0, 2, 600, 700)), Ok(Some((1, 0, 600)))),
    (Sent::Piece(3, (0, 0, 0, 0)), Err(Fault::BadPiece)),
    (Sent::Piece(2, (0, 2, 0, 256)), Err(Fault::BadPiece)),
];

/// The first piece with each number is kept. Pieces may have any numbers of records, and come in any order.
const IN_ANY_ORDER: &[Row] = &[
    (Sent::Piece(1, (3, 4, 0, 4)), Ok(None)),
    (Sent::Piece(1, (0, 4, 6, 9)), Ok(None)),
    (Sent::Piece(1, (0, 4, 6, 20)), Ok(None)),
    (Sent::Piece(1, (2, 4, 2, 7)), Ok(None)),
    (Sent::Piece(1, (0, 5, 6, 9)), Err(Fault::BadPiece)),
    (Sent::Piece(1, (1, 4, 9, 9)), Ok(Some((1, 0, 9)))),
];

/// A copy of too many pieces, a piece with too many records, a piece with the most records of a copy of the most
/// pieces, and one with none.
const OF_EACH_SIZE: &[Row] = &[
    (Sent::Piece(1, (0, 4097, 0, 1)), Err(Fault::BadPiece)),
    (Sent::Piece(1, (0, 2, 0, 257)), Err(Fault::BadPiece)),
    (Sent::Piece(1, (4095, 4096, 0, 256)), Ok(None)),
    (Sent::Piece(2, (0, 1, 0, 0)), Ok(Some((1, 0, 0)))),
];

const TABLES: &[(&str, &[Row])] = &[
    ("of a read set", OF_A_READ_SET),
    ("of two copies", OF_TWO_COPIES),
    ("in any order", IN_ANY_ORDER),
    ("of each size", OF_EACH_SIZE),
];

#[test]
fn pieces(rt: HostRuntime) {
    for (what, rows) in TABLES {
        assert_eq!(rt; first_wrong(rt.alloc(), rows), None, "{what}");
    }
}

/// Returns whether the sender's copy counts before it is kept, after it is kept, whether it is kept again, and whether
/// it counts after all were dropped.
fn in_two_steps(alloc: Global) -> Result<[bool; 4], Fault> {
    let mut hydration = Hydration::new(alloc);
    let first = report(alloc, Sent::Copy(5, BIRTH, 1))?;
    let keeping = hydration.prepare(&first)?;
    let before = hydration.senders().contains(5);
    hydration.keep(keeping);
    let after = hydration.senders().contains(5);
    let again = !matches!(hydration.prepare(&first)?, Keeping::At(0, Change::Nothing));
    hydration.clear();
    Ok([before, after, again, hydration.senders().len() > 0])
}

/// A copy is prepared and kept in two steps, only the first complete one of its sender, and all copies are dropped at
/// once.
#[test]
fn copies_in_two_steps(rt: HostRuntime) {
    assert_eq!(rt; in_two_steps(rt.alloc()), Ok([false, true, false, false]));
}

/// Returns a member's report with a lineage and the records from 1 up to an LSN; `NotAddressed` if there is no such
/// member.
fn copied(alloc: Global, from: u8, past: Past, last: u64) -> Result<Copied, Fault> {
    if from > 63 {
        return Err(Fault::NotAddressed);
    }
    let report = report(alloc, Sent::Copy(from, past, last))?;
    let CopyPart { contents, .. } = Box::into_inner(report.part);
    Ok(Copied {
        from,
        contents: Arc::new(alloc, contents)?,
    })
}

/// Returns the report of each input.
fn copies(alloc: Global, input: &[(u8, Past, u64)]) -> Result<Vec<Copied>, Fault> {
    let mut copies: Vec<Copied> = Vec::new(alloc);
    for (from, past, last) in input {
        copies.push(copied(alloc, *from, *past, *last)?)?;
    }
    Ok(copies)
}

/// Returns the newest lineage of reports and of what is kept: that of a recovery, or none.
fn newest(alloc: Global, input: &[(u8, Past, u64)], kept: Option<Past>) -> Result<Past, Fault> {
    let kept = match kept {
        Some((volume, cut)) => recovered(alloc, volume, cut)?,
        None => Lineage::empty(alloc),
    };
    let copies = copies(alloc, input)?;
    let newest = newest_with(&copies, &kept);
    Ok((newest.last_epoch(), newest.last_cut()))
}

/// The records 1 to 5 with two lineages, of which the newer cut all above 3.
const TWO: &[(u8, Past, u64)] = &[(0, (2, 3), 2), (2, BIRTH, 5)];

/// Three reports, two of which have the same last volume epoch.
const THREE: &[(u8, Past, u64)] = &[(4, BIRTH, 1), (5, (2, 3), 1), (1, (2, 5), 1)];

/// Of two lineages with the same last volume epoch the first is the newest, and those of reports come before the kept
/// one.
#[test]
fn newest_of_copies(rt: HostRuntime) {
    for (copies, kept) in [
        (TWO, None),
        (&[], Some((2, 3))),
        (THREE, None),
        (THREE, Some((2, 7))),
    ] {
        assert_eq!(rt;
            newest(rt.alloc(), copies, kept),
            Ok((2, 3)),
            "of {copies:?}"
        );
    }
}

/// Returns the number of members that sent the two reports, and the number of records in both.
fn held(alloc: Global) -> Result<(u8, usize), Fault> {
    let copies = copies(alloc, TWO)?;
    let lineage = recovered(alloc, 2, 3)?;
    let found = with_found(alloc, &lineage, &copies, RecordSet::new(alloc))?;
    Ok((senders(&copies).len(), found.len()))
}

#[test]
fn what_copies_hold(rt: HostRuntime) {
    assert_eq!(rt; held(rt.alloc()), Ok((2, 3)));
}
