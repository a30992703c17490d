//! Tests of installs in pieces.

use super::inputs::Input::{ByteOf, Fence, InstallPiece, Restart, Step, Write};
use super::inputs::Part::{Of, One};
use super::inputs::Sent::{self, Ours};
use super::inputs::{FIRST_THIRD, LAST_THIRD, ORDERS, SECOND_THIRD};
use super::nodes::At::Holding;
use super::rows::{Row, Table, are_kept, first_wrong};
use super::steps::Reply::{Acks, Byte, Nothing, Reports};
use std::alloc::Global;
use std::test::*;
use volume_model::Fault::{self, BadPiece, Full, NotInstalled, StaleMember, StaleVolume};

/// 600 records: nothing is replaced before the last piece has come.
const IN_THREE_PIECES: &[Row] = &[
    (InstallPiece(2, 1, FIRST_THIRD), Ok(Nothing), 2),
    (InstallPiece(2, 1, LAST_THIRD), Ok(Nothing), 2),
    (Write(0, 2, 1, Ours(3)), Err(NotInstalled), 2),
    (Write(0, 1, 1, Ours(3)), Err(StaleVolume), 2),
    (InstallPiece(2, 1, SECOND_THIRD), Ok(Acks(600)), 600),
    (Write(0, 2, 1, Ours(601)), Ok(Acks(601)), 601),
];

/// A page has what was installed since the page before, and what came after that.
const PAGES_AROUND_AN_INSTALL: &[Row] = &[
    (ByteOf(0, 2, 0), Ok(Byte(b'a')), 2),
    (Write(0, 1, 1, Sent::Byte(3, 0, 1, b'x')), Ok(Acks(3)), 3),
    (ByteOf(0, 3, 1), Ok(Byte(b'x')), 3),
    (InstallPiece(2, 1, Of(0, 1, 1, 5)), Ok(Acks(5)), 5),
    (ByteOf(0, 5, 0), Ok(Byte(b'a')), 5),
    (ByteOf(0, 5, 1), Ok(Byte(0)), 5),
    (Write(0, 2, 1, Sent::Byte(6, 0, 1, b'f')), Ok(Acks(6)), 6),
    (ByteOf(0, 6, 1), Ok(Byte(b'f')), 6),
];

/// A restart drops the kept pieces, after whichever of them it comes.
const A_RESTART_BETWEEN: &[Row] = &[
    (InstallPiece(2, 1, FIRST_THIRD), Ok(Nothing), 2),
    (InstallPiece(2, 1, LAST_THIRD), Ok(Nothing), 2),
    (Restart, Ok(Nothing), 2),
    (InstallPiece(2, 1, SECOND_THIRD), Ok(Nothing), 2),
    (InstallPiece(2, 1, One(0, 4)), Err(BadPiece), 2),
    (Restart, Ok(Nothing), 2),
    (InstallPiece(2, 1, FIRST_THIRD), Ok(Nothing), 2),
    (Restart, Ok(Nothing), 2),
    (InstallPiece(2, 1, SECOND_THIRD), Ok(Nothing), 2),
    (InstallPiece(2, 1, LAST_THIRD), Ok(Nothing), 2),
    (InstallPiece(2, 1, FIRST_THIRD), Ok(Acks(600)), 600),
    (Restart, Ok(Nothing), 600),
    (InstallPiece(2, 1, FIRST_THIRD), Ok(Acks(600)), 600),
];

/// The first piece with each number is kept.
const THE_FIRST_OF_A_NUMBER: &[Row] = &[
    (InstallPiece(2, 1, Of(0, 2, 1, 3)), Ok(Nothing), 2),
    (InstallPiece(2, 1, Of(0, 2, 1, 9)), Ok(Nothing), 2),
    (InstallPiece(2, 1, Of(1, 2, 4, 5)), Ok(Acks(5)), 5),
];

/// The pieces of a later volume epoch replace the kept ones. A Fence leaves them.
const OF_TWO_VOLUME_EPOCHS: &[Row] = &[
    (Fence(0, 2, 1), Ok(Reports(2)), 2),
    (InstallPiece(2, 1, One(0, 2)), Ok(Nothing), 2),
    (Fence(0, 2, 1), Ok(Reports(2)), 2),
    (InstallPiece(3, 1, One(1, 3)), Ok(Nothing), 2),
    (InstallPiece(2, 1, One(1, 2)), Err(StaleVolume), 2),
    (InstallPiece(3, 1, One(0, 3)), Ok(Nothing), 2),
    (Fence(0, 3, 1), Ok(Reports(2)), 2),
    (InstallPiece(3, 1, One(2, 3)), Ok(Acks(3)), 3),
    (InstallPiece(2, 1, One(1, 2)), Err(StaleVolume), 3),
];

/// Between two pieces comes a Fence of a later volume epoch, and then the pieces of that epoch.
const A_FENCE_BETWEEN: &[Row] = &[
    (InstallPiece(2, 1, One(0, 2)), Ok(Nothing), 2),
    (Fence(0, 3, 1), Ok(Reports(2)), 2),
    (InstallPiece(2, 1, One(1, 2)), Err(StaleVolume), 2),
    (InstallPiece(3, 1, One(1, 2)), Ok(Nothing), 2),
    (InstallPiece(3, 1, One(0, 2)), Ok(Acks(2)), 2),
];

/// A step to another membership epoch drops the pieces.
const A_STEP_BETWEEN: &[Row] = &[
    (InstallPiece(2, 1, One(0, 2)), Ok(Nothing), 2),
    (Step(0, 1, 2), Ok(Nothing), 2),
    (InstallPiece(2, 1, One(1, 2)), Err(StaleMember), 2),
    (InstallPiece(2, 2, One(1, 3)), Ok(Nothing), 2),
    (InstallPiece(2, 2, One(0, 3)), Ok(Nothing), 2),
    (InstallPiece(2, 2, One(2, 3)), Ok(Acks(3)), 3),
];

/// A piece of none, pieces of too many and of the most pieces, and pieces with too many, the most and no records.
const NO_PIECES: &[Row] = &[
    (InstallPiece(2, 1, One(0, 0)), Err(BadPiece), 2),
    (InstallPiece(2, 1, One(3, 3)), Err(BadPiece), 2),
    (InstallPiece(2, 1, One(0, 4097)), Err(Full), 2),
    (InstallPiece(2, 1, One(5000, 4097)), Err(Full), 2),
    (InstallPiece(2, 1, Of(0, 2, 1, 257)), Err(BadPiece), 2),
    (InstallPiece(2, 0, One(0, 0)), Err(StaleMember), 2),
    (Write(0, 1, 1, Ours(3)), Ok(Acks(3)), 3),
    (InstallPiece(2, 1, One(4095, 4096)), Ok(Nothing), 3),
    (Write(0, 1, 1, Ours(4)), Err(StaleVolume), 3),
    (InstallPiece(2, 1, One(1, 2)), Err(BadPiece), 3),
    (InstallPiece(3, 1, Of(0, 2, 1, 256)), Ok(Nothing), 3),
    (InstallPiece(3, 1, Of(1, 2, 1, 0)), Ok(Acks(256)), 256),
];

/// After the install is complete, each of its pieces is acknowledged and changes nothing. An invalid piece is refused.
const ONCE_IT_IS_INSTALLED: &[Row] = &[
    (InstallPiece(2, 1, Of(0, 1, 1, 0)), Ok(Acks(0)), 0),
    (Write(0, 2, 1, Ours(1)), Ok(Acks(1)), 1),
    (InstallPiece(2, 1, One(1, 3)), Ok(Acks(1)), 1),
    (InstallPiece(2, 1, One(0, 2)), Ok(Acks(1)), 1),
    (InstallPiece(2, 1, One(2, 2)), Err(BadPiece), 1),
    (InstallPiece(2, 1, One(0, 4097)), Err(Full), 1),
    (InstallPiece(2, 1, Of(0, 1, 1, 9)), Ok(Acks(1)), 1),
];

const TABLES: &[Table] = &[
    ("in three pieces", Holding(2), IN_THREE_PIECES),
    (
        "pages around an install",
        Holding(2),
        PAGES_AROUND_AN_INSTALL,
    ),
    ("a restart between", Holding(2), A_RESTART_BETWEEN),
    ("the first of a number", Holding(2), THE_FIRST_OF_A_NUMBER),
    ("of two volume epochs", Holding(2), OF_TWO_VOLUME_EPOCHS),
    ("a fence between", Holding(2), A_FENCE_BETWEEN),
    ("a step between", Holding(2), A_STEP_BETWEEN),
    ("no pieces", Holding(2), NO_PIECES),
    ("once it is installed", Holding(2), ONCE_IT_IS_INSTALLED),
];

#[test]
fn installs(rt: HostRuntime) {
    are_kept(&rt, rt.alloc(), TABLES);
}

/// Returns the index of the first row with another answer if three pieces come in this order, each twice.
fn in_order(alloc: Global, [a, b, c]: [u16; 3]) -> Result<Option<usize>, Fault> {
    let rows = [
        (InstallPiece(2, 1, One(a, 3)), Ok(Nothing), 2),
        (InstallPiece(2, 1, One(a, 3)), Ok(Nothing), 2),
        (InstallPiece(2, 1, One(b, 3)), Ok(Nothing), 2),
        (InstallPiece(2, 1, One(a, 3)), Ok(Nothing), 2),
        (InstallPiece(2, 1, One(b, 3)), Ok(Nothing), 2),
        (InstallPiece(2, 1, One(c, 3)), Ok(Acks(3)), 3),
        (InstallPiece(2, 1, One(c, 3)), Ok(Acks(3)), 3),
    ];
    first_wrong(alloc, Holding(2), &rows)
}

#[test]
fn in_any_order(rt: HostRuntime) {
    for order in ORDERS {
        assert_eq!(rt; in_order(rt.alloc(), order), Ok(None), "{order:?}");
    }
}
