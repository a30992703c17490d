//! Tests of copies in pieces.

use super::inputs::Input::{self, CopyAsk, CopyPiece, Hydrate, Restart, Step};
use super::inputs::Part::{self, Of, One};
use super::inputs::{FIRST_THIRD, LAST_THIRD, ORDERS, SECOND_THIRD};
use super::messages::message;
use super::nodes::At::{Early, Fresh, Holding};
use super::nodes::node;
use super::rows::{Row, Table, are_kept, first_wrong};
use super::steps::Reply::{Asks, Nothing};
use super::steps::answer;
use redo_record::RecordSet;
use segment_core::Segment;
use std::alloc::Global;
use std::test::*;
use volume_model::Fault::{self, AheadMember, AlreadyWhole, BadPiece, NotEnough, StaleMember};
use wire::Message;

/// The member can't be hydrated yet.
const NOT_YET: Row = (Hydrate, Err(NotEnough), 0);

/// Pieces of two copies of a member don't make one. A later copy replaces an earlier one, until one is complete.
const OF_TWO_COPIES: &[Row] = &[
    (CopyPiece(2, 0, 2, One(1, 2)), Ok(Nothing), 0),
    (CopyPiece(2, 0, 1, One(0, 2)), Ok(Nothing), 0),
    NOT_YET,
    (CopyPiece(2, 0, 3, One(0, 2)), Ok(Nothing), 0),
    (CopyPiece(2, 0, 2, One(0, 2)), Ok(Nothing), 0),
    (CopyPiece(2, 0, 2, One(1, 2)), Ok(Nothing), 0),
    NOT_YET,
    (CopyPiece(2, 0, 3, Of(1, 2, 2, 5)), Ok(Nothing), 0),
    (CopyPiece(2, 0, 4, Of(0, 2, 1, 9)), Ok(Nothing), 0),
    (Hydrate, Ok(Nothing), 5),
];

/// Pieces of one member don't complete the copy of another. Member 0's copy is a read quorum, and no read quorum needs
/// member 1.
const OF_TWO_MEMBERS: &[Row] = &[
    (CopyPiece(2, 0, 1, Of(0, 2, 1, 3)), Ok(Nothing), 0),
    (CopyPiece(2, 1, 1, Of(1, 2, 4, 6)), Ok(Nothing), 0),
    NOT_YET,
    (CopyPiece(2, 1, 1, Of(0, 2, 1, 3)), Ok(Nothing), 0),
    NOT_YET,
    (CopyPiece(2, 0, 1, Of(1, 2, 4, 4)), Ok(Nothing), 0),
    (Hydrate, Ok(Nothing), 6),
];

/// A copy that isn't complete adds nothing to one that is.
const BESIDE_HALF_A_COPY: &[Row] = &[
    (CopyPiece(2, 1, 1, Of(0, 2, 5, 6)), Ok(Nothing), 0),
    (CopyPiece(2, 0, 1, Of(0, 1, 1, 4)), Ok(Nothing), 0),
    (Hydrate, Ok(Nothing), 4),
];

/// A piece of none, pieces of too many and of the most pieces, and pieces with too many, the most and no records.
const NO_PIECES: &[Row] = &[
    (CopyPiece(2, 0, 1, One(0, 0)), Err(BadPiece), 0),
    (CopyPiece(2, 0, 1, One(3, 3)), Err(BadPiece), 0),
    (CopyPiece(2, 0, 1, One(0, 4097)), Err(BadPiece), 0),
    (CopyPiece(2, 0, 1, Of(0, 2, 1, 257)), Err(BadPiece), 0),
    (CopyPiece(1, 0, 1, One(0, 0)), Err(StaleMember), 0),
    (CopyPiece(3, 0, 1, One(0, 0)), Err(AheadMember), 0),
    (CopyPiece(2, 0, 1, One(4095, 4096)), Ok(Nothing), 0),
    (CopyPiece(2, 0, 1, One(0, 2)), Err(BadPiece), 0),
    (CopyPiece(2, 1, 1, One(0, 2)), Ok(Nothing), 0),
    (CopyPiece(2, 0, 2, Of(1, 2, 1, 0)), Ok(Nothing), 0),
    (CopyPiece(2, 0, 2, One(0, 1)), Err(BadPiece), 0),
    (CopyPiece(2, 0, 1, One(0, 1)), Ok(Nothing), 0),
    (CopyPiece(2, 0, 2, Of(0, 2, 1, 256)), Ok(Nothing), 0),
    (CopyPiece(2, 0, 2, One(0, 3)), Err(BadPiece), 0),
    (CopyPiece(2, 0, 3, One(0, 0)), Err(BadPiece), 0),
    (Hydrate, Ok(Nothing), 256),
    (CopyPiece(2, 0, 3, One(0, 0)), Err(AlreadyWhole), 256),
];

/// A restart drops the kept pieces, after whichever of them it comes.
const A_RESTART_AFTER_EACH_PIECE: &[Row] = &[
    (CopyPiece(2, 0, 1, FIRST_THIRD), Ok(Nothing), 0),
    (Restart, Ok(Nothing), 0),
    (CopyPiece(2, 0, 1, SECOND_THIRD), Ok(Nothing), 0),
    (CopyPiece(2, 0, 1, LAST_THIRD), Ok(Nothing), 0),
    NOT_YET,
    (Restart, Ok(Nothing), 0),
    (CopyPiece(2, 0, 1, FIRST_THIRD), Ok(Nothing), 0),
    NOT_YET,
    (CopyPiece(2, 0, 1, SECOND_THIRD), Ok(Nothing), 0),
    (CopyPiece(2, 0, 1, LAST_THIRD), Ok(Nothing), 0),
    (Restart, Ok(Nothing), 0),
    NOT_YET,
    (CopyPiece(2, 0, 1, One(0, 4)), Ok(Nothing), 0),
    (CopyPiece(2, 0, 2, LAST_THIRD), Ok(Nothing), 0),
    (CopyPiece(2, 0, 2, FIRST_THIRD), Ok(Nothing), 0),
    (CopyPiece(2, 0, 2, SECOND_THIRD), Ok(Nothing), 0),
    (Hydrate, Ok(Nothing), 600),
    (Restart, Ok(Nothing), 600),
];

/// A membership step drops the pieces that came before it.
const A_STEP_BETWEEN: &[Row] = &[
    (CopyPiece(0, 0, 1, One(0, 2)), Ok(Nothing), 0),
    (Step(0, 1, 2), Ok(Asks(2)), 0),
    (CopyPiece(2, 0, 1, One(1, 2)), Ok(Nothing), 0),
    NOT_YET,
    (CopyPiece(2, 0, 1, One(0, 2)), Ok(Nothing), 0),
    (Hydrate, Ok(Nothing), 2),
];

const TABLES: &[Table] = &[
    ("of two copies", Fresh, OF_TWO_COPIES),
    ("of two members", Fresh, OF_TWO_MEMBERS),
    ("beside half a copy", Fresh, BESIDE_HALF_A_COPY),
    ("no pieces", Fresh, NO_PIECES),
    (
        "a restart after each piece",
        Fresh,
        A_RESTART_AFTER_EACH_PIECE,
    ),
    ("a step between", Early, A_STEP_BETWEEN),
];

#[test]
fn copies(rt: HostRuntime) {
    are_kept(&rt, rt.alloc(), TABLES);
}

/// Returns the index of the first row with another answer if three pieces come in this order, each twice.
fn in_order(alloc: Global, [a, b, c]: [u16; 3]) -> Result<Option<usize>, Fault> {
    let rows = [
        (CopyPiece(2, 0, 1, One(a, 3)), Ok(Nothing), 0),
        (CopyPiece(2, 0, 1, One(a, 3)), Ok(Nothing), 0),
        (CopyPiece(2, 0, 1, One(b, 3)), Ok(Nothing), 0),
        (CopyPiece(2, 0, 1, One(a, 3)), Ok(Nothing), 0),
        NOT_YET,
        (CopyPiece(2, 0, 1, One(c, 3)), Ok(Nothing), 0),
        (CopyPiece(2, 0, 1, One(b, 3)), Ok(Nothing), 0),
        (Hydrate, Ok(Nothing), 3),
        (CopyPiece(2, 0, 1, One(c, 3)), Err(AlreadyWhole), 3),
    ];
    first_wrong(alloc, Fresh, &rows)
}

#[test]
fn in_any_order(rt: HostRuntime) {
    for order in ORDERS {
        assert_eq!(rt; in_order(rt.alloc(), order), Ok(None), "{order:?}");
    }
}

/// Returns whether the LSNs of a set are those from `first` to `last`.
fn are_from(set: &RecordSet, first: u64, last: u64) -> bool {
    let mut left = set.records();
    for lsn in first..=last {
        let Some(packet) = left.next() else {
            return false;
        };
        if packet.lsn() != lsn {
            return false;
        }
    }
    left.next().is_none()
}

/// Returns whether the message is this piece of member 0's copy with this number.
fn is_piece(message: &Message, series: u64, part: Part) -> bool {
    let (Message::CopyReport(copy), Of(piece, of, first, last)) = (message, part) else {
        return false;
    };
    copy.group == 0
        && (copy.epoch, copy.from, copy.part.series) == (2, 0, series)
        && (copy.piece, copy.of) == (piece, of)
        && are_from(&copy.part.contents.records, first, last)
}

/// Returns whether the messages are the three pieces of member 0's copy with this number, in order.
fn are_thirds(messages: &[Message], series: u64) -> bool {
    let [a, b, c] = messages else {
        return false;
    };
    is_piece(a, series, FIRST_THIRD)
        && is_piece(b, series, SECOND_THIRD)
        && is_piece(c, series, LAST_THIRD)
}

/// Returns the answer of a member to a CopyAsk at membership epoch 2.
fn copy_of(alloc: Global, holder: &mut Segment) -> Result<Vec<Message>, Fault> {
    let answers = holder.deliver(alloc, &message(alloc, CopyAsk(0, 2))?)?;
    let mut copy = Vec::with_capacity(alloc, answers.len())?;
    answers.append_to(&mut copy);
    Ok(copy)
}

/// Returns whether a new member takes the piece without an answer, and isn't whole then.
fn is_kept(alloc: Global, node: &mut Segment, piece: &Message) -> Result<bool, Fault> {
    let answers = node.deliver(alloc, piece)?;
    Ok(answers.len() == 0 && node.scl() == 0)
}

/// Returns whether a new member that gets pieces of both copies becomes whole once the second is complete, and not
/// before.
fn is_whole_at_last(alloc: Global, first: &[Message], second: &[Message]) -> Result<bool, Fault> {
    let ([a, b, _], [c, d, e]) = (first, second) else {
        return Ok(false);
    };
    let mut node = node(alloc, Fresh)?;
    for piece in [a, c, b, d] {
        if !is_kept(alloc, &mut node, piece)? || node.hydrate(alloc) != Err(NotEnough) {
            return Ok(false);
        }
    }
    let kept = is_kept(alloc, &mut node, e)?;
    node.hydrate(alloc)?;
    Ok(kept && node.scl() == 600)
}

/// Returns whether the first copy of 600 records and the second, after a restart, are right, and make a member whole.
fn of_600_records(alloc: Global) -> Result<[bool; 3], Fault> {
    let mut holder = node(alloc, Holding(600))?;
    answer(alloc, &mut holder, Step(0, 1, 2))?;
    let first = copy_of(alloc, &mut holder)?;
    holder.restart();
    let second = copy_of(alloc, &mut holder)?;
    Ok([
        are_thirds(&first, 1),
        are_thirds(&second, 2),
        is_whole_at_last(alloc, &first, &second)?,
    ])
}

/// 600 records are sent in three pieces. The second copy has number 2, even after a restart, and counts once it is
/// complete, whatever came of the first.
#[test]
fn two_copies_of_600_records(rt: HostRuntime) {
    assert_eq!(rt; of_600_records(rt.alloc()), Ok([true, true, true]));
}
