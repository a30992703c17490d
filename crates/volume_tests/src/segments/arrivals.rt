//! Tests of records that don't come in the order of their chain, and of their pages.

use super::inputs::Input::{ByteOf, Fence, Offer, Restart, Write};
use super::inputs::Sent::{self, After, Ours};
use super::nodes::At::{Tail, Whole};
use super::nodes::node;
use super::rows::{Row, Table, are_kept, broken_by};
use super::steps::Reply::{Acks, Byte, Nothing, Offers, Reports};
use super::steps::answer;
use segment_core::Segment;
use std::alloc::Global;
use std::test::*;
use volume_model::Fault::{self, PointAhead, TailSegment};

/// LSN 2 before LSN 1, and again.
const OUT_OF_ORDER: &[Row] = &[
    (Write(0, 1, 1, Ours(2)), Ok(Acks(0)), 0),
    (Write(0, 1, 1, Ours(1)), Ok(Acks(2)), 2),
    (Write(0, 1, 1, Ours(2)), Ok(Acks(2)), 2),
    (Restart, Ok(Nothing), 2),
];

/// Two chains beside each other, of the odd LSNs and of the even ones. The odd one is complete first.
const THE_FIRST_ARM_FIRST: &[Row] = &[
    (Write(0, 1, 1, After(5, 3)), Ok(Acks(0)), 0),
    (Write(0, 1, 1, After(6, 4)), Ok(Acks(0)), 0),
    (Write(0, 1, 1, After(3, 1)), Ok(Acks(0)), 0),
    (Write(0, 1, 1, After(4, 2)), Ok(Acks(0)), 0),
    (Write(0, 1, 1, After(1, 0)), Ok(Acks(5)), 5),
    (Write(0, 1, 1, After(2, 0)), Ok(Acks(6)), 6),
];

/// The even one is complete first.
const THE_SECOND_ARM_FIRST: &[Row] = &[
    (Write(0, 1, 1, After(5, 3)), Ok(Acks(0)), 0),
    (Write(0, 1, 1, After(6, 4)), Ok(Acks(0)), 0),
    (Write(0, 1, 1, After(3, 1)), Ok(Acks(0)), 0),
    (Write(0, 1, 1, After(4, 2)), Ok(Acks(0)), 0),
    (Write(0, 1, 1, After(2, 0)), Ok(Acks(6)), 6),
    (Write(0, 1, 1, After(1, 0)), Ok(Acks(6)), 6),
];

/// Two records with LSN 2, of which one has its chain.
const TWO_WITH_ONE_NUMBER: &[Row] = &[
    (Write(0, 1, 1, After(3, 2)), Ok(Acks(0)), 0),
    (Write(0, 1, 1, After(1, 0)), Ok(Acks(1)), 1),
    (Write(0, 1, 1, After(2, 0)), Ok(Acks(3)), 3),
    (Write(0, 1, 1, After(2, 1)), Ok(Acks(3)), 3),
];

/// Records of two blocks, and the pages at the last of them and at an earlier one.
const A_BLOCK_OUT_OF_ORDER: &[Row] = &[
    (Write(0, 1, 1, Sent::Byte(3, 0, 0, b'c')), Ok(Acks(0)), 0),
    (Write(0, 1, 1, Sent::Byte(4, 0, 1, b'd')), Ok(Acks(0)), 0),
    (Write(0, 1, 1, Sent::Byte(1, 0, 0, b'a')), Ok(Acks(1)), 1),
    (Write(0, 1, 1, Sent::Byte(2, 1, 0, b'b')), Ok(Acks(4)), 4),
    (ByteOf(0, 4, 0), Ok(Byte(b'c')), 4),
    (ByteOf(0, 4, 1), Ok(Byte(b'd')), 4),
    (ByteOf(0, 4, 2), Ok(Byte(0)), 4),
    (ByteOf(0, 2, 0), Ok(Byte(b'a')), 4),
    (ByteOf(0, 2, 1), Ok(Byte(0)), 4),
    (ByteOf(1, 4, 0), Ok(Byte(b'b')), 4),
    (ByteOf(1, 4, 1), Ok(Byte(0)), 4),
];

/// A page has the writes up to a point, which is at most the complete point.
const A_PAGE: &[Row] = &[
    (Write(0, 1, 1, Ours(1)), Ok(Acks(1)), 1),
    (ByteOf(0, 1, 0), Ok(Byte(b'a')), 1),
    (ByteOf(0, 1, 1), Ok(Byte(0)), 1),
    (ByteOf(0, 1, 511), Ok(Byte(0)), 1),
    (ByteOf(0, 2, 0), Err(PointAhead), 1),
];

/// Records that come after a page, on its block and on another, in any order, are in the next page, also after a
/// restart and a report.
const RECORDS_AFTER_A_PAGE: &[Row] = &[
    (Write(0, 1, 1, Sent::Byte(1, 0, 0, b'a')), Ok(Acks(1)), 1),
    (ByteOf(0, 1, 0), Ok(Byte(b'a')), 1),
    (ByteOf(0, 1, 0), Ok(Byte(b'a')), 1),
    (Write(0, 1, 1, Sent::Byte(4, 0, 1, b'd')), Ok(Acks(1)), 1),
    (Write(0, 1, 1, Sent::Byte(3, 0, 0, b'c')), Ok(Acks(1)), 1),
    (ByteOf(0, 1, 0), Ok(Byte(b'a')), 1),
    (Write(0, 1, 1, Sent::Byte(2, 1, 0, b'b')), Ok(Acks(4)), 4),
    (ByteOf(0, 4, 0), Ok(Byte(b'c')), 4),
    (ByteOf(0, 4, 1), Ok(Byte(b'd')), 4),
    (ByteOf(0, 2, 0), Ok(Byte(b'a')), 4),
    (ByteOf(1, 4, 0), Ok(Byte(b'b')), 4),
    (Restart, Ok(Nothing), 4),
    (ByteOf(0, 4, 0), Ok(Byte(b'c')), 4),
    (Fence(0, 2, 1), Ok(Reports(4)), 4),
    (ByteOf(0, 4, 1), Ok(Byte(b'd')), 4),
];

/// A member that keeps no whole pages makes none.
const NO_PAGE: &[Row] = &[(ByteOf(0, 0, 0), Err(TailSegment), 0)];

const TABLES: &[Table] = &[
    ("out of order", Whole, OUT_OF_ORDER),
    ("the first arm first", Whole, THE_FIRST_ARM_FIRST),
    ("the second arm first", Whole, THE_SECOND_ARM_FIRST),
    ("two with one number", Whole, TWO_WITH_ONE_NUMBER),
    ("a block out of order", Whole, A_BLOCK_OUT_OF_ORDER),
    ("a page", Whole, A_PAGE),
    ("records after a page", Whole, RECORDS_AFTER_A_PAGE),
    ("no page", Tail, NO_PAGE),
];

#[test]
fn arrivals(rt: HostRuntime) {
    are_kept(&rt, rt.alloc(), TABLES);
}

/// The first record comes last.
const THE_LAST_OF_2000: &[Row] = &[(Write(0, 1, 1, After(1, 0)), Ok(Acks(2000)), 2000)];

/// Returns the LSN of the first of 2,000 records that come in reverse whose answer isn't complete point 0; and the
/// index of the first row with another answer for the last record.
fn in_reverse(alloc: Global) -> Result<(Option<u64>, Option<usize>), Fault> {
    let mut node = node(alloc, Whole)?;
    for before in (1..2000).rev() {
        let reply = answer(alloc, &mut node, Write(0, 1, 1, After(before + 1, before)))?;
        if reply != Acks(0) || node.scl() != 0 {
            return Ok((Some(before + 1), None));
        }
    }
    Ok((None, broken_by(alloc, &mut node, THE_LAST_OF_2000)))
}

#[test]
fn a_chain_in_reverse(rt: HostRuntime) {
    assert_eq!(rt; in_reverse(rt.alloc()), Ok((None, None)));
}

/// A number of records that needs more than one run.
const MANY: u64 = 5000;

/// The records 1 to 5,000 write the bytes of block 0 nearly ten times over: the first 512 write `a`, the next ones `b`,
/// and so on.
const ONCE_MANY_CAME: &[Row] = &[
    (ByteOf(0, MANY, 0), Ok(Byte(b'j')), MANY),
    (ByteOf(0, MANY, 391), Ok(Byte(b'j')), MANY),
    (ByteOf(0, MANY, 392), Ok(Byte(b'i')), MANY),
    (ByteOf(0, 513, 0), Ok(Byte(b'b')), MANY),
    (ByteOf(0, 513, 1), Ok(Byte(b'a')), MANY),
    (Offer(1), Ok(Offers(1, 1, 1)), MANY),
    (Offer(2048), Ok(Offers(1, 1, 2048)), MANY),
    (Offer(2049), Ok(Offers(1, 1, 2049)), MANY),
    (Offer(4096), Ok(Offers(1, 1, 4096)), MANY),
    (Offer(4097), Ok(Offers(1, 1, 4097)), MANY),
    (Offer(MANY), Ok(Offers(1, 1, MANY)), MANY),
    (Fence(0, 2, 1), Ok(Reports(MANY)), MANY),
];

/// Returns a segment that has taken the records 1 to 5,000 of block 0 in steps of `step`.
fn filled(alloc: Global, step: u64) -> Result<Segment, Fault> {
    let mut node = node(alloc, Whole)?;
    for k in 0..MANY {
        let before = k.wrapping_mul(step) % MANY;
        let byte = b'a' + (before / 512).min(9) as u8;
        let sent = Sent::Byte(before + 1, 0, (before % 512) as u16, byte);
        answer(alloc, &mut node, Write(0, 1, 1, sent))?;
    }
    Ok(node)
}

/// Returns the index of the first row with another answer of a segment that was filled in steps of `step`.
fn in_steps_of(alloc: Global, step: u64) -> Result<Option<usize>, Fault> {
    let mut node = filled(alloc, step)?;
    Ok(broken_by(alloc, &mut node, ONCE_MANY_CAME))
}

/// The records come in order, in reverse and mixed, all in one block.
#[test]
fn more_than_one_run(rt: HostRuntime) {
    for step in [1, MANY - 1, 1237] {
        assert_eq!(rt;
            in_steps_of(rt.alloc(), step),
            Ok(None),
            "in steps of {step}"
        );
    }
}
