//! Tests of a member that becomes whole by copies of a read quorum.

use super::inputs::Held::First;
use super::inputs::Input::{ByteOf, CopyOf, Fence, Hydrate, Offer, Restart, Step};
use super::nodes::At::{Hydrated, Joined, Joining};
use super::rows::{Row, Table, are_kept};
use super::steps::Reply::{Asks, Byte, Nothing, Offers, Reports};
use std::test::*;
use volume_model::Fault::{AlreadyWhole, NoRecord, NotEnough, NotInstalled, NotWhole};

/// Before it is whole, a node answers only its membership step.
const BEFORE_IT_IS_WHOLE: &[Row] = &[
    (Hydrate, Err(NotEnough), 0),
    (Fence(0, 2, 0), Err(NotWhole), 0),
    (ByteOf(0, 0, 0), Err(NotWhole), 0),
    (Offer(1), Err(NotWhole), 0),
    (Step(0, 1, 2), Ok(Asks(2)), 0),
];

/// Two copies are too few, and a restart loses them.
const COPIES_OF_A_READ_SET: &[Row] = &[
    (CopyOf(0, 2, 0, First(0)), Ok(Nothing), 0),
    (CopyOf(0, 2, 1, First(0)), Ok(Nothing), 0),
    (CopyOf(0, 2, 1, First(0)), Ok(Nothing), 0),
    (Hydrate, Err(NotEnough), 0),
    (Restart, Ok(Nothing), 0),
    (CopyOf(0, 2, 2, First(0)), Ok(Nothing), 0),
    (Hydrate, Err(NotEnough), 0),
    (CopyOf(0, 2, 0, First(0)), Ok(Nothing), 0),
    (CopyOf(0, 2, 1, First(0)), Ok(Nothing), 0),
    (Hydrate, Ok(Nothing), 1),
    (Hydrate, Err(AlreadyWhole), 1),
];

/// A node that took no step to a configuration of which it is a member isn't hydrated.
const COPIES_FOR_NO_MEMBER: &[Row] = &[
    (CopyOf(0, 0, 0, First(0)), Ok(Nothing), 0),
    (CopyOf(0, 0, 1, First(0)), Ok(Nothing), 0),
    (CopyOf(0, 0, 2, First(0)), Ok(Nothing), 0),
    (Hydrate, Err(NotEnough), 0),
];

/// The node offers and shows what it holds, until a recovery fences it.
const AFTER_IT_IS_WHOLE: &[Row] = &[
    (Offer(1), Ok(Offers(1, 2, 1)), 1),
    (Offer(2), Err(NoRecord), 1),
    (ByteOf(0, 1, 0), Ok(Byte(b'a')), 1),
    (Fence(0, 2, 2), Ok(Reports(1)), 1),
    (Offer(1), Err(NotInstalled), 1),
];

const TABLES: &[Table] = &[
    ("before it is whole", Joining, BEFORE_IT_IS_WHOLE),
    ("copies of a read set", Joined, COPIES_OF_A_READ_SET),
    ("copies for no member", Joining, COPIES_FOR_NO_MEMBER),
    ("after it is whole", Hydrated, AFTER_IT_IS_WHOLE),
];

#[test]
fn becomes_whole(rt: HostRuntime) {
    are_kept(&rt, rt.alloc(), TABLES);
}
