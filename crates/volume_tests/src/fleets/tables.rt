//! Tables of calls of fleets.

use super::calls::{Call, Step};
use super::drive::{Ending, run_table};
use super::looks::Look;
use crate::thread_plans::{REPLACED, SIX, THREE_COPIES, TWO_GROUPS};
use segment_core::NodeAction;
use std::test::*;
use volume_model::Fault;
use world::AuthorityAction;

/// Three bytes reach four of six members, whose acknowledgements reach the writer.
const WRITTEN: &[Step] = &[
    (Call::Issue(1, "abc"), Ok((3, 0))),
    (Call::Deliver(0, 1), Ok((1, 0))),
    (Call::Deliver(1, 1), Ok((1, 0))),
    (Call::Deliver(2, 1), Ok((1, 0))),
    (Call::Deliver(3, 1), Ok((1, 0))),
    (Call::Deliver(0, 2), Ok((1, 0))),
    (Call::Deliver(1, 2), Ok((1, 0))),
    (Call::Deliver(2, 2), Ok((1, 0))),
    (Call::Deliver(3, 2), Ok((1, 0))),
    (Call::Deliver(0, 3), Ok((1, 0))),
    (Call::Deliver(1, 3), Ok((1, 0))),
    (Call::Deliver(2, 3), Ok((1, 0))),
    (Call::Deliver(3, 3), Ok((1, 0))),
    (Call::Take(1, 12), Ok((0, 0))),
    (Call::Take(1, 13), Ok((0, 0))),
    (Call::Take(1, 14), Ok((0, 0))),
    (Call::Take(1, 15), Ok((0, 3))),
];

/// The same, and then every pass reads the board. The second of three passes requests the page, and the third delivers
/// the request.
const WRITTEN_AND_READ: &[Step] = &[
    (Call::Issue(1, "abc"), Ok((3, 0))),
    (Call::Deliver(0, 1), Ok((1, 0))),
    (Call::Deliver(1, 1), Ok((1, 0))),
    (Call::Deliver(2, 1), Ok((1, 0))),
    (Call::Deliver(3, 1), Ok((1, 0))),
    (Call::Deliver(0, 2), Ok((1, 0))),
    (Call::Deliver(1, 2), Ok((1, 0))),
    (Call::Deliver(2, 2), Ok((1, 0))),
    (Call::Deliver(3, 2), Ok((1, 0))),
    (Call::Deliver(0, 3), Ok((1, 0))),
    (Call::Deliver(1, 3), Ok((1, 0))),
    (Call::Deliver(2, 3), Ok((1, 0))),
    (Call::Deliver(3, 3), Ok((1, 0))),
    (Call::Take(1, 12), Ok((0, 0))),
    (Call::Take(1, 13), Ok((0, 0))),
    (Call::Take(1, 14), Ok((0, 0))),
    (Call::Take(1, 15), Ok((0, 3))),
    (Call::Board, Ok((0, 3))),
    (Call::Board, Ok((0, 3))),
    (Call::Read(1), Ok((1, 0))),
    (Call::Deliver(0, 16), Ok((1, 0))),
    (Call::Board, Ok((0, 3))),
    (Call::Board, Ok((0, 3))),
    (Call::Deliver(4, 16), Err(Fault::PointAhead)),
];

/// A member that isn't whole answers no fence, loses its copies at a restart, and becomes whole.
const MADE_WHOLE: &[Step] = &[
    (
        Call::Authority(AuthorityAction::Advance {
            group: 0,
            configuration: 1,
        }),
        Ok((1, 0)),
    ),
    (Call::Deliver(6, 1), Ok((1, 0))),
    (Call::Deliver(0, 1), Ok((0, 0))),
    (Call::Deliver(1, 1), Ok((0, 0))),
    (Call::Deliver(2, 1), Ok((0, 0))),
    (Call::Authority(AuthorityAction::Assign), Ok((1, 0))),
    (
        Call::Authority(AuthorityAction::Refresh { volume: 1 }),
        Err(Fault::Superseded),
    ),
    (Call::Take(2, 3), Ok((1, 0))),
    (Call::Deliver(6, 4), Err(Fault::NotWhole)),
    (Call::Deliver(0, 2), Ok((1, 0))),
    (Call::Deliver(6, 5), Ok((0, 0))),
    (Call::Node(6, NodeAction::Restart), Ok((0, 0))),
    (Call::Deliver(1, 2), Ok((1, 0))),
    (Call::Deliver(2, 2), Ok((1, 0))),
    (Call::Deliver(6, 6), Ok((0, 0))),
    (Call::Deliver(6, 7), Ok((0, 0))),
    (Call::Node(6, NodeAction::Hydrate), Err(Fault::NotEnough)),
    (Call::Deliver(6, 5), Ok((0, 0))),
    (Call::Node(6, NodeAction::Hydrate), Ok((0, 0))),
    (Call::Deliver(6, 4), Ok((1, 0))),
];

/// A member joins and becomes whole while an old write is still under way; a recovery reads and cuts.
const JOINED: &[Step] = &[
    (Call::Issue(1, "a"), Ok((1, 0))),
    (
        Call::Authority(AuthorityAction::Advance {
            group: 0,
            configuration: 1,
        }),
        Ok((1, 0)),
    ),
    (Call::Deliver(0, 2), Ok((0, 0))),
    (Call::Deliver(1, 2), Ok((0, 0))),
    (Call::Deliver(2, 2), Ok((0, 0))),
    (Call::Deliver(6, 2), Ok((1, 0))),
    (Call::Deliver(0, 3), Ok((1, 0))),
    (Call::Deliver(1, 3), Ok((1, 0))),
    (Call::Deliver(2, 3), Ok((1, 0))),
    (Call::Deliver(6, 4), Ok((0, 0))),
    (Call::Deliver(6, 5), Ok((0, 0))),
    (Call::Deliver(6, 6), Ok((0, 0))),
    (Call::Node(6, NodeAction::Hydrate), Ok((0, 0))),
    (Call::Deliver(3, 1), Ok((1, 0))),
    (Call::Deliver(4, 1), Ok((1, 0))),
    (Call::Deliver(5, 1), Ok((1, 0))),
    (Call::Deliver(3, 2), Ok((0, 0))),
    (Call::Node(3, NodeAction::Offer { lsn: 1 }), Ok((1, 0))),
    (Call::Deliver(0, 10), Ok((1, 0))),
    (Call::Take(1, 7), Ok((0, 0))),
    (Call::Take(1, 8), Ok((0, 0))),
    (Call::Take(1, 9), Ok((0, 0))),
    (Call::Take(1, 11), Ok((0, 0))),
    (Call::Authority(AuthorityAction::Assign), Ok((1, 0))),
    (Call::Take(2, 12), Ok((1, 0))),
    (Call::Deliver(1, 13), Ok((1, 0))),
    (Call::Deliver(2, 13), Ok((1, 0))),
    (Call::Deliver(6, 13), Ok((1, 0))),
    (Call::Take(2, 14), Ok((0, 0))),
    (Call::Take(2, 15), Ok((0, 0))),
    (Call::Take(2, 16), Ok((0, 0))),
    (Call::Cut(2), Ok((1, 0))),
];

/// Two steps fill a journal of two cells, and no actor makes another one.
const FULL: &[Step] = &[
    (Call::Node(0, NodeAction::Restart), Ok((0, 0))),
    (Call::Issue(1, "a"), Ok((1, 0))),
    (Call::Node(0, NodeAction::Restart), Err(Fault::JournalFull)),
    (Call::Deliver(0, 1), Err(Fault::JournalFull)),
    (Call::Issue(1, "a"), Err(Fault::JournalFull)),
    (
        Call::Authority(AuthorityAction::Assign),
        Err(Fault::JournalFull),
    ),
];

/// Calls for a node, a message, a client and a slot that don't exist.
const NOBODY: &[Step] = &[
    (Call::Deliver(6, 1), Err(Fault::NoActor)),
    (Call::Node(64, NodeAction::Restart), Err(Fault::NoActor)),
    (Call::Deliver(0, 1), Err(Fault::NoMessage)),
    (Call::Deliver(0, 0), Err(Fault::NoMessage)),
    (Call::Issue(1, "a"), Ok((1, 0))),
    (Call::Node(0, NodeAction::Restart), Ok((0, 0))),
    (Call::Deliver(0, 2), Err(Fault::NoMessage)),
    (Call::Take(1, 2), Err(Fault::NoMessage)),
    (Call::Cut(0), Err(Fault::NoActor)),
    (Call::Cut(2), Err(Fault::NoActor)),
    (Call::Cut(3), Err(Fault::NoActor)),
    (Call::Take(2, 1), Err(Fault::NotAddressed)),
    (Call::Take(3, 1), Err(Fault::NotAddressed)),
    (Call::Take(3, 2), Err(Fault::NoMessage)),
    (Call::Authority(AuthorityAction::Assign), Ok((1, 0))),
    (Call::Authority(AuthorityAction::Assign), Err(Fault::NoSlot)),
    (Call::Deliver(0, 1), Ok((1, 0))),
];

/// A member above all those of the first of two groups isn't a node of the second.
const BEYOND: &[Step] = &[
    (Call::Node(64, NodeAction::Restart), Err(Fault::NoActor)),
    (Call::Deliver(64, 1), Err(Fault::NoActor)),
    (Call::Node(0, NodeAction::Restart), Ok((0, 0))),
];

/// A change of each of 32 bytes.
const CHANGES: &str = "abcdefghijklmnopqrstuvwxyzabcdef";

/// Messages 1 to 288 are issued and reach member 0, which acknowledges each. Message 577 is the group's step: member 0
/// doesn't answer, and member 3 asks for copies with message 578, which member 0 answers with two pieces, 579 and 580.
const COPIED: &[Step] = &[
    (Call::Issue(1, CHANGES), Ok((32, 0))),
    (Call::Issue(1, CHANGES), Ok((32, 0))),
    (Call::Issue(1, CHANGES), Ok((32, 0))),
    (Call::Issue(1, CHANGES), Ok((32, 0))),
    (Call::Issue(1, CHANGES), Ok((32, 0))),
    (Call::Issue(1, CHANGES), Ok((32, 0))),
    (Call::Issue(1, CHANGES), Ok((32, 0))),
    (Call::Issue(1, CHANGES), Ok((32, 0))),
    (Call::Issue(1, CHANGES), Ok((32, 0))),
    (Call::DeliverAll(0, 1, 288), Ok((1, 0))),
    (
        Call::Authority(AuthorityAction::Advance {
            group: 0,
            configuration: 1,
        }),
        Ok((1, 0)),
    ),
    (Call::Deliver(0, 577), Ok((0, 0))),
    (Call::Deliver(3, 577), Ok((1, 0))),
    (Call::Deliver(0, 578), Ok((2, 0))),
    (Call::DeliverAll(3, 579, 580), Ok((0, 0))),
];

/// Members take messages from letters, in the order in which these were posted. The closing letter and a letter after
/// it are left when the fleet is closed, and so are letters to a member that collects none.
const POSTED: &[Step] = &[
    (Call::Issue(1, "ab"), Ok((2, 0))),
    (Call::Post(0, 1), Ok((0, 0))),
    (Call::Post(1, 2), Ok((0, 0))),
    (Call::Post(0, 2), Ok((0, 0))),
    (Call::Post(1, 1), Ok((0, 0))),
    (Call::Close(0), Ok((0, 0))),
    (Call::Post(0, 1), Ok((0, 0))),
    (Call::Post(5, 1), Ok((0, 0))),
    (Call::Post(6, 1), Err(Fault::NoActor)),
    (Call::Collect(0), Ok((1, 0))),
    (Call::Collect(1), Ok((1, 0))),
    (Call::Collect(1), Ok((1, 0))),
    (Call::Collect(0), Ok((1, 0))),
    (Call::Collect(0), Err(Fault::NoMessage)),
];

/// A fleet: its plan, and the numbers of its passes, its slots and the cells of its journal.
type Size = (&'static str, usize, u32, usize);

/// A fleet, the calls of its passes in turn, its result, and what the gate sees: the last acknowledgement and a page.
const FLEETS: &[(Size, &[Step], Ending, ((u64, u64), bool))] = &[
    (
        (SIX, 1, 1, 17),
        WRITTEN,
        (None, 17, 0, Some((1, 3, 3)), None),
        ((3, 3), false),
    ),
    (
        (SIX, 3, 1, 20),
        WRITTEN_AND_READ,
        (None, 19, 0, Some((1, 3, 3)), None),
        ((3, 3), true),
    ),
    (
        (SIX, 2, 1, 9),
        POSTED,
        (None, 5, 0, Some((1, 0, 2)), None),
        ((0, 2), false),
    ),
    (
        (REPLACED, 1, 2, 20),
        MADE_WHOLE,
        (None, 17, 0, None, None),
        ((0, 0), false),
    ),
    (
        (THREE_COPIES, 1, 1, 303),
        COPIED,
        (None, 303, 0, Some((1, 0, 288)), None),
        ((0, 288), false),
    ),
    (
        (SIX, 2, 2, 9),
        NOBODY,
        (None, 4, 0, Some((1, 0, 1)), None),
        ((0, 1), false),
    ),
    (
        (SIX, 2, 2, 2),
        FULL,
        (None, 2, 0, Some((1, 0, 1)), None),
        ((0, 1), false),
    ),
    (
        (TWO_GROUPS, 1, 1, 3),
        BEYOND,
        (None, 1, 0, None, None),
        ((0, 0), false),
    ),
];

#[test]
fn tables_of_calls(rt: HostRuntime) {
    for (number, (size, steps, expected, seen)) in FLEETS.iter().enumerate() {
        let look = Look::new();
        let (plan, passes, slots, cells) = *size;
        let ending = run_table(&rt, rt.alloc(), plan, passes, slots, cells, steps, &look);
        let after = look.seen();
        assert_eq!(rt;
            (ending, (after.ack, after.page)),
            (Ok(*expected), *seen),
            "{number}"
        );
    }
}

#[test]
fn a_fleet_closed_behind_each_call(rt: HostRuntime) {
    let look = Look::new();
    for passes in [1, 3] {
        for calls in 0..33 {
            let steps = &JOINED[..calls];
            let ending = run_table(&rt, rt.alloc(), REPLACED, passes, 2, 32, steps, &look);
            let writer = (calls > 0).then_some((1, 0, 1));
            let find = (calls == 32).then_some((2, 0));
            assert_eq!(rt; ending, Ok((None, calls, 0, writer, find)));
        }
    }
}
