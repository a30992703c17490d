//! Tests of a node's refusals. Those of pieces are in `installs` and `copies`. `SeriesSpent` isn't tested, since it
//! takes too many copies.

use super::inputs::Held::{First, Nothing};
use super::inputs::Input::{self, *};
use super::inputs::Sent::{Others, Ours};
use super::nodes::At::{self, Fresh, Nobody, Promised, Tail, Whole};
use super::nodes::node;
use super::steps::{Reply, answer};
use std::alloc::Global;
use std::test::*;
use volume_model::Fault::{self, *};

/// What is wrong, the receiving node, the message, and the refusal.
type Case = (&'static str, At, Input, Fault);

const FENCES: &[Case] = &[
    ("of another group", Whole, Fence(1, 2, 1), NotAddressed),
    ("of an earlier place", Whole, Fence(0, 2, 0), StaleMember),
    ("of a later place", Whole, Fence(0, 2, 2), AheadMember),
    ("before it is whole", Fresh, Fence(0, 2, 2), NotWhole),
    ("below the promise", Promised, Fence(0, 1, 1), StaleVolume),
];

const INSTALLS: &[Case] = &[
    (
        "of another group",
        Whole,
        Install(1, 2, 1, Nothing),
        NotAddressed,
    ),
    (
        "of another group's records",
        Whole,
        Install(0, 2, 1, First(1)),
        NotAddressed,
    ),
    (
        "of an earlier place",
        Whole,
        Install(0, 2, 0, Nothing),
        StaleMember,
    ),
    (
        "of a later place",
        Whole,
        Install(0, 2, 2, Nothing),
        AheadMember,
    ),
    (
        "before it is whole",
        Fresh,
        Install(0, 2, 2, Nothing),
        NotWhole,
    ),
    (
        "below the promise",
        Promised,
        Install(0, 1, 1, Nothing),
        StaleVolume,
    ),
];

const WRITES: &[Case] = &[
    (
        "of another group",
        Whole,
        Write(1, 1, 1, Others(1)),
        NotAddressed,
    ),
    (
        "of another group's record",
        Whole,
        Write(0, 1, 1, Others(1)),
        NotAddressed,
    ),
    (
        "of an earlier place",
        Whole,
        Write(0, 1, 0, Ours(1)),
        StaleMember,
    ),
    (
        "of a later place",
        Whole,
        Write(0, 1, 2, Ours(1)),
        AheadMember,
    ),
    (
        "before it is whole",
        Fresh,
        Write(0, 1, 2, Ours(1)),
        NotWhole,
    ),
    (
        "below the promise",
        Promised,
        Write(0, 1, 1, Ours(1)),
        StaleVolume,
    ),
    (
        "before the install",
        Promised,
        Write(0, 2, 1, Ours(1)),
        NotInstalled,
    ),
];

const GOSSIPS: &[Case] = &[
    (
        "of another group",
        Whole,
        Gossip(1, 1, 1, Others(1)),
        NotAddressed,
    ),
    (
        "of another group's record",
        Whole,
        Gossip(0, 1, 1, Others(1)),
        NotAddressed,
    ),
    (
        "of an earlier place",
        Whole,
        Gossip(0, 1, 0, Ours(1)),
        StaleMember,
    ),
    (
        "of a later place",
        Whole,
        Gossip(0, 1, 2, Ours(1)),
        AheadMember,
    ),
    (
        "before it is whole",
        Fresh,
        Gossip(0, 1, 2, Ours(1)),
        NotWhole,
    ),
    (
        "below the promise",
        Promised,
        Gossip(0, 1, 1, Ours(1)),
        StaleVolume,
    ),
    (
        "before the install",
        Promised,
        Gossip(0, 2, 1, Ours(1)),
        NotInstalled,
    ),
];

const STEPS: &[Case] = &[
    ("of another group", Whole, Step(1, 1, 2), NotAddressed),
    ("to its own place", Whole, Step(0, 0, 1), StaleMember),
    ("to no place of the plan", Whole, Step(0, 1, 3), NotInPlan),
];

const COPY_ASKS: &[Case] = &[
    ("of another group", Whole, CopyAsk(1, 1), NotAddressed),
    ("from an earlier place", Whole, CopyAsk(0, 0), StaleMember),
    ("from a later place", Whole, CopyAsk(0, 2), AheadMember),
    ("before it is whole", Fresh, CopyAsk(0, 2), NotWhole),
];

const COPIES: &[Case] = &[
    (
        "of another group",
        Fresh,
        CopyOf(1, 2, 1, Nothing),
        NotAddressed,
    ),
    (
        "of another group's records",
        Fresh,
        CopyOf(0, 2, 1, First(1)),
        NotAddressed,
    ),
    (
        "of no member",
        Fresh,
        CopyOf(0, 2, 64, Nothing),
        NotAddressed,
    ),
    (
        "when it is whole",
        Whole,
        CopyOf(0, 1, 1, Nothing),
        AlreadyWhole,
    ),
    (
        "from an earlier place",
        Fresh,
        CopyOf(0, 1, 1, Nothing),
        StaleMember,
    ),
    (
        "from a later place",
        Fresh,
        CopyOf(0, 3, 1, Nothing),
        AheadMember,
    ),
];

const PAGE_ASKS: &[Case] = &[
    ("of another group", Whole, PageAsk(1, 1, 1, 0), NotAddressed),
    (
        "of an earlier place",
        Whole,
        PageAsk(0, 1, 0, 0),
        StaleMember,
    ),
    ("of a later place", Whole, PageAsk(0, 1, 2, 0), AheadMember),
    ("before it is whole", Fresh, PageAsk(0, 1, 2, 0), NotWhole),
    (
        "below the promise",
        Promised,
        PageAsk(0, 1, 1, 0),
        StaleVolume,
    ),
    (
        "before the install",
        Promised,
        PageAsk(0, 2, 1, 0),
        NotInstalled,
    ),
    (
        "of a node without pages",
        Tail,
        PageAsk(0, 1, 1, 0),
        TailSegment,
    ),
    (
        "ahead of the records",
        Whole,
        PageAsk(0, 1, 1, 1),
        PointAhead,
    ),
];

const FOR_CLIENTS: &[Case] = &[
    ("a view", Whole, View, NotAddressed),
    ("a report", Whole, Report, NotAddressed),
    ("an acknowledgement", Whole, Ack, NotAddressed),
    ("a page", Whole, Page, NotAddressed),
];

const NO_NODE: &[Case] = &[("of a member that isn't there", Nobody, Restart, NoActor)];

const KINDS: &[(&str, &[Case])] = &[
    ("a fence", FENCES),
    ("an install", INSTALLS),
    ("a write", WRITES),
    ("gossip", GOSSIPS),
    ("a step", STEPS),
    ("a question for copies", COPY_ASKS),
    ("a copy", COPIES),
    ("a question for a page", PAGE_ASKS),
    ("a message for clients", FOR_CLIENTS),
    ("a node", NO_NODE),
];

/// Returns the answer of a new node.
fn input(alloc: Global, at: At, input: Input) -> Result<Reply, Fault> {
    answer(alloc, &mut node(alloc, at)?, input)
}

/// Returns what is wrong in the first case with another answer, `None` if there is none.
fn taken(alloc: Global, cases: &[Case]) -> Option<&'static str> {
    for (what, at, message, fault) in cases {
        if input(alloc, *at, *message) != Err(*fault) {
            return Some(*what);
        }
    }
    None
}

/// Each message is refused for each reason.
#[test]
fn refusals(rt: HostRuntime) {
    for (kind, cases) in KINDS {
        assert_eq!(rt; taken(rt.alloc(), cases), None, "{kind}");
    }
}
