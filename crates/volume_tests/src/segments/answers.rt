//! Tests of a node's answers.

ghost use Rattle.segment_core.specs.Segment.{IsReady};

use super::inputs::Held::First;
use super::inputs::Input::{self, CopyAsk, CopyOf, Fence, Gossip, Install, PageAsk, Step, Write};
use super::inputs::Sent::Ours;
use super::messages::message;
use super::nodes::At::{self, Copied, Fresh, Holding, Hydrated, Promised, Tail, Whole};
use super::nodes::node;
use super::rows::{Row, Table, are_kept};
use super::steps::Reply::{self, Acks, Asks, Byte, Copies, Nothing, Offers, Reports};
use super::steps::reply_of;
use segment_core::{NodeAction, Prepared, Segment};
use std::alloc::Global;
use std::test::*;
use volume_model::Fault::{self, StaleMember, StaleVolume};

const FENCE: &[Row] = &[(Fence(0, 2, 1), Ok(Reports(1)), 1)];

const INSTALL: &[Row] = &[
    (Write(0, 1, 1, Ours(1)), Err(StaleVolume), 0),
    (Install(0, 2, 1, First(0)), Ok(Acks(1)), 1),
];

const WRITE: &[Row] = &[(Write(0, 1, 1, Ours(2)), Ok(Acks(2)), 2)];

const GOSSIP: &[Row] = &[
    (Write(0, 1, 1, Ours(1)), Ok(Acks(1)), 1),
    (Gossip(0, 1, 1, Ours(2)), Ok(Acks(2)), 2),
];

const STEP: &[Row] = &[(Step(0, 1, 2), Ok(Nothing), 1)];

const COPY_ASK: &[Row] = &[(CopyAsk(0, 1), Ok(Copies(1)), 1)];

const COPY: &[Row] = &[
    (Write(0, 1, 1, Ours(1)), Err(StaleMember), 0),
    (CopyOf(0, 2, 1, First(0)), Ok(Nothing), 0),
];

const PAGE_ASK: &[Row] = &[(PageAsk(0, 1, 1, 1), Ok(Byte(0x61)), 1)];

const TABLES: &[Table] = &[
    ("a fence", Holding(1), FENCE),
    ("an install", Promised, INSTALL),
    ("a write", Holding(1), WRITE),
    ("gossip", Tail, GOSSIP),
    ("a step", Holding(1), STEP),
    ("a question for copies", Holding(1), COPY_ASK),
    ("a copy", Fresh, COPY),
    ("a question for a page", Holding(1), PAGE_ASK),
];

#[test]
fn answers(rt: HostRuntime) {
    are_kept(&rt, rt.alloc(), TABLES);
}

/// A step in two parts: the prepared answer, the complete point then, the answer once it is applied, and the complete
/// point after it.
type Parts = (Reply, u64, Reply, u64);

/// Applies a prepared step. Returns it in two parts.
fn applied(node: &mut Segment, prepared: Prepared) -> Parts
    requires { IsReady node.old prepared }
{
    let (shown, before) = (reply_of(prepared.answers()), node.scl());
    let answers = node.apply(prepared);
    (shown, before, reply_of(&answers), node.scl())
}

/// Returns whether a record is taken in these two parts.
fn takes(alloc: Global, at: At, input: Input, parts: Parts) -> Result<bool, Fault> {
    let mut node = node(alloc, at)?;
    let prepared = node.prepare(alloc, &message(alloc, input)?)?;
    Ok(applied(&mut node, prepared) == parts)
}

/// Returns whether an action is performed in these two parts.
fn acts(alloc: Global, at: At, action: NodeAction, parts: Parts) -> Result<bool, Fault> {
    let mut node = node(alloc, at)?;
    let prepared = node.prepare_action(alloc, action)?;
    Ok(applied(&mut node, prepared) == parts)
}

/// A record with LSN 1 is taken.
const TAKING: Parts = (Acks(1), 0, Acks(1), 1);

/// A member becomes whole.
const BECOMING_WHOLE: Parts = (Nothing, 0, Nothing, 1);

/// A member offers the record with LSN 1.
const OFFERING: Parts = (Offers(1, 2, 1), 1, Offers(1, 2, 1), 1);

/// A prepared step has its answers, and changes nothing before it is applied.
#[test]
fn steps_in_two_parts(rt: HostRuntime) {
    let (alloc, offer) = (rt.alloc(), NodeAction::Offer { lsn: 1 });
    assert_eq!(rt;
        takes(alloc, Whole, Write(0, 1, 1, Ours(1)), TAKING),
        Ok(true)
    );
    assert_eq!(rt;
        acts(alloc, Copied, NodeAction::Hydrate, BECOMING_WHOLE),
        Ok(true)
    );
    assert_eq!(rt; acts(alloc, Hydrated, offer, OFFERING), Ok(true));
}
