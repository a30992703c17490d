//! Steps of nodes.

ghost use Rattle.std.specs.Prelude.{Bool, [], Ok};
ghost use Rattle.volume_model.specs.Common.{added};
ghost use Rattle.volume_model.specs.declared.fault.Fault.{Fault as FaultName};
ghost use Rattle.wire.specs.Common.{messages_of};
ghost use Rattle.segment_core.specs.Prepared.{step_of};
ghost use Rattle.segment_core.specs.Segment.{node_of, IsReady, IsSameActor};
ghost use Rattle.world.specs.Actions.{Delivers, SegmentActs};
ghost use Rattle.world.specs.Moves.{NodeMoves};

use crate::numbering::{enter, named};
use segment_core::{NodeAction, Prepared, Segment};
use std::alloc::Global;
use volume_model::Fault;
use wire::Message;

/// Applies a prepared step of a segment and appends its messages. Reserves room for them first. On error nothing has
/// changed.
#[inline(always)]
fn take(
    segment: &mut Segment,
    messages: &mut Vec<Message>,
    prepared: Prepared,
) -> Result<u64, Fault>
    requires { IsReady segment.old prepared }
    ensures moves { (late : FaultName → Bool) → NodeMoves late (Ok (step_of prepared (node_of segment.old)))
        (node_of segment.old) (added (messages_of messages.old.items) []) result (node_of segment.new)
        (added (messages_of messages.new.items) []) }
    ensures actor { IsSameActor segment.old segment.new }
{
    messages.reserve(prepared.answers().len())?;
    let made = segment.apply(prepared);
    Ok(enter(messages, made))
}

/// The general case of [`deliver`], out of line so that the write path keeps a small stack frame.
#[inline(never)]
fn deliver_any(
    alloc: Global,
    segment: &mut Segment,
    messages: &mut Vec<Message>,
    number: u64,
) -> Result<u64, Fault>
    ensures moves { Delivers number segment.old segment.new messages.old.items messages.new.items result }
    ensures actor { IsSameActor segment.old segment.new }
{
    let message = named(messages.as_slice(), number)?;
    let prepared = segment.prepare(alloc, message)?;
    take(segment, messages, prepared)
}

/// Delivers the message with this number to a segment and appends the answers. Reserves room for them first.
/// `NoMessage` if there is no such message. On error nothing has changed.
pub fn deliver(
    alloc: Global,
    segment: &mut Segment,
    messages: &mut Vec<Message>,
    number: u64,
) -> Result<u64, Fault>
    ensures moves { Delivers number segment.old segment.new messages.old.items messages.new.items result }
    ensures actor { IsSameActor segment.old segment.new }
{
    // Most messages are Writes. Without this path scripts of Writes take 11 to 16 % more instructions.
    if let Message::Write(write) = named(messages.as_slice(), number)? {
        let prepared = segment.prepare_write(alloc, write)?;
        return take(segment, messages, prepared);
    }
    deliver_any(alloc, segment, messages, number)
}

/// Performs a segment's action and appends its messages. Reserves room for them first. On error nothing has changed.
pub fn act(
    alloc: Global,
    segment: &mut Segment,
    messages: &mut Vec<Message>,
    action: NodeAction,
) -> Result<u64, Fault>
    ensures moves { SegmentActs action segment.old segment.new messages.old.items messages.new.items result }
    ensures actor { IsSameActor segment.old segment.new }
{
    let prepared = segment.prepare_action(alloc, action)?;
    take(segment, messages, prepared)
}
