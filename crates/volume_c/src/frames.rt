//! Frames: messages for one node in one buffer, each after its length. A segment takes them in order.

ghost use Rattle.std.specs.Prelude.{◌≡◌, ◌≢◌, ◌+◌, ◌++◌, ◌≤◌, ◌<◌, [], Some, IfOk, IfErr, length, vec_capacity, vec_len};
ghost use Rattle.volume_model.specs.Common.{Fails, Gives};
ghost use Rattle.wire.specs.Common.{listed, message_of, messages_of};
ghost use Rattle.segment_core.specs.Segment.{IsSameActor};
ghost use Rattle.volume_c.specs.Joined.{covers, joined};
ghost use Rattle.volume_c.specs.Frames.{framed, next_in, TakesFrame};
ghost use Rattle.volume_c.specs.Turns.{own_next, own_turn, turn_of, IsNextRefusal, IsSameTurn, TookOwn};

use crate::actor::{Actor, Held};
use crate::handle::Handle;
use crate::status::{UNSENT, WRONG_HANDLE};
use message_bytes::{decode, u32_at};
use segment_core::Segment;
use std::alloc::Global;
use volume_model::Fault;
use wire::{Message, Messages};

/// Reads the first message of a frame. Returns it with the bytes after it.
#[tactic(auto, unfolding(crate::specs::Frames::next_in))]
fn read_next(alloc: Global, bytes: &[u8]) -> Result<(Message, &[u8]), Fault>
    ensures { Gives (λ x. (message_of x.0, x.1.now)) result (next_in bytes.now) }
{
    let (length, rest) = u32_at(bytes)?;
    let length = length as usize;
    if rest.len() < length {
        return Err(Fault::Short);
    }
    let (front, rest) = rest.split_at(length);
    let message = decode(alloc, front)?;
    Ok((message, rest))
}

/// Does what [`read_next`] does. The bytes begin with the message, after its length.
fn next(alloc: Global, bytes: &[u8]) -> Result<(Message, &[u8]), Fault>
    ensures exact { Gives (λ x. (message_of x.0, x.1.now)) result (next_in bytes.now) }
    ensures canonical { IfOk result (λ x. bytes.now ≡ framed (message_of x.0) ++ x.1.now) }
{
    read_next(alloc, bytes)
}

/// Returns whether a message is an acknowledgement that includes an earlier one.
fn covers(message: &Message, earlier: &Message) -> bool
    ensures { result ≡ covers (message_of message.now) (message_of earlier.now) }
{
    let Message::Ack(ack) = message else {
        return false;
    };
    let Message::Ack(old) = earlier else {
        return false;
    };
    old.group == ack.group
        && old.label.volume == ack.label.volume
        && old.label.member == ack.label.member
        && old.from == ack.from
        && old.scl <= ack.scl
}

/// Drops the last waiting answer if the first new one includes it.
fn drop_covered(waiting: &mut Vec<Message>, answers: &Messages)
    ensures waits { joined (messages_of waiting.old.items) (messages_of (listed answers.now)) ≡ messages_of
        waiting.new.items ++ messages_of (listed answers.now) }
    ensures len { vec_len waiting.new ≤ vec_len waiting.old }
    ensures capacity { vec_capacity waiting.new ≡ vec_capacity waiting.old }
{
    if answers.len() == 0 {
        return;
    }
    if waiting.is_empty() {
        return;
    }
    let last = waiting.take_last();
    if !covers(answers.at(0), &last) {
        waiting.push_reserved(last);
    }
}

/// Appends answers to the waiting ones, of which the last is dropped if the first new one includes it.
fn join(waiting: &mut Vec<Message>, answers: Messages)
    requires { vec_len waiting.old + length (listed answers) ≤ vec_capacity waiting.old }
    ensures { messages_of waiting.new.items ≡ joined (messages_of waiting.old.items) (messages_of (listed answers)) }
{
    drop_covered(waiting, &answers);
    answers.append_to(waiting);
}

/// Delivers a message to a segment, and appends the answers to the waiting ones. On error nothing has changed.
fn take_turn(
    alloc: Global,
    segment: &mut Segment,
    waiting: &mut Vec<Message>,
    message: &Message,
) -> Result<(), Fault>
    ensures turn { Gives (λ _. turn_of waiting.new.items segment.new) result (own_turn segment.old
        (turn_of waiting.old.items segment.old) (message_of message.now)) }
    ensures same { IfErr result (λ _. IsSameTurn waiting.old.items segment.old waiting.new.items segment.new) }
    ensures actor { IsSameActor segment.old segment.new }
{
    let prepared = segment.prepare(alloc, message)?;
    waiting.reserve(prepared.answers().len())?;
    let answers = segment.apply(prepared);
    join(waiting, answers);
    Ok(())
}

/// Takes the first message of a frame. Returns the bytes after it. On error nothing has changed.
fn take_next<'a>(
    alloc: Global,
    segment: &mut Segment,
    waiting: &mut Vec<Message>,
    bytes: &'a [u8],
) -> Result<&'a [u8], Fault>
    ensures took { IfOk result (λ rest. TookOwn segment.old bytes.now rest.now (turn_of waiting.old.items segment.old)
        (turn_of waiting.new.items segment.new)) }
    ensures refused { IfErr result (λ fault. Fails fault (own_next segment.old (turn_of waiting.old.items segment.old)
        bytes.now)) }
    ensures same { IfErr result (λ _. IsSameTurn waiting.old.items segment.old waiting.new.items segment.new) }
    ensures shorter { IfOk result (λ rest. length rest.now < length bytes.now) }
    ensures actor { IsSameActor segment.old segment.new }
{
    let (message, rest) = next(alloc, bytes)?;
    take_turn(alloc, segment, waiting, &message)?;
    Ok(rest)
}

/// Takes the messages of a frame in order, up to the first that is refused. Returns the bytes that weren't taken, and
/// the number of the refusal.
fn take_all<'a>(
    alloc: Global,
    segment: &mut Segment,
    waiting: &mut Vec<Message>,
    frame: &'a [u8],
) -> (&'a [u8], u8)
    ensures took { TookOwn segment.old frame.now result.0.now (turn_of waiting.old.items segment.old)
        (turn_of waiting.new.items segment.new) }
    ensures all { result.1 ≡ 0 → result.0.now ≡ [] }
    ensures refused { result.1 ≢ 0 → IsNextRefusal result.1
        (own_next segment.old (turn_of waiting.new.items segment.new) result.0.now) }
    ensures actor { IsSameActor segment.old segment.new }
{
    let mut rest = frame;
    while !rest.is_empty() {
        match take_next(alloc, segment, waiting, rest) {
            Ok(after) => rest = after,
            Err(fault) => return (rest, fault.number()),
        }
    }
    (rest, 0)
}

/// Takes a frame for the segment that is held. Returns the number of bytes that were taken, and a status.
fn take_held(alloc: Global, held: &mut Held, frame: &[u8]) -> (usize, u8)
    ensures { TakesFrame frame.now result.0 result.1 (Some held.old) (Some held.new) }
{
    if !held.outbox.is_empty() {
        return (0, UNSENT);
    }
    match &mut held.actor {
        Actor::Segment(segment) => {
            let mut waiting = Vec::new(alloc);
            let (rest, status) = take_all(alloc, segment, &mut waiting, frame);
            held.outbox.fill(Messages::of(waiting));
            (frame.len() - rest.len(), status)
        }
        _ => (0, WRONG_HANDLE),
    }
}

/// Passes a segment a frame: messages for its node in one buffer, each after its length, a big-endian number of 4
/// bytes. The segment takes them in order, like `volume_segment_take`, up to the first that it refuses. `taken` is set
/// to the number of bytes taken. Log these before an answer leaves the node; they are a frame too, and may be replayed
/// whole or message by message. `volume_next_message` hands the answers out. An Ack replaces the Ack right before it if
/// it has the same label and no smaller complete point, so a frame of Writes makes one Ack.
///
/// A number below 90 is the refusal of the message at `taken`; the messages before it were taken. To skip that message,
/// hand the answers out and pass the bytes after it; after 9 pass it again. Also returns 1 if the frame ends within a
/// message. On 90 and 91 nothing was taken.
#[unsafe(no_mangle)]
pub extern "C" fn volume_segment_take_frame(
    alloc: Global,
    segment: &mut Handle,
    frame: &[u8],
    taken: &mut usize,
) -> u8
    ensures { TakesFrame frame.now taken.new result segment.old.seal.held segment.new.seal.held }
{
    *taken = 0;
    let Some(mut held) = segment.take(alloc) else {
        return WRONG_HANDLE;
    };
    let (count, status) = take_held(alloc, &mut held, frame);
    segment.put(held);
    *taken = count;
    status
}
