//! Decodes a message.

ghost use Rattle.std.specs.Prelude.{◌≡◌, IfOk};
ghost use Rattle.volume_model.specs.Common.{Gives};
ghost use Rattle.wire.specs.Common.{message_of};
ghost use Rattle.message_bytes.specs.Reading.{version_at, body_at, message_in};
ghost use Rattle.message_bytes.specs.Spelling.{message_spelled};

use crate::numbers::u8_at;
use crate::reading::{
    ack_of, copy_ask_of, copy_report_of, fence_of, gossip_of, install_of, page_ask_of, page_of,
    report_of, step_of, view_of, write_of,
};
use std::alloc::Global;
use volume_model::Fault;
use wire::Message;

/// The version of the encoding.
pub const VERSION: u8 = 1;

#[tactic(auto, unfolding(crate::specs::Reading::version_at))]
fn read_version(bytes: &[u8]) -> Result<(u8, &[u8]), Fault>
    ensures { Gives (λ x. (x.0, x.1.now)) result (version_at bytes.now) }
{
    let (version, rest) = u8_at(bytes)?;
    if version != VERSION {
        return Err(Fault::BadField);
    }
    Ok((version, rest))
}

#[tactic(auto, unfolding(crate::specs::Reading::body_at))]
fn body_of(alloc: Global, kind: u8, bytes: &[u8]) -> Result<(Message, &[u8]), Fault>
    ensures { Gives (λ x. (message_of x.0, x.1.now)) result (body_at kind bytes.now) }
{
    match kind {
        1 => view_of(alloc, bytes),
        2 => step_of(bytes),
        3 => fence_of(bytes),
        4 => report_of(alloc, bytes),
        5 => install_of(alloc, bytes),
        6 => write_of(alloc, bytes),
        7 => gossip_of(alloc, bytes),
        8 => ack_of(bytes),
        9 => copy_ask_of(bytes),
        10 => copy_report_of(alloc, bytes),
        11 => page_ask_of(bytes),
        12 => page_of(alloc, bytes),
        _ => Err(Fault::BadField),
    }
}

#[tactic(auto, unfolding(crate::specs::Reading::message_in))]
fn whole(alloc: Global, bytes: &[u8]) -> Result<Message, Fault>
    ensures { Gives message_of result (message_in bytes.now) }
{
    let (_version, rest) = read_version(bytes)?;
    let (kind, rest) = u8_at(rest)?;
    let (message, rest) = body_of(alloc, kind, rest)?;
    if !rest.is_empty() {
        return Err(Fault::Trailing);
    }
    Ok(message)
}

/// Decodes the message that all these bytes encode. A length in the bytes reserves no memory for elements that don't
/// follow.
///
/// # Errors
/// The first fault from left to right: `Short` if the bytes end too early; `BadField` for another version or kind, a
/// field that isn't allowed, or records or entries out of order; `Trailing` if bytes are left. `NoMemory` if memory
/// runs out.
pub fn decode(alloc: Global, bytes: &[u8]) -> Result<Message, Fault>
    ensures exact { Gives message_of result (message_in bytes.now) }
    ensures canonical { IfOk result (λ m. bytes.now ≡ message_spelled (message_of m)) }
{
    whole(alloc, bytes)
}
