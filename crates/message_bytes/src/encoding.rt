//! Encodes a message.

ghost use Rattle.std.specs.Prelude.{◌≡◌, [], ◌∷◌, Ok, IfOk, OnErr, OnOk};
ghost use Rattle.wire.specs.Common.{message_of};
ghost use Rattle.message_bytes.specs.Filling.{Fills};
ghost use Rattle.message_bytes.specs.Reading.{message_in};
ghost use Rattle.message_bytes.specs.Spelling.{fixed_size, message_spelled, IsReadBack};

use crate::bodies::{put_copy_report, put_install, put_report, put_view};
use crate::decoding::VERSION;
use crate::fixed::{fixed_len, write_fixed};
use crate::writing::put_at;
use std::alloc::{AllocError, Global};
use volume_model::Fault;
use wire::Message;

/// The bytes to reserve for a message with lists. A longer one grows its buffer.
const LISTED_BYTES: usize = 512;

/// Replaces the bytes of a buffer by the version and a kind.
fn put_kind(out: &mut Vec<u8>, kind: u8) -> Result<(), AllocError>
    ensures { OnOk result (out.new.items ≡ 1 ∷ kind ∷ []) }
{
    out.clear();
    out.reserve(LISTED_BYTES)?;
    out.extend_from_slice(&[VERSION, kind])
}

/// Replaces the bytes of a buffer by those of a message with lists.
fn put_listed(alloc: Global, out: &mut Vec<u8>, message: &Message) -> Result<(), Fault>
    requires { fixed_size (message_of message.now) ≡ 0 }
    ensures text { OnOk result (out.new.items ≡ message_spelled (message_of message.now)) }
    ensures reads { OnOk result (IsReadBack (message_of message.now)) }
{
    match message {
        Message::View(view) => {
            put_kind(out, 1)?;
            put_view(out, view)
        }
        Message::Report(report) => {
            put_kind(out, 4)?;
            put_report(alloc, out, report)
        }
        Message::Install(install) => {
            put_kind(out, 5)?;
            put_install(alloc, out, install)
        }
        Message::CopyReport(report) => {
            put_kind(out, 10)?;
            put_copy_report(alloc, out, report)
        }
        Message::StepTo(_) | Message::Fence(_) | Message::Write(_) | Message::Gossip(_) => {
            unreachable!()
        }
        Message::Ack(_) | Message::CopyAsk(_) | Message::PageAsk(_) | Message::Page(_) => {
            unreachable!()
        }
    }
}

/// Replaces the bytes of a buffer by the canonical bytes of a message, from which [`decode`](crate::decode) gives the
/// same message. The buffer keeps its memory, so a buffer that is used again mostly allocates nothing.
///
/// # Errors
/// `Full` if a list is longer than a `u32` can count, `NoMemory` if memory runs out. The buffer's bytes are unspecified
/// then.
pub fn encode_into(alloc: Global, out: &mut Vec<u8>, message: &Message) -> Result<(), Fault>
    ensures text { OnOk result (out.new.items ≡ message_spelled (message_of message.now)) }
    ensures reads { OnOk result (message_in out.new.items ≡ Ok (message_of message.now)) }
{
    let len = fixed_len(message);
    if len == 0 {
        return put_listed(alloc, out, message);
    }
    out.clear();
    out.resize(len, 0)?;
    write_fixed(out.as_mut_slice(), message);
    Ok(())
}

/// Copies the bytes of a message with lists to the front of a slice if they fit, and sets `len` to their number.
/// Returns whether they fit. Out of line, so that `encode_to_slice` saves no registers for the other messages.
#[inline(never)]
fn copy_listed(
    alloc: Global,
    buffer: &mut Vec<u8>,
    out: &mut [u8],
    len: &mut usize,
    message: &Message,
) -> Result<bool, Fault>
    requires { fixed_size (message_of message.now) ≡ 0 }
    ensures text { IfOk result (Fills (message_spelled (message_of message.now)) out.old out.new len.new) }
    ensures unchanged { OnErr result (out.new ≡ out.old) }
{
    put_listed(alloc, buffer, message)?;
    let bytes = buffer.as_slice();
    *len = bytes.len();
    if out.len() < bytes.len() {
        return Ok(false);
    }
    put_at(out, 0, bytes);
    Ok(true)
}

/// Writes the canonical bytes of a message to the front of a slice if they fit, and sets `len` to their number. Returns
/// whether they fit: a slice that is too short stays as it is. The bytes of a message with lists are made in the
/// buffer, which keeps its memory.
///
/// # Errors
/// `Full` if a list is longer than a `u32` can count, `NoMemory` if memory runs out. The slice stays as it is.
pub fn encode_to_slice(
    alloc: Global,
    buffer: &mut Vec<u8>,
    out: &mut [u8],
    len: &mut usize,
    message: &Message,
) -> Result<bool, Fault>
    ensures text { IfOk result (Fills (message_spelled (message_of message.now)) out.old out.new len.new) }
    ensures unchanged { OnErr result (out.new ≡ out.old) }
{
    let bytes = fixed_len(message);
    if bytes == 0 {
        return copy_listed(alloc, buffer, out, len, message);
    }
    *len = bytes;
    if out.len() < bytes {
        return Ok(false);
    }
    let (front, _) = out.split_at_mut(bytes);
    write_fixed(front, message);
    Ok(true)
}

/// Returns the canonical bytes of a message, as [`encode_into`] writes them.
///
/// # Errors
/// `Full` if a list is longer than a `u32` can count, `NoMemory` if memory runs out.
pub fn encode(alloc: Global, message: &Message) -> Result<Vec<u8>, Fault>
    ensures text { IfOk result (λ text. text.items ≡ message_spelled (message_of message.now)) }
    ensures reads { IfOk result (λ text. message_in text.items ≡ Ok (message_of message.now)) }
{
    let mut out = Vec::new(alloc);
    encode_into(alloc, &mut out, message)?;
    Ok(out)
}
