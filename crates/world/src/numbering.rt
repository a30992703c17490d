//! The messages that were made, by number.

ghost use Rattle.std.specs.Prelude.{◌≡◌, ◌+◌, ◌≤◌, ◌++◌, [], None, Some, length, vec_capacity, vec_len, MatchResult};
ghost use Rattle.volume_model.specs.declared.fault.Fault.TheVariants.{NoMessage};
ghost use Rattle.volume_model.specs.Common.{added, numbered};
ghost use Rattle.wire.specs.Common.{listed, message_of, messages_of};
ghost use Rattle.world.specs.Actions.{message_found};

use volume_model::Fault;
use wire::{Message, Messages};

/// Returns the message with a number. Messages are numbered from 1 in the order in which they were made.
pub fn message_at(messages: &[Message], number: u64) -> Option<&Message>
    ensures { message_found result ≡ numbered (added (messages_of messages.now) []) number }
{
    if number == 0 || number > messages.len() as u64 {
        return None;
    }
    Some(&messages[(number - 1) as usize])
}

/// Returns the message with a number.
///
/// # Errors
/// `NoMessage` if there is no such message.
pub fn named(messages: &[Message], number: u64) -> Result<&Message, Fault>
    ensures { MatchResult result (λ m. numbered (added (messages_of messages.now) []) number ≡ Some (message_of m.now))
        (λ fault. (fault ≡ NoMessage) × (numbered (added (messages_of messages.now) []) number ≡ None)) }
{
    match message_at(messages, number) {
        Some(message) => Ok(message),
        None => Err(Fault::NoMessage),
    }
}

/// Appends the messages of a step to a list that has room for them. Returns their number.
#[inline(always)]
pub fn enter(messages: &mut Vec<Message>, made: Messages) -> u64
    requires { vec_len messages.old + length (listed made) ≤ vec_capacity messages.old }
    ensures added { messages.new.items ≡ messages.old.items ++ listed made }
    ensures count { result ≡ length (listed made) }
{
    let count = made.len() as u64;
    made.append_to(messages);
    count
}
