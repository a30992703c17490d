//! Steps of clients.

ghost use Rattle.std.specs.Prelude.{◌≡◌, []};
ghost use Rattle.volume_model.specs.Common.{added};
ghost use Rattle.wire.specs.Common.{messages_of};
ghost use Rattle.world.specs.Actions.{client_after_growth, client_does, message_found, named_in, MakesAtMost};
ghost use Rattle.world.specs.Clients.{client_plan, client_volume, seen_client, IsSameClient};
ghost use Rattle.world.specs.Moves.{ClientMoves};

use crate::actions::ClientAction;
use crate::client::Client;
use crate::numbering::{enter, message_at};
use std::alloc::Global;
use volume_model::{Fault, steps_are_few};
use wire::Message;

/// Returns the message that an action names, if there is one.
pub fn named<'a>(action: ClientAction<'_>, messages: &'a [Message]) -> Option<&'a Message>
    ensures { message_found result ≡ named_in (added (messages_of messages.entry.now) []) action.entry }
{
    match action {
        ClientAction::Take { message } => message_at(messages, message),
        _ => None,
    }
}

/// Returns the most messages that the client makes in an action.
fn most_made(client: &Client, action: ClientAction<'_>) -> usize
    ensures { MakesAtMost (client_plan client.now) (client_volume client.now) (seen_client client.now) action.entry
        result }
{
    steps_are_few();
    match action {
        ClientAction::Take { .. } => client.most_taken(),
        ClientAction::Cut => client.most_cut(),
        ClientAction::Open => 0,
        ClientAction::Issue(changes) => changes.len(),
        ClientAction::Resend { .. } => 1,
        ClientAction::Read { .. } => 1,
    }
}

/// Performs a client's action and appends its messages. Reserves room for them first. On error nothing has changed.
pub fn act(
    alloc: Global,
    client: &mut Client,
    messages: &mut Vec<Message>,
    action: ClientAction<'_>,
) -> Result<u64, Fault>
    ensures moves { ClientMoves (client_after_growth action.entry)
        (client_does (added (messages_of messages.old.items) []) action.entry (client_plan client.old)
        (client_volume client.old) (seen_client client.old)) (seen_client client.old)
        (added (messages_of messages.old.items) []) result (seen_client client.new)
        (added (messages_of messages.new.items) []) }
    ensures same { IsSameClient client.old client.new }
{
    let room = messages.reserve(most_made(client, action));
    let found = named(action, messages.as_slice());
    if room.is_err() {
        client.admits(alloc, action, found)?;
        return Err(Fault::NoMemory);
    }
    let made = client.act(alloc, action, found)?;
    Ok(enter(messages, made))
}
