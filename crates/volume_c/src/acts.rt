//! Steps of the actors that handles hold.

ghost use Rattle.std.specs.Prelude.{Some};
ghost use Rattle.volume_model.specs.Common.{AnswersAfterGrowth, reaction};
ghost use Rattle.wire.specs.Common.{message_of};
ghost use Rattle.segment_core.specs.Actions.{acted, action_after_growth};
ghost use Rattle.segment_core.specs.Segment.{node_of, action_of, answered, IsSameActor};
ghost use Rattle.world.specs.Actions.{authority_acted, client_acted, message_found};
ghost use Rattle.volume_c.specs.View.{seen};
ghost use Rattle.volume_c.specs.Calls.{node_does, client_does, authority_does, Does};

use crate::actor::{Actor, Held};
use crate::handle::Handle;
use crate::status::{UNSENT, WRONG_HANDLE};
use segment_core::{NodeAction, Segment};
use std::alloc::Global;
use volume_model::Fault;
use wire::{Message, Messages};
use world::{AuthorityAction, ClientAction};

/// Performs an action of a segment. On error the segment is unchanged.
fn perform(alloc: Global, segment: &mut Segment, action: NodeAction) -> Result<Messages, Fault>
    ensures answers { AnswersAfterGrowth (action_after_growth action) answered (action_of segment.old action)
        (node_of segment.old) result (node_of segment.new) }
    ensures actor { IsSameActor segment.old segment.new }
{
    let prepared = segment.prepare_action(alloc, action)?;
    Ok(segment.apply(prepared))
}

/// Delivers a message to the segment that is held.
fn deliver_held(alloc: Global, held: &mut Held, message: &Message) -> u8
    ensures { Does (node_does (λ plan group member node. reaction plan group member node (message_of message.now))
        (seen (Some held.old))) result (Some held.old) (Some held.new) }
{
    if !held.outbox.is_empty() {
        return UNSENT;
    }
    match &mut held.actor {
        Actor::Segment(segment) => match segment.deliver(alloc, message) {
            Ok(made) => {
                held.outbox.fill(made);
                0
            }
            Err(fault) => fault.number(),
        },
        _ => WRONG_HANDLE,
    }
}

/// Performs an action of the segment that is held.
fn segment_acts(alloc: Global, held: &mut Held, action: NodeAction) -> u8
    ensures { Does (node_does (acted action) (seen (Some held.old))) result (Some held.old) (Some held.new) }
{
    if !held.outbox.is_empty() {
        return UNSENT;
    }
    match &mut held.actor {
        Actor::Segment(segment) => match perform(alloc, segment, action) {
            Ok(made) => {
                held.outbox.fill(made);
                0
            }
            Err(fault) => fault.number(),
        },
        _ => WRONG_HANDLE,
    }
}

/// Performs an action of the client that is held. `found` is the message that it takes, if it takes one.
fn client_acts(
    alloc: Global,
    held: &mut Held,
    action: ClientAction<'_>,
    found: Option<&Message>,
) -> u8
    ensures { Does (client_does (client_acted (message_found found.entry) action.entry) (seen (Some held.old))) result
        (Some held.old) (Some held.new) }
{
    if !held.outbox.is_empty() {
        return UNSENT;
    }
    match &mut held.actor {
        Actor::Client(client) => match client.act(alloc, action, found) {
            Ok(made) => {
                held.outbox.fill(made);
                0
            }
            Err(fault) => fault.number(),
        },
        _ => WRONG_HANDLE,
    }
}

/// Performs an action of the authority that is held.
fn authority_acts(alloc: Global, held: &mut Held, action: AuthorityAction) -> u8
    ensures { Does (authority_does (λ plan authority. authority_acted plan authority action) (seen (Some held.old)))
        result (Some held.old) (Some held.new) }
{
    if !held.outbox.is_empty() {
        return UNSENT;
    }
    match &mut held.actor {
        Actor::Authority(authority) => match action.done_by(alloc, authority) {
            Ok(made) => {
                held.outbox.fill(match made {
                    Some(message) => Messages::One(message),
                    None => Messages::Empty,
                });
                0
            }
            Err(fault) => fault.number(),
        },
        _ => WRONG_HANDLE,
    }
}

/// Delivers a message to a handle's segment.
pub fn deliver_step(alloc: Global, handle: &mut Handle, message: &Message) -> u8
    ensures { Does (node_does (λ plan group member node. reaction plan group member node (message_of message.now))
        (seen handle.old.seal.held)) result handle.old.seal.held handle.new.seal.held }
{
    let Some(mut held) = handle.take(alloc) else {
        return WRONG_HANDLE;
    };
    let status = deliver_held(alloc, &mut held, message);
    handle.put(held);
    status
}

/// Performs an action of a handle's segment.
pub fn segment_step(alloc: Global, handle: &mut Handle, action: NodeAction) -> u8
    ensures { Does (node_does (acted action) (seen handle.old.seal.held)) result handle.old.seal.held
        handle.new.seal.held }
{
    let Some(mut held) = handle.take(alloc) else {
        return WRONG_HANDLE;
    };
    let status = segment_acts(alloc, &mut held, action);
    handle.put(held);
    status
}

/// Performs an action of a handle's client. `found` is the message that it takes, if it takes one.
pub fn client_step(
    alloc: Global,
    handle: &mut Handle,
    action: ClientAction<'_>,
    found: Option<&Message>,
) -> u8
    ensures { Does (client_does (client_acted (message_found found.entry) action.entry) (seen handle.old.seal.held))
        result handle.old.seal.held handle.new.seal.held }
{
    let Some(mut held) = handle.take(alloc) else {
        return WRONG_HANDLE;
    };
    let status = client_acts(alloc, &mut held, action, found);
    handle.put(held);
    status
}

/// Performs an action of a handle's authority.
pub fn authority_step(alloc: Global, handle: &mut Handle, action: AuthorityAction) -> u8
    ensures { Does (authority_does (λ plan authority. authority_acted plan authority action)
        (seen handle.old.seal.held)) result handle.old.seal.held handle.new.seal.held }
{
    let Some(mut held) = handle.take(alloc) else {
        return WRONG_HANDLE;
    };
    let status = authority_acts(alloc, &mut held, action);
    handle.put(held);
    status
}
