//! The messages of a recovery.

ghost use Rattle.std.specs.Prelude.{◌≡◌, ◌≤◌, true, length, map, IfOk};
ghost use Rattle.volume_model.specs.Common.{place_in, place_of, fences, installs, later_in};
ghost use Rattle.lineage.specs.Lineage.{lineage_of};
ghost use Rattle.wire.specs.Message as wire;
ghost use Rattle.wire.specs.Common.{messages_of};
ghost use Rattle.writer_core.specs.Logs.{log_of_set};
ghost use Rattle.writer_core.specs.Groups.{groups_in};

use crate::found::Found;
use std::alloc::{AllocError, Global};
use wire::{Fence, Message, Place};
use writer_core::{GroupStates, group_installs, label_at};

/// Returns one Fence for each group.
///
/// # Errors
/// `AllocError` if memory runs out.
pub fn fences(
    alloc: Global,
    volume: u32,
    group_states: &GroupStates,
) -> Result<Vec<Message>, AllocError>
    ensures { IfOk result (λ messages. messages_of messages.items ≡ fences (length (groups_in group_states.now)) volume
        (place_of (groups_in group_states.now)) (λ group. true)) }
{
    let mut messages = Vec::new(alloc);
    for group in 0..group_states.groups() {
        messages.push(Message::Fence(Fence {
            group,
            label: group_states.label(volume, group),
        }))?;
    }
    Ok(messages)
}

/// Returns one Fence for each group whose new place is of a later epoch.
///
/// # Errors
/// `AllocError` if memory runs out.
pub fn later_fences(
    alloc: Global,
    volume: u32,
    group_states: &GroupStates,
    places: &[Place],
) -> Result<Vec<Message>, AllocError>
    requires { length places.now ≤ 16 }
    ensures { IfOk result (λ messages. messages_of messages.items ≡ fences (length places.now) volume
        (place_in (map wire.place_of places.now)) (later_in (place_of (groups_in group_states.now))
        (place_in (map wire.place_of places.now)))) }
{
    let mut messages = Vec::new(alloc);
    for group in 0..places.len() as u8 {
        let place = places[usize::from(group)];
        if group_states.epoch(group) < place.epoch {
            messages.push(Message::Fence(Fence {
                group,
                label: label_at(volume, place),
            }))?;
        }
    }
    Ok(messages)
}

/// Returns the Installs of the log found for all groups, in order of group, then piece.
///
/// # Errors
/// `AllocError` if memory runs out.
pub fn installs(
    alloc: Global,
    volume: u32,
    group_states: &GroupStates,
    found: &Found,
) -> Result<Vec<Message>, AllocError>
    ensures { IfOk result (λ messages. messages_of messages.items ≡ installs (length (groups_in group_states.now))
        volume (place_of (groups_in group_states.now)) (lineage_of found.now.lineage) (log_of_set found.now.log)
        (λ group. true)) }
{
    let mut messages = Vec::new(alloc);
    for group in 0..group_states.groups() {
        let label = group_states.label(volume, group);
        let mut pieces = group_installs(alloc, group, label, &found.lineage, &found.log)?;
        messages.append(&mut pieces)?;
    }
    Ok(messages)
}

/// Returns the Installs of the log found for each group whose new place is of a later epoch, in order of group, then
/// piece.
///
/// # Errors
/// `AllocError` if memory runs out.
pub fn later_installs(
    alloc: Global,
    volume: u32,
    group_states: &GroupStates,
    found: &Found,
    places: &[Place],
) -> Result<Vec<Message>, AllocError>
    requires { length places.now ≤ 16 }
    ensures { IfOk result (λ messages. messages_of messages.items ≡ installs (length places.now) volume
        (place_in (map wire.place_of places.now)) (lineage_of found.now.lineage) (log_of_set found.now.log)
        (later_in (place_of (groups_in group_states.now)) (place_in (map wire.place_of places.now)))) }
{
    let mut messages = Vec::new(alloc);
    for group in 0..places.len() as u8 {
        let place = places[usize::from(group)];
        if group_states.epoch(group) < place.epoch {
            let label = label_at(volume, place);
            let mut pieces = group_installs(alloc, group, label, &found.lineage, &found.log)?;
            messages.append(&mut pieces)?;
        }
    }
    Ok(messages)
}
