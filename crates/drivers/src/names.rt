//! Reads lines with messages that are named by the lines that made them.

ghost use Rattle.std.specs.Prelude.{◌≡◌, IfOk, length, option_map};
ghost use Rattle.drivers.specs.Grammar.{deliver_in, name_in, take_in};
ghost use Rattle.drivers.specs.Reads.{ReadsBy};
ghost use Rattle.drivers.specs.Parts.{only_name, parts_left};
ghost use Rattle.drivers.specs.Seen.{Seen, asked_by, asked_from, seen_action, take_from};
ghost use Rattle.drivers.specs.Words.{sides_in};

use crate::parts::Parts;
use std::alloc::{AllocError, Global};
use volume_model::Fault;
use world::{Event, Order};

/// Reads `L.K`, where L is one of `earlier` lines: the line and the place.
#[inline(always)]
fn name_of(name: &[u8], earlier: usize) -> Result<(u64, u64), Fault>
    ensures { ReadsBy (λ n. (n.0, n.1)) (name_in earlier (sides_in name.now)) result }
{
    let mut sides = Parts::new(name, b'.');
    let line = sides.take_number(u64::MAX)?;
    let place = sides.take_number(u64::MAX)?;
    if !sides.is_empty() || line == 0 || place == 0 || line > earlier as u64 {
        return Err(Fault::Malformed);
    }
    Ok((line, place))
}

/// Does the same for the only word that is left.
#[inline(always)]
fn last_name(words: Parts, earlier: usize) -> Result<(u64, u64), Fault>
    requires { words.separator ≡ 32 }
    ensures { ReadsBy (λ n. (n.0, n.1)) (only_name earlier (parts_left words.entry)) result }
{
    let Some(name) = words.rest() else {
        return Err(Fault::Malformed);
    };
    name_of(name, earlier)
}

/// Reads `deliver G M L.K`, where L is an earlier line.
#[inline(always)]
pub fn deliver(alloc: Global, mut words: Parts, events: &[Option<u32>]) -> Result<Order, Fault>
    requires { words.separator ≡ 32 }
    ensures { ReadsBy (λ order. Seen.Asks (asked_by order)) (option_map (seen_action events.now)
        (deliver_in (length events.now) (parts_left words.entry))) result }
{
    let group = words.take_id()?;
    let member = words.take_id()?;
    let (line, place) = last_name(words, events.len())?;
    let event = events[(line - 1) as usize];
    Ok(delivery(alloc, group, member, place, event)?)
}

/// Returns the delivery of a message of a line with this event.
#[inline(always)]
fn delivery(
    alloc: Global,
    group: u8,
    member: u8,
    place: u64,
    event: Option<u32>,
) -> Result<Order, AllocError>
    ensures { IfOk result (λ order. asked_by order ≡ asked_from group member place event) }
{
    match event {
        Some(event) => Ok(Order::DeliverFrom {
            group,
            member,
            event,
            place,
        }),
        // The line has no event, so it made no message. No message has number 0.
        None => {
            let none = Event::Deliver {
                group,
                member,
                message: 0,
            };
            Ok(Order::Event(Box::new(alloc, none)?))
        }
    }
}

/// Reads `take V L.K`, where L is an earlier line.
pub fn take(alloc: Global, mut words: Parts, events: &[Option<u32>]) -> Result<Order, Fault>
    requires { words.separator ≡ 32 }
    ensures { ReadsBy (λ order. Seen.Asks (asked_by order)) (option_map (seen_action events.now)
        (take_in (length events.now) (parts_left words.entry))) result }
{
    let volume = words.take_block()?;
    let (line, place) = last_name(words, events.len())?;
    let event = events[(line - 1) as usize];
    Ok(taking(alloc, volume, place, event)?)
}

/// Returns the order to take a message of a line with this event.
fn taking(alloc: Global, volume: u32, place: u64, event: Option<u32>) -> Result<Order, AllocError>
    ensures { IfOk result (λ order. asked_by order ≡ take_from volume place event) }
{
    match event {
        Some(event) => Ok(Order::TakeFrom {
            volume,
            event,
            place,
        }),
        // The line has no event, so it made no message. No message has number 0.
        None => Ok(Order::Event(Box::new(alloc, Event::Take { volume, message: 0 })?)),
    }
}
