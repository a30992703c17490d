//! Reads lines that have only numbers.

ghost use Rattle.world.specs.Events.{event_of};
ghost use Rattle.drivers.specs.Grammar.{advance_in, assign_in, cut_in, grow_in, hydrate_in, offer_in, open_in, read_in, refresh_in, resend_in, restart_in};
ghost use Rattle.drivers.specs.Reads.{ReadsBy};
ghost use Rattle.drivers.specs.Parts.{parts_left};

use crate::parts::Parts;
use volume_model::Fault;
use world::Event;

/// Reads `assign`.
pub fn assign(words: Parts) -> Result<Event, Fault>
    ensures { ReadsBy event_of (assign_in (parts_left words.entry)) result }
{
    words.end()?;
    Ok(Event::Assign)
}

/// Reads `advance G C`.
pub fn advance(mut words: Parts) -> Result<Event, Fault>
    ensures { ReadsBy event_of (advance_in (parts_left words.entry)) result }
{
    let group = words.take_id()?;
    let configuration = words.take_block()?;
    words.end()?;
    Ok(Event::Advance {
        group,
        configuration,
    })
}

/// Reads `refresh V`.
pub fn refresh(mut words: Parts) -> Result<Event, Fault>
    ensures { ReadsBy event_of (refresh_in (parts_left words.entry)) result }
{
    let volume = words.take_block()?;
    words.end()?;
    Ok(Event::Refresh { volume })
}

/// Reads `grow`.
pub fn grow(words: Parts) -> Result<Event, Fault>
    ensures { ReadsBy event_of (grow_in (parts_left words.entry)) result }
{
    words.end()?;
    Ok(Event::Grow)
}

/// Reads `cut V`.
pub fn cut(mut words: Parts) -> Result<Event, Fault>
    ensures { ReadsBy event_of (cut_in (parts_left words.entry)) result }
{
    let volume = words.take_block()?;
    words.end()?;
    Ok(Event::Cut { volume })
}

/// Reads `open V`.
pub fn open(mut words: Parts) -> Result<Event, Fault>
    ensures { ReadsBy event_of (open_in (parts_left words.entry)) result }
{
    let volume = words.take_block()?;
    words.end()?;
    Ok(Event::Open { volume })
}

/// Reads `resend V N`.
pub fn resend(mut words: Parts) -> Result<Event, Fault>
    ensures { ReadsBy event_of (resend_in (parts_left words.entry)) result }
{
    let volume = words.take_block()?;
    let lsn = words.take_lsn()?;
    words.end()?;
    Ok(Event::Resend { volume, lsn })
}

/// Reads `read V G B`.
pub fn read(mut words: Parts) -> Result<Event, Fault>
    ensures { ReadsBy event_of (read_in (parts_left words.entry)) result }
{
    let volume = words.take_block()?;
    let group = words.take_id()?;
    let block = words.take_block()?;
    words.end()?;
    Ok(Event::Read {
        volume,
        group,
        block,
    })
}

/// Reads `hydrate G M`.
pub fn hydrate(mut words: Parts) -> Result<Event, Fault>
    ensures { ReadsBy event_of (hydrate_in (parts_left words.entry)) result }
{
    let group = words.take_id()?;
    let member = words.take_id()?;
    words.end()?;
    Ok(Event::Hydrate { group, member })
}

/// Reads `restart G M`.
pub fn restart(mut words: Parts) -> Result<Event, Fault>
    ensures { ReadsBy event_of (restart_in (parts_left words.entry)) result }
{
    let group = words.take_id()?;
    let member = words.take_id()?;
    words.end()?;
    Ok(Event::Restart { group, member })
}

/// Reads `offer G M N`.
pub fn offer(mut words: Parts) -> Result<Event, Fault>
    ensures { ReadsBy event_of (offer_in (parts_left words.entry)) result }
{
    let group = words.take_id()?;
    let member = words.take_id()?;
    let lsn = words.take_lsn()?;
    words.end()?;
    Ok(Event::Offer { group, member, lsn })
}
