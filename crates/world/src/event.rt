//! The events of a volume.

use std::alloc::AllocError;
use writer_core::Change;

/// An event, which happens to one actor. A lost message is one that no event delivers. Messages are numbered from 1 in
/// the order in which they were made.
#[derive(Drop)]
pub enum Event {
    /// The authority assigns the next volume epoch.
    Assign,
    /// The authority advances a group to a child of its configuration.
    Advance { group: u8, configuration: u32 },
    /// The authority makes a View of the groups' places for the client of the last volume epoch.
    Refresh { volume: u32 },
    /// The authority lets the next group join.
    Grow,
    /// A writer makes the records of a transaction's changes.
    Issue { volume: u32, changes: Vec<Change> },
    /// A client takes the message with this number.
    Take { volume: u32, message: u64 },
    /// A recovery with enough reports finds the log, and begins to install it.
    Cut { volume: u32 },
    /// A recovery with enough acknowledgements becomes a writer.
    Open { volume: u32 },
    /// A writer sends a record of its log again.
    Resend { volume: u32, lsn: u64 },
    /// A writer requests a block's page at its durable point.
    Read { volume: u32, group: u8, block: u32 },
    /// A node of a group takes the message with this number.
    Deliver { group: u8, member: u8, message: u64 },
    /// A node becomes whole from the copies that it received.
    Hydrate { group: u8, member: u8 },
    /// A node restarts.
    Restart { group: u8, member: u8 },
    /// A node offers a record that it holds to the others of its group.
    Offer { group: u8, member: u8, lsn: u64 },
}

/// An event that may name its message by the event that made it. Most orders deliver or take a message, and there may
/// be many, so other events are boxed.
#[derive(Drop)]
pub enum Order {
    /// Any event.
    Event(Box<Event>),
    /// A node of a group takes the `place`-th message (from 1) that the event with this index made.
    DeliverFrom {
        group: u8,
        member: u8,
        event: u32,
        place: u64,
    },
    /// A client takes the `place`-th message (from 1) that the event with this index made.
    TakeFrom {
        volume: u32,
        event: u32,
        place: u64,
    },
}

const _: () = prove!(size_of::<Order>() <= 24);

impl Clone for Event {
    ghost use Rattle.std.specs.Prelude.{◌≡◌};
    ghost use Rattle.world.specs.Events.{event_of};

    ghost is_clone = { λ event copy. event_of copy ≡ event_of event };

    fn clone(&self) -> Result<Event, AllocError> {
        match self {
            Event::Assign => Ok(Event::Assign),
            Event::Advance {
                group,
                configuration,
            } => Ok(Event::Advance {
                group: *group,
                configuration: *configuration,
            }),
            Event::Refresh { volume } => Ok(Event::Refresh { volume: *volume }),
            Event::Grow => Ok(Event::Grow),
            Event::Issue { volume, changes } => Ok(Event::Issue {
                volume: *volume,
                changes: changes.clone()?,
            }),
            Event::Take { volume, message } => Ok(Event::Take {
                volume: *volume,
                message: *message,
            }),
            Event::Cut { volume } => Ok(Event::Cut { volume: *volume }),
            Event::Open { volume } => Ok(Event::Open { volume: *volume }),
            Event::Resend { volume, lsn } => Ok(Event::Resend {
                volume: *volume,
                lsn: *lsn,
            }),
            Event::Read {
                volume,
                group,
                block,
            } => Ok(Event::Read {
                volume: *volume,
                group: *group,
                block: *block,
            }),
            Event::Deliver {
                group,
                member,
                message,
            } => Ok(Event::Deliver {
                group: *group,
                member: *member,
                message: *message,
            }),
            Event::Hydrate { group, member } => Ok(Event::Hydrate {
                group: *group,
                member: *member,
            }),
            Event::Restart { group, member } => Ok(Event::Restart {
                group: *group,
                member: *member,
            }),
            Event::Offer { group, member, lsn } => Ok(Event::Offer {
                group: *group,
                member: *member,
                lsn: *lsn,
            }),
        }
    }
}
