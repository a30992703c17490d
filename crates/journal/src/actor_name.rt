//! The actor of an event.

ghost use Rattle.std.specs.Prelude.{◌≡◌};
ghost use Rattle.volume_model.specs.Common.{actor_of};
ghost use Rattle.world.specs.Events.{event_of};
ghost use Rattle.journal.specs.Actors.{seen_who};

use world::Event;

/// An actor's name.
#[derive(Clone, Copy, PartialEq, Eq, Debug)]
pub enum ActorName {
    /// The authority.
    TheAuthority,
    /// The client of a volume epoch.
    Client(u32),
    /// The node of a member of a group.
    Node { group: u8, member: u8 },
}

impl ActorName {
    /// Returns the actor of an event.
    pub fn of(event: &Event) -> ActorName
        ensures { seen_who result ≡ actor_of (event_of event.now) }
    {
        match event {
            Event::Assign | Event::Advance { .. } | Event::Refresh { .. } | Event::Grow => {
                ActorName::TheAuthority
            }
            Event::Issue { volume, .. }
            | Event::Take { volume, .. }
            | Event::Cut { volume }
            | Event::Open { volume }
            | Event::Resend { volume, .. }
            | Event::Read { volume, .. } => ActorName::Client(*volume),
            Event::Deliver { group, member, .. }
            | Event::Hydrate { group, member }
            | Event::Restart { group, member }
            | Event::Offer { group, member, .. } => ActorName::Node {
                group: *group,
                member: *member,
            },
        }
    }
}
