//! Splits events into an actor and its action.

ghost use Rattle.std.specs.Prelude.{◌≡◌, true, IfOk};
ghost use Rattle.world.specs.Actions.{action_event, authority_event, client_event, node_event, is_of_authority, is_of_client};
ghost use Rattle.world.specs.Events.{event_of};

use crate::actions::{ActorAction, AuthorityAction, ClientAction};
use crate::event::Event;
use segment_core::NodeAction;
use std::alloc::{AllocError, Global};

impl Event {
    /// Returns the actor of the event and its action.
    pub fn split(&self) -> ActorAction<'_>
        ensures { action_event result ≡ event_of self.now }
    {
        match self {
            Event::Assign | Event::Advance { .. } | Event::Refresh { .. } | Event::Grow => {
                ActorAction::Authority(self.authority_action())
            }
            Event::Issue { .. }
            | Event::Take { .. }
            | Event::Cut { .. }
            | Event::Open { .. }
            | Event::Resend { .. }
            | Event::Read { .. } => {
                let (volume, action) = self.client_action();
                ActorAction::Client(volume, action)
            }
            Event::Deliver {
                group,
                member,
                message,
            } => ActorAction::Deliver {
                group: *group,
                member: *member,
                message: *message,
            },
            Event::Hydrate { group, member } => ActorAction::Node(
                *group,
                *member,
                NodeAction::Hydrate,
            ),
            Event::Restart { group, member } => ActorAction::Node(
                *group,
                *member,
                NodeAction::Restart,
            ),
            Event::Offer { group, member, lsn } => {
                ActorAction::Node(*group, *member, NodeAction::Offer { lsn: *lsn })
            }
        }
    }

    /// Returns the action of the authority's event.
    fn authority_action(&self) -> AuthorityAction
        requires { is_of_authority (event_of self.now) ≡ true }
        ensures { authority_event result ≡ event_of self.now }
    {
        match self {
            Event::Assign => AuthorityAction::Assign,
            Event::Advance {
                group,
                configuration,
            } => AuthorityAction::Advance {
                group: *group,
                configuration: *configuration,
            },
            Event::Refresh { volume } => AuthorityAction::Refresh { volume: *volume },
            Event::Grow => AuthorityAction::Grow,
            _ => unreachable!(),
        }
    }

    /// Returns the volume epoch and the action of a client's event.
    fn client_action(&self) -> (u32, ClientAction<'_>)
        requires { is_of_client (event_of self.now) ≡ true }
        ensures { client_event result.0 result.1 ≡ event_of self.now }
    {
        match self {
            Event::Issue { volume, changes } => (*volume, ClientAction::Issue(changes)),
            Event::Take { volume, message } => {
                (*volume, ClientAction::Take { message: *message })
            }
            Event::Cut { volume } => (*volume, ClientAction::Cut),
            Event::Open { volume } => (*volume, ClientAction::Open),
            Event::Resend { volume, lsn } => (*volume, ClientAction::Resend { lsn: *lsn }),
            Event::Read {
                volume,
                group,
                block,
            } => {
                let action = ClientAction::Read {
                    group: *group,
                    block: *block,
                };
                (*volume, action)
            }
            _ => unreachable!(),
        }
    }

    /// Returns the event of the authority's action.
    pub fn of_authority(action: AuthorityAction) -> Event
        ensures { event_of result ≡ authority_event action }
    {
        match action {
            AuthorityAction::Assign => Event::Assign,
            AuthorityAction::Advance {
                group,
                configuration,
            } => Event::Advance {
                group,
                configuration,
            },
            AuthorityAction::Refresh { volume } => Event::Refresh { volume },
            AuthorityAction::Grow => Event::Grow,
        }
    }

    /// Returns the event of a client's action, with a copy of its changes. Fails only if memory runs out.
    pub fn of_client(
        alloc: Global,
        volume: u32,
        action: ClientAction<'_>,
    ) -> Result<Event, AllocError>
        ensures { IfOk result (λ event. event_of event ≡ client_event volume action.entry) }
    {
        match action {
            ClientAction::Issue(changes) => Ok(Event::Issue {
                volume,
                changes: changes.to_vec(alloc)?,
            }),
            ClientAction::Take { message } => Ok(Event::Take { volume, message }),
            ClientAction::Cut => Ok(Event::Cut { volume }),
            ClientAction::Open => Ok(Event::Open { volume }),
            ClientAction::Resend { lsn } => Ok(Event::Resend { volume, lsn }),
            ClientAction::Read { group, block } => Ok(Event::Read {
                volume,
                group,
                block,
            }),
        }
    }

    /// Returns the event of a node's action.
    pub fn of_node(group: u8, member: u8, action: NodeAction) -> Event
        ensures { event_of result ≡ node_event group member action }
    {
        match action {
            NodeAction::Hydrate => Event::Hydrate { group, member },
            NodeAction::Restart => Event::Restart { group, member },
            NodeAction::Offer { lsn } => Event::Offer { group, member, lsn },
        }
    }
}
