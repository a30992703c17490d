//! The actions of actors.

use segment_core::NodeAction;
use writer_core::Change;

/// An action of the authority.
#[derive(Clone, Copy)]
pub enum AuthorityAction {
    /// Assigns the next volume epoch.
    Assign,
    /// Advances a group to a child of its configuration, given by its number in the group's list.
    Advance { group: u8, configuration: u32 },
    /// Makes a View of the groups' places for the client of volume epoch `volume`.
    Refresh { volume: u32 },
    /// Lets the next group join.
    Grow,
}

/// An action of a client.
#[derive(Clone, Copy)]
pub enum ClientAction<'a> {
    /// Issues a transaction of 1 to 32 changes.
    Issue(&'a [Change]),
    /// Takes the message with this number.
    Take { message: u64 },
    /// Cuts: finds the log in the reports and makes the Installs.
    Cut,
    /// Opens: the recovery becomes a writer.
    Open,
    /// Sends the record with this LSN again.
    Resend { lsn: u64 },
    /// Requests a block's page at the durable point.
    Read { group: u8, block: u32 },
}

/// An actor and its action.
#[derive(Clone, Copy)]
pub enum ActorAction<'a> {
    /// The authority's action.
    Authority(AuthorityAction),
    /// A volume epoch, and an action of its client.
    Client(u32, ClientAction<'a>),
    /// A group and a member, and an action of their node.
    Node(u8, u8, NodeAction),
    /// A member's node takes the message with this number.
    Deliver { group: u8, member: u8, message: u64 },
}
