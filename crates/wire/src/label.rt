//! Labels of messages, and places of groups.

/// The epochs of a message: the client's volume epoch, and the group's membership epoch as the client knows it.
#[derive(Clone, Copy, Debug, PartialEq, Eq)]
pub struct Label {
    /// The client's volume epoch.
    pub volume: u32,
    /// The group's membership epoch as the client knows it.
    pub member: u32,
}

/// A group's configuration and membership epoch.
#[derive(Clone, Copy, Debug, PartialEq, Eq)]
pub struct Place {
    /// The configuration's number.
    pub configuration: u8,
    /// The membership epoch of that configuration.
    pub epoch: u32,
}
