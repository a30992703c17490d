//! What a replacement of a member is.

/// A member of a group is replaced by a new one, in steps from a configuration.
#[derive(Clone, Copy, Debug)]
pub struct Replacement {
    /// The number of the group.
    pub group: u8,
    /// The number of the configuration that is left.
    pub configuration: u8,
    /// The member that goes.
    pub old: u8,
    /// The member that comes in its place.
    pub new: u8,
    /// Whether the new member keeps the log alone. Otherwise it is full if the old one is.
    pub is_tail: bool,
    /// Whether the only step is the one to the new membership. Otherwise the first step leads to a joint configuration,
    /// and from there one step leads to the new membership and another one back to the old.
    pub is_direct: bool,
}
