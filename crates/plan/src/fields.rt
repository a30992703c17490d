//! The nodes at the keys of a plan's objects.

use crate::formats::Format;

/// The nodes of a configuration.
#[derive(Drop)]
pub struct Fields<N> {
    pub parent: N,
    pub members: N,
    pub full: N,
    pub read: N,
    pub write: N,
    pub meets: N,
    pub step: N,
}

/// The format of a plan, and the nodes at its other keys.
#[derive(Drop)]
pub struct TopFields<N> {
    pub format: Format,
    pub lal: N,
    /// The number of groups at birth, if the format has it.
    pub born: Option<N>,
    pub groups: N,
}

/// The head of a plan, and the array of its groups.
#[derive(Drop)]
pub struct Header<N> {
    pub format: Format,
    /// How far LSNs may run ahead of the durable point.
    pub lal: u64,
    /// The number of groups at birth.
    pub born: u8,
    pub groups: N,
}
