//! The state of an authority that survives a restart.

/// The state of an authority that survives a restart: all of it except the plan.
#[derive(Drop)]
pub struct AuthoritySnapshot {
    /// The last volume epoch that the authority has assigned.
    pub last_volume: u32,
    /// The present configuration of each group that has joined.
    pub configurations: Vec<u8>,
}
