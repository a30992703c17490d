//! Reports that are kept, and the state of a hydrated node.

ghost use Rattle.std.specs.Prelude.{◌<◌};

use std::sync::Arc;
use wire::Contents;

/// A report that was kept: what a member says that it holds.
#[derive(Drop)]
pub struct Copied {
    /// The member.
    pub from: u8,
    /// What the member holds, shared with the report.
    pub contents: Arc<Contents>,
    pub ghost member: { from < 64 },
}

/// The state of a node that becomes whole.
#[derive(Drop)]
pub struct HydratedState {
    /// The volume epoch of the lineage's last entry.
    pub volume: u32,
    /// The newest lineage, and the records that are live in it.
    pub contents: Contents,
}
