//! Copies in pieces, and prepared changes of them.

ghost use Rattle.std.specs.Prelude.{◌<◌};

use crate::change::Change;
use crate::pieces::Pieces;

/// The pieces kept of a member's copy.
#[derive(Drop)]
pub struct KeptCopy {
    /// The member.
    pub from: u8,
    /// The pieces.
    pub pieces: Pieces,
    pub ghost member: { from < 64 },
}

/// A prepared change of the collected copies. Applying it allocates nothing.
#[derive(Drop)]
pub enum Keeping {
    /// The first piece of a member's copy.
    New(KeptCopy),
    /// A change of the copy at this place.
    At(usize, Change),
}
