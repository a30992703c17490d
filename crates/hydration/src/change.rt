//! Prepared changes of the kept pieces.

use crate::kept::Kept;
use crate::pieces::Pieces;

/// A prepared change of the kept pieces. Applying it allocates nothing.
#[derive(Drop)]
pub enum Change {
    /// The pieces stay as they are.
    Nothing,
    /// One more piece is kept.
    Append(Kept),
    /// The pieces of another series replace the kept ones.
    Replace(Pieces),
}
