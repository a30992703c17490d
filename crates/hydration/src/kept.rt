//! Kept pieces.

ghost use Rattle.std.specs.Prelude.{◌≡◌};
ghost use Rattle.hydration.specs.Kept.{kept_of};

use std::alloc::AllocError;
use wire::Contents;

/// A piece that is kept.
#[derive(Drop)]
pub struct Kept {
    /// The piece's number, from 0.
    pub number: u16,
    /// The piece's contents.
    pub contents: Contents,
}

impl Clone for Kept {
    ghost is_clone = { λ kept copy. kept_of copy ≡ kept_of kept };

    fn clone(&self) -> Result<Kept, AllocError> {
        Ok(Kept {
            number: self.number,
            contents: self.contents.clone()?,
        })
    }
}
