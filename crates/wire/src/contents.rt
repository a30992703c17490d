//! The contents of a segment.

ghost use Rattle.std.specs.Prelude.{◌≡◌, length, IfOk};
ghost use Rattle.volume_model.specs.Common.{in_group, is_piece, piece_of, pieces_of};
ghost use Rattle.wire.specs.Contents.{contents_of, piece_in};

use lineage::Lineage;
use redo_record::{MOST_IN_PIECE, RecordSet};
use std::alloc::AllocError;

/// The most pieces of contents.
pub const MOST_PIECES: u16 = 4096;

/// What a segment holds, what a report says that it holds, or what an Install replaces it with.
#[derive(Drop)]
pub struct Contents {
    /// The lineage.
    pub lineage: Lineage,
    /// The records.
    pub records: RecordSet,
}

impl Contents {
    /// Returns whether all records are of the group.
    pub fn is_of(&self, group: u8) -> bool
        ensures { result ≡ in_group group (contents_of self.now) }
    {
        self.records.is_of(group)
    }

    /// Returns the number of pieces of at most 256 records; at least one.
    pub fn pieces(&self) -> usize
        ensures { result ≡ pieces_of (length (contents_of self.now).records) }
    {
        self.records.pieces()
    }

    /// Returns the piece with this number, from 0. Fails only with `NoMemory`.
    pub fn piece(&self, number: usize) -> Result<Contents, AllocError>
        ensures { IfOk result (λ piece. contents_of piece ≡ piece_of (contents_of self.now) number) }
    {
        let lineage = self.lineage.clone()?;
        Ok(Contents {
            lineage,
            records: self.records.piece(number)?,
        })
    }

    /// Returns whether this can be piece `piece` of `of`: `of` is 1 to 4,096, `piece` is less, and there are at most
    /// 256 records.
    pub fn is_piece(&self, piece: u16, of: u16) -> bool
        ensures { result ≡ is_piece (piece_in piece of) (contents_of self.now) }
    {
        piece < of && of <= MOST_PIECES && self.records.len() <= MOST_IN_PIECE
    }
}

impl Clone for Contents {
    ghost is_clone = { λ contents copy. contents_of copy ≡ contents_of contents };

    fn clone(&self) -> Result<Contents, AllocError> {
        Ok(Contents {
            lineage: self.lineage.clone()?,
            records: self.records.clone()?,
        })
    }
}
