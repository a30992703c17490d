//! Pieces of one series, which are collected until all have come.

ghost use Rattle.std.specs.Prelude.{◌≡◌, true, map, IfOk, ◌<◌, Some, false, option_map};
ghost use Rattle.redo_record.specs.Common.{records_of, all_records};
ghost use Rattle.hydration.specs.Kept.{all_kept, are_once, marks_of, sets_kept};

use crate::change::Change;
use crate::kept::Kept;
use redo_record::RecordSet;
use std::alloc::{AllocError, Global};
use wire::Contents;

/// The pieces kept of one series. The series is the volume epoch of an install, or the number of a copy.
#[derive(Drop)]
pub struct Pieces {
    series: u64,
    of: u16,
    kept: Vec<Kept>,
    /// For each number, whether its piece is kept.
    marks: Vec<bool>,
    ghost once: { are_once of (all_kept kept.items) ≡ true },
    ghost marked: { marks.items ≡ marks_of of (all_kept kept.items) },
}

impl Pieces {
    ghost use Rattle.volume_model.specs.Common.{contents_in, first_piece, has_piece, is_bad_piece, is_complete, united, with_piece, with_series};
    ghost use Rattle.wire.specs.Common.{contents_of, piece_in};
    ghost use Rattle.hydration.specs.Pieces.{seen_pieces};
    ghost use Rattle.hydration.specs.Changes.{CanChange, changed};

    /// Makes a series with its first piece.
    ///
    /// # Errors
    /// `AllocError` if memory runs out.
    pub fn first(
        alloc: Global,
        series: u64,
        piece: u16,
        of: u16,
        contents: &Contents,
    ) -> Result<Pieces, AllocError>
        requires { piece < of }
        ensures { IfOk result (λ pieces. seen_pieces pieces ≡ first_piece series (piece_in piece of)
            (contents_of contents.now)) }
    {
        let mut marks = vec![in alloc; false; usize::from(of)]?;
        marks[usize::from(piece)] = true;
        let contents = contents.clone()?;
        let first = Kept {
            number: piece,
            contents,
        };
        Ok(Pieces {
            series,
            of,
            kept: vec![in alloc; first]?,
            marks,
        })
    }

    /// Returns the volume epoch of the install, or the number of the copy.
    pub fn series(&self) -> u64
        ensures { result ≡ (seen_pieces self.now).series }
    {
        self.series
    }

    /// Returns the number of pieces of the series.
    pub fn of(&self) -> u16
        ensures { result ≡ (seen_pieces self.now).of }
    {
        self.of
    }

    /// Returns the pieces that are kept, in the order in which they came.
    pub fn as_slice(&self) -> &[Kept]
        ensures { all_kept result.now ≡ (seen_pieces self.now).kept }
    {
        &self.kept
    }

    /// Returns whether the piece with this number is kept.
    pub fn has(&self, number: u16) -> bool
        ensures { result ≡ has_piece (seen_pieces self.now) number }
    {
        if number >= self.of {
            return false;
        }
        self.marks[usize::from(number)]
    }

    /// Returns whether all pieces are kept.
    pub fn is_complete(&self) -> bool
        ensures { result ≡ is_complete (seen_pieces self.now) }
    {
        self.kept.len() == usize::from(self.of)
    }

    /// Returns whether the piece can't belong to those kept: it isn't a valid piece, or those kept are of the same
    /// series with another number of pieces.
    pub fn is_bad(
        kept: Option<&Pieces>,
        series: u64,
        piece: u16,
        of: u16,
        contents: &Contents,
    ) -> bool
        ensures { result ≡ is_bad_piece (option_map (λ pieces. seen_pieces pieces.now) kept.entry) series
            (piece_in piece of) (contents_of contents.now) }
    {
        if !contents.is_piece(piece, of) {
            return true;
        }
        match kept {
            Some(pieces) => pieces.series == series && pieces.of != of,
            None => false,
        }
    }

    /// Prepares to keep a piece of this series: reserves room and copies the piece, unless it is kept already. The kept
    /// pieces are unchanged.
    ///
    /// # Errors
    /// `AllocError` if memory runs out.
    pub fn prepare(&mut self, piece: u16, contents: &Contents) -> Result<Change, AllocError>
        requires { piece < (seen_pieces self.old).of }
        ensures change { IfOk result (λ change. changed change (seen_pieces self.old)
            ≡ with_piece (seen_pieces self.old) (piece_in piece (seen_pieces self.old).of) (contents_of contents.now)) }
        ensures ready { IfOk result (CanChange self.new) }
        ensures same { seen_pieces self.new ≡ seen_pieces self.old }
    {
        if self.has(piece) {
            return Ok(Change::Nothing);
        }
        self.kept.reserve(1)?;
        Ok(Change::Append(Kept {
            number: piece,
            contents: contents.clone()?,
        }))
    }

    /// Prepares to keep a piece of a copy. A complete copy never changes; else a piece of a later series replaces the
    /// kept pieces, and one of an earlier series is ignored. The kept pieces are unchanged.
    ///
    /// # Errors
    /// `AllocError` if memory runs out.
    pub fn prepare_series(
        &mut self,
        alloc: Global,
        series: u64,
        piece: u16,
        of: u16,
        contents: &Contents,
    ) -> Result<Change, AllocError>
        requires { is_bad_piece (Some (seen_pieces self.old)) series (piece_in piece of) (contents_of contents.now)
            ≡ false }
        ensures change { IfOk result (λ change. changed change (seen_pieces self.old) ≡ with_series
            (seen_pieces self.old) series (piece_in piece of) (contents_of contents.now)) }
        ensures ready { IfOk result (CanChange self.new) }
        ensures same { seen_pieces self.new ≡ seen_pieces self.old }
    {
        if self.is_complete() {
            return Ok(Change::Nothing);
        }
        if self.series == series {
            return self.prepare(piece, contents);
        }
        if series < self.series {
            return Ok(Change::Nothing);
        }
        let pieces = Pieces::first(alloc, series, piece, of, contents)?;
        Ok(Change::Replace(pieces))
    }

    /// Makes the change that was prepared last. Allocates nothing.
    pub fn apply(&mut self, change: Change)
        requires { CanChange self.old change }
        ensures { seen_pieces self.new ≡ changed change (seen_pieces self.old) }
    {
        match change {
            Change::Nothing => {}
            Change::Append(kept) => {
                self.marks[usize::from(kept.number)] = true;
                self.kept.push(kept).unwrap();
            }
            Change::Replace(pieces) => *self = pieces,
        }
    }

    /// Returns whether all pieces are kept after the change.
    pub fn is_complete_with(&self, change: &Change) -> bool
        requires { CanChange self.now change.now }
        ensures { result ≡ is_complete (changed change.now (seen_pieces self.now)) }
    {
        match change {
            Change::Nothing => self.is_complete(),
            Change::Append(_) => self.kept.len() + 1 == usize::from(self.of),
            Change::Replace(pieces) => pieces.is_complete(),
        }
    }

    /// Returns the union of all kept pieces' records.
    ///
    /// # Errors
    /// `AllocError` if memory runs out.
    pub fn join(&self, alloc: Global) -> Result<RecordSet, AllocError>
        ensures { IfOk result (λ set. records_of set ≡ united (contents_in (seen_pieces self.now))) }
    {
        let parts = parts_of(alloc, &self.kept)?;
        joined(alloc, parts)
    }

    /// Returns the union of the records of all pieces that are kept after the change.
    ///
    /// # Errors
    /// `AllocError` if memory runs out.
    pub fn join_with(&self, alloc: Global, change: &Change) -> Result<RecordSet, AllocError>
        ensures { IfOk result
            (λ set. records_of set ≡ united (contents_in (changed change.now (seen_pieces self.now)))) }
    {
        match change {
            Change::Nothing => self.join(alloc),
            Change::Append(last) => {
                let mut parts = parts_of(alloc, &self.kept)?;
                parts.push(last.contents.records.clone()?)?;
                joined(alloc, parts)
            }
            Change::Replace(pieces) => pieces.join(alloc),
        }
    }
}

/// Returns the set of records of each piece.
fn parts_of(alloc: Global, all: &[Kept]) -> Result<Vec<RecordSet>, AllocError>
    ensures { IfOk result (λ parts. map records_of parts.items ≡ sets_kept all.now) }
{
    let mut parts = Vec::with_capacity(alloc, all.len())?;
    for kept in all {
        parts.push(kept.contents.records.clone()?)?;
    }
    Ok(parts)
}

/// Returns the union of the sets. Sorts them first, so that sets that don't overlap are joined in one pass.
fn joined(alloc: Global, mut parts: Vec<RecordSet>) -> Result<RecordSet, AllocError>
    ensures { IfOk result (λ set. records_of set ≡ all_records (map records_of parts.items)) }
{
    parts.sort_unstable_by_key(|part| first_lsn(part));
    RecordSet::join(alloc, &parts)
}

/// Returns the least LSN of a set, 0 if it has no record.
fn first_lsn(set: &RecordSet) -> u64 {
    match set.first() {
        Some(packet) => packet.lsn(),
        None => 0,
    }
}
