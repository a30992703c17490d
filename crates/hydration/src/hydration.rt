//! Collects copies until their senders are a read quorum.

ghost use Rattle.std.specs.Prelude.{◌≡◌, ◌<◌, [], false, Err, Ok, Some, None, IfOk, IsSome, OnErr, option_map};
ghost use Rattle.std.specs.FinSet as set;
ghost use Rattle.volume_model.specs.Common.{Answers, Gives, finished, copied_by, pieces_from};
ghost use Rattle.volume_model.specs.declared.fault.Fault.TheVariants.{NoMemory};
ghost use Rattle.quorum_expr.specs.Common.{formula_of};
ghost use Rattle.hydration.specs.Pieces.{seen_pieces};
ghost use Rattle.hydration.specs.Hydration.{copies_of, first_kept, is_bad, just, kept_after, kept_at, kept_by, place_of, state_of, CanChangeAt, CanKeep, HasRoom};

use crate::brought::{copied_by, copied_in, newest_copied};
use crate::change::Change;
use crate::copied::HydratedState;
use crate::kept_copy::{Keeping, KeptCopy};
use crate::pieces::Pieces;
use quorum_expr::{Expr, MEMBERS, MemberSet, holds};
use std::alloc::{AllocError, Global};
use volume_model::Fault;
use wire::{Contents, CopyReport};

/// Copies of members' segments, in pieces. One series is kept of each member.
#[derive(Drop)]
pub struct Hydration {
    alloc: Global,
    copies: Vec<KeptCopy>,
}

impl Hydration {
    /// Makes a hydration without copies.
    pub fn new(alloc: Global) -> Hydration
        ensures { copies_of result ≡ [] }
    {
        Hydration {
            alloc,
            copies: Vec::new(alloc),
        }
    }

    /// Returns the members whose copy is complete.
    pub fn senders(&self) -> MemberSet
        ensures { set.contains result ≡ copied_by (copies_of self.now) }
    {
        copied_by(&self.copies)
    }

    /// Returns the place of a member's copy, or `None` if no piece of it is kept.
    fn place(&self, from: u8) -> Option<usize>
        ensures { result ≡ place_of (copies_of self.now) from }
    {
        for (place, copy) in self.copies.iter().enumerate() {
            if copy.from == from {
                return Some(place);
            }
        }
        None
    }

    /// Returns the pieces kept of a member's copy, or `None` if there is none.
    fn pieces_from(&self, from: u8) -> Option<&Pieces>
        ensures { option_map (λ pieces. seen_pieces pieces.now) result ≡ pieces_from (copies_of self.now) from }
    {
        let place = self.place(from)?;
        Some(&self.copies[place].pieces)
    }

    /// Prepares to keep the first piece of a member: reserves room and copies the piece.
    fn prepare_new(&mut self, report: &CopyReport) -> Result<KeptCopy, AllocError>
        requires member { report.now.from < 64 }
        requires piece { report.now.piece < report.now.of }
        ensures copy { IfOk result (first_kept report.now) }
        ensures room { IfOk result (λ kept_copy. HasRoom self.new) }
        ensures same { copies_of self.new ≡ copies_of self.old }
    {
        self.copies.reserve(1)?;
        let pieces = Pieces::first(
            self.alloc,
            report.part.series,
            report.piece,
            report.of,
            &report.part.contents,
        )?;
        Ok(KeptCopy {
            from: report.from,
            pieces,
        })
    }

    /// Prepares to keep a piece of the member whose copy is at this place.
    fn prepare_at(&mut self, place: usize, report: &CopyReport) -> Result<Change, AllocError>
        requires place { place_of (copies_of self.old) report.now.from ≡ Some place }
        requires piece { is_bad report.now (copies_of self.old) ≡ false }
        ensures copy { IfOk result (kept_at place report.now (copies_of self.old)) }
        ensures ready { IfOk result (CanChangeAt self.new place) }
        ensures same { copies_of self.new ≡ copies_of self.old }
    {
        let alloc = self.alloc;
        let pieces = &mut self.copies[place].pieces;
        pieces.prepare_series(
            alloc,
            report.part.series,
            report.piece,
            report.of,
            &report.part.contents,
        )
    }

    /// Prepares to keep a piece of a copy: reserves room and copies the piece. The kept pieces are unchanged.
    ///
    /// # Errors
    /// `NotAddressed` if the sender isn't a member (below 64); `BadPiece` if the piece can't belong to those kept of
    /// the sender; else `NoMemory` if memory runs out.
    pub fn prepare(&mut self, report: &CopyReport) -> Result<Keeping, Fault>
        ensures copy { Answers kept_by (kept_after report.now (copies_of self.old)) (copies_of self.old) result
            (copies_of self.old) }
        ensures ready { IfOk result (CanKeep self.new) }
        ensures same { copies_of self.new ≡ copies_of self.old }
    {
        if report.from >= MEMBERS {
            return Err(Fault::NotAddressed);
        }
        let kept = self.pieces_from(report.from);
        if Pieces::is_bad(
            kept,
            report.part.series,
            report.piece,
            report.of,
            &report.part.contents,
        ) {
            return Err(Fault::BadPiece);
        }
        match self.place(report.from) {
            Some(place) => Ok(Keeping::At(place, self.prepare_at(place, report)?)),
            None => Ok(Keeping::New(self.prepare_new(report)?)),
        }
    }

    /// Keeps the piece that was prepared last. Allocates nothing.
    pub fn keep(&mut self, keeping: Keeping)
        requires { CanKeep self.old keeping }
        ensures { copies_of self.new ≡ kept_by keeping (copies_of self.old) }
    {
        match keeping {
            Keeping::New(kept_copy) => self.copies.push(kept_copy).unwrap(),
            Keeping::At(place, change) => self.copies[place].pieces.apply(change),
        }
    }

    /// Keeps a piece of a copy. Of each member one series is kept, and the first piece with each number.
    ///
    /// # Errors
    /// Those of [`Hydration::prepare`]. The kept pieces are unchanged.
    pub fn take(&mut self, report: &CopyReport) -> Result<(), Fault>
        ensures { Answers just (kept_after report.now (copies_of self.old)) (copies_of self.old) result
            (copies_of self.new) }
    {
        let keeping = self.prepare(report)?;
        self.keep(keeping);
        Ok(())
    }

    /// Drops all copies.
    pub fn clear(&mut self)
        ensures { copies_of self.new ≡ [] }
    {
        self.copies.clear();
    }

    /// Returns the state that the complete copies give, or `None` if their senders aren't a read quorum.
    ///
    /// # Errors
    /// `NoMemory` if memory runs out.
    pub fn finish(&self, alloc: Global, read: &Expr<Global>) -> Result<Option<HydratedState>, Fault>
        ensures state { Gives (option_map state_of) result (Ok (finished (formula_of read.now) (copies_of self.now))) }
        ensures memory { OnErr result (result ≡ Err NoMemory) }
        ensures enough { OnErr result (IsSome (finished (formula_of read.now) (copies_of self.now))) }
    {
        if !holds(read, self.senders()) {
            return Ok(None);
        }
        let copies = self.copies.as_slice();
        let lineage = newest_copied(alloc, copies)?;
        let records = copied_in(alloc, &lineage, copies)?;
        Ok(Some(HydratedState {
            volume: lineage.last_epoch(),
            contents: Contents { lineage, records },
        }))
    }
}
