//! The recoveries that a volume went through.

ghost use Rattle.std.specs.Prelude.{◌≡◌, true, ◌<◌, ◌≤◌, [], ◌∷◌, not, Ok, IfOk};
ghost use Rattle.lineage.specs.Entries.{entries_with, is_lineage};

use crate::entry::Entry;
use crate::live::Walk;
use crate::past::{OlderEntries, Past};
use redo_record::LAST_LSN;
use std::alloc::{AllocError, Global};
use std::sync::Arc;
use volume_model::Fault;

/// The entries of a volume's recoveries. Volume epochs and starts grow. Clones and extended lineages share the entries.
#[derive(Drop)]
pub struct Lineage {
    alloc: Global,
    last: Option<Entry>,
    /// The entries before the last one, if there are any.
    before: Option<Arc<Past>>,
    ghost growing: { is_lineage (entries_with last before) ≡ true },
}

impl Lineage {
    ghost use Rattle.volume_model.specs.Common.{refuse_if, AnswersNew, birth, extension, is_live, last_cut, last_epoch, last_start, newer};
    ghost use Rattle.volume_model.specs.declared.fault.Fault.TheVariants.{BadField};
    ghost use Rattle.lineage.specs.Entries.{entries_from, entries_left, entries_of, entry_of, kept_before};
    ghost use Rattle.lineage.specs.Lineage.{lineage_of};
    ghost use Rattle.lineage.specs.Walk.{Walks};

    /// Makes a lineage without entries, which a segment has before it is whole.
    pub fn empty(alloc: Global) -> Lineage
        ensures { lineage_of result ≡ [] }
    {
        Lineage {
            alloc,
            last: None,
            before: None,
        }
    }

    /// Returns the lineage that a volume is born with. Fails only with `NoMemory`.
    pub fn birth(alloc: Global) -> Result<Lineage, AllocError>
        ensures { IfOk result (λ lineage. lineage_of lineage ≡ birth) }
    {
        let first = Entry {
            volume_epoch: 1,
            cut: 0,
            start: 0,
        };
        Lineage::empty(alloc).with(first)
    }

    /// Returns the volume epoch of the last entry, 0 if there is none.
    pub fn last_epoch(&self) -> u32
        ensures { result ≡ last_epoch (lineage_of self.now) }
    {
        match &self.last {
            Some(entry) => entry.volume_epoch,
            None => 0,
        }
    }

    /// Returns the cut of the last entry, 0 if there is none.
    pub fn last_cut(&self) -> u64
        ensures { result ≡ last_cut (lineage_of self.now) }
    {
        match &self.last {
            Some(entry) => entry.cut,
            None => 0,
        }
    }

    /// Returns the start of the last entry, 0 if there is none.
    pub fn last_start(&self) -> u64
        ensures { result ≡ last_start (lineage_of self.now) }
    {
        match &self.last {
            Some(entry) => entry.start,
            None => 0,
        }
    }

    /// Returns whether a record with this volume epoch and LSN is live: the epoch has an entry, the LSN is above its
    /// start, and no later entry's cut is below the LSN.
    pub fn is_live(&self, volume_epoch: u32, lsn: u64) -> bool
        ensures { result ≡ is_live (lineage_of self.now) volume_epoch lsn }
    {
        let mut walk = self.walk();
        while let Some(entry) = walk.entry {
            if entry.volume_epoch == volume_epoch {
                return entry.start < lsn;
            }
            if entry.cut < lsn {
                return false;
            }
            walk.entry = walk.older.next();
        }
        false
    }

    /// Begins a walk over the entries, newest first.
    pub(crate) fn walk(&self) -> Walk<'_>
        ensures all { entries_from result.entry (entries_left result.older) ≡ lineage_of self.now }
        ensures walks { Walks (lineage_of self.now) result }
    {
        let older = match &self.before {
            Some(past) => past.newest_first(),
            None => OlderEntries::none(),
        };
        Walk {
            entry: self.last,
            limit: u64::MAX,
            older,
        }
    }

    /// Returns the newer of two lineages: the one whose last epoch is greater, or this one if both have the same.
    pub fn newer<'a>(&'a self, other: &'a Lineage) -> &'a Lineage
        ensures { lineage_of result.now ≡ newer (lineage_of self.now) (lineage_of other.now) }
    {
        if self.last_epoch() < other.last_epoch() {
            other
        } else {
            self
        }
    }

    /// Returns all entries as the past of one more entry. Fails only with `NoMemory`.
    fn all(&self) -> Result<Option<Arc<Past>>, AllocError>
        ensures { IfOk result (λ before. kept_before before ≡ lineage_of self.now) }
    {
        let Some(last) = self.last else {
            return Ok(None);
        };
        let past = match &self.before {
            Some(past) => past.with(self.alloc, last)?,
            None => Past::empty(self.alloc).with(self.alloc, last)?,
        };
        Ok(Some(Arc::new(self.alloc, past)?))
    }

    /// Returns the lineage with one more entry. Fails only with `NoMemory`.
    fn with(&self, entry: Entry) -> Result<Lineage, AllocError>
        requires { is_lineage (entry_of entry ∷ lineage_of self.now) ≡ true }
        ensures { IfOk result (λ lineage. lineage_of lineage ≡ entry_of entry ∷ lineage_of self.now) }
    {
        Ok(Lineage {
            alloc: self.alloc,
            last: Some(entry),
            before: self.all()?,
        })
    }

    /// Returns the lineage with one more entry, after checking it.
    ///
    /// # Errors
    /// `BadField` if the entry can't follow the last one (its volume epoch or start isn't greater, or its cut is above
    /// its start); `NoMemory` if memory runs out.
    pub fn added(&self, entry: Entry) -> Result<Lineage, Fault>
        ensures { AnswersNew lineage_of (refuse_if (not (is_lineage (entry_of entry ∷ lineage_of self.now))) BadField
            (Ok (entry_of entry ∷ lineage_of self.now))) result }
    {
        let later = match &self.last {
            Some(last) => last.volume_epoch < entry.volume_epoch && last.start < entry.start,
            None => 0 < entry.volume_epoch,
        };
        if !later || entry.start < entry.cut {
            return Err(Fault::BadField);
        }
        Ok(self.with(entry)?)
    }

    /// Returns all entries, oldest first.
    ///
    /// # Errors
    /// Fails only if memory runs out.
    pub fn entries(&self, alloc: Global) -> Result<Vec<Entry>, AllocError>
        ensures { IfOk result (λ list. entries_of list.items ≡ lineage_of self.now) }
    {
        let mut list = Vec::new(alloc);
        let Some(last) = self.last else {
            return Ok(list);
        };
        if let Some(past) = &self.before {
            past.append_to(&mut list)?;
        }
        list.push(last)?;
        Ok(list)
    }

    /// Returns the lineage with the entry that a recovery of a later volume epoch adds. The recovery's own LSNs begin
    /// `lal` above all LSNs that its log can have. `LsnSpent` if they would begin above the greatest LSN; else
    /// `NoMemory` if memory runs out.
    pub fn extend(&self, volume_epoch: u32, cut: u64, lal: u64) -> Result<Lineage, Fault>
        requires later { last_epoch (lineage_of self.now) < volume_epoch }
        requires allowance { 1 ≤ lal }
        ensures { AnswersNew lineage_of (extension (lineage_of self.now) volume_epoch cut lal) result }
    {
        let Some(start) = cut.max(self.last_start()).checked_add(lal) else {
            return Err(Fault::LsnSpent);
        };
        if start > LAST_LSN {
            return Err(Fault::LsnSpent);
        }
        let entry = Entry {
            volume_epoch,
            cut,
            start,
        };
        Ok(self.with(entry)?)
    }
}

impl Clone for Lineage {
    ghost use Rattle.lineage.specs.Lineage.{lineage_of};

    ghost is_clone = { λ lineage copy. lineage_of copy ≡ lineage_of lineage };

    fn clone(&self) -> Result<Lineage, AllocError> {
        Ok(Lineage {
            alloc: self.alloc,
            last: self.last,
            before: self.before.clone()?,
        })
    }
}
