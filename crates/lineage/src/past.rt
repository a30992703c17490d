//! The entries of a lineage before its last.

ghost use Rattle.std.specs.Prelude.{◌≡◌, [], ◌∷◌, ◌++◌, IfOk, OnOk};
ghost use Rattle.lineage.specs.Entries.{entry_of, entries_of, entries_before, entries_from, entries_left};

use crate::entry::Entry;
use crate::shared_chunks::SharedChunks;
use std::alloc::{AllocError, Global};
use std::sync::Arc;

/// The most entries in a chunk.
const MOST_ENTRIES: usize = 16;

/// The entries before the last, oldest first.
#[derive(Drop)]
pub struct Past {
    /// All entries but the recent ones, in shared chunks.
    chunks: SharedChunks,
    recent: Vec<Entry>,
}

/// The entries of a past that weren't read yet. They are read newest first.
#[derive(Clone, Copy)]
pub struct OlderEntries<'a> {
    chunks: &'a [Arc<Vec<Entry>>],
    recent: &'a [Entry],
}

impl<'a> OlderEntries<'a> {
    /// Makes a reader of no entries.
    pub fn none() -> OlderEntries<'a>
        ensures { entries_left result ≡ [] }
    {
        OlderEntries {
            chunks: &[],
            recent: &[],
        }
    }

    /// Reads the next older entry; `None` at the end.
    pub fn next(&mut self) -> Option<Entry>
        ensures { entries_left self.old ≡ entries_from result (entries_left self.new) }
    {
        while self.recent.is_empty() {
            match self.chunks {
                [] => return None,
                [older @ .., chunk] => {
                    self.recent = chunk.as_slice();
                    self.chunks = older;
                }
            }
        }
        let (older, last) = self.recent.split_at(self.recent.len() - 1);
        self.recent = older;
        Some(last[0])
    }
}

/// Returns these entries and one more, in a list without spare capacity.
fn with_last(alloc: Global, entries: &[Entry], last: Entry) -> Result<Vec<Entry>, AllocError>
    ensures { IfOk result (λ list. list.items ≡ entries.now ++ last ∷ []) }
{
    let mut list = Vec::with_capacity(alloc, entries.len().saturating_add(1))?;
    list.extend_from_slice(entries)?;
    list.push(last)?;
    Ok(list)
}

impl Past {
    /// Makes a past without entries.
    pub fn empty(alloc: Global) -> Past
        ensures { entries_before result ≡ [] }
    {
        Past {
            chunks: SharedChunks::none(),
            recent: Vec::new(alloc),
        }
    }

    /// Reads the entries, newest first.
    pub fn newest_first(&self) -> OlderEntries<'_>
        ensures { entries_left result ≡ entries_before self.now }
    {
        OlderEntries {
            chunks: self.chunks.as_slice(),
            recent: &self.recent,
        }
    }

    /// Appends the entries to a list, oldest first. Fails only with `NoMemory`.
    pub fn append_to(&self, list: &mut Vec<Entry>) -> Result<(), AllocError>
        ensures { OnOk result (entries_of list.new.items ≡ entries_before self.now ++ entries_of list.old.items) }
    {
        for chunk in self.chunks.as_slice() {
            list.extend_from_slice(chunk)?;
        }
        list.extend_from_slice(&self.recent)?;
        Ok(())
    }

    /// Returns the past with one more entry. Fails only with `NoMemory`.
    pub fn with(&self, alloc: Global, entry: Entry) -> Result<Past, AllocError>
        ensures { IfOk result (λ past. entries_before past ≡ entry_of entry ∷ entries_before self.now) }
    {
        if self.recent.len() < MOST_ENTRIES {
            let chunks = self.chunks.clone()?;
            let recent = with_last(alloc, &self.recent, entry)?;
            return Ok(Past { chunks, recent });
        }
        let chunks = self.chunks.with(alloc, self.recent.clone()?)?;
        let recent = with_last(alloc, &[], entry)?;
        Ok(Past { chunks, recent })
    }
}
