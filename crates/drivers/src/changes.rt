//! Reads the changes of a transaction.

ghost use Rattle.std.specs.Prelude.{◌≡◌};
ghost use Rattle.world.specs.Events.{event_of};
ghost use Rattle.writer_core.specs.Changes.{change_of, changes_of};
ghost use Rattle.drivers.specs.Grammar.{change_by, changes_in, issue_in};
ghost use Rattle.drivers.specs.Parts.{parts_left};
ghost use Rattle.drivers.specs.Reads.{ReadsBy};
ghost use Rattle.drivers.specs.Words.{fields_in};

use crate::parts::Parts;
use crate::payload::payload_of;
use crate::plain::plain_changes;
use std::alloc::Global;
use volume_model::Fault;
use world::Event;
use writer_core::{Change, MOST_CHANGES};

/// Reads `issue V G:B:O:HEX ..`, with at least one change.
pub fn issue(alloc: Global, mut words: Parts) -> Result<Event, Fault>
    requires { words.separator ≡ 32 }
    ensures { ReadsBy event_of (issue_in (parts_left words.entry)) result }
{
    let volume = words.take_block()?;
    if words.is_empty() {
        return Err(Fault::Malformed);
    }
    let changes = all_changes(alloc, words)?;
    Ok(Event::Issue { volume, changes })
}

/// Reads changes, one a word.
fn all_changes(alloc: Global, words: Parts) -> Result<Vec<Change>, Fault>
    requires { words.separator ≡ 32 }
    ensures { ReadsBy (λ v. changes_of v.items) (changes_in (parts_left words.entry)) result }
{
    if let Some(text) = words.rest() {
        let room = words.len().min(MOST_CHANGES);
        if let Some(changes) = plain_changes(alloc, text, room)? {
            return Ok(changes);
        }
    }
    each_change(alloc, words)
}

/// Reads changes word by word, for any form of them.
fn each_change(alloc: Global, mut words: Parts) -> Result<Vec<Change>, Fault>
    ensures { ReadsBy (λ v. changes_of v.items) (changes_in (parts_left words.entry)) result }
{
    let mut changes = Vec::new(alloc);
    while let Some(word) = words.take_first() {
        changes.push(change(alloc, word)?)?;
    }
    Ok(changes)
}

/// Reads `G:B:O:HEX`.
fn change(alloc: Global, word: &[u8]) -> Result<Change, Fault>
    ensures { ReadsBy change_of (change_by (fields_in word.now)) result }
{
    let mut fields = Parts::new(word, b':');
    let group = fields.take_id()?;
    let block = fields.take_block()?;
    let offset = fields.take_offset()?;
    let Some(bytes) = fields.rest() else {
        return Err(Fault::Malformed);
    };
    let bytes = payload_of(bytes)?;
    Ok(Change::new(alloc, group, block, offset, bytes.as_slice())?)
}
