//! Decodes lineages and sets of records.

ghost use Rattle.std.specs.Prelude.{◌≡◌, [], ◌∷◌, ◌++◌, IsTrue};
ghost use Rattle.volume_model.specs.Common.{Gives};
ghost use Rattle.redo_record.specs.Common.{IsInOrder, shared_redo};
ghost use Rattle.redo_record.specs.RecordSet as sets;
ghost use Rattle.lineage.specs.Entries.{entry_of};
ghost use Rattle.lineage.specs.Lineage.{lineage_of};
ghost use Rattle.wire.specs.Common.{contents_of};
ghost use Rattle.message_bytes.specs.Contents.{redo_at, entry_at, with_entry, entries_at, is_next, with_next, records_at, lineage_at, set_at, contents_at};

use crate::numbers::{u32_at, u64_at};
use lineage::{Entry, Lineage};
use redo_record::{RecordSet, SharedRecord, decode};
use std::alloc::Global;
use volume_model::Fault;
use wire::Contents;

/// The bytes of a record's fixed-size fields, which come before the bytes that it writes.
const HEAD_BYTES: usize = 45;

/// Decodes a record. Its length is in its last fixed-size field.
#[tactic(auto, unfolding(crate::specs::Contents::redo_at))]
pub fn packet_of(alloc: Global, bytes: &[u8]) -> Result<(SharedRecord, &[u8]), Fault>
    ensures { Gives (λ x. (shared_redo x.0, x.1.now)) result (redo_at bytes.now) }
{
    if bytes.len() < HEAD_BYTES {
        return Err(Fault::Short);
    }
    let count = HEAD_BYTES + usize::from(bytes[44]);
    if bytes.len() < count {
        return Err(Fault::Short);
    }
    let (text, rest) = bytes.split_at(count);
    let record = decode(text)?;
    Ok((SharedRecord::pack(alloc, record)?, rest))
}

#[tactic(auto, unfolding(crate::specs::Contents::entry_at))]
fn read_entry(bytes: &[u8]) -> Result<(Entry, &[u8]), Fault>
    ensures { Gives (λ x. (entry_of x.0, x.1.now)) result (entry_at bytes.now) }
{
    let (volume_epoch, rest) = u32_at(bytes)?;
    let (cut, rest) = u64_at(rest)?;
    let (start, rest) = u64_at(rest)?;
    let entry = Entry {
        volume_epoch,
        cut,
        start,
    };
    Ok((entry, rest))
}

/// Returns a lineage with one more entry.
fn added(lineage: &Lineage, entry: Entry) -> Result<Lineage, Fault>
    ensures { Gives lineage_of result (with_entry (lineage_of lineage.now) (entry_of entry)) }
{
    lineage.added(entry)
}

/// Decodes `count` entries, oldest first.
fn read_entries(alloc: Global, count: u32, bytes: &[u8]) -> Result<(Lineage, &[u8]), Fault>
    ensures { Gives (λ x. (lineage_of x.0, x.1.now)) result (entries_at count [] bytes.now) }
{
    let mut lineage = Lineage::empty(alloc);
    let mut rest = bytes;
    for _ in 0..count {
        let (entry, after) = read_entry(rest)?;
        lineage = added(&lineage, entry)?;
        rest = after;
    }
    Ok((lineage, rest))
}

/// Returns whether a record comes after the last of a set.
fn comes_next(set: &RecordSet, packet: &SharedRecord) -> bool
    ensures is { result ≡ is_next (sets.records_of set.now) (shared_redo packet.now) }
    ensures in_order { IsTrue result → IsInOrder (sets.records_of set.now ++ shared_redo packet.now ∷ []) }
{
    match set.last() {
        Some(last) => last.is_before(packet),
        None => true,
    }
}

/// Returns a set with one more record, or `BadField` if the record doesn't come after the last one.
fn pushed(mut set: RecordSet, packet: SharedRecord) -> Result<RecordSet, Fault>
    ensures { Gives sets.records_of result (with_next (sets.records_of set) (shared_redo packet)) }
{
    if !comes_next(&set, &packet) {
        return Err(Fault::BadField);
    }
    set.push(packet)?;
    Ok(set)
}

/// Decodes `count` records, in order.
fn read_records(alloc: Global, count: u32, bytes: &[u8]) -> Result<(RecordSet, &[u8]), Fault>
    ensures { Gives (λ x. (sets.records_of x.0, x.1.now)) result (records_at count [] bytes.now) }
{
    let mut set = RecordSet::new(alloc);
    let mut rest = bytes;
    for _ in 0..count {
        let (packet, after) = packet_of(alloc, rest)?;
        set = pushed(set, packet)?;
        rest = after;
    }
    set.share()?;
    Ok((set, rest))
}

#[tactic(auto, unfolding(crate::specs::Contents::lineage_at))]
fn read_lineage(alloc: Global, bytes: &[u8]) -> Result<(Lineage, &[u8]), Fault>
    ensures { Gives (λ x. (lineage_of x.0, x.1.now)) result (lineage_at bytes.now) }
{
    let (count, rest) = u32_at(bytes)?;
    read_entries(alloc, count, rest)
}

#[tactic(auto, unfolding(crate::specs::Contents::set_at))]
fn read_set(alloc: Global, bytes: &[u8]) -> Result<(RecordSet, &[u8]), Fault>
    ensures { Gives (λ x. (sets.records_of x.0, x.1.now)) result (set_at bytes.now) }
{
    let (count, rest) = u32_at(bytes)?;
    read_records(alloc, count, rest)
}

/// Decodes a lineage and a set of records. Returns them with the bytes left.
///
/// # Errors
/// `Short` or `BadField`, whichever comes first from left to right; `NoMemory` if memory runs out.
#[tactic(auto, unfolding(crate::specs::Contents::contents_at))]
pub fn read_contents(alloc: Global, bytes: &[u8]) -> Result<(Contents, &[u8]), Fault>
    ensures { Gives (λ x. (contents_of x.0, x.1.now)) result (contents_at bytes.now) }
{
    let (lineage, rest) = read_lineage(alloc, bytes)?;
    let (records, rest) = read_set(alloc, rest)?;
    Ok((Contents { lineage, records }, rest))
}
