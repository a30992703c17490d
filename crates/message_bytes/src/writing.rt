//! Appends encoded numbers, lineages and sets of records to a buffer.

ghost use Rattle.std.specs.Prelude.{◌≡◌, ◌<◌, ◌≤◌, ◌^◌, ◌+◌, ◌++◌, List, ℕ, drop, length, take, Ok, IfOk, OnOk};
ghost use Rattle.std.specs.Int.{w16, w32, w64, to_be_bytes};
ghost use Rattle.redo_record.specs.Common.{redo_of, shared_redo, spelled, decoded, left_of};
ghost use Rattle.lineage.specs.Entries.{entry_of, entries_of};
ghost use Rattle.wire.specs.Common.{contents_of};
ghost use Rattle.redo_record.specs.RecordSet as sets;
ghost use Rattle.lineage.specs.Lineage.{lineage_of};
ghost use Rattle.message_bytes.specs.Contents.{contents_at, lineage_at, set_at};
ghost use Rattle.message_bytes.specs.Spelling.{entry_spelled, entries_spelled, lineage_spelled, records_spelled, set_spelled, contents_head, contents_spelled, IsEntry, AreEntries, AreReadBack};

use lineage::{Entry, Lineage};
use redo_record::{Packet, Record, RecordSet, Records, SharedRecord};
use std::alloc::{AllocError, Global};
use volume_model::Fault;
use wire::Contents;

/// Appends a number as 2 bytes, big-endian.
pub fn put_u16(out: &mut Vec<u8>, number: u16) -> Result<(), AllocError>
    ensures text { OnOk result (out.new.items ≡ out.old.items ++ to_be_bytes w16 number) }
    ensures fits { number < 2 ^ 16 }
{
    out.extend_from_slice(&number.to_be_bytes())
}

/// Appends a number as 4 bytes, big-endian.
pub fn put_u32(out: &mut Vec<u8>, number: u32) -> Result<(), AllocError>
    ensures text { OnOk result (out.new.items ≡ out.old.items ++ to_be_bytes w32 number) }
    ensures fits { number < 2 ^ 32 }
{
    out.extend_from_slice(&number.to_be_bytes())
}

/// Appends a number as 8 bytes, big-endian.
pub fn put_u64(out: &mut Vec<u8>, number: u64) -> Result<(), AllocError>
    ensures text { OnOk result (out.new.items ≡ out.old.items ++ to_be_bytes w64 number) }
    ensures fits { number < 2 ^ 64 }
{
    out.extend_from_slice(&number.to_be_bytes())
}

/// Returns a length as a `u32`; `Full` if it doesn't fit.
pub fn count_of(len: usize) -> Result<u32, Fault>
    ensures is { IfOk result (λ count. count ≡ len) }
    ensures few { OnOk result (len < 2 ^ 32) }
{
    match u32::try_from(len) {
        Ok(count) => Ok(count),
        Err(_) => Err(Fault::Full),
    }
}

fn put_entry(out: &mut Vec<u8>, entry: Entry) -> Result<(), AllocError>
    ensures text { OnOk result (out.new.items ≡ out.old.items ++ entry_spelled (entry_of entry)) }
    ensures fits { IsEntry (entry_of entry) }
{
    put_u32(out, entry.volume_epoch)?;
    put_u64(out, entry.cut)?;
    put_u64(out, entry.start)?;
    Ok(())
}

fn put_entries(out: &mut Vec<u8>, entries: &[Entry]) -> Result<(), AllocError>
    ensures text { OnOk result (out.new.items ≡ out.old.items ++ entries_spelled (entries_of entries.now)) }
    ensures fits { OnOk result (AreEntries (entries_of entries.now)) }
{
    for entry in entries {
        put_entry(out, *entry)?;
    }
    Ok(())
}

/// Proves that the bytes of a record are read back as it. Does nothing when it runs.
fn reads_back(redo: &Record)
    ensures { decoded (spelled (redo_of redo.now)) ≡ Ok (redo_of redo.now) }
{
    let _volume = redo.volume_epoch;
    let _block = redo.block;
    let _written = redo.bytes.as_slice();
}

/// Proves that the bytes of records are read back as them. Does nothing when it runs.
fn read_back(set: &RecordSet)
    ensures { AreReadBack (sets.records_of set.now) }
{
    let mut left = set.records();
    while let Some(packet) = left.next() {
        reads_back(packet.record());
    }
}

/// Appends the bytes of a record.
fn put_record(out: &mut Vec<u8>, packet: &SharedRecord) -> Result<(), AllocError>
    ensures text { OnOk result (out.new.items ≡ out.old.items ++ spelled (shared_redo packet.now)) }
    ensures reads { OnOk result (decoded (spelled (shared_redo packet.now)) ≡ Ok (shared_redo packet.now)) }
{
    out.extend_from_slice(Packet::pack(packet.record()).as_bytes())
}

fn put_records(out: &mut Vec<u8>, set: &RecordSet) -> Result<(), AllocError>
    ensures text { OnOk result (out.new.items ≡ out.old.items ++ records_spelled (sets.records_of set.now)) }
{
    let mut left = set.records();
    while let Some(packet) = left.next() {
        put_record(out, packet)?;
    }
    Ok(())
}

/// Copies bytes into a buffer at a place, and leaves the other bytes as they are.
pub fn put_at(out: &mut [u8], at: usize, bytes: &[u8])
    requires { at + length bytes.now ≤ length out.old }
    ensures front { take (at + length bytes.now) out.new ≡ take at out.old ++ bytes.now }
    ensures back { drop (at + length bytes.now) out.new ≡ drop (at + length bytes.now) out.old }
{
    out[at..at + bytes.len()].copy_from_slice(bytes);
}

/// Writes the bytes of the first records, one after the other, to the front of a buffer: of as many as fit whole.
/// Returns how many records and how many bytes these are.
pub fn write_records(out: &mut [u8], mut left: Records<'_>) -> (usize, usize)
    ensures text { take result.1 out.new ≡ records_spelled (take result.0 (left_of left.entry)) }
    ensures back { drop result.1 out.new ≡ drop result.1 out.old }
    ensures records { result.0 ≤ length (left_of left.entry) }
    ensures bytes { result.1 ≤ length out.old }
{
    let mut count = 0;
    let mut end = 0;
    while let Some(packet) = left.next() {
        let packed = Packet::pack(packet.record());
        let bytes = packed.as_bytes();
        if out.len() - end < bytes.len() {
            return (count, end);
        }
        put_at(out, end, bytes);
        end += bytes.len();
        count += 1;
    }
    (count, end)
}

fn put_lineage(alloc: Global, out: &mut Vec<u8>, lineage: &Lineage) -> Result<(), Fault>
    ensures text { OnOk result (out.new.items ≡ out.old.items ++ lineage_spelled (lineage_of lineage.now)) }
    ensures reads { OnOk result ((rest : List ℕ) → lineage_at (lineage_spelled (lineage_of lineage.now) ++ rest)
        ≡ Ok (lineage_of lineage.now, rest)) }
{
    let entries = lineage.entries(alloc)?;
    let count = count_of(entries.len())?;
    put_u32(out, count)?;
    put_entries(out, &entries)?;
    Ok(())
}

/// Appends the number of records of a set, which is read back as the set with its records behind the number.
fn put_count(out: &mut Vec<u8>, set: &RecordSet) -> Result<(), Fault>
    ensures text { OnOk result (out.new.items ≡ out.old.items
        ++ to_be_bytes w32 (length (sets.records_of set.now))) }
    ensures reads { OnOk result ((rest : List ℕ) → set_at (set_spelled (sets.records_of set.now) ++ rest)
        ≡ Ok (sets.records_of set.now, rest)) }
{
    let count = count_of(set.len())?;
    put_u32(out, count)?;
    read_back(set);
    Ok(())
}

/// Appends what stands before the records in the spelling of contents: the lineage, and the number of records. With the
/// records behind it, it is read back as the contents.
///
/// # Errors
/// `Full` if there are more entries or records than four bytes can count, `NoMemory`; the text may have grown then.
pub fn put_contents_head(alloc: Global, out: &mut Vec<u8>, contents: &Contents) -> Result<(), Fault>
    ensures text { OnOk result (out.new.items ≡ out.old.items ++ contents_head (contents_of contents.now)) }
    ensures reads { OnOk result ((rest : List ℕ) → contents_at (contents_spelled (contents_of contents.now) ++ rest)
        ≡ Ok (contents_of contents.now, rest)) }
{
    put_lineage(alloc, out, &contents.lineage)?;
    put_count(out, &contents.records)?;
    Ok(())
}

/// Appends the canonical bytes of a lineage and a set of records.
///
/// # Errors
/// `Full` if there are more entries or records than a `u32` can count, `NoMemory` if memory runs out. The buffer may
/// have grown.
pub fn put_contents(alloc: Global, out: &mut Vec<u8>, contents: &Contents) -> Result<(), Fault>
    ensures text { OnOk result (out.new.items ≡ out.old.items ++ contents_spelled (contents_of contents.now)) }
    ensures reads { OnOk result ((rest : List ℕ) → contents_at (contents_spelled (contents_of contents.now) ++ rest)
        ≡ Ok (contents_of contents.now, rest)) }
{
    put_contents_head(alloc, out, contents)?;
    put_records(out, &contents.records)?;
    Ok(())
}
