//! The bytes of snapshots.

ghost use Rattle.std.specs.Prelude.{◌≡◌, ◌++◌, Ok, IfErr, IfOk};
ghost use Rattle.volume_model.specs.Common.{Gives};
ghost use Rattle.volume_model.specs.declared.fault.Fault.TheVariants.{NoMemory};
ghost use Rattle.epochs.specs.Authority.{authority_of};
ghost use Rattle.epochs.specs.Snapshot.{authority_in as snapshot_authority};
ghost use Rattle.message_bytes.specs.Spelling.{records_spelled};
ghost use Rattle.segment_core.specs.Snapshot.{node_in};
ghost use Rattle.volume_c.specs.Saved.{head_at, flag_at, segment_in, segment_spelled, authority_in, authority_spelled};

use epochs::{Authority, AuthoritySnapshot};
use message_bytes::{
    put_contents_head, put_place, put_u32, put_u64, read_contents, read_place, u8_at, u32_at,
    u64_at,
};
use segment_core::SegmentSnapshot;
use std::alloc::Global;
use std::sync::Arc;
use volume_model::Fault;

/// The version of these bytes.
const VERSION: u8 = 1;

/// The kind of a segment's snapshot.
const SEGMENT: u8 = 129;

/// The kind of an authority's snapshot.
const AUTHORITY: u8 = 130;

/// Reads the version and a kind, which must be this one.
#[tactic(auto, unfolding(crate::specs::Saved::head_at))]
fn read_head(wanted: u8, bytes: &[u8]) -> Result<(u8, &[u8]), Fault>
    ensures { Gives (λ x. (x.0, x.1.now)) result (head_at wanted bytes.now) }
{
    let (version, rest) = u8_at(bytes)?;
    let (kind, rest) = u8_at(rest)?;
    if version != VERSION {
        return Err(Fault::BadField);
    }
    if kind != wanted {
        return Err(Fault::BadField);
    }
    Ok((kind, rest))
}

/// Reads a truth value, which is 0 or 1.
#[tactic(auto, unfolding(crate::specs::Saved::flag_at))]
fn read_flag(bytes: &[u8]) -> Result<(bool, &[u8]), Fault>
    ensures { Gives (λ x. (x.0, x.1.now)) result (flag_at bytes.now) }
{
    let (byte, rest) = u8_at(bytes)?;
    if byte > 1 {
        return Err(Fault::BadField);
    }
    Ok((byte == 1, rest))
}

/// Reads a segment's snapshot. A length in the bytes reserves no memory for elements that don't follow.
///
/// # Errors
/// `Short`, `BadField` or `Trailing`, whichever comes first from left to right; `NoMemory` if memory runs out.
#[tactic(auto, unfolding(crate::specs::Saved::segment_in))]
pub fn read_segment(alloc: Global, bytes: &[u8]) -> Result<SegmentSnapshot, Fault>
    ensures { Gives node_in result (segment_in bytes.now) }
{
    let (_kind, rest) = read_head(SEGMENT, bytes)?;
    let (volume, rest) = u32_at(rest)?;
    let (place, rest) = read_place(rest)?;
    let (whole, rest) = read_flag(rest)?;
    let (copied, rest) = u64_at(rest)?;
    let (contents, rest) = read_contents(alloc, rest)?;
    if !rest.is_empty() {
        return Err(Fault::Trailing);
    }
    let contents = Arc::new(alloc, contents)?;
    Ok(SegmentSnapshot {
        volume,
        place,
        whole,
        contents,
        copied,
    })
}

/// Returns what stands before the records in the bytes of a segment's snapshot. With the records behind it,
/// `read_segment` reads it back as the snapshot.
///
/// # Errors
/// `Full` if a list is longer than four bytes can count; `NoMemory`.
pub fn snapshot_head(alloc: Global, snapshot: &SegmentSnapshot) -> Result<Vec<u8>, Fault>
    ensures text { IfOk result (λ head. head.items ++ records_spelled (node_in snapshot.now).contents.records
        ≡ segment_spelled (node_in snapshot.now)) }
    ensures reads { IfOk result (λ _. segment_in (segment_spelled (node_in snapshot.now)) ≡ Ok (node_in snapshot.now)) }
{
    let mut out = Vec::from_slice(alloc, &[VERSION, SEGMENT])?;
    put_u32(&mut out, snapshot.volume)?;
    put_place(&mut out, snapshot.place)?;
    out.push(u8::from(snapshot.whole))?;
    put_u64(&mut out, snapshot.copied)?;
    put_contents_head(alloc, &mut out, &snapshot.contents)?;
    Ok(out)
}

/// Reads an authority's snapshot.
///
/// # Errors
/// `Short` or `BadField`, whichever comes first from left to right; `NoMemory` if memory runs out.
#[tactic(auto, unfolding(crate::specs::Saved::authority_in))]
pub fn read_authority(alloc: Global, bytes: &[u8]) -> Result<AuthoritySnapshot, Fault>
    ensures { Gives snapshot_authority result (authority_in bytes.now) }
{
    let (_kind, rest) = read_head(AUTHORITY, bytes)?;
    let (last_volume, rest) = u32_at(rest)?;
    let configurations = Vec::from_slice(alloc, rest)?;
    Ok(AuthoritySnapshot {
        last_volume,
        configurations,
    })
}

/// Returns the bytes of an authority's snapshot, from which `read_authority` returns the same snapshot.
///
/// # Errors
/// `NoMemory` if memory runs out.
pub fn authority_bytes(alloc: Global, authority: &Authority) -> Result<Vec<u8>, Fault>
    ensures text { IfOk result (λ text. text.items ≡ authority_spelled (authority_of authority.now)) }
    ensures reads { IfOk result (λ text. authority_in text.items ≡ Ok (authority_of authority.now)) }
    ensures own { IfErr result (λ fault. fault ≡ NoMemory) }
{
    let snapshot = authority.snapshot(alloc)?;
    let mut out = Vec::from_slice(alloc, &[VERSION, AUTHORITY])?;
    put_u32(&mut out, snapshot.last_volume)?;
    out.extend_from_slice(&snapshot.configurations)?;
    Ok(out)
}
