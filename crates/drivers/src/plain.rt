//! A fast path for the most frequent form of changes. Other forms are read word by word.

ghost use Rattle.std.specs.Prelude.{◌≡◌, IfOk, IfSome, Some, take};
ghost use Rattle.redo_record.specs.Common.{HasRoom};
ghost use Rattle.writer_core.specs.Changes.{changes_of};
ghost use Rattle.drivers.specs.Grammar.{changes_in};
ghost use Rattle.drivers.specs.Plain.{AreBytesAt, IsPlaceAt};
ghost use Rattle.drivers.specs.Words.{words_in};

use crate::named::{after, number};
use crate::payload::byte_of;
use redo_record::MOST_BYTES;
use std::alloc::{AllocError, Global};
use writer_core::Change;

/// Reads `G:B:O:` at the beginning of a text. Returns the group, the block, the offset, and the text after them.
#[inline(always)]
fn place_at(text: &[u8]) -> Option<(u8, u32, u16, &[u8])>
    ensures { IfSome result (λ found. IsPlaceAt text.now found.0 found.1 found.2 found.3.now) }
{
    let (group, rest) = number(text)?;
    let (block, rest) = number(after(rest, b':')?)?;
    let (offset, rest) = number(after(rest, b':')?)?;
    let rest = after(rest, b':')?;
    if group > u32::from(u8::MAX) || offset > u32::from(u16::MAX) {
        return None;
    }
    Some((group as u8, block, offset as u16, rest))
}

/// Reads the bytes whose digits are at the beginning of a text. Returns their number, and the text after them.
#[inline(always)]
fn put_bytes<'a>(text: &'a [u8], bytes: &mut [u8; MOST_BYTES]) -> Option<(usize, &'a [u8])>
    ensures { IfSome result (λ found. AreBytesAt text.now (take found.0 bytes.new) found.1.now × HasRoom found.0) }
{
    let mut rest = text;
    let mut count = 0;
    while let [high, low, more @ ..] = rest {
        let Ok(byte) = byte_of(*high, *low) else {
            break;
        };
        if count == MOST_BYTES {
            return None;
        }
        bytes[count] = byte;
        count += 1;
        rest = more;
    }
    if count == 0 {
        return None;
    }
    Some((count, rest))
}

/// Reads changes with a space between two of them. Reserves room for this many.
pub fn plain_changes(
    alloc: Global,
    text: &[u8],
    room: usize,
) -> Result<Option<Vec<Change>>, AllocError>
    ensures { IfOk result
        (λ found. IfSome found (λ changes. changes_in (words_in text.now) ≡ Some (changes_of changes.items))) }
{
    let mut changes = Vec::with_capacity(alloc, room)?;
    let mut bytes = [0; MOST_BYTES];
    let mut rest = text;
    loop {
        let Some((group, block, offset, digits)) = place_at(rest) else {
            return Ok(None);
        };
        let Some((count, more)) = put_bytes(digits, &mut bytes) else {
            return Ok(None);
        };
        changes.push(Change::new(alloc, group, block, offset, &bytes[..count])?)?;
        if more.is_empty() {
            return Ok(Some(changes));
        }
        let Some(more) = after(more, b' ') else {
            return Ok(None);
        };
        rest = more;
    }
}
