//! Short byte strings, stored inline.

ghost use Rattle.std.specs.Prelude.{◌≡◌, ◌≤◌, ℕ, slice_index, length};

use redo_record::{FEW_BYTES, Payload};

/// 1 to 7 bytes, stored inline, with zeros after them.
#[derive(Clone, Copy)]
pub struct InlineBytes {
    length: u8,
    place: [u8; FEW_BYTES],
    ghost not_empty: { 1 ≤ length },
    ghost in_place: { length ≤ 7 },
    ghost cleared: { (at : ℕ) → length ≤ at → slice_index place at ≡ 0 },
}

impl InlineBytes {
    ghost use Rattle.redo_record.specs.Common.{payload_bytes, HasRoom};
    ghost use Rattle.writer_core.specs.Changes.{inline_bytes};

    /// Returns these bytes.
    #[inline(always)]
    pub fn new(bytes: &[u8]) -> InlineBytes
        requires some { 1 ≤ length bytes.now }
        requires few { length bytes.now ≤ 7 }
        ensures { inline_bytes result ≡ bytes.now }
    {
        let mut place = [0; FEW_BYTES];
        for at in 0..FEW_BYTES {
            if at < bytes.len() {
                place[at] = bytes[at];
            }
        }
        InlineBytes {
            length: bytes.len() as u8,
            place,
        }
    }

    /// Returns the bytes.
    #[inline(always)]
    pub fn as_slice(&self) -> &[u8]
        ensures value { result.now ≡ inline_bytes self.now }
        ensures room { HasRoom (length result.now) }
    {
        &self.place[..self.length as usize]
    }

    /// Returns the bytes as a record's payload.
    #[inline(always)]
    pub fn payload(&self) -> Payload
        ensures { payload_bytes result ≡ inline_bytes self.now }
    {
        Payload::from_few(&self.place, self.length)
    }
}
