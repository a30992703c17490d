//! The bytes that a record writes.

ghost use Rattle.std.specs.Prelude.{◌≤◌, ◌≡◌, ◌↔◌, ◌∷◌, ℕ, length, slice_index, take, IsSome, IfSome};
ghost use Rattle.redo_record.specs.Padding.{IsPadded};

/// The most bytes that a record writes.
pub const MOST_BYTES: usize = 64;

/// The number of bytes that [`Payload::from_few`] copies.
pub const FEW_BYTES: usize = 7;

/// 1 to 64 bytes, stored inline.
#[derive(Clone, Copy)]
pub struct Payload {
    place: [u8; MOST_BYTES],
    length: u8,
    ghost not_empty: { 1 ≤ length },
    ghost in_place: { length ≤ 64 },
    ghost padded: { IsPadded place length },
}

impl Payload {
    ghost use Rattle.volume_model.specs.Common.{same_numbers};
    ghost use Rattle.redo_record.specs.Payload.{payload_bytes, HasRoom};

    /// Returns these bytes as a payload, if there are 1 to 64.
    pub fn new(bytes: &[u8]) -> Option<Payload>
        ensures when { IsSome result ↔ HasRoom (length bytes.now) }
        ensures value { IfSome result (λ payload. payload_bytes payload ≡ bytes.now) }
    {
        let length = bytes.len();
        if length == 0 || length > MOST_BYTES {
            return None;
        }
        let mut place = [0; MOST_BYTES];
        place[..length].copy_from_slice(bytes);
        Some(Payload {
            place,
            length: length as u8,
        })
    }

    /// Returns the first `length` of these bytes; those after them are 0. Copies all seven, for which the compiler
    /// needs no call: records in reverse take 7 % less time than with [`Payload::new`].
    #[inline(always)]
    pub fn from_few(bytes: &[u8; FEW_BYTES], length: u8) -> Payload
        requires not_empty { 1 ≤ length }
        requires few { length ≤ 7 }
        requires cleared { (at : ℕ) → length ≤ at → slice_index bytes.now at ≡ 0 }
        ensures { payload_bytes result ≡ take length bytes.now }
    {
        let mut place = [0; MOST_BYTES];
        place[..FEW_BYTES].copy_from_slice(bytes);
        Payload { place, length }
    }

    /// Returns whether both have the same bytes. It compares all 64 places, for which the compiler needs no loop.
    #[inline(always)]
    pub(crate) fn is_same(&self, other: &Payload) -> bool
        ensures { result ≡ same_numbers (length (payload_bytes self.now) ∷ payload_bytes self.now)
            (length (payload_bytes other.now) ∷ payload_bytes other.now) }
    {
        let mut same = self.length == other.length;
        for at in 0..MOST_BYTES {
            same = same & (self.place[at] == other.place[at]);
        }
        same
    }

    /// Returns the bytes.
    pub fn as_slice(&self) -> &[u8]
        ensures value { result.now ≡ payload_bytes self.now }
        ensures room { HasRoom (length result.now) }
    {
        &self.place[..self.length as usize]
    }
}
