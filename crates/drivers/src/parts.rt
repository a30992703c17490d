//! Parts of a text between separators, which are taken one by one.

ghost use Rattle.std.specs.Prelude.{◌≡◌, ◌==◌, ◌↔◌, ◌∷◌, [], IsTrue, MatchOption, length};
ghost use Rattle.std.specs.List.{slice_split};
ghost use Rattle.drivers.specs.Parts.{ended, first_number, left_of, parts_left};
ghost use Rattle.drivers.specs.Reads.{Reads, ReadsBy};

use crate::numeral::split_number;
use crate::seeking::{count_of, first_place};
use volume_model::Fault;

/// The remaining parts of a text.
#[derive(Clone, Copy)]
pub struct Parts<'a> {
    /// The byte between two parts.
    separator: u8,
    /// The remaining parts with the separators between them; `None` if no part remains.
    left: Option<&'a [u8]>,
}

/// Returns the first part of a text and, after a separator, the others.
#[inline(always)]
fn split_first(text: &[u8], separator: u8) -> (&[u8], Option<&[u8]>)
    ensures { slice_split (λ b. b == separator) text.now ≡ result.0.now ∷ left_of separator result.1 }
{
    match first_place(text, separator) {
        Some(at) => (&text[..at], Some(&text[at + 1..])),
        None => (text, None),
    }
}

impl<'a> Parts<'a> {
    /// Returns all parts of a text.
    pub fn new(text: &'a [u8], separator: u8) -> Self
        ensures parts { parts_left result ≡ slice_split (λ b. b == separator) text.now }
        ensures between { result.separator ≡ separator }
    {
        Parts {
            separator,
            left: Some(text),
        }
    }

    /// Returns the number of remaining parts.
    #[inline(always)]
    pub fn len(&self) -> usize
        ensures { result ≡ length (parts_left self.now) }
    {
        match self.left {
            Some(text) => count_of(text, self.separator) + 1,
            None => 0,
        }
    }

    /// Returns whether no part remains.
    #[inline(always)]
    pub fn is_empty(&self) -> bool
        ensures { IsTrue result ↔ (parts_left self.now ≡ []) }
    {
        self.left.is_none()
    }

    /// Takes the next part.
    #[inline(always)]
    pub fn take_first(&mut self) -> Option<&'a [u8]>
        ensures part { MatchOption result (parts_left self.old ≡ [])
            (λ part. parts_left self.old ≡ part.now ∷ parts_left self.new) }
        ensures between { self.new.separator ≡ self.old.separator }
    {
        let (first, left) = split_first(self.left?, self.separator);
        self.left = left;
        Some(first)
    }

    /// Takes the next part as a number of at most `most`.
    #[inline(always)]
    pub fn take_number(&mut self, most: u64) -> Result<u64, Fault>
        ensures number { ReadsBy (λ number. (number, parts_left self.new)) (first_number most (parts_left self.old))
            result }
        ensures between { self.new.separator ≡ self.old.separator }
    {
        let Some(text) = self.left else {
            return Err(Fault::Malformed);
        };
        let (number, left) = split_number(text, self.separator, most)?;
        self.left = left;
        Ok(number)
    }

    /// Takes the next part as a group or a member, at most 255.
    #[inline(always)]
    pub fn take_id(&mut self) -> Result<u8, Fault>
        ensures number { ReadsBy (λ number. (number, parts_left self.new)) (first_number 255 (parts_left self.old))
            result }
        ensures between { self.new.separator ≡ self.old.separator }
    {
        Ok(self.take_number(u64::from(u8::MAX))? as u8)
    }

    /// Takes the next part as a volume epoch, a configuration or a block, below 2^32.
    #[inline(always)]
    pub fn take_block(&mut self) -> Result<u32, Fault>
        ensures number { ReadsBy (λ number. (number, parts_left self.new))
            (first_number 4294967295 (parts_left self.old)) result }
        ensures between { self.new.separator ≡ self.old.separator }
    {
        Ok(self.take_number(u64::from(u32::MAX))? as u32)
    }

    /// Takes the next part as an offset in a block, below 2^16.
    #[inline(always)]
    pub fn take_offset(&mut self) -> Result<u16, Fault>
        ensures number { ReadsBy (λ number. (number, parts_left self.new)) (first_number 65535 (parts_left self.old))
            result }
        ensures between { self.new.separator ≡ self.old.separator }
    {
        Ok(self.take_number(u64::from(u16::MAX))? as u16)
    }

    /// Takes the next part as an LSN, below 2^64.
    #[inline(always)]
    pub fn take_lsn(&mut self) -> Result<u64, Fault>
        ensures { ReadsBy (λ number. (number, parts_left self.new)) (first_number 18446744073709551615
            (parts_left self.old)) result }
    {
        self.take_number(u64::MAX)
    }

    /// Checks that no part remains.
    #[inline(always)]
    pub fn end(self) -> Result<(), Fault>
        ensures { Reads (ended (parts_left self.entry)) result }
    {
        if self.is_empty() {
            Ok(())
        } else {
            Err(Fault::Malformed)
        }
    }

    /// Returns all remaining parts, with the separators between them.
    #[inline(always)]
    pub fn rest(self) -> Option<&'a [u8]>
        ensures { left_of self.entry.separator result ≡ parts_left self.entry }
    {
        self.left
    }
}
