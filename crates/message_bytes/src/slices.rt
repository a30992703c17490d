//! Writes encoded numbers, labels and records to a place of a slice. Each function returns the place behind what it
//! wrote.

ghost use Rattle.std.specs.Prelude.{◌≡◌, ◌<◌, ◌≤◌, ◌^◌, ◌+◌, [], ◌∷◌, ◌++◌, length, take, Ok};
ghost use Rattle.std.specs.Int.{w32, w64, to_be_bytes};
ghost use Rattle.redo_record.specs.Common.{shared_redo, spelled, decoded};
ghost use Rattle.wire.specs.Common.{label_of, place_of};
ghost use Rattle.message_bytes.specs.Spelling.{labelled_spelled, place_spelled};

use crate::writing::put_at;
use redo_record::{Packet, SharedRecord};
use wire::{Label, Place};

/// Writes a byte.
pub fn write_u8(out: &mut [u8], at: usize, number: u8) -> usize
    requires { at + 1 ≤ length out.old }
    ensures text { take result out.new ≡ take at out.old ++ number ∷ [] }
    ensures end { result ≡ at + 1 }
{
    put_at(out, at, &[number]);
    at + 1
}

/// Writes a number as 4 bytes, big-endian.
pub fn write_u32(out: &mut [u8], at: usize, number: u32) -> usize
    requires { at + 4 ≤ length out.old }
    ensures text { take result out.new ≡ take at out.old ++ to_be_bytes w32 number }
    ensures end { result ≡ at + 4 }
    ensures fits { number < 2 ^ 32 }
{
    put_at(out, at, &number.to_be_bytes());
    at + 4
}

/// Writes a number as 8 bytes, big-endian.
pub fn write_u64(out: &mut [u8], at: usize, number: u64) -> usize
    requires { at + 8 ≤ length out.old }
    ensures text { take result out.new ≡ take at out.old ++ to_be_bytes w64 number }
    ensures end { result ≡ at + 8 }
    ensures fits { number < 2 ^ 64 }
{
    put_at(out, at, &number.to_be_bytes());
    at + 8
}

/// Writes a group and a label.
pub fn write_labelled(out: &mut [u8], at: usize, group: u8, label: Label) -> usize
    requires { at + 9 ≤ length out.old }
    ensures text { take result out.new ≡ take at out.old ++ labelled_spelled group (label_of label) }
    ensures end { result ≡ at + 9 }
    ensures volume { label.volume < 2 ^ 32 }
    ensures member { label.member < 2 ^ 32 }
{
    let at = write_u8(out, at, group);
    let at = write_u32(out, at, label.volume);
    write_u32(out, at, label.member)
}

/// Writes a configuration and its membership epoch.
pub fn write_place(out: &mut [u8], at: usize, place: Place) -> usize
    requires { at + 5 ≤ length out.old }
    ensures text { take result out.new ≡ take at out.old ++ place_spelled (place_of place) }
    ensures end { result ≡ at + 5 }
    ensures fits { place.epoch < 2 ^ 32 }
{
    let at = write_u8(out, at, place.configuration);
    write_u32(out, at, place.epoch)
}

/// Returns the number of bytes of an encoded record.
pub fn record_len(packet: &SharedRecord) -> usize
    ensures is { result ≡ length (spelled (shared_redo packet.now)) }
    ensures few { result ≤ 109 }
{
    45 + packet.record().bytes.as_slice().len()
}

/// Writes the bytes of a record.
pub fn write_record(out: &mut [u8], at: usize, packet: &SharedRecord) -> usize
    requires { at + length (spelled (shared_redo packet.now)) ≤ length out.old }
    ensures text { take result out.new ≡ take at out.old ++ spelled (shared_redo packet.now) }
    ensures end { result ≡ at + length (spelled (shared_redo packet.now)) }
    ensures reads { decoded (spelled (shared_redo packet.now)) ≡ Ok (shared_redo packet.now) }
{
    let packed = Packet::pack(packet.record());
    let bytes = packed.as_bytes();
    put_at(out, at, bytes);
    at + bytes.len()
}
