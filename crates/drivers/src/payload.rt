//! Reads the bytes of a change from hexadecimal digits.

ghost use Rattle.redo_record.specs.Common.{payload_bytes};
ghost use Rattle.drivers.specs.Words.{digit_in, byte_in, bytes_in};
ghost use Rattle.drivers.specs.Reads.{Reads, ReadsBy};

use redo_record::{MOST_BYTES, Payload};
use volume_model::Fault;

/// Returns the value of a hexadecimal digit in lower case.
#[inline(always)]
fn digit(byte: u8) -> Result<u8, Fault>
    ensures { Reads (digit_in byte) result }
{
    if byte.is_ascii_digit() {
        return Ok(byte - b'0');
    }
    match byte {
        b'a'..=b'f' => Ok(byte - b'a' + 10),
        _ => Err(Fault::Malformed),
    }
}

/// Returns the byte of two hexadecimal digits.
#[inline(always)]
pub fn byte_of(high: u8, low: u8) -> Result<u8, Fault>
    ensures { Reads (byte_in high low) result }
{
    Ok(digit(high)? * 16 + digit(low)?)
}

/// Reads 1 to 64 bytes, each as two hexadecimal digits in lower case.
pub fn payload_of(word: &[u8]) -> Result<Payload, Fault>
    ensures { ReadsBy payload_bytes (bytes_in word.now) result }
{
    let mut digits = word;
    if digits.is_empty() || digits.len() > 2 * MOST_BYTES {
        return Err(Fault::Malformed);
    }
    let mut bytes = [0; MOST_BYTES];
    let mut count = 0;
    while let [high, low, more @ ..] = digits {
        bytes[count] = byte_of(*high, *low)?;
        count += 1;
        digits = more;
    }
    if !digits.is_empty() {
        return Err(Fault::Malformed);
    }
    match Payload::new(&bytes[..count]) {
        Some(payload) => Ok(payload),
        None => Err(Fault::Malformed),
    }
}
