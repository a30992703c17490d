//! Reads numbers at the beginning of a text.

ghost use Rattle.std.specs.Prelude.{◌≡◌, ◌==◌, ◌&&◌, ◌||◌, ◌+◌, ◌*◌, ◌^◌, ◌≤◌, MatchOption, length, nat_le, not, slice_index};
ghost use Rattle.std.specs.List.{slice_split};
ghost use Rattle.drivers.specs.Parts.{first_number, left_of};
ghost use Rattle.drivers.specs.Reads.{ReadsBy};

use volume_model::Fault;

/// With a number up to this one any further digit gives a number below 2^64.
const TAKES_ANY_DIGIT: u64 = 1_844_674_407_370_955_160;

/// Returns whether digits with this value are a numeral of at most `most`: there is a digit, and no leading zero.
#[inline(always)]
fn is_number(digits: &[u8], value: u64, most: u64) -> bool
    ensures { result ≡ (nat_le 1 (length digits.now) && (nat_le (length digits.now) 1 || not
        (slice_index digits.now 0 == 48)) && nat_le value most) }
{
    !digits.is_empty() && (digits.len() <= 1 || digits[0] != b'0') && value <= most
}

/// Returns the number with one more decimal digit, if it is below 2^64.
#[inline(always)]
fn with_digit(value: u64, digit: u8) -> Option<u64>
    requires { digit ≤ 9 }
    ensures { MatchOption result (2 ^ 64 ≤ value * 10 + digit) (λ longer. longer ≡ value * 10 + digit) }
{
    if value <= TAKES_ANY_DIGIT {
        return Some(value * 10 + u64::from(digit));
    }
    value.checked_mul(10)?.checked_add(u64::from(digit))
}

/// Reads the first part of a text as a decimal number of at most `most`, without leading zeros. Returns it, and the
/// text after the separator, if there is one.
#[inline(always)]
pub fn split_number(text: &[u8], separator: u8, most: u64) -> Result<(u64, Option<&[u8]>), Fault>
    ensures { ReadsBy (λ found. (found.0, left_of separator found.1))
        (first_number most (slice_split (λ b. b == separator) text.now)) result }
{
    let mut value = 0;
    for (at, byte) in text.iter().enumerate() {
        if *byte == separator {
            if !is_number(&text[..at], value, most) {
                return Err(Fault::Malformed);
            }
            return Ok((value, Some(&text[at + 1..])));
        }
        if !byte.is_ascii_digit() {
            return Err(Fault::Malformed);
        }
        let Some(longer) = with_digit(value, *byte - b'0') else {
            return Err(Fault::Malformed);
        };
        value = longer;
    }
    if !is_number(text, value, most) {
        return Err(Fault::Malformed);
    }
    Ok((value, None))
}
