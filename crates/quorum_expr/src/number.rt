//! Numbers from their text.

ghost use Rattle.std.specs.Prelude.{◌≡◌, ◌-◌, ◌<◌, ◌==◌, length, slice_index, is_some, IsTrue, IfSome, option_and_then, true, false, decimal};
ghost use Rattle.std.specs.Char.{digit_value};
ghost use Rattle.serde_json.specs.Find.{as_u64};
ghost use Rattle.serde_json.specs.Read.{number_of, number_from};

use fast_float::Numeral;

/// Returns the value of a digit.
fn digit(byte: u8) -> Option<u64>
    ensures small { IfSome result (λ n. digit_value byte < 10) }
    ensures is { IfSome result (λ n. n ≡ byte - 48) }
{
    if byte.is_ascii_digit() {
        Some(u64::from(byte - b'0'))
    } else {
        None
    }
}

/// Returns the value of one digit, or of two of which the first isn't 0.
fn short_number(text: &str) -> Option<u64>
    ensures small { IfSome result (λ n. n < 100) }
    ensures is { IfSome result (λ n. text.now ≡ decimal n) }
{
    let bytes = text.as_bytes();
    if bytes.len() == 1 {
        let number = digit(bytes[0])?;
        return Some(number);
    }
    if bytes.len() != 2 || bytes[0] == b'0' {
        return None;
    }
    let tens = digit(bytes[0])?;
    let ones = digit(bytes[1])?;
    Some(10 * tens + ones)
}

fn has_minus(bytes: &[u8]) -> bool
    ensures value { result ≡ (slice_index bytes.now 0 == 45) }
    ensures len { IsTrue result → 0 < length bytes.now }
{
    !bytes.is_empty() && bytes[0] == b'-'
}

fn is_below_zero(numeral: &Numeral<'_>) -> bool
    ensures { result ≡ is_some (number_from true numeral.now) }
{
    if let Some(n) = numeral.to_i64(true) {
        if n < 0 {
            return true;
        }
    }
    numeral.to_float::<f64>(true).is_finite()
}

fn is_from_zero(numeral: &Numeral<'_>) -> bool
    ensures { result ≡ is_some (number_from false numeral.now) }
{
    match numeral.to_u64() {
        Some(_) => true,
        None => numeral.to_float::<f64>(false).is_finite(),
    }
}

/// Decides the general case of `is_in_range`.
#[inline(never)]
fn is_any_in_range(text: &str) -> bool
    ensures { result ≡ is_some (number_of text.now) }
{
    let bytes = text.as_bytes();
    if has_minus(bytes) {
        is_below_zero(&Numeral::scan(&bytes[1..]))
    } else {
        is_from_zero(&Numeral::scan(bytes))
    }
}

fn whole(numeral: &Numeral<'_>) -> Option<u64>
    ensures { result ≡ option_and_then as_u64 (number_from false numeral.now) }
{
    match numeral.to_u64() {
        Some(n) => Some(n),
        None => None,
    }
}

/// Decides the general case of `whole_number`.
#[inline(never)]
fn any_whole_number(text: &str) -> Option<u64>
    ensures { result ≡ option_and_then as_u64 (number_of text.now) }
{
    let bytes = text.as_bytes();
    if has_minus(bytes) {
        return None;
    }
    whole(&Numeral::scan(bytes))
}

/// Returns whether a number's text is within the range of a `u64`, an `i64` or a finite `f64`.
pub(crate) fn is_in_range(text: &str) -> bool
    ensures { result ≡ is_some (number_of text.now) }
{
    match short_number(text) {
        Some(_) => true,
        None => is_any_in_range(text),
    }
}

/// Returns the value of a text, if it has only digits.
pub(crate) fn whole_number(text: &str) -> Option<u64>
    ensures { result ≡ option_and_then as_u64 (number_of text.now) }
{
    match short_number(text) {
        Some(n) => Some(n),
        None => any_whole_number(text),
    }
}
