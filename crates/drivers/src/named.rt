//! Fast paths for the most frequent lines: deliveries and takings of messages that earlier lines made. Other lines are
//! read by the general reader.

ghost use Rattle.std.specs.Prelude.{◌≡◌, ◌<◌, ◌≤◌, ◌∷◌, ◌++◌, IfSome, codes, length, slice_index};
ghost use Rattle.drivers.specs.Named.{EndsLine, HasName, HasOrder, IsNumberAt};

use world::Order;

/// With a number up to this one any further digit gives a number below 2^32.
const TAKES_ANY_DIGIT: u32 = 429_496_728;

/// Returns the number at the beginning of a text whose first digit isn't 0, and the text after it.
#[inline(always)]
fn digits(text: &[u8]) -> (u32, &[u8])
    requires some { 0 < length text.now }
    requires low { 49 ≤ slice_index text.now 0 }
    requires high { slice_index text.now 0 ≤ 57 }
    ensures { IsNumberAt text.now result.0 result.1.now }
{
    let mut value = u32::from(text[0] - b'0');
    let mut at = 1;
    while at < text.len() {
        if !text[at].is_ascii_digit() || value > TAKES_ANY_DIGIT {
            return (value, &text[at..]);
        }
        value = value * 10 + u32::from(text[at] - b'0');
        at += 1;
    }
    (value, &[])
}

/// Returns the number at the beginning of a text, and the text after it.
#[inline(always)]
pub fn number(text: &[u8]) -> Option<(u32, &[u8])>
    ensures { IfSome result (λ found. IsNumberAt text.now found.0 found.1.now) }
{
    match text {
        [b'1'..=b'9', b'0'..=b'9', ..] => Some(digits(text)),
        [digit, rest @ ..] if digit.is_ascii_digit() => Some((u32::from(*digit - b'0'), rest)),
        _ => None,
    }
}

/// Returns the group or member at the beginning of a text, and the text after it and a space.
#[inline(always)]
fn id(text: &[u8]) -> Option<(u8, &[u8])>
    ensures { IfSome result (λ found. IsNumberAt text.now found.0 (32 ∷ found.1.now) × (found.0 ≤ 255)) }
{
    let (number, rest) = number(text)?;
    if number > u32::from(u8::MAX) {
        return None;
    }
    Some((number as u8, after(rest, b' ')?))
}

/// Returns the text after a byte, if the text begins with it.
#[inline(always)]
pub fn after(text: &[u8], byte: u8) -> Option<&[u8]>
    ensures { IfSome result (λ rest. text.now ≡ byte ∷ rest.now) }
{
    match text {
        [first, rest @ ..] if *first == byte => Some(rest),
        _ => None,
    }
}

/// Returns the text after the end of a line, if the text begins with one.
#[inline(always)]
fn after_line(text: &[u8]) -> Option<&[u8]>
    ensures { IfSome result (λ rest. EndsLine text.now rest.now) }
{
    match text {
        [] => Some(text),
        [b'\n', rest @ ..] => Some(rest),
        _ => None,
    }
}

/// Reads `L.K` at the end of a line. Returns the index of line L's event, the place, and the text after the line.
#[inline(always)]
fn name<'a>(text: &'a [u8], events: &[Option<u32>]) -> Option<(u32, u32, &'a [u8])>
    ensures { IfSome result (λ found. HasName text.now events.now found.0 found.1 found.2.now) }
{
    let (line, rest) = number(text)?;
    let (place, rest) = number(after(rest, b'.')?)?;
    let rest = after_line(rest)?;
    if line == 0 || line as usize > events.len() || place == 0 {
        return None;
    }
    Some((events[line as usize - 1]?, place, rest))
}

/// Returns the text after `deliver `, if the text begins with it.
#[inline(always)]
fn after_deliver(text: &[u8]) -> Option<&[u8]>
    ensures { IfSome result (λ rest. text.now ≡ codes "deliver " ++ rest.now) }
{
    match text {
        [b'd', b'e', b'l', b'i', b'v', b'e', b'r', b' ', rest @ ..] => Some(rest),
        _ => None,
    }
}

/// Returns the text after `take `, if the text begins with it.
#[inline(always)]
fn after_take(text: &[u8]) -> Option<&[u8]>
    ensures { IfSome result (λ rest. text.now ≡ codes "take " ++ rest.now) }
{
    match text {
        [b't', b'a', b'k', b'e', b' ', rest @ ..] => Some(rest),
        _ => None,
    }
}

/// Reads `deliver G M L.K`, if line L has an event.
#[inline(always)]
fn delivery<'a>(text: &'a [u8], events: &[Option<u32>]) -> Option<(Order, &'a [u8])>
    ensures { IfSome result (λ found. HasOrder text.now events.now found.0 found.1.now) }
{
    let (group, rest) = id(after_deliver(text)?)?;
    let (member, rest) = id(rest)?;
    let (event, place, rest) = name(rest, events)?;
    let place = u64::from(place);
    Some((
        Order::DeliverFrom {
            group,
            member,
            event,
            place,
        },
        rest,
    ))
}

/// Reads `take V L.K`, if line L has an event.
#[inline(always)]
fn taking<'a>(text: &'a [u8], events: &[Option<u32>]) -> Option<(Order, &'a [u8])>
    ensures { IfSome result (λ found. HasOrder text.now events.now found.0 found.1.now) }
{
    let (volume, rest) = number(after_take(text)?)?;
    let (event, place, rest) = name(after(rest, b' ')?, events)?;
    let place = u64::from(place);
    Some((
        Order::TakeFrom {
            volume,
            event,
            place,
        },
        rest,
    ))
}

/// Reads the first line of a text, if it is a frequent form of a delivery or taking. Returns its order, and the text
/// after the line. `events` has the index of each earlier line's event.
#[inline(always)]
pub fn named_order<'a>(text: &'a [u8], events: &[Option<u32>]) -> Option<(Order, &'a [u8])>
    ensures { IfSome result (λ found. HasOrder text.now events.now found.0 found.1.now) }
{
    if text.is_empty() {
        return None;
    }
    if text[0] == b't' {
        taking(text, events)
    } else {
        delivery(text, events)
    }
}
