//! Finds and counts bytes of a text.

ghost use Rattle.std.specs.Prelude.{◌≡◌, ◌+◌, ◌^◌, ◌<◌, ◌≤◌, ◌==◌, count_by, length, position};

use memchr::memchr;

/// The number of bytes that are counted together, so that the count fits a byte.
const PIECE: usize = 192;

/// Returns the first place of a byte in a text.
#[inline(always)]
pub fn first_place(text: &[u8], byte: u8) -> Option<usize>
    ensures { result ≡ position (λ b. b == byte) text.now }
{
    memchr(byte, text)
}

/// Returns how often a byte occurs in a piece of a text.
#[inline(always)]
fn count_in_piece(piece: &[u8], byte: u8) -> u8
    requires { length piece.now ≤ PIECE }
    ensures counted { result ≡ count_by (λ b. b == byte) piece.now }
    ensures few { result ≤ length piece.now }
{
    let mut count = 0;
    for other in piece {
        if *other == byte {
            count += 1;
        }
    }
    count
}

/// Returns how often a byte occurs in a text. Counts piece by piece, so that many bytes are compared at once;
/// `memchr_iter` would go from one occurrence to the next.
pub fn count_of(text: &[u8], byte: u8) -> usize
    ensures counted { result ≡ count_by (λ b. b == byte) text.now }
    ensures within { result + 1 < 2 ^ 64 }
{
    let mut count = 0;
    let mut rest = text;
    while !rest.is_empty() {
        let (piece, after) = rest.split_at(rest.len().min(PIECE));
        count += usize::from(count_in_piece(piece, byte));
        rest = after;
    }
    count
}
