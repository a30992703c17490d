//! Results in the caller's buffer.

ghost use Rattle.std.specs.Prelude.{◌≡◌, ◌≢◌, length, take};

use crate::status::TOO_SMALL;

/// Copies bytes to a buffer and returns `TOO_SMALL` without a copy if it is too small. Sets `needed` to their number.
pub fn copy_out(bytes: &[u8], out: &mut [u8], needed: &mut usize) -> u8
    ensures needed { needed.new ≡ length bytes.now }
    ensures ok { result ≡ 0 → take (length bytes.now) out.new ≡ bytes.now }
    ensures small { result ≢ 0 → (result ≡ TOO_SMALL) × (out.new ≡ out.old) }
{
    *needed = bytes.len();
    if out.len() < bytes.len() {
        return TOO_SMALL;
    }
    let (front, _) = out.split_at_mut(bytes.len());
    front.copy_from_slice(bytes);
    0
}
