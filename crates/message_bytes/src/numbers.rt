//! Decodes numbers and bytes from the front of a slice.

ghost use Rattle.std.specs.Int.{w16, w32, w64};
ghost use Rattle.volume_model.specs.Common.{Gives};
ghost use Rattle.message_bytes.specs.Numbers.{byte_at, number_at, image_at};

use volume_model::Fault;

/// Decodes a byte. Returns it with the bytes left, or `Short` if there is none.
pub fn u8_at(bytes: &[u8]) -> Result<(u8, &[u8]), Fault>
    ensures { Gives (λ x. (x.0, x.1.now)) result (byte_at bytes.now) }
{
    match bytes {
        [] => Err(Fault::Short),
        [first, rest @ ..] => Ok((*first, rest)),
    }
}

/// Decodes a big-endian number of two bytes.
pub fn u16_at(bytes: &[u8]) -> Result<(u16, &[u8]), Fault>
    ensures { Gives (λ x. (x.0, x.1.now)) result (number_at w16 bytes.now) }
{
    if bytes.len() < 2 {
        return Err(Fault::Short);
    }
    let (front, rest) = bytes.split_at(2);
    let number = u16::from_be_bytes([front[0], front[1]]);
    Ok((number, rest))
}

/// Decodes a big-endian number of four bytes.
pub fn u32_at(bytes: &[u8]) -> Result<(u32, &[u8]), Fault>
    ensures { Gives (λ x. (x.0, x.1.now)) result (number_at w32 bytes.now) }
{
    if bytes.len() < 4 {
        return Err(Fault::Short);
    }
    let (front, rest) = bytes.split_at(4);
    let number = u32::from_be_bytes([front[0], front[1], front[2], front[3]]);
    Ok((number, rest))
}

/// Decodes a big-endian number of eight bytes.
pub fn u64_at(bytes: &[u8]) -> Result<(u64, &[u8]), Fault>
    ensures { Gives (λ x. (x.0, x.1.now)) result (number_at w64 bytes.now) }
{
    if bytes.len() < 8 {
        return Err(Fault::Short);
    }
    let (front, rest) = bytes.split_at(8);
    let number = u64::from_be_bytes([
        front[0], front[1], front[2], front[3], front[4], front[5], front[6], front[7],
    ]);
    Ok((number, rest))
}

/// Decodes the 512 bytes of a page.
pub fn read_image(bytes: &[u8]) -> Result<([u8; 512], &[u8]), Fault>
    ensures { Gives (λ x. (x.0, x.1.now)) result (image_at bytes.now) }
{
    if bytes.len() < 512 {
        return Err(Fault::Short);
    }
    let (front, rest) = bytes.split_at(512);
    let mut image = [0u8; 512];
    image.copy_from_slice(front);
    Ok((image, rest))
}
