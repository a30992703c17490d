//! The fixed-size fields of an encoded record, which come before the bytes that it writes.

ghost use Rattle.std.specs.Prelude.{◌≡◌, ◌+◌, ◌≤◌, length};
ghost use Rattle.std.specs.Int.{w16, w32, w64};
ghost use Rattle.redo_record.specs.Head.{number_at, head_in, is_allowed};

/// The bytes of the fixed-size fields.
pub const HEAD_BYTES: usize = 45;

/// The greatest LSN.
pub const LAST_LSN: u64 = 1 << 62;

/// The fixed-size fields of an encoded record.
#[derive(Clone, Copy)]
pub struct Head {
    pub lsn: u64,
    pub volume_epoch: u32,
    pub prev_volume: u64,
    pub prev_group: u64,
    pub prev_block: u64,
    pub group: u8,
    pub block: u32,
    pub offset: u16,
    pub point: u8,
    pub length: u8,
}

/// Returns the big-endian `u64` at a place.
fn u64_at(bytes: &[u8], at: usize) -> u64
    requires { at + 8 ≤ length bytes.now }
    ensures { result ≡ number_at w64 at bytes.now }
{
    let (_, rest) = bytes.split_at(at);
    let (front, _) = rest.split_at(8);
    u64::from_be_bytes([
        front[0], front[1], front[2], front[3], front[4], front[5], front[6], front[7],
    ])
}

/// Returns the big-endian `u32` at a place.
fn u32_at(bytes: &[u8], at: usize) -> u32
    requires { at + 4 ≤ length bytes.now }
    ensures { result ≡ number_at w32 at bytes.now }
{
    let (_, rest) = bytes.split_at(at);
    let (front, _) = rest.split_at(4);
    u32::from_be_bytes([front[0], front[1], front[2], front[3]])
}

/// Returns the big-endian `u16` at a place.
fn u16_at(bytes: &[u8], at: usize) -> u16
    requires { at + 2 ≤ length bytes.now }
    ensures { result ≡ number_at w16 at bytes.now }
{
    let (_, rest) = bytes.split_at(at);
    let (front, _) = rest.split_at(2);
    u16::from_be_bytes([front[0], front[1]])
}

/// Decodes the fields at the beginning of these bytes.
pub fn head_of(bytes: &[u8]) -> Head
    requires { 45 ≤ length bytes.now }
    ensures { result ≡ head_in bytes.now }
{
    Head {
        lsn: u64_at(bytes, 0),
        volume_epoch: u32_at(bytes, 8),
        prev_volume: u64_at(bytes, 12),
        prev_group: u64_at(bytes, 20),
        prev_block: u64_at(bytes, 28),
        group: bytes[36],
        block: u32_at(bytes, 37),
        offset: u16_at(bytes, 41),
        point: bytes[43],
        length: bytes[44],
    }
}

/// Returns whether these fields are allowed in a record.
pub fn is_allowed(head: &Head) -> bool
    ensures { result ≡ is_allowed head.now }
{
    head.lsn >= 1
        && head.lsn <= LAST_LSN
        && head.volume_epoch >= 1
        && head.prev_volume < head.lsn
        && head.prev_group <= head.prev_volume
        && head.prev_block <= head.prev_group
        && head.group < 16
        && u32::from(head.offset) + u32::from(head.length) <= 512
        && head.point <= 1
        && head.length >= 1
        && head.length <= 64
}
