//! The changes of a transaction, as C has them.

ghost use Rattle.std.specs.Prelude.{◌≡◌, ◌⊎◌, map, IfOk, IfErr};
ghost use Rattle.writer_core.specs.Changes.{changes_of, change_of};
ghost use Rattle.volume_c.specs.Changes.{given_change};

use crate::status::BAD_LENGTH;
use std::alloc::Global;
use volume_model::Fault;
use writer_core::Change;

/// The most bytes of a change.
const MOST_BYTES: usize = 64;

/// A change of a block: writes the first `length` of `bytes`, 1 to 64, to the block from `offset` on.
#[repr(C)]
#[derive(Clone, Copy)]
pub struct VolumeChange {
    /// The block of the group.
    pub block: u32,
    /// The first byte of the block that is changed.
    pub offset: u16,
    /// The protection group.
    pub group: u8,
    /// How many bytes are changed, 1 to 64.
    pub length: u8,
    /// The bytes.
    pub bytes: [u8; 64],
}

/// Returns the change of a struct; `BAD_LENGTH` if it doesn't have 1 to 64 bytes.
fn change(alloc: Global, given: &VolumeChange) -> Result<Change, u8>
    ensures ok { IfOk result (λ change. change_of change ≡ given_change given.now) }
    ensures err { IfErr result (λ status. (status ≡ BAD_LENGTH) ⊎ (status ≡ 9)) }
{
    let length = usize::from(given.length);
    if length < 1 || length > MOST_BYTES {
        return Err(BAD_LENGTH);
    }
    match Change::new(
        alloc,
        given.group,
        given.block,
        given.offset,
        &given.bytes[..length],
    ) {
        Ok(change) => Ok(change),
        Err(_) => Err(Fault::NoMemory.number()),
    }
}

/// Returns the changes of structs; `BAD_LENGTH` if one doesn't have 1 to 64 bytes.
pub fn changes(alloc: Global, given: &[VolumeChange]) -> Result<Vec<Change>, u8>
    ensures ok { IfOk result (λ changes. changes_of changes.items ≡ map given_change given.now) }
    ensures err { IfErr result (λ status. (status ≡ BAD_LENGTH) ⊎ (status ≡ 9)) }
{
    let mut changes = Vec::new(alloc);
    for one in given {
        let change = change(alloc, one)?;
        if changes.push(change).is_err() {
            return Err(Fault::NoMemory.number());
        }
    }
    Ok(changes)
}
