//! Lists of records that runs share.

ghost use Rattle.std.specs.Prelude.{◌≡◌, map, true, IsTrue};
ghost use Rattle.redo_record.specs.SharedRecord.{shared_redo};
ghost use Rattle.redo_record.specs.SharedList.{IsKnownEpoch, IsVolumeChain, IsGroupChain};

use crate::shared_record::SharedRecord;

/// Returns the volume epoch of all records, `None` if they have several.
fn epoch_of(packets: &[SharedRecord]) -> Option<u32>
    ensures { IsKnownEpoch result (map shared_redo packets.now) }
{
    let volume_epoch = packets.first()?.volume_epoch();
    for packet in packets {
        if packet.volume_epoch() != volume_epoch {
            return None;
        }
    }
    Some(volume_epoch)
}

/// Returns whether each record but the first links to the one before it in the volume.
fn is_volume_chain(packets: &[SharedRecord]) -> bool
    ensures { IsTrue result → IsVolumeChain (map shared_redo packets.now) }
{
    for place in 1..packets.len() {
        if packets[place].record().prev_volume != packets[place - 1].lsn() {
            return false;
        }
    }
    true
}

/// Returns whether each record but the first links to the one before it in its group.
fn is_group_chain(packets: &[SharedRecord]) -> bool
    ensures { IsTrue result → IsGroupChain (map shared_redo packets.now) }
{
    for place in 1..packets.len() {
        if packets[place].prev_group() != packets[place - 1].lsn() {
            return false;
        }
    }
    true
}

/// A list of records that runs share, with what is known of all of them.
#[derive(Drop)]
pub struct SharedList {
    pub(crate) packets: Vec<SharedRecord>,
    /// The volume epoch of all records, `None` if they have several.
    pub(crate) volume_epoch: Option<u32>,
    /// Whether each record but the first links to the one before it in the volume.
    pub(crate) is_volume_chain: bool,
    /// Whether each record but the first links to the one before it in its group.
    pub(crate) is_group_chain: bool,
    ghost of_epoch: { IsKnownEpoch volume_epoch (map shared_redo packets.items) },
    ghost in_volume: { is_volume_chain ≡ true → IsVolumeChain (map shared_redo packets.items) },
    ghost in_group: { is_group_chain ≡ true → IsGroupChain (map shared_redo packets.items) },
}

impl SharedList {
    /// Makes a list of these records.
    pub fn new(packets: Vec<SharedRecord>) -> SharedList
        ensures { result.packets ≡ packets }
    {
        let volume_epoch = epoch_of(&packets);
        let is_volume_chain = is_volume_chain(&packets);
        let is_group_chain = is_group_chain(&packets);
        SharedList {
            packets,
            volume_epoch,
            is_volume_chain,
            is_group_chain,
        }
    }
}
