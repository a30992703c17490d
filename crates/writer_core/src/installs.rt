//! The Installs of a client.

ghost use Rattle.std.specs.Prelude.{◌≡◌, ◌≤◌, [], length, map, IfOk};
ghost use Rattle.volume_model.specs.Message as model;
ghost use Rattle.volume_model.specs.Common.{place_in, in_pieces, pieces_of, of_group, installs, to_install, later_unjoined};
ghost use Rattle.lineage.specs.Lineage.{lineage_of};
ghost use Rattle.redo_record.specs.Common.{records_of};
ghost use Rattle.wire.specs.Common.{contents_of, messages_of};
ghost use Rattle.wire.specs.Message as wire;
ghost use Rattle.writer_core.specs.Logs.{log_of_set};
ghost use Rattle.writer_core.specs.Groups.{groups_in};

use crate::group_states::GroupStates;
use lineage::Lineage;
use redo_record::RecordSet;
use std::alloc::{AllocError, Global};
use wire::{Contents, Install, Label, Message, Place};

/// Returns the label that a client of this volume epoch puts on messages to a group at this place.
pub fn label_at(volume: u32, place: Place) -> Label
    ensures { wire.label_of result ≡ record { volume = volume; member = place.epoch } }
{
    Label {
        volume,
        member: place.epoch,
    }
}

/// Returns the records of a log that are of a group: the log's own list if all are.
fn of_group(alloc: Global, group: u8, log: &RecordSet) -> Result<RecordSet, AllocError>
    ensures { IfOk result (λ set. records_of set ≡ of_group group (log_of_set log.now)) }
{
    if log.is_of(group) {
        return log.clone();
    }
    let mut set = RecordSet::new(alloc);
    let mut left = log.records();
    while let Some(packet) = left.next() {
        if packet.group() == group {
            set.insert(packet.clone()?)?;
        }
    }
    set.share()?;
    Ok(set)
}

/// Returns the number of pieces of the contents. Reports a number that doesn't fit a message as out of memory.
fn pieces_in(contents: &Contents) -> Result<u16, AllocError>
    ensures { IfOk result (λ of. of ≡ pieces_of (length (contents_of contents.now).records)) }
{
    match u16::try_from(contents.pieces()) {
        Ok(of) => Ok(of),
        Err(_) => Err(AllocError),
    }
}

/// Returns the Installs of a log found, with a lineage, for the nodes of a group: one for each piece, in order.
pub fn group_installs(
    alloc: Global,
    group: u8,
    label: Label,
    lineage: &Lineage,
    log: &RecordSet,
) -> Result<Vec<Message>, AllocError>
    ensures { IfOk result (λ messages. messages_of messages.items ≡ in_pieces (to_install (lineage_of lineage.now)
        (log_of_set log.now) group) (model.Message.Install group (wire.label_of label))) }
{
    let whole = Contents {
        lineage: lineage.clone()?,
        records: of_group(alloc, group, log)?,
    };
    let of = pieces_in(&whole)?;
    let mut messages = Vec::new(alloc);
    for piece in 0..of {
        messages.push(Message::Install(Install {
            group,
            label,
            piece,
            of,
            contents: Box::new(alloc, whole.piece(usize::from(piece))?)?,
        }))?;
    }
    Ok(messages)
}

/// Returns an Install without records for each group whose new place is of a later epoch and that hasn't joined, in
/// order of group.
pub(crate) fn unjoined_installs(
    alloc: Global,
    volume: u32,
    group_states: &GroupStates,
    lineage: &Lineage,
    places: &[Place],
) -> Result<Vec<Message>, AllocError>
    requires { length places.now ≤ 16 }
    ensures { IfOk result (λ messages. messages_of messages.items ≡ installs (length places.now) volume
        (place_in (map wire.place_of places.now)) (lineage_of lineage.now) []
        (later_unjoined (groups_in group_states.now) (place_in (map wire.place_of places.now)))) }
{
    let none = RecordSet::new(alloc);
    let mut messages = Vec::new(alloc);
    for group in 0..places.len() as u8 {
        let place = places[usize::from(group)];
        if group_states.epoch(group) < place.epoch && !group_states.has_joined(group) {
            let label = label_at(volume, place);
            let mut pieces = group_installs(alloc, group, label, lineage, &none)?;
            messages.append(&mut pieces)?;
        }
    }
    Ok(messages)
}
