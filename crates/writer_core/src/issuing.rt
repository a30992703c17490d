//! Makes the records of a transaction, and their messages.

ghost use Rattle.std.specs.Prelude.{◌≡◌, ◌+◌, ◌^◌, ◌<◌, ◌≤◌, ◌++◌, ◌∷◌, [], true, length, max, take, IfOk, IfErr, OnOk};
ghost use Rattle.volume_model.specs.declared.fault.Fault.TheVariants.{NoMemory};
ghost use Rattle.volume_model.specs.Common.{last_lsn, place_of, record_of, issued_log, issued_writes, is_change, every, label_of};
ghost use Rattle.redo_record.specs.Common.{shared_redo};
ghost use Rattle.volume_model.specs.Message as model;
ghost use Rattle.wire.specs.Common.{listed, messages_of};
ghost use Rattle.writer_core.specs.Log.{found_of, log_in, packets_in};
ghost use Rattle.writer_core.specs.LastLsns.{AreLastsOf};
ghost use Rattle.writer_core.specs.Groups.{groups_in};
ghost use Rattle.writer_core.specs.Changes.{change_of, changes_of};
ghost use Rattle.writer_core.specs.Carried.{carried_write};

use crate::change::Change;
use crate::group_states::GroupStates;
use crate::last_lsns::LastLsns;
use crate::log::Log;
use redo_record::{Record, SharedRecord};
use std::alloc::{AllocError, Global};
use std::mem;
use volume_model::Fault;
use wire::{Carried, Message, Messages};

/// The volume epoch of a writer, and the LSN after which its own records begin.
#[derive(Clone, Copy)]
pub struct Span {
    pub volume: u32,
    pub start: u64,
    pub ghost assigned: { 1 ≤ volume },
}

/// Makes the record of a change, to be appended to a log, and enters it into `last_lsns`; `point` makes it a
/// consistency point.
#[inline(always)]
fn next_packet(
    alloc: Global,
    span: Span,
    log: &Log,
    last_lsns: &mut LastLsns,
    change: &Change,
    point: bool,
) -> Result<SharedRecord, AllocError>
    requires lasts { AreLastsOf last_lsns.old (packets_in log.now) }
    requires room { max (last_lsn (log_in log.now)) span.start < 2 ^ 62 }
    requires group { (change_of change.now).group < 16 }
    requires place { (change_of change.now).offset + length (change_of change.now).bytes ≤ 512 }
    ensures made { IfOk result (λ packet. shared_redo packet ≡ record_of span.volume span.start (log_in log.now)
        (change_of change.now) point) }
    ensures entered { IfOk result (λ packet. AreLastsOf last_lsns.new (packets_in log.now ++ packet ∷ [])) }
{
    let last = log.last_lsn();
    let lsn = last.max(span.start) + 1;
    let (group, block) = (change.group(), change.block());
    let prev_group = last_lsns.of_group(log, group)?;
    let prev_block = last_lsns.enter(log, group, block, lsn)?;
    let record = Record {
        lsn,
        volume_epoch: span.volume,
        prev_volume: last,
        prev_group,
        prev_block,
        group,
        block,
        offset: change.offset(),
        bytes: change.payload(),
        point,
    };
    SharedRecord::pack(alloc, record)
}

/// Lends a record for a message to the nodes of its group, with a label of this volume epoch.
pub fn carry<'a>(volume: u32, group_states: &GroupStates, packet: &'a SharedRecord) -> Carried<'a>
    ensures { carried_write result ≡ model.Message.Write (shared_redo packet.now).group
        (label_of volume (place_of (groups_in group_states.now)) (shared_redo packet.now).group)
        (shared_redo packet.now) }
{
    let group = packet.group();
    Carried {
        group,
        label: group_states.label(volume, group),
        packet,
    }
}

/// Reserves room for this many messages. Room for one needs no list.
#[inline(always)]
pub fn room_for(alloc: Global, messages: usize) -> Result<Messages, AllocError>
    ensures { IfOk result (λ made. listed made ≡ []) }
{
    if messages <= 1 {
        return Ok(Messages::Empty);
    }
    Ok(Messages::Many(Vec::with_capacity(alloc, messages)?))
}

/// Adds a message. The first one needs no list.
#[inline(always)]
fn add(alloc: Global, messages: &mut Messages, message: Message) -> Result<(), AllocError>
    ensures { OnOk result (listed messages.new ≡ listed messages.old ++ message ∷ []) }
{
    match messages {
        Messages::Empty => *messages = Messages::One(message),
        Messages::One(_) => {
            let mut list = Vec::with_capacity(alloc, 2)?;
            mem::replace(messages, Messages::Empty).append_to(&mut list);
            list.push(message)?;
            *messages = Messages::Many(list);
        }
        Messages::Many(list) => list.push(message)?,
    }
    Ok(())
}

/// Appends the records of a transaction's changes to a log, and their Writes to `messages`. If memory runs out the log
/// may have grown by some of these records, and `last_lsns` is of no use.
pub fn append(
    alloc: Global,
    span: Span,
    group_states: &GroupStates,
    log: &mut Log,
    last_lsns: &mut LastLsns,
    changes: &[Change],
    messages: &mut Messages,
) -> Result<(), Fault>
    requires lasts { AreLastsOf last_lsns.old (packets_in log.old) }
    requires room { max (last_lsn (log_in log.old)) span.start + length changes.now ≤ 2 ^ 62 }
    requires few { length (groups_in group_states.now) ≤ 16 }
    requires good { every (is_change (length (groups_in group_states.now))) (changes_of changes.now) ≡ true }
    ensures logged { OnOk result (log_in log.new ≡ issued_log span.volume span.start (changes_of changes.now)
        (log_in log.old)) }
    ensures written { OnOk result (messages_of (listed messages.new) ≡ messages_of (listed messages.old)
        ++ issued_writes span.volume (place_of (groups_in group_states.now)) span.start (changes_of changes.now)
        (log_in log.old)) }
    ensures lasts { OnOk result (AreLastsOf last_lsns.new (packets_in log.new)) }
    ensures memory { IfErr result (λ e. e ≡ NoMemory) }
    ensures front { take (length (packets_in log.old)) (packets_in log.new) ≡ packets_in log.old }
    ensures found { found_of log.new ≡ found_of log.old }
{
    log.reserve(changes.len())?;
    for (i, change) in changes.iter().enumerate() {
        let packet = next_packet(alloc, span, log, last_lsns, change, i + 1 == changes.len())?;
        let message = carry(span.volume, group_states, &packet).write();
        log.push_reserved(packet);
        add(alloc, messages, message?)?;
    }
    Ok(())
}
