//! Answers of a node.

use super::inputs::Input;
use super::messages::message;
use redo_record::RecordSet;
use segment_core::Segment;
use std::alloc::Global;
use volume_model::Fault;
use wire::{Message, Messages};

/// An answer of a node, in short.
#[derive(Clone, Copy, PartialEq, Eq)]
pub enum Reply {
    /// No message.
    Nothing,
    /// An acknowledgement of a complete point.
    Acks(u64),
    /// To a recovery: it holds the records from 1 up to an LSN and no others.
    Reports(u64),
    /// To a new member: the same.
    Copies(u64),
    /// A request for copies, at a membership epoch.
    Asks(u32),
    /// A page with this first byte, or a byte of a page.
    Byte(u8),
    /// To its peers: a record, with a volume epoch, a membership epoch and an LSN.
    Offers(u32, u32, u64),
    /// Any other answer.
    Another,
}

/// Returns the last LSN if these are the records from 1 on, in order, else the greatest number.
fn last_of(set: &RecordSet) -> u64 {
    let mut last: u64 = 0;
    let mut left = set.records();
    while let Some(packet) = left.next() {
        if last.checked_add(1) != Some(packet.lsn()) {
            return u64::MAX;
        }
        last = packet.lsn();
    }
    last
}

/// Returns a message in short.
fn reply_in(message: &Message) -> Reply {
    match message {
        Message::Ack(ack) => Reply::Acks(ack.scl),
        Message::Report(report) => Reply::Reports(last_of(&report.contents.records)),
        Message::CopyReport(copy) => Reply::Copies(last_of(&copy.part.contents.records)),
        Message::CopyAsk(ask) => Reply::Asks(ask.epoch),
        Message::Page(page) => Reply::Byte(page.image.bytes[0]),
        Message::Gossip(gossip) => {
            let label = gossip.label;
            Reply::Offers(label.volume, label.member, gossip.packet.lsn())
        }
        _ => Reply::Another,
    }
}

/// Returns messages in short.
pub fn reply_of(messages: &Messages) -> Reply {
    match messages {
        Messages::Empty => Reply::Nothing,
        Messages::One(message) => reply_in(message),
        Messages::Many(_) => Reply::Another,
    }
}

fn delivered(alloc: Global, node: &mut Segment, input: Input) -> Result<Reply, Fault> {
    let message = message(alloc, input)?;
    let answers = node.deliver(alloc, &message)?;
    Ok(reply_of(&answers))
}

/// Returns the node's answer.
pub fn answer(alloc: Global, node: &mut Segment, input: Input) -> Result<Reply, Fault> {
    match input {
        Input::Restart => {
            node.restart();
            Ok(Reply::Nothing)
        }
        Input::Hydrate => {
            node.hydrate(alloc)?;
            Ok(Reply::Nothing)
        }
        Input::Offer(lsn) => Ok(reply_in(&node.offer(lsn)?.gossip()?)),
        Input::ByteOf(block, point, place) => match node.page_at(alloc, block, point)?.get(place) {
            Some(byte) => Ok(Reply::Byte(*byte)),
            None => Ok(Reply::Another),
        },
        _ => delivered(alloc, node, input),
    }
}
