//! Borrowed records for messages.

ghost use Rattle.std.specs.Prelude.{◌≡◌, IfOk};
ghost use Rattle.volume_model.specs.Message as model;
ghost use Rattle.redo_record.specs.Common.{shared_redo};
ghost use Rattle.wire.specs.Message.{label_of, message_of};

use crate::label::Label;
use crate::message::{Gossip, Message, Write};
use redo_record::SharedRecord;
use std::alloc::AllocError;

/// A record that an actor lends for a message, with the message's group and label.
#[derive(Clone, Copy)]
pub struct Carried<'a> {
    /// The group.
    pub group: u8,
    /// The message's epochs.
    pub label: Label,
    /// The record.
    pub packet: &'a SharedRecord,
}

impl Carried<'_> {
    /// Returns the `Write` that carries the record. Fails only with `NoMemory`.
    pub fn write(&self) -> Result<Message, AllocError>
        ensures { IfOk result (λ message. message_of message ≡ model.Message.Write self.now.group
            (label_of self.now.label) (shared_redo self.now.packet.now)) }
    {
        Ok(Message::Write(Write {
            group: self.group,
            label: self.label,
            packet: self.packet.clone()?,
        }))
    }

    /// Returns the `Gossip` that carries the record. Fails only with `NoMemory`.
    pub fn gossip(&self) -> Result<Message, AllocError>
        ensures { IfOk result (λ message. message_of message ≡ model.Message.Gossip self.now.group
            (label_of self.now.label) (shared_redo self.now.packet.now)) }
    {
        Ok(Message::Gossip(Gossip {
            group: self.group,
            label: self.label,
            packet: self.packet.clone()?,
        }))
    }
}
