//! Messages between actors.

ghost use Rattle.std.specs.Prelude.{◌≡◌, ◌==◌, ◌&&◌, nat_lt};
ghost use Rattle.redo_record.specs.Common.{shared_redo};

use crate::contents::Contents;
use crate::label::{Label, Place};
use crate::view::View;
use redo_record::SharedRecord;
use std::sync::Arc;

/// The new place of a group, for its nodes.
#[derive(Clone, Copy, Debug, PartialEq, Eq)]
pub struct StepTo {
    /// The group.
    pub group: u8,
    /// The new place.
    pub place: Place,
}

/// A recovery's fence of a group's nodes. It asks each for a promise and a report.
#[derive(Clone, Copy, Debug, PartialEq, Eq)]
pub struct Fence {
    /// The group.
    pub group: u8,
    /// The message's epochs.
    pub label: Label,
}

/// A node's report to the recovery that fenced it.
#[derive(Drop)]
pub struct Report {
    /// The group.
    pub group: u8,
    /// The label of the fence.
    pub label: Label,
    /// The sender, a member of the group.
    pub from: u8,
    /// What the sender holds. Later reports share it until that changes.
    pub contents: Arc<Contents>,
}

/// A piece of the contents that a recovery installs on a group's nodes.
#[derive(Drop)]
pub struct Install {
    /// The group.
    pub group: u8,
    /// The message's epochs.
    pub label: Label,
    /// The number of the piece, from 0.
    pub piece: u16,
    /// The number of pieces.
    pub of: u16,
    /// The piece's contents.
    pub contents: Box<Contents>,
}

/// A record of a writer's log, for the nodes of its group.
#[derive(Drop)]
pub struct Write {
    /// The group.
    pub group: u8,
    /// The message's epochs.
    pub label: Label,
    /// The record.
    pub packet: SharedRecord,
}

/// A record that a node holds, for the other nodes of its group.
#[derive(Drop)]
pub struct Gossip {
    /// The group.
    pub group: u8,
    /// The node's epochs.
    pub label: Label,
    /// The record.
    pub packet: SharedRecord,
}

/// A node's complete point, for the client whose message it acknowledges.
#[derive(Clone, Copy, Debug, PartialEq, Eq)]
pub struct Ack {
    /// The group.
    pub group: u8,
    /// The label of the acknowledged message.
    pub label: Label,
    /// The sender, a member of the group.
    pub from: u8,
    /// The segment's complete point.
    pub scl: u64,
}

/// A request for copies from a node that isn't whole.
#[derive(Clone, Copy, Debug, PartialEq, Eq)]
pub struct CopyAsk {
    /// The group.
    pub group: u8,
    /// The membership epoch of the node.
    pub epoch: u32,
}

/// A piece of a copy of a segment, for a node that isn't whole.
#[derive(Drop)]
pub struct CopyReport {
    /// The group.
    pub group: u8,
    /// The sender, a member of the group.
    pub from: u8,
    /// The number of the piece, from 0.
    pub piece: u16,
    /// The number of pieces.
    pub of: u16,
    /// The membership epoch of both nodes.
    pub epoch: u32,
    /// The copy's number, and the piece's contents.
    pub part: Box<CopyPart>,
}

/// A copy's number, and a piece's contents.
#[derive(Drop)]
pub struct CopyPart {
    /// The copy's number: 1 for the first copy that the sender makes.
    pub series: u64,
    /// The piece's contents.
    pub contents: Contents,
}

/// A writer's request for a block's page.
#[derive(Clone, Copy, Debug, PartialEq, Eq)]
pub struct PageAsk {
    /// The group.
    pub group: u8,
    /// The message's epochs.
    pub label: Label,
    /// The block.
    pub block: u32,
    /// The LSN up to which the page has the block's records.
    pub point: u64,
}

/// A block's page.
#[derive(Drop)]
pub struct Page {
    /// The group.
    pub group: u8,
    /// The sender, a member of the group.
    pub from: u8,
    /// The label of the request.
    pub label: Label,
    /// The block and its bytes.
    pub image: Box<Image>,
}

/// The bytes of a block up to an LSN.
#[derive(Clone, Copy)]
pub struct Image {
    /// The block.
    pub block: u32,
    /// The LSN up to which the page has the block's records.
    pub point: u64,
    /// The bytes.
    pub bytes: [u8; 512],
}

/// A message between actors. A run keeps all messages, so large parts are boxed.
#[derive(Drop)]
pub enum Message {
    /// The places of the groups, for a client.
    View(View),
    /// The new place of a group.
    StepTo(StepTo),
    /// A recovery's fence.
    Fence(Fence),
    /// A node's report to a recovery.
    Report(Report),
    /// A piece of an install.
    Install(Install),
    /// A record of a writer's log.
    Write(Write),
    /// A record that a node holds, for the others.
    Gossip(Gossip),
    /// An acknowledgement.
    Ack(Ack),
    /// A request for copies.
    CopyAsk(CopyAsk),
    /// A piece of a copy of a segment, for a node that isn't whole.
    CopyReport(CopyReport),
    /// A request for a page.
    PageAsk(PageAsk),
    /// A block's page.
    Page(Page),
}

const _: () = prove!(size_of::<Message>() <= 32);

impl Write {
    /// Returns whether the message is for the nodes of the group: it names the group, and its record is the group's.
    pub fn is_for(&self, group: u8) -> bool
        ensures { result ≡ (self.now.group == group && (shared_redo self.now.packet).group == group) }
    {
        self.group == group && self.packet.group() == group
    }
}

impl Gossip {
    /// Returns whether the message is for the nodes of the group: it names the group, and its record is the group's.
    pub fn is_for(&self, group: u8) -> bool
        ensures { result ≡ (self.now.group == group && (shared_redo self.now.packet).group == group) }
    {
        self.packet.group() == group && self.group == group
    }
}

impl Install {
    ghost use Rattle.volume_model.specs.Common.{in_group};
    ghost use Rattle.wire.specs.Contents.{contents_of};

    /// Returns whether the message is for the nodes of the group: it names the group, and the piece's records are the
    /// group's.
    pub fn is_for(&self, group: u8) -> bool
        ensures { result ≡ (self.now.group == group && in_group group (contents_of self.now.contents.value)) }
    {
        self.contents.is_of(group) && self.group == group
    }
}

impl CopyReport {
    ghost use Rattle.volume_model.specs.Common.{in_group};
    ghost use Rattle.wire.specs.Contents.{contents_of};

    /// Returns whether the message is for the nodes of the group: it names the group, the piece's records are the
    /// group's, and the sender is a member (below 64).
    pub fn is_for(&self, group: u8) -> bool
        ensures { result ≡ (self.now.group == group && in_group group (contents_of self.now.part.value.contents) &&
            nat_lt self.now.from 64) }
    {
        self.group == group && self.part.contents.is_of(group) && self.from < 64
    }
}

impl Report {
    ghost use Rattle.volume_model.specs.Common.{is_for};
    ghost use Rattle.wire.specs.Message.{message_of};

    /// Returns whether the message is for the client of this volume epoch, which has `groups` groups: it names one of
    /// these, its records are that group's, and the sender is a member (below 64).
    pub fn is_to(&self, volume: u32, groups: u8) -> bool
        ensures { result ≡ is_for volume groups (message_of (Message.Report self.now)) }
    {
        self.label.volume == volume
            && self.group < groups
            && self.contents.is_of(self.group)
            && self.from < 64
    }
}

impl Ack {
    ghost use Rattle.volume_model.specs.Common.{is_for};
    ghost use Rattle.wire.specs.Message.{message_of};

    /// Returns whether the message is for the client of this volume epoch, which has `groups` groups: it names one of
    /// these, and the sender is a member (below 64).
    pub fn is_to(&self, volume: u32, groups: u8) -> bool
        ensures { result ≡ is_for volume groups (message_of (Message.Ack self.now)) }
    {
        self.label.volume == volume && self.group < groups && self.from < 64
    }
}

impl Page {
    ghost use Rattle.volume_model.specs.Common.{is_for};
    ghost use Rattle.wire.specs.Message.{message_of};

    /// Returns whether the message is for the client of this volume epoch, which has `groups` groups: it names one of
    /// these, and the sender is a member (below 64).
    pub fn is_to(&self, volume: u32, groups: u8) -> bool
        ensures { result ≡ is_for volume groups (message_of (Message.Page self.now)) }
    {
        self.from < 64 && self.group < groups && self.label.volume == volume
    }
}
