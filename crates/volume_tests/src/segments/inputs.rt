//! Inputs of a node.

/// A piece of an install or of a copy.
#[derive(Clone, Copy)]
pub enum Part {
    /// Its number, the number of pieces, and its first and last LSN.
    Of(u16, u16, u64, u64),
    /// Its number, and the number of pieces, with one record, whose LSN is its number plus one.
    One(u16, u16),
}

/// The first of the three pieces of 600 records.
pub const FIRST_THIRD: Part = Part::Of(0, 3, 1, 256);

/// The second of them.
pub const SECOND_THIRD: Part = Part::Of(1, 3, 257, 512);

/// The last of them.
pub const LAST_THIRD: Part = Part::Of(2, 3, 513, 600);

/// The orders of three pieces.
pub const ORDERS: [[u16; 3]; 6] = [
    [0, 1, 2],
    [0, 2, 1],
    [1, 0, 2],
    [1, 2, 0],
    [2, 0, 1],
    [2, 1, 0],
];

/// Contents that come in one piece.
#[derive(Clone, Copy)]
pub enum Held {
    /// No record, and no lineage.
    Nothing,
    /// The record with LSN 1 of this group, with the lineage of the birth.
    First(u8),
}

/// A record of volume epoch 1, which writes `a` at the beginning of block 0 unless stated otherwise.
#[derive(Clone, Copy)]
pub enum Sent {
    /// The record with an LSN of group 0, chained to the LSN before.
    Ours(u64),
    /// The same for group 1.
    Others(u64),
    /// The record with the first LSN, whose `prev_group` is the second one and which is the first on its block.
    After(u64, u64),
    /// The record with an LSN, chained to the LSN before in its group and the first on its block, that writes one byte:
    /// the block, the offset, and the byte.
    Byte(u64, u32, u16, u8),
}

/// An input of a node. Of a message with a label the fields are the group, the label's volume epoch and membership
/// epoch, and then the others.
#[derive(Clone, Copy)]
pub enum Input {
    /// A fence.
    Fence(u8, u32, u32),
    /// An Install in one piece.
    Install(u8, u32, u32, Held),
    /// A piece of an Install for group 0, at a volume epoch whose recovery cut at 600, and at a membership epoch.
    InstallPiece(u32, u32, Part),
    /// A writer's record.
    Write(u8, u32, u32, Sent),
    /// A peer's record.
    Gossip(u8, u32, u32, Sent),
    /// The step of a group to a configuration, at a membership epoch.
    Step(u8, u8, u32),
    /// The request of a new member of a group for copies, at a membership epoch.
    CopyAsk(u8, u32),
    /// The first copy for a group, at a membership epoch, from this member, in one piece.
    CopyOf(u8, u32, u8, Held),
    /// A piece of a copy for group 0, at a membership epoch, from this member, with this number, and with the lineage
    /// of the birth.
    CopyPiece(u32, u8, u64, Part),
    /// A request for block 0 at a point.
    PageAsk(u8, u32, u32, u64),
    /// A message for clients: a View.
    View,
    /// A message for clients: a Report.
    Report,
    /// A message for clients: an Ack.
    Ack,
    /// A message for clients: a Page.
    Page,
    /// Restart.
    Restart,
    /// Become whole.
    Hydrate,
    /// Offer the record with an LSN.
    Offer(u64),
    /// Return the byte at an offset of a block's page at a point: the block, the point, and the offset.
    ByteOf(u32, u64, usize),
}
