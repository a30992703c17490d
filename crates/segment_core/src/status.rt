//! What a segment says of itself.

/// What a segment says of itself.
#[derive(Clone, Copy)]
pub struct SegmentStatus {
    /// The volume epoch that it has promised.
    pub volume_epoch: u32,
    /// The membership epoch of the last step that it took, 0 before the first.
    pub membership_epoch: u32,
    /// The configuration of that step.
    pub configuration: u8,
    /// Whether it is whole.
    pub is_whole: bool,
    /// Its segment complete point: the greatest LSN up to which it holds all records of its group.
    pub complete_point: u64,
    /// How many records it holds.
    pub records: usize,
}
