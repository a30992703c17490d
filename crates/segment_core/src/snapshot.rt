//! The state of a segment that survives a restart.

use std::sync::Arc;
use wire::{Contents, Place};

/// The state of a segment that survives a restart: all of it except the pieces of copies and of an install that it
/// received. It shares its records with the segment.
#[derive(Drop)]
pub struct SegmentSnapshot {
    /// The volume epoch that the segment has promised.
    pub volume: u32,
    /// The configuration and the membership epoch of the last membership step that it took; epoch 0 before the first.
    pub place: Place,
    /// Whether the segment is whole.
    pub whole: bool,
    /// The lineage and the records.
    pub contents: Arc<Contents>,
    /// The number of copies that it has made, which is the series of the last one.
    pub copied: u64,
}
