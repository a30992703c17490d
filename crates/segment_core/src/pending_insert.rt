//! Records that are prepared to be added.

use crate::block_records::RecordPlace;
use crate::chains::Chains;
use redo_record::{RunPlace, SharedRecord};

/// A record that is prepared to be added to its block's list.
#[derive(Drop)]
pub struct OfBlock {
    /// The index of the block's list.
    pub list: u32,
    /// The place in the list.
    pub place: RecordPlace,
    pub packet: SharedRecord,
}

/// A record that is prepared to be added.
#[derive(Drop)]
pub struct PendingInsert {
    pub place: RunPlace,
    pub packet: SharedRecord,
    /// The record for its block's list, if the index of blocks is built.
    pub of_block: Option<OfBlock>,
    /// The chains after it is added.
    pub chains: Chains,
}
