//! A segment of a protection group: its records, its complete point, and its reactions to messages.
#![tactic(auto)]

mod action;
mod assembly;
mod block_list;
mod block_places;
mod block_records;
mod blocks;
mod chains;
mod complete_point;
mod line;
mod one_chain;
mod pending_insert;
mod prepared;
mod records;
mod segment;
mod segment_state;
mod snapshot;
mod status;

pub use crate::chains::Chains;
pub use action::NodeAction;
pub use prepared::Prepared;
pub use segment::Segment;
pub use snapshot::SegmentSnapshot;
pub use status::SegmentStatus;
