//! The writer of a volume epoch, which numbers redo records and tracks how far the log is durable.
#![tactic(auto)]

mod block_lsns;
mod change;
mod count;
mod counts;
mod durability;
mod group_state;
mod group_states;
mod inline_bytes;
mod installs;
mod issuing;
mod last_lsns;
mod log;
mod lookup;
mod places;
mod transaction;
mod writer;

pub use change::Change;
pub use count::Count;
pub use group_state::GroupState;
pub use group_states::GroupStates;
pub use installs::{group_installs, label_at};
pub use log::Log;
pub use places::are_places;
pub use transaction::MOST_CHANGES;
pub use writer::Writer;
