//! The journal lists the steps of many actors, each of which has its own lock. Callers enter their steps with passes.
//! The journal is a run of the model.
#![tactic(auto)]

mod actor_name;
mod cursor;
mod entry;
mod history;
mod last_entries;
mod log;
mod message_ref;
mod pass;
mod row;

pub use actor_name::ActorName;
pub use cursor::ActorCursor;
pub use entry::{Entry, Receipt};
pub use history::{History, Opened};
pub use log::Log;
pub use message_ref::MessageRef;
pub use pass::Pass;
pub use row::{Row, Site};
