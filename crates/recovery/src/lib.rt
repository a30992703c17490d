//! Recoveries. A recovery finds the log that nodes hold, cuts it, installs it, and becomes the writer of its volume
//! epoch.
#![tactic(auto)]

mod chain;
mod cut_reader;
mod finding;
mod found;
mod grounded_lsns;
mod messages;
mod one_chain;
mod recovery;
mod reported;

pub use cut_reader::{cut_of, is_growing};
pub use found::Found;
pub use recovery::Recovery;
