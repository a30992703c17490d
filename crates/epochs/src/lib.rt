//! The authority of a volume, which assigns volume epochs and leads each group along its plan.
#![tactic(auto)]

mod authority;
mod snapshot;

pub use authority::{Authority, Readiness};
pub use snapshot::AuthoritySnapshot;
