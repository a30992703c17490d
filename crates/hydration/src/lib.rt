//! Hydration: a new member becomes whole from copies of what the members of a read quorum hold. Copies come in pieces.
#![tactic(auto)]

mod brought;
mod change;
mod copied;
mod found;
mod hydration;
mod kept;
mod kept_copy;
mod pieces;

pub use change::Change;
pub use copied::{Copied, HydratedState};
pub use found::{newest_with, senders, with_found};
pub use hydration::Hydration;
pub use kept::Kept;
pub use kept_copy::{Keeping, KeptCopy};
pub use pieces::Pieces;
