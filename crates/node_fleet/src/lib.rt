//! A fleet: the actors of a volume, each with a lock, the journal of their steps, and the mailboxes of its nodes.
#![tactic(auto)]

mod action;
mod authority;
mod authority_attempt;
mod base;
mod calls;
mod client;
mod client_attempt;
mod client_calls;
mod closed;
mod closing;
mod fleet;
mod gate;
mod halt;
mod halting;
mod locking;
mod mailbox;
mod mailboxes;
mod node;
mod node_calls;
mod opening;
mod pass;
mod reaction;
mod site;
mod step;

pub use base::Base;
pub use closed::Journal;
pub use fleet::Fleet;
pub use gate::StepGate;
pub use journal::{Receipt, Row};
pub use mailbox::{Letter, MailSeat, Mailbox};
pub use pass::Pass;
pub use site::FleetSite;
