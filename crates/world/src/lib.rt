//! The world of a volume: all actors and all messages, and runs of events over them.
#![tactic(auto)]

mod actions;
mod actors;
mod addressed;
mod authority_step;
mod birth;
mod client;
mod client_step;
mod clients;
mod ending;
mod event;
mod node_states;
mod node_step;
mod nodes;
mod numbering;
mod orders;
mod outcome;
mod progress;
mod recovering;
mod running;
mod split;
mod writing;

pub use actions::{ActorAction, AuthorityAction, ClientAction};
pub use client::{Client, ClientState};
pub use event::{Event, Order};
pub use node_states::NodeState;
pub use nodes::{MEMBERS, slot};
pub use outcome::{Outcome, RecoveryOutcome, WriterOutcome};
pub use progress::{
    early_steps_lose, readable_volumes_commit, readable_volumes_recover, volumes_go_on,
    waiting_keeps_readers,
};
pub use recovery::Found;
pub use running::{promised, run, run_orders};
