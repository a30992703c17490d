//! Searches for the certificates of a plan's claims: finds one claim's certificate, and deals claims to workers that
//! steal from one another.
#![tactic(auto)]

mod dealing;
mod deque;
mod filling;
mod fitting;
mod gate;
mod hand;
mod lengths;
mod one;
mod own;
mod plain;
mod searching;
mod steal_handle;
mod table;
mod taking_back;
mod tree_search;
mod useful_workers;
mod working;

pub use dealing::deal;
pub use fitting::keep_shortest;
pub use gate::{Gate, NoGate};
pub use hand::Hand;
pub use one::{search_in, search_one};
pub use searching::search_all;
pub use taking_back::settle;
