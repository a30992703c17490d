//! Scripts: reads a text's lines as orders, and runs them on threads. Drivers take the lines in turn, and each node
//! takes its messages on its own thread.
#![tactic(auto)]

mod assignments;
mod changes;
mod completion;
mod completion_slot;
mod completion_table;
mod driving;
mod examples;
mod line;
mod named;
mod names;
mod nodes;
mod numbers;
mod numeral;
mod parts;
mod payload;
mod plain;
mod reading;
mod run;
mod seeking;
mod threads;
mod worker;

pub use driving::{Driven, drive};
pub use examples::say_their_lines;
pub use reading::{Script, ScriptFault, Step, read_script};
