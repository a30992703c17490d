//! Searches for a tree that refutes a claim: by closing pairs of subexpressions, by the rules over items, and by cases
//! of members. The result isn't trusted: it is proved that each call is safe and ends, and the caller has the tree
//! checked.

mod cases;
mod closed;
mod closing;
mod equals;
mod finding;
mod grid;
mod leaves;
mod lists;
mod matching;
mod needs;
mod order;
mod parts;
mod rules;
mod spending;
mod state;

pub use finding::{Tree, find_tree};
