//! Quorum expressions: their meaning, which are valid, their duals, and how they are read from JSON. A node of JSON is
//! a `&serde_json::Value` or a place of a `json::Tape`.
#![tactic(auto)]

mod counting;
mod expression;
mod form;
mod member_set;
mod node;
mod number;
mod on_tape;
mod on_value;
mod reading;
mod rebuilding;
mod root;
mod validity;

pub use counting::count_items;
pub use expression::{Expr, holds, holds_dual, wide};
pub use form::Lists;
pub use member_set::{MEMBERS, MemberSet};
pub use node::Node;
pub use on_tape::{TapeItems, TapeNode};
pub use reading::{read_expr, read_expr_at, value_at, whole};
pub use rebuilding::{copy_in, dual_in};
pub use root::{is_readable, readable_root, tape_root};
pub use validity::valid;
