//! Tables of inputs of a node and its answers.

use super::inputs::Input;
use super::nodes::{At, node};
use super::steps::{Reply, answer};
use segment_core::Segment;
use std::alloc::Global;
use std::process::Abort;
use volume_model::Fault;

/// An input, the expected answer or refusal, and the complete point after it.
pub type Row = (Input, Result<Reply, Fault>, u64);

/// The name of a table, the node at its beginning, and its rows.
pub type Table = (&'static str, At, &'static [Row]);

/// Returns the index of the first row with another answer of the node, `None` if there is none.
pub fn broken_by(alloc: Global, node: &mut Segment, rows: &[Row]) -> Option<usize> {
    for (place, (input, expected, point)) in rows.iter().enumerate() {
        if answer(alloc, node, *input) != *expected || node.scl() != *point {
            return Some(place);
        }
    }
    None
}

/// The same for a new node.
pub fn first_wrong(alloc: Global, at: At, rows: &[Row]) -> Result<Option<usize>, Fault> {
    let mut node = node(alloc, at)?;
    Ok(broken_by(alloc, &mut node, rows))
}

/// Fails at the first table with a row that has another answer.
pub fn are_kept(rt: &impl Abort, alloc: Global, tables: &[Table]) {
    for (what, at, rows) in tables {
        assert_eq!(rt; first_wrong(alloc, *at, rows), Ok(None), "{what}");
    }
}
