//! Nodes for tests.

use super::inputs::{Held, Input, Sent};
use super::plans::{REPLACED, SMALL};
use super::steps::answer;
use crate::texts::checked;
use segment_core::Segment;
use std::alloc::Global;
use volume_model::Fault;

/// A node.
#[derive(Clone, Copy)]
pub enum At {
    /// Member 0 of the small plan at birth: whole, with whole pages, no record, and both epochs 1.
    Whole,
    /// The same with the records from 1 up to an LSN.
    Holding(u64),
    /// The same at birth, with volume epoch 2 promised.
    Promised,
    /// Member 1 of the small plan at birth, which keeps no whole pages.
    Tail,
    /// Member 3 of the small plan at birth: not whole, and at membership epoch 0.
    Early,
    /// The same after its step to membership epoch 2.
    Fresh,
    /// A member that the small plan doesn't name.
    Nobody,
    /// Member 6 of the plan that adds it, at birth: not whole, and at membership epoch 0.
    Joining,
    /// The same after its step to membership epoch 2.
    Joined,
    /// The same with copies from members 0, 1 and 2 of the record with LSN 1.
    Copied,
    /// The same after its hydration.
    Hydrated,
}

/// A fence of volume epoch 2.
const PROMISE: &[Input] = &[Input::Fence(0, 2, 1)];

/// A step to membership epoch 2.
const STEP: &[Input] = &[Input::Step(0, 1, 2)];

/// The step, and copies of a read quorum.
const COPIES: &[Input] = &[
    Input::Step(0, 1, 2),
    Input::CopyOf(0, 2, 0, Held::First(0)),
    Input::CopyOf(0, 2, 1, Held::First(0)),
    Input::CopyOf(0, 2, 2, Held::First(0)),
];

/// The same, and the hydration.
const HYDRATION: &[Input] = &[
    Input::Step(0, 1, 2),
    Input::CopyOf(0, 2, 0, Held::First(0)),
    Input::CopyOf(0, 2, 1, Held::First(0)),
    Input::CopyOf(0, 2, 2, Held::First(0)),
    Input::Hydrate,
];

/// Returns the inputs that lead to the node.
fn inputs_before(at: At) -> &'static [Input] {
    match at {
        At::Promised => PROMISE,
        At::Fresh | At::Joined => STEP,
        At::Copied => COPIES,
        At::Hydrated => HYDRATION,
        _ => &[],
    }
}

fn born(alloc: Global, at: At) -> Result<Segment, Fault> {
    let (text, member) = match at {
        At::Whole | At::Holding(_) | At::Promised => (SMALL, 0),
        At::Tail => (SMALL, 1),
        At::Early | At::Fresh => (SMALL, 3),
        At::Nobody => (SMALL, 4),
        At::Joining | At::Joined | At::Copied | At::Hydrated => (REPLACED, 6),
    };
    Segment::new(alloc, checked(alloc, text)?, 0, member)
}

/// Returns the node.
pub fn node(alloc: Global, at: At) -> Result<Segment, Fault> {
    let mut node = born(alloc, at)?;
    for input in inputs_before(at) {
        answer(alloc, &mut node, *input)?;
    }
    if let At::Holding(last) = at {
        for lsn in 1..=last {
            answer(alloc, &mut node, Input::Write(0, 1, 1, Sent::Ours(lsn)))?;
        }
    }
    Ok(node)
}
