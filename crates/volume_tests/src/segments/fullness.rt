//! Tests of segments with the most records.

use super::inputs::Input::{CopyPiece, Hydrate, InstallPiece, Write};
use super::inputs::Part::Of;
use super::inputs::Sent::Ours;
use super::nodes::At::{self, Fresh, Whole};
use super::nodes::node;
use super::rows::{Row, broken_by};
use super::steps::Reply::{Acks, Nothing};
use super::steps::answer;
use std::alloc::Global;
use std::test::*;
use volume_model::Fault::{self, Full};

/// The most records of a segment.
const MOST: u64 = 1_048_576;

/// No more records are taken, and each that is held is acknowledged again.
const ONCE_INSTALLED: &[Row] = &[
    (Write(0, 2, 1, Ours(MOST + 1)), Err(Full), MOST),
    (Write(0, 2, 1, Ours(MOST)), Ok(Acks(MOST)), MOST),
];

/// One more record is copied from another member.
const ONCE_COPIED: &[Row] = &[
    (
        CopyPiece(2, 1, 1, Of(0, 1, MOST + 1, MOST + 1)),
        Ok(Nothing),
        0,
    ),
    (Hydrate, Err(Full), 0),
];

/// Installs or copies the most records, in the most pieces. Returns the number of the first piece with a wrong answer,
/// and the index of the first row with another answer after it.
fn filled(alloc: Global, at: At, rows: &[Row]) -> Result<(Option<u16>, Option<usize>), Fault> {
    let mut node = node(alloc, at)?;
    for piece in 0..4096 {
        let before = u64::from(piece) * 256;
        let part = Of(piece, 4096, before + 1, before + 256);
        let (input, last) = match at {
            Whole => (InstallPiece(2, 1, part), Acks(MOST)),
            _ => (CopyPiece(2, 0, 1, part), Nothing),
        };
        let expected = if piece == 4095 { last } else { Nothing };
        if answer(alloc, &mut node, input)? != expected {
            return Ok((Some(piece), None));
        }
    }
    Ok((None, broken_by(alloc, &mut node, rows)))
}

/// The most records are installed, and no more records are taken.
#[test]
fn installed_to_the_full(rt: HostRuntime) {
    assert_eq!(rt; filled(rt.alloc(), Whole, ONCE_INSTALLED), Ok((None, None)));
}

/// Copies with one record more than a segment may hold make no member whole.
#[test]
fn copied_beyond_the_full(rt: HostRuntime) {
    assert_eq!(rt; filled(rt.alloc(), Fresh, ONCE_COPIED), Ok((None, None)));
}
