//! The place of a fault in a plan's text.

use crate::json_walk::{BLANKS, LEVELS, walk_over};
use crate::plan_place::check_plan;
use crate::trail::{Step, Trail};
use json::{Reader, Scratch, Tape};
use plan::PLAN_BYTES;
use quorum_expr::tape_root;
use serde::Serialize;
use std::alloc::{AllocError, Global};

/// The place of a fault in a plan's text.
#[derive(Drop, Serialize)]
pub struct FaultPlace {
    /// The line, from 1.
    pub line: usize,
    /// The column, from 1, in bytes.
    pub column: usize,
    /// Whether the text ends there.
    pub is_end: bool,
    /// The path of keys and items, as `groups[0].configurations[1].read`; empty for the whole text.
    pub path: String,
    /// What is expected there.
    pub expected: &'static str,
}

/// A position in a text.
#[derive(Clone, Copy, Serialize)]
pub(crate) struct Position {
    /// The line, from 1.
    pub line: usize,
    /// The column, from 1, in bytes.
    pub column: usize,
}

/// Returns the offset of the first byte from an offset on that isn't a blank.
fn behind_blanks(text: &str, at: usize) -> usize {
    let rest = text.get(at..).unwrap_or("");
    let value = rest.trim_start_matches(BLANKS);
    at.saturating_add(rest.len().saturating_sub(value.len()))
}

/// Returns the offset of the value at a key of the object that a text begins with: of the last one, if the key is
/// repeated.
fn offset_of_key(
    text: &str,
    key: &str,
    scratch: &mut Scratch,
) -> Result<Option<usize>, AllocError> {
    let mut reader = Reader::new(text, scratch)?;
    let mut found = None;
    let _ = reader.next();
    for _ in 0..text.len() {
        let Ok(Some(name)) = reader.next_key() else {
            return Ok(found);
        };
        if name == key {
            found = Some(reader.offset());
        }
        if reader.skip_value(LEVELS).is_err() {
            return Ok(found);
        }
    }
    Ok(found)
}

/// Returns the offset of an item of the array that a text begins with.
fn offset_of_item(
    text: &str,
    item: usize,
    scratch: &mut Scratch,
) -> Result<Option<usize>, AllocError> {
    let mut reader = Reader::new(text, scratch)?;
    let _ = reader.next();
    for _ in 0..item {
        if reader.skip_value(LEVELS).is_err() {
            return Ok(None);
        }
    }
    Ok(Some(reader.offset()))
}

/// Returns the offset of the value at a path of a text, or of the last value on the path that is there.
fn offset_of(text: &str, steps: &[Step], scratch: &mut Scratch) -> Result<usize, AllocError> {
    let mut at = behind_blanks(text, 0);
    for step in steps {
        let rest = text.get(at..).unwrap_or("");
        let found = match step {
            Step::Key(key) => offset_of_key(rest, key, scratch)?,
            Step::Item(item) => offset_of_item(rest, *item, scratch)?,
        };
        let Some(offset) = found else {
            return Ok(at);
        };
        at = behind_blanks(text, at.saturating_add(offset));
    }
    Ok(at)
}

/// Returns the position of an offset in a text.
pub(crate) fn position_at(text: &[u8], offset: usize) -> Position {
    let (mut line, mut column) = (1usize, 1usize);
    for byte in text.iter().take(offset) {
        column = column.saturating_add(1);
        if *byte == b'\n' {
            line = line.saturating_add(1);
            column = 1;
        }
    }
    Position { line, column }
}

/// Returns the place at an offset of a text.
fn place_at(alloc: Global, text: &[u8], offset: usize, expected: &'static str) -> FaultPlace {
    let Position { line, column } = position_at(text, offset);
    FaultPlace {
        line,
        column,
        is_end: offset >= text.len(),
        path: String::new(alloc),
        expected,
    }
}

/// Returns the place at which a text ceases to be JSON. If it is JSON, `otherwise` is expected of the whole text.
fn syntax_place(
    alloc: Global,
    text: &str,
    otherwise: &'static str,
) -> Result<FaultPlace, AllocError> {
    let mut scratch = Scratch::new(alloc);
    let walked = walk_over(alloc, text, &mut scratch)?;
    let (offset, expected) = walked.fault.unwrap_or((0, otherwise));
    Ok(place_at(alloc, text.as_bytes(), offset, expected))
}

/// Returns the place of the first fault of a text that is JSON, `None` if it is a plan.
fn value_place(
    alloc: Global,
    text: &str,
    tape: &Tape<'_>,
) -> Result<Option<FaultPlace>, AllocError> {
    let Some(root) = tape_root(tape) else {
        let otherwise = "numbers within the range of 64-bit floats";
        return Ok(Some(syntax_place(alloc, text, otherwise)?));
    };
    let mut trail = Trail::new();
    let Err(expected) = check_plan(&root, &mut trail) else {
        return Ok(None);
    };
    let mut scratch = Scratch::new(alloc);
    let offset = offset_of(text, trail.steps(), &mut scratch)?;
    let mut place = place_at(alloc, text.as_bytes(), offset, expected);
    write!(place.path, "{trail}")?;
    Ok(Some(place))
}

/// Returns the place of the first fault of a plan's text, or `None` if it is the text of a plan.
///
/// # Errors
/// Memory ran out.
pub fn fault_place(alloc: Global, text: &[u8]) -> Result<Option<FaultPlace>, AllocError> {
    if text.len() > PLAN_BYTES as usize {
        return Ok(Some(place_at(alloc, text, 0, "at most 16,777,216 bytes")));
    }
    let text = match simdutf8::compat::from_utf8(text) {
        Ok(text) => text,
        Err(error) => return Ok(Some(place_at(alloc, text, error.valid_up_to(), "text in UTF-8"))),
    };
    let mut scratch = Scratch::new(alloc);
    match Tape::parse(text, &mut scratch, Vec::new(alloc)) {
        Ok(tape) => value_place(alloc, text, &tape),
        Err(json::Error::OutOfMemory) => Err(AllocError),
        Err(_) => Ok(Some(syntax_place(alloc, text, "JSON")?)),
    }
}
