//! The place of a fault in a plan's text, in words.

use crate::json_walk::walk_over;
use crate::page::Page;
use crate::text_place::{FaultPlace, Position, fault_place, position_at};
use json::Scratch;
use plan::PLAN_BYTES;
use std::alloc::{AllocError, Global};

/// Returns the position of the first key in a text that its object has already.
pub(crate) fn repeated_key(alloc: Global, text: &[u8]) -> Result<Option<Position>, AllocError> {
    if text.len() > PLAN_BYTES as usize {
        return Ok(None);
    }
    let Ok(utf8) = simdutf8::basic::from_utf8(text) else {
        return Ok(None);
    };
    let mut scratch = Scratch::new(alloc);
    let walked = walk_over(alloc, utf8, &mut scratch)?;
    match walked.repeated {
        Some(offset) => Ok(Some(position_at(text, offset))),
        None => Ok(None),
    }
}

/// Appends the position of the first repeated key of an object, if there is one.
fn add_warning(page: &mut Page, text: &[u8]) -> Result<(), AllocError> {
    let Some(Position { line, column }) = repeated_key(page.alloc, text)? else {
        return Ok(());
    };
    let warning = format!(in page.alloc;
        "warning: line {line}, column {column}: the object has this key already: its last value counts"
    )?;
    page.add(0, warning.as_str())
}

/// Appends a place, and what is expected there.
fn add_place(page: &mut Page, place: &FaultPlace) -> Result<(), AllocError> {
    let (line, column, path) = (place.line, place.column, place.path.as_str());
    let mut text = format!(in page.alloc; "line {line}, column {column}: {path}")?;
    if !path.is_empty() {
        text.push_str(": ")?;
    }
    write!(text, "expected {}", place.expected)?;
    if place.is_end {
        text.push_str(", but the text ends")?;
    }
    page.add(0, text.as_str())
}

/// Returns the line about the first repeated key of an object in a plan's text, or no line.
///
/// # Errors
/// Memory ran out.
pub fn warning_lines(alloc: Global, text: &[u8]) -> Result<String, AllocError> {
    let mut page = Page::new(alloc);
    add_warning(&mut page, text)?;
    Ok(page.into_text())
}

/// Returns the same line for a text that isn't a plan's, and after it the place of its fault.
///
/// # Errors
/// Memory ran out.
pub fn place_lines(alloc: Global, text: &[u8]) -> Result<String, AllocError> {
    let mut page = Page::new(alloc);
    add_warning(&mut page, text)?;
    if let Some(place) = fault_place(alloc, text)? {
        add_place(&mut page, &place)?;
    }
    Ok(page.into_text())
}
