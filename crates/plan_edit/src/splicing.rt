//! Puts new configurations into a plan's text, behind those of a group. What is read from the text is compared with
//! what was to be put.

use crate::refusal::EditRefusal;
use json::{Reader, Scratch, Token};
use std::alloc::{AllocError, Global};

/// The levels of brackets around a configuration: the plan, the groups, a group, its configurations.
const LEVELS: u32 = 4;

/// Returns the offset of the bracket that closes the configurations of a group.
fn end_of(text: &str, group: u8, scratch: &mut Scratch) -> Result<Option<usize>, AllocError> {
    let mut reader = Reader::new(text, scratch)?;
    let (mut level, mut groups) = (0u32, 0u8);
    for _ in 0..text.len() {
        let offset = reader.offset();
        let Some(token) = reader.next() else {
            return Ok(None);
        };
        match token {
            Token::BeginObject | Token::BeginArray => level = level.saturating_add(1),
            Token::EndObject | Token::EndArray => {
                if level == LEVELS && groups == group {
                    return Ok(Some(offset));
                }
                if level == LEVELS {
                    groups = groups.saturating_add(1);
                }
                level = level.saturating_sub(1);
            }
            _ => {}
        }
    }
    Ok(None)
}

/// Returns a plan's text with more configurations behind those of a group.
///
/// # Errors
/// `Defect` if the group isn't found; `NoMemory`.
pub fn with_configurations(
    alloc: Global,
    text: &[u8],
    group: u8,
    more: &str,
) -> Result<Vec<u8>, EditRefusal> {
    let mut scratch = Scratch::new(alloc);
    let end = match str::from_utf8(text) {
        Ok(text) => end_of(text, group, &mut scratch)?,
        Err(_) => None,
    };
    let Some((front, back)) = end.and_then(|end| text.split_at_checked(end)) else {
        return Err(EditRefusal::Defect);
    };
    let mut made = Vec::with_capacity(alloc, text.len().saturating_add(more.len()))?;
    made.extend_from_slice(front)?;
    made.extend_from_slice(more.as_bytes())?;
    made.extend_from_slice(back)?;
    Ok(made)
}
