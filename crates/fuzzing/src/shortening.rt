//! Cuts a script that breaks a promise down to the lines that matter.

use crate::simulation::{ScriptRunner, breaks};
use std::alloc::{AllocError, Global};

/// Returns the lines of a script with those from `first` to `last - 1` empty.
fn without(alloc: Global, script: &str, first: usize, last: usize) -> Result<String, AllocError> {
    let mut text = String::with_capacity(alloc, script.len())?;
    for (number, line) in script.split('\n').enumerate() {
        if number > 0 {
            text.push_str("\n")?;
        }
        if number < first || number >= last {
            text.push_str(line)?;
        }
    }
    Ok(text)
}

/// Empties each run of `size` lines without which the script still breaks a promise.
fn shorten_by<R: ScriptRunner>(
    alloc: Global,
    script: String,
    runner: &R,
    size: usize,
) -> Result<String, AllocError> {
    let count = script.split('\n').count();
    let mut shortest = script;
    let mut first = 0usize;
    for _ in 0..count {
        if first >= count {
            break;
        }
        let last = first.saturating_add(size);
        let tried = without(alloc, shortest.as_str(), first, last)?;
        if breaks(alloc, runner, tried.as_str()) {
            shortest = tried;
        }
        first = last;
    }
    Ok(shortest)
}

/// Returns a script with fewer lines that still breaks a promise: it empties halves of the script, then quarters, down
/// to single lines, as long as a promise is broken. Numbers of lines stay as they are.
///
/// # Errors
/// `AllocError` if memory runs out.
pub fn shortened<R: ScriptRunner>(
    alloc: Global,
    script: String,
    runner: &R,
) -> Result<String, AllocError> {
    let mut size = script.split('\n').count();
    let mut shortest = script;
    for _ in 0..32 {
        size = size.div_ceil(2);
        shortest = shorten_by(alloc, shortest, runner, size)?;
        if size <= 1 {
            break;
        }
    }
    Ok(shortest)
}
