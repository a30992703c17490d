//! The layout of JSON over several lines: `--pretty`.

ghost use Rattle.std.specs.Prelude.{◌≡◌, IfOk, OnOk};
ghost use Rattle.commands.specs.Layout.{next_place, place_after, squeezed};
ghost use Rattle.commands.specs.declared.layout.Place.TheVariants.{Outside};

use std::alloc::{AllocError, Global};

/// Where a byte of JSON is: outside of texts, within one, or behind a backslash in one.
#[derive(Clone, Copy, Debug, PartialEq, Eq)]
pub enum Place {
    Outside,
    Inside,
    Escaped,
}

/// Returns the place behind a byte.
fn next_place(place: Place, byte: u8) -> Place
    ensures { result ≡ next_place place byte }
{
    match place {
        Place::Outside => {
            if byte == b'"' {
                Place::Inside
            } else {
                Place::Outside
            }
        }
        Place::Inside => {
            if byte == b'"' {
                Place::Outside
            } else if byte == b'\\' {
                Place::Escaped
            } else {
                Place::Inside
            }
        }
        Place::Escaped => Place::Inside,
    }
}

/// Returns the number of brackets that are open behind a byte outside of texts.
fn depth_after(depth: u64, byte: u8) -> u64 {
    match byte {
        b'{' | b'[' => depth.saturating_add(1),
        b'}' | b']' => depth.saturating_sub(1),
        _ => depth,
    }
}

/// Returns whether a line ends behind a byte outside of texts: behind the brackets of the lists of groups and of
/// configurations, and behind the values of a plan, of these lists and of a configuration.
fn ends_line(depth: u64, byte: u8) -> bool {
    match byte {
        b'[' => depth == 2 || depth == 4,
        b',' => depth <= 5,
        _ => false,
    }
}

/// Appends the end of a line, and the indentation of the next one.
fn push_break(text: &mut Vec<u8>, depth: u64) -> Result<(), AllocError>
    requires { place_after Outside text.old.items ≡ Outside }
    ensures same { OnOk result (squeezed text.new.items ≡ squeezed text.old.items) }
    ensures outside { OnOk result (place_after Outside text.new.items ≡ Outside) }
{
    text.push(b'\n')?;
    for _ in 0..depth {
        text.push(b' ')?;
    }
    Ok(())
}

/// Returns a line of JSON with a plan over several lines: a line for each value of the plan, for each group, for each
/// configuration and for each value of a configuration.
///
/// # Errors
/// `AllocError` if memory runs out.
pub fn laid_out(alloc: Global, line: &[u8]) -> Result<Vec<u8>, AllocError>
    ensures { IfOk result (λ text. squeezed text.items ≡ squeezed line.now) }
{
    let mut text = Vec::new(alloc);
    let mut place = Place::Outside;
    let mut depth = 0u64;
    for i in 0..line.len() {
        let byte = line[i];
        text.push(byte)?;
        place = next_place(place, byte);
        if let Place::Outside = place {
            depth = depth_after(depth, byte);
            if ends_line(depth, byte) {
                push_break(&mut text, depth)?;
            }
        }
    }
    Ok(text)
}
