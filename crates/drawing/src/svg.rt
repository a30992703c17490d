//! Parts of an SVG text.

use std::alloc::AllocError;

/// The fonts of all texts: those of the reader's system.
const FONTS: &str =
    "system-ui, -apple-system, 'Segoe UI', Roboto, 'Liberation Sans', 'DejaVu Sans', \
    Arial, sans-serif";

/// Returns what stands in XML for a character that means something there or isn't allowed.
fn escape_of(character: char) -> Option<&'static str> {
    match character {
        '&' => Some("&amp;"),
        '<' => Some("&lt;"),
        '>' => Some("&gt;"),
        '"' => Some("&quot;"),
        '\'' => Some("&#39;"),
        '\u{0}'..='\u{1f}' => Some(" "),
        _ => None,
    }
}

/// Appends a text with the characters escaped that mean something in XML.
pub(crate) fn add_escaped(svg: &mut String, text: &str) -> Result<(), AllocError> {
    for character in text.chars() {
        match escape_of(character) {
            Some(escape) => svg.push_str(escape)?,
            None => svg.push(character)?,
        }
    }
    Ok(())
}

/// Appends the beginning of a picture of this size, with a white ground and this style sheet.
pub(crate) fn begin_picture(
    svg: &mut String,
    width: usize,
    height: usize,
    style: &str,
) -> Result<(), AllocError> {
    write!(
        svg,
        "<svg xmlns=\"http://www.w3.org/2000/svg\" width=\"{width}\" height=\"{height}\" \
            viewBox=\"0 0 {width} {height}\" font-family=\"{FONTS}\" font-size=\"12\">\n{style}\
            <rect width=\"{width}\" height=\"{height}\" fill=\"#fff\"/>\n"
    )
}

/// Appends the beginning of a text of a class, whose characters follow.
pub(crate) fn begin_text(
    svg: &mut String,
    class: &str,
    x: usize,
    y: usize,
) -> Result<(), AllocError> {
    write!(svg, "<text class=\"{class}\" x=\"{x}\" y=\"{y}\">")
}
