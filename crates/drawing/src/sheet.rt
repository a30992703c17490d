//! Sentences in lines of bounded length.

use crate::svg::{add_escaped, begin_text};
use std::alloc::{AllocError, Global};

/// The most characters of a line that isn't indented, unless a word is longer.
const COLUMNS: usize = 50;

/// How far a line is indented that continues a sentence or adds to the fact above, in pixels and in characters.
const INDENT: (usize, usize) = (10, 2);

/// The most lines of a sentence. What doesn't fit is cut.
const MOST_LINES: usize = 6;

/// The most bytes that are kept of a text that is part of a sentence.
const MOST_BYTES: usize = 2_000;

/// The height of a line in pixels.
const LINE_HEIGHT: usize = 16;

/// The space above a fact in pixels.
const FACT_GAP: usize = 5;

/// What a sentence says, which decides how it looks.
#[derive(Clone, Copy, PartialEq, Eq)]
pub(crate) enum Style {
    /// A fact.
    Plain,
    /// More about the fact above.
    Detail,
    /// A claim that is certified.
    Good,
    /// A claim that isn't.
    Bad,
}

impl Style {
    /// Returns the class of the style sheet.
    fn class(self) -> &'static str {
        match self {
            Style::Plain => "plain",
            Style::Detail => "detail",
            Style::Good => "good",
            Style::Bad => "bad",
        }
    }
}

/// A line of a sentence: offsets in the sheet's text.
#[derive(Clone, Copy)]
struct Line {
    from: usize,
    to: usize,
    style: Style,
    /// Whether it isn't the first line of its sentence.
    is_more: bool,
    /// The whole sentence, if this is its last line and the sentence is cut.
    whole: Option<(usize, usize)>,
}

impl Line {
    /// Returns the height of the line in pixels, with the space above it.
    fn height(&self) -> usize {
        if self.style == Style::Plain && !self.is_more {
            LINE_HEIGHT + FACT_GAP
        } else {
            LINE_HEIGHT
        }
    }
}

/// The lines of all sentences of a picture.
#[derive(Drop)]
pub(crate) struct Sheet {
    /// The sentences, the last of which may be under construction.
    pub text: String,
    /// The offset at which the sentence under construction begins.
    start: usize,
    lines: Vec<Line>,
}

/// Returns how often a line is indented: once if it continues a sentence, and once if it adds to the fact above.
fn indents(style: Style, is_more: bool) -> usize {
    usize::from(style == Style::Detail) + usize::from(is_more)
}

/// Returns where the line ends that begins here: at the last space within this many columns, if there is one.
fn line_end(text: &[u8], from: usize, columns: usize) -> usize {
    let mut end = from;
    for at in from..text.len() {
        if text[at] == b' ' {
            if at.saturating_sub(from) > columns && end > from {
                return end;
            }
            end = at;
        }
    }
    if end > from && text.len().saturating_sub(from) > columns {
        return end;
    }
    text.len()
}

/// Returns the beginning of a text, of bounded length.
pub(crate) fn clipped(text: &str) -> &str {
    match text.get(..MOST_BYTES) {
        Some(beginning) => beginning,
        None => text,
    }
}

impl Sheet {
    /// Returns a sheet without a sentence.
    pub fn new(alloc: Global) -> Sheet {
        Sheet {
            text: String::new(alloc),
            start: 0,
            lines: Vec::new(alloc),
        }
    }

    /// Returns the number of lines.
    pub fn lines(&self) -> usize {
        self.lines.len()
    }

    /// Returns whether the sentence under construction may grow.
    pub fn has_room(&self) -> bool {
        self.text.len().saturating_sub(self.start) < MOST_BYTES
    }

    /// Ends the sentence under construction, and breaks it into lines.
    pub fn end(&mut self, style: Style) -> Result<(), AllocError> {
        let (first, last) = (self.start, self.text.len());
        self.start = last;
        let mut from = first;
        for count in 0..MOST_LINES {
            if from >= last {
                return Ok(());
            }
            let columns = COLUMNS.saturating_sub(indents(style, count > 0).saturating_mul(
                INDENT.1,
            ));
            let to = line_end(self.text.as_bytes(), from, columns);
            let is_cut = count + 1 == MOST_LINES && to < last;
            self.lines.push(Line {
                from,
                to,
                style,
                is_more: count > 0,
                whole: if is_cut { Some((first, last)) } else { None },
            })?;
            from = to.saturating_add(1);
        }
        Ok(())
    }

    /// Appends the text between two offsets, escaped.
    fn add_part(&self, svg: &mut String, from: usize, to: usize) -> Result<(), AllocError> {
        match self.text.as_str().get(from..to) {
            Some(part) => add_escaped(svg, part),
            None => Ok(()),
        }
    }

    /// Appends a line at a place. The last line of a cut sentence ends with an ellipsis, and its title has the whole
    /// sentence.
    fn add_line(
        &self,
        svg: &mut String,
        line: &Line,
        x: usize,
        y: usize,
    ) -> Result<(), AllocError> {
        let indent = indents(line.style, line.is_more).saturating_mul(INDENT.0);
        begin_text(svg, line.style.class(), x.saturating_add(indent), y)?;
        let mut end = "</text>\n";
        if let Some((first, last)) = line.whole {
            svg.push_str("<title>")?;
            self.add_part(svg, first, last)?;
            svg.push_str("</title>")?;
            end = " …</text>\n";
        }
        self.add_part(svg, line.from, line.to)?;
        svg.push_str(end)
    }

    /// Returns the height of the lines between two numbers in pixels.
    pub fn height(&self, lines: (usize, usize)) -> usize {
        let mut height = 0usize;
        for line in self.lines.iter().take(lines.1).skip(lines.0) {
            height = height.saturating_add(line.height());
        }
        height
    }

    /// Appends the lines between two numbers, below one another.
    pub fn add_lines(
        &self,
        svg: &mut String,
        lines: (usize, usize),
        x: usize,
        top: usize,
    ) -> Result<(), AllocError> {
        let mut y = top;
        for line in self.lines.iter().take(lines.1).skip(lines.0) {
            y = y.saturating_add(line.height());
            self.add_line(svg, line, x, y)?;
        }
        Ok(())
    }
}
