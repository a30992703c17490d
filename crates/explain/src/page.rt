//! Text in lines of at most 100 columns.

use std::alloc::{AllocError, Global};

/// The most columns of a line, unless a word is longer.
pub const COLUMNS: usize = 100;

/// Lines of words. A line that would be too long continues in the next one, further indented.
#[derive(Drop)]
pub struct Page {
    pub alloc: Global,
    text: String,
    /// The width of the last line.
    column: usize,
    /// The indentation of the last line.
    indent: usize,
}

impl Page {
    /// Returns a page without a line.
    pub fn new(alloc: Global) -> Page {
        Page {
            alloc,
            text: String::new(alloc),
            column: 0,
            indent: 0,
        }
    }

    /// Returns the text.
    pub fn into_text(self) -> String {
        self.text
    }

    /// Appends spaces.
    fn add_spaces(&mut self, count: usize) -> Result<(), AllocError> {
        for _ in 0..count {
            self.text.push_str(" ")?;
        }
        self.column = self.column.saturating_add(count);
        Ok(())
    }

    /// Ends the line.
    fn end_line(&mut self) -> Result<(), AllocError> {
        self.text.push_str("\n")?;
        self.column = 0;
        Ok(())
    }

    /// Appends a word, in the next line if there is no room for it in this one.
    fn add_word(&mut self, word: &str, is_first: bool) -> Result<(), AllocError> {
        if !is_first {
            if self.column.saturating_add(word.len()) < COLUMNS {
                self.add_spaces(1)?;
            } else {
                self.end_line()?;
                let indent = self.indent.saturating_add(4);
                self.add_spaces(indent)?;
            }
        }
        self.text.push_str(word)?;
        self.column = self.column.saturating_add(word.len());
        Ok(())
    }

    /// Appends a sentence in lines of its own, this far to the right.
    pub fn add(&mut self, indent: usize, sentence: &str) -> Result<(), AllocError> {
        self.column = 0;
        self.indent = indent;
        self.add_spaces(indent)?;
        let mut is_first = true;
        for word in sentence.split(' ') {
            self.add_word(word, is_first)?;
            is_first = false;
        }
        self.end_line()
    }
}
