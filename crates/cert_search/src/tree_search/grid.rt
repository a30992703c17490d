//! A table of bits.

use std::alloc::{AllocError, Allocator};

/// A table of bits, all of them 0 at first.
#[derive(Drop)]
pub struct Grid<B: Allocator> {
    /// The number of words in a row.
    words: usize,
    bits: Vec<u64, B>,
}

impl<B: Allocator> Grid<B> {
    /// Returns the number of words in a table of this size.
    pub fn words(rows: usize, columns: usize) -> usize {
        rows.saturating_mul(columns / 64 + 1)
    }

    /// Returns a table of this size.
    pub fn new(arena: B, rows: usize, columns: usize) -> Result<Grid<B>, AllocError> {
        let bits = vec![in arena; 0u64; Grid::<B>::words(rows, columns)]?;
        let words = columns / 64 + 1;
        Ok(Grid { words, bits })
    }

    /// Returns the index of the word with a bit.
    fn place(&self, row: usize, column: usize) -> usize {
        row.saturating_mul(self.words).saturating_add(column / 64)
    }

    /// Returns whether a bit is set.
    pub fn has(&self, row: usize, column: usize) -> bool {
        let word = self.bits.get(self.place(row, column)).copied().unwrap_or(0);
        (word >> (column % 64)) & 1 == 1
    }

    /// Sets a bit.
    pub fn put(&mut self, row: usize, column: usize) {
        let place = self.place(row, column);
        if let Some(word) = self.bits.get_mut(place) {
            *word |= 1u64 << (column % 64);
        }
    }
}
