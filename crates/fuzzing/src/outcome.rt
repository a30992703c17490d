//! Reads back what a run prints.

use crate::broken::Broken;
use std::alloc::{AllocError, Global};

/// The answer to a line of the script.
#[derive(Clone, Copy)]
pub struct Answer {
    /// The number of the line.
    pub line: u64,
    /// The number of messages that it made, unless it was refused.
    pub made: Option<u64>,
}

/// An open writer at the end.
#[derive(Clone, Copy, PartialEq, Eq)]
pub struct Writer {
    /// Its volume epoch.
    pub client: u64,
    /// The LSN up to which its log is acknowledged.
    pub durable: u64,
    /// The LSN of its next record.
    pub next: u64,
}

/// A recovery that has cut.
#[derive(Clone, Copy, PartialEq, Eq)]
pub struct Find {
    /// Its volume epoch.
    pub client: u64,
    /// The LSN up to which it has found the log.
    pub cut: u64,
    /// The LSN above which its own records are.
    pub start: u64,
}

/// The whole output.
#[derive(Drop)]
pub struct Outcome {
    /// The answers to the lines of the script, in order.
    pub answers: Vec<Answer>,
    /// The open writers.
    pub writers: Vec<Writer>,
    /// The recoveries that have cut.
    pub finds: Vec<Find>,
    /// The number of lines of any other form.
    strange: u64,
}

/// Returns a line's first three words that aren't numbers and its first three numbers, and how many there are of each.
fn parts(line: &str) -> ([&str; 3], [u64; 3], (usize, usize)) {
    let mut words = [""; 3];
    let mut numbers = [0u64; 3];
    let (mut of_words, mut of_numbers) = (0usize, 0usize);
    for word in line.split(' ') {
        match word.parse::<u64>() {
            Ok(number) if of_numbers < 3 => {
                numbers[of_numbers] = number;
                of_numbers += 1;
            }
            Err(_) if of_words < 3 => {
                words[of_words] = word;
                of_words += 1;
            }
            _ => return (words, numbers, (4, 4)),
        }
    }
    (words, numbers, (of_words, of_numbers))
}

impl Outcome {
    /// Adds a line.
    fn add(&mut self, text: &str) -> Result<(), AllocError> {
        let (words, numbers, counts) = parts(text);
        let [client, low, high] = numbers;
        match (words, counts) {
            (["ok", _, _], (1, 2)) => self.answers.push(Answer {
                line: client,
                made: Some(low),
            })?,
            (["refused", _, _], (2, 2)) => self.answers.push(Answer {
                line: client,
                made: None,
            })?,
            (["writer", "durable", "next"], (3, 3)) => self.writers.push(Writer {
                client,
                durable: low,
                next: high,
            })?,
            (["recovery", "cut", "start"], (3, 3)) => self.finds.push(Find {
                client,
                cut: low,
                start: high,
            })?,
            _ => self.strange = self.strange.saturating_add(1),
        }
        Ok(())
    }

    /// Reads what a run prints.
    ///
    /// # Errors
    /// That a line has no known form, or that memory ran out.
    pub fn of_text(alloc: Global, text: &str) -> Result<Outcome, Broken> {
        let mut outcome = Outcome {
            answers: Vec::new(alloc),
            writers: Vec::new(alloc),
            finds: Vec::new(alloc),
            strange: 0,
        };
        for line in text.split('\n') {
            if !line.is_empty() {
                outcome.add(line)?;
            }
        }
        if outcome.strange != 0 {
            let numbers = [outcome.strange, 0, 0, 0];
            return Err(Broken::new("lines of no known form (lines)", numbers));
        }
        Ok(outcome)
    }

    /// Returns the number of lines that weren't refused.
    pub fn happened(&self) -> u64 {
        self.answers.iter().filter(|a| a.made.is_some()).count() as u64
    }
}
