//! Paths into a plan's text.

use std::fmt;

/// More steps than the path to a fault has: five to a certificate, two for each of its 40 levels, and one to a key.
const STEPS: usize = 96;

/// A step of a path: to the value at a key of an object, or to an item of an array.
#[derive(Clone, Copy)]
pub(crate) enum Step {
    Key(&'static str),
    Item(usize),
}

/// The path to the value that is being checked. A check that fails leaves it at the fault, and returns what is expected
/// there.
#[derive(Clone, Copy)]
pub(crate) struct Trail {
    steps: [Step; STEPS],
    len: usize,
}

impl Trail {
    /// Returns the path to the whole text.
    pub fn new() -> Trail {
        Trail {
            steps: [Step::Item(0); STEPS],
            len: 0,
        }
    }

    /// Returns the steps.
    pub fn steps(&self) -> &[Step] {
        &self.steps[..self.len.min(STEPS)]
    }

    fn push(&mut self, step: Step) {
        if self.len < STEPS {
            self.steps[self.len] = step;
            self.len += 1;
        }
    }

    /// Goes to the value at a key.
    pub fn enter(&mut self, key: &'static str) {
        self.push(Step::Key(key));
    }

    /// Goes to an item of the array here.
    pub fn enter_item(&mut self, item: usize) {
        self.push(Step::Item(item));
    }

    /// Goes back by one step.
    pub fn leave(&mut self) {
        self.len = self.len.saturating_sub(1);
    }

    /// Goes to the value at a key, where the fault is. Returns what is expected there.
    pub fn expect_at(&mut self, key: &'static str, expected: &'static str) -> &'static str {
        self.enter(key);
        expected
    }

    /// Goes to the value at a key, unless it is good. Then the error is what is expected there.
    pub fn require(
        &mut self,
        is_good: bool,
        key: &'static str,
        expected: &'static str,
    ) -> Result<(), &'static str> {
        match is_good {
            true => Ok(()),
            false => Err(self.expect_at(key, expected)),
        }
    }
}

/// Writes the path as `groups[0].configurations[1].read`.
impl fmt::Display for Trail {
    fn fmt<W: fmt::Write>(&self, f: &mut fmt::Formatter<W>) -> fmt::Result {
        let mut dot = "";
        for step in self.steps() {
            match step {
                Step::Key(key) => write!(f, "{dot}{key}")?,
                Step::Item(item) => write!(f, "[{item}]")?,
            }
            dot = ".";
        }
        Ok(())
    }
}
