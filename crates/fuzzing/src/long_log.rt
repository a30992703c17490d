//! A log that is longer than a piece, so that copies and installs of it take two messages.

use crate::schedule::Schedule;
use crate::written::{Delivery, Receiver};

/// The number of transactions with which such a script begins.
const TRANSACTIONS: u8 = 9;

/// The number of records of each of them, all of the first group.
const CHANGES: u64 = 32;

/// The number of pieces of this many records.
const PIECES: u64 = 2;

impl Schedule {
    /// Appends lines in which the first writer commits the records of a transaction.
    fn commit_many(&mut self) {
        let line = self.issue_plain(1, 0, CHANGES);
        for member in self.members(0).as_slice().iter() {
            for change in 1..=CHANGES {
                let delivery = Delivery::new((line, change), 0, *member);
                self.written.deliver(delivery, Receiver::Client(1));
            }
            let last = self.written.lines;
            self.written.take(1, last, 1);
        }
    }

    /// Begins a script with enough records of the first group for two pieces.
    pub fn lengthen(&mut self) {
        for _ in 0..TRANSACTIONS {
            self.commit_many();
        }
        self.pieces = PIECES;
    }
}
