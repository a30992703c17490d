//! Lists of members, and of other small numbers.

use quorum_expr::{MEMBERS, MemberSet};

/// The most numbers of a list.
const MOST: usize = 64;

/// At most 64 numbers. More of them are dropped.
#[derive(Clone, Copy)]
pub struct Numbers {
    numbers: [u8; MOST],
    length: usize,
}

impl Numbers {
    /// Returns an empty list.
    pub fn new() -> Numbers {
        Numbers {
            numbers: [0; MOST],
            length: 0,
        }
    }

    /// Returns the members of a set, in growing order.
    pub fn of_set(members: MemberSet) -> Numbers {
        let mut list = Numbers::new();
        for member in 0..MEMBERS {
            if members.contains(member) {
                list.push(member);
            }
        }
        list
    }

    /// Adds a number.
    pub fn push(&mut self, number: u8) {
        if self.length < MOST {
            self.numbers[self.length] = number;
            self.length += 1;
        }
    }

    /// Returns how many numbers there are.
    pub fn len(&self) -> usize {
        self.length
    }

    /// Returns the first numbers, at most so many.
    pub fn first(&self, count: usize) -> Numbers {
        Numbers {
            numbers: self.numbers,
            length: self.length.min(count),
        }
    }

    /// Returns the numbers.
    pub fn as_slice(&self) -> &[u8] {
        &self.numbers[..self.length.min(MOST)]
    }

    /// Returns the numbers, to be changed.
    pub fn as_mut_slice(&mut self) -> &mut [u8] {
        let length = self.length.min(MOST);
        &mut self.numbers[..length]
    }
}
