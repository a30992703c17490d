//! The LSNs whose chain leads down to 0.

ghost use Rattle.std.specs.List.Sorted.{IsNonDecreasing};

use std::alloc::{AllocError, Global};

/// LSNs in growing order.
#[derive(Drop)]
pub struct GroundedLsns {
    numbers: Vec<u64>,
    ghost growing: { IsNonDecreasing numbers.items },
}

impl GroundedLsns {
    ghost use Rattle.std.specs.Prelude.{◌≡◌, ◌≤◌, ◌==◌, ℕ, true, false, if◌then◌else◌, OnOk};
    ghost use Rattle.recovery.specs.GroundedLsns.{is_grounded};

    /// Makes an empty set.
    pub fn new(alloc: Global) -> GroundedLsns
        ensures { (n : ℕ) → is_grounded result n ≡ false }
    {
        GroundedLsns {
            numbers: Vec::new(alloc),
        }
    }

    /// Returns whether the set has the LSN. Tests the last one first.
    pub fn contains(&self, number: u64) -> bool
        ensures { result ≡ is_grounded self.now number }
    {
        if let Some(last) = self.numbers.last() {
            if *last == number {
                return true;
            }
        }
        self.numbers.binary_search(&number).is_ok()
    }

    /// Adds an LSN that is at least all others.
    ///
    /// # Errors
    /// `AllocError` if memory runs out.
    pub fn push(&mut self, number: u64) -> Result<(), AllocError>
        requires { (n : ℕ) → is_grounded self.old n ≡ true → n ≤ number }
        ensures { OnOk result ((n : ℕ) → is_grounded self.new n ≡ (if number == n then true else
            is_grounded self.old n)) }
    {
        self.numbers.push(number)?;
        Ok(())
    }
}
