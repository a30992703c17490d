//! Random numbers from a seed.

ghost use Rattle.std.specs.Prelude.{◌<◌};

use rand::RngExt;
use rand::seq::SliceRandom;
use rand_core::SeedableRng;
use rand_xoshiro::Xoshiro256PlusPlus;

/// A generator that returns the same numbers for the same seed.
#[derive(Drop)]
pub struct Rng {
    source: Xoshiro256PlusPlus,
}

impl Rng {
    /// Makes the generator of a seed.
    pub fn new(seed: u64) -> Rng {
        Rng {
            source: Xoshiro256PlusPlus::seed_from_u64(seed),
        }
    }

    /// Returns a number below `bound`, or 0 if `bound` is 0.
    pub fn below(&mut self, bound: usize) -> usize
        ensures { 0 < bound → result < bound }
    {
        if bound == 0 {
            return 0;
        }
        self.source.random_range(0..bound)
    }

    /// Returns a number below `bound`, of at most 256, or 0 if `bound` is 0.
    pub fn byte_below(&mut self, bound: usize) -> u8 {
        u8::try_from(self.below(bound)).unwrap_or(0)
    }

    /// Returns a number from `least` to `least + spread - 1`.
    pub fn from(&mut self, least: usize, spread: usize) -> usize {
        least.saturating_add(self.below(spread))
    }

    /// Returns true in `percent` of 100 cases.
    pub fn chance(&mut self, percent: usize) -> bool {
        self.below(100) < percent
    }

    /// Returns one of these, or `None` if there is none.
    pub fn one_of<T: Copy>(&mut self, all: &[T]) -> Option<T> {
        let place = self.below(all.len());
        all.get(place).copied()
    }

    /// Puts the elements into a random order.
    pub fn shuffle(&mut self, all: &mut [u8]) {
        all.shuffle(&mut self.source);
    }
}
