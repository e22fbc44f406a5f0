//! Numbers drawn at random, the same ones for the same seed.

use rand_core::{Rng, SeedableRng};
use rand_xoshiro::Xoshiro256PlusPlus;

/// A generator of random numbers.
#[derive(Drop)]
pub(crate) struct Chance {
    generator: Xoshiro256PlusPlus,
}

impl Chance {
    /// The generator of a seed.
    pub(crate) fn new(seed: u64) -> Chance {
        Chance {
            generator: Xoshiro256PlusPlus::seed_from_u64(seed),
        }
    }

    /// A number below `count`, and 0 where that is 0.
    pub(crate) fn below(&mut self, count: usize) -> usize {
        let drawn = self.generator.next_u64() as usize;
        drawn.checked_rem(count).unwrap_or(0)
    }
}
