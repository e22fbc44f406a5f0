//! Numbers drawn at random, the same ones for the same seed.

use std::num::nearest_u64_to_f64;

/// A generator of random numbers.
#[derive(Clone, Copy)]
pub(crate) struct Chance {
    state: u64,
}

impl Chance {
    /// The generator of a seed.
    pub(crate) fn new(seed: u64) -> Chance {
        let state = seed.wrapping_mul(0x9e37_79b9_7f4a_7c15).wrapping_add(12345);
        Chance {
            state: state.max(1),
        }
    }

    /// The next number.
    fn next(&mut self) -> u64 {
        let mut x = self.state;
        x ^= x << 13;
        x ^= x >> 7;
        x ^= x << 17;
        self.state = x;
        x >> 16
    }

    /// A number below `count`, and 0 where that is 0.
    pub(crate) fn below(&mut self, count: usize) -> usize {
        let drawn = self.next() as usize;
        drawn.checked_rem(count).unwrap_or(0)
    }

    /// Whether something happens that does so once in `count` times.
    pub(crate) fn is_once_in(&mut self, count: usize) -> bool {
        self.below(count) == 0
    }

    /// A number above 0 and at most 1.
    fn unit(&mut self) -> f64 {
        let drawn = self.next() % (1 << 24);
        (nearest_u64_to_f64(drawn) + 1.0) / 16777216.0
    }

    /// A number with the exponential law of mean 1.
    pub(crate) fn exponential(&mut self) -> f64 {
        -self.unit().ln()
    }

    /// One of a list, and none of an empty one.
    pub(crate) fn pick<T: Copy>(&mut self, list: &[T]) -> Option<T> {
        let k = self.below(list.len());
        list.get(k).copied()
    }
}
