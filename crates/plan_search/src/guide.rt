//! What a plan search knows of good plans beforehand.

use std::alloc::Global;

/// The shifts that a solution in fractions uses, and its duties.
#[derive(Drop)]
pub struct Guide {
    /// The shifts, the most used first.
    pub shifts: Vec<u16>,
    /// The duties of each shift on each day, shift by shift.
    pub heads: Vec<f64>,
}

impl Guide {
    /// Nothing is known.
    pub fn none(alloc: Global) -> Guide {
        Guide {
            shifts: Vec::new(alloc),
            heads: Vec::new(alloc),
        }
    }
}
