//! How many bytes a price takes.

/// How many bytes the price of a slot or of a cut takes: eight in journals of the first version, and five since.
#[derive(Clone, Copy, Debug, PartialEq, Eq)]
pub enum PriceWidth {
    /// Prices of slots lie from -2^39 to 2^39 - 1, and prices of cuts below 2^40.
    Five,
    /// Prices of slots lie from -2^63 to 2^63 - 1, and prices of cuts below 2^64.
    Eight,
}
