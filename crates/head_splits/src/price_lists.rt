//! Prices of slots and cuts.
use break_rules::Sequence;

/// The price of each slot of the planning period, in the order of the slots.
pub type SlotPrices = Sequence<i64>;

/// The price of each cut, in the order of the cuts.
pub type CutPrices = Sequence<u64>;
