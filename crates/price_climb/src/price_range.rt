//! The ranges in which prices stay.

use shift_tables::ShiftTables;

/// The greatest price that a climb gives to a cut: what the greatest price of a cut is worth at a scale of 10,000.
const CUT_PRICE: f64 = 100000000.0;

/// How near the edge of its range a price counts as standing there.
const NEAR: f64 = 0.000000001;

/// The greatest factor by which prices are multiplied, 2^40.
const GREATEST_FACTOR: f64 = 1099511627776.0;

/// The least and the greatest price of a slot or a cut.
#[derive(Clone, Copy)]
pub(crate) struct PriceRange {
    least: f64,
    greatest: f64,
}

impl PriceRange {
    /// The range at a place of a list of prices, which has those of the slots, and behind them those of cuts.
    pub(crate) fn at(tables: &ShiftTables, place: usize) -> PriceRange {
        if place < tables.slots {
            PriceRange {
                least: -tables.excess,
                greatest: tables.shortage,
            }
        } else {
            PriceRange {
                least: 0.0,
                greatest: CUT_PRICE,
            }
        }
    }

    /// The price of the range that is nearest to a price.
    pub(crate) fn nearest(self, price: f64) -> f64 {
        price.max(self.least).min(self.greatest)
    }

    /// The way that a price goes, or 0 where it stands at the edge of the range and would leave it.
    pub(crate) fn inward(self, price: f64, along: f64) -> f64 {
        let is_low = price <= self.least + NEAR && along < 0.0;
        let is_high = self.greatest - NEAR <= price && 0.0 < along;
        if is_low || is_high { 0.0 } else { along }
    }

    /// The factor by which a price comes to the edge of the range, at most 2^40.
    pub(crate) fn factor(self, price: f64) -> f64 {
        if 0.0 < price {
            (self.greatest / price).min(GREATEST_FACTOR)
        } else if price < 0.0 {
            (self.least / price).min(GREATEST_FACTOR)
        } else {
            GREATEST_FACTOR
        }
    }
}
