//! Classes of duties, cuts on the number of their duties, and the bound that prices give below cuts.
#![tactic(auto)]

mod cuts;
mod differing;
mod hint;
pub mod laws;
mod live;
mod meeting;
mod price_lists;
mod ranges;
mod settling;
mod table;

use break_rules::Breaks;
pub use cuts::Cuts;
pub use differing::first_difference;
pub use hint::Hint;
pub use live::is_live_class;
pub use meeting::{duties_in_class, meets};
pub use price_lists::{CutPrices, SlotPrices};
pub use ranges::{range, whole_range};
pub use settling::settled;
use shift_instance::Rows;

/// The greatest price that a cut may have.
pub const CUT_PRICE_MAX: u64 = 1_000_000_000_000;

/// The duties of a shift on a day whose breaks begin with a prefix.
#[derive(Clone, Drop)]
pub struct Class {
    /// The number of the shift, its place in the shift list.
    pub shift: u16,
    /// The day, from 0 on.
    pub day: u8,
    /// The breaks with which those of each duty begin.
    pub prefix: Breaks,
}

/// From which side a cut bounds the number of a class's duties.
#[derive(Clone, Copy, PartialEq, Eq, Drop)]
pub enum Side {
    /// There are no more duties.
    AtMost,
    /// There are no fewer duties.
    AtLeast,
}

/// A bound on the number of a class's duties: at most `m`, or at least `m`.
#[derive(Clone, Drop)]
pub struct Cut {
    /// The class.
    pub class: Class,
    /// Whether there are at most or at least so many duties.
    pub side: Side,
    /// The number of duties.
    pub m: u16,
}

/// A price set: what a slot's cover and a class's duties are taken to be worth. A price of `q` is worth a cost of 1.
#[derive(Clone, Drop)]
pub struct Prices {
    /// The scale, by which costs are multiplied before they are compared with prices.
    pub q: u16,
    /// For each slot of the planning period, what a duty earns that works in it.
    pub slots: SlotPrices,
    /// For each cut, from the root on, what a duty of its class earns where the cut bounds their number from below, and
    /// pays where it bounds it from above.
    pub cuts: CutPrices,
}

/// What the cuts of a node leave: some number of duties that isn't fixed yet, or one plan, or nothing.
#[derive(Drop)]
pub enum Settle {
    /// The number of some legal duty isn't fixed: the class to split, and the number by which. That class is the shortest
    /// prefix whose number isn't fixed of the first such duty, by shift, then by day, then by break list. Its parts have
    /// at most `m` duties, and at least `m + 1`.
    Unsettled {
        /// The class, which some legal duty is in.
        class: Class,
        /// Half the least and the greatest number of its duties together, rounded down.
        m: u16,
    },
    /// The number of each legal duty is fixed, and so are these rows, in order, which are legal and meet the cuts.
    Plan(Rows),
    /// The number of each legal duty is fixed, and no legal rota meets the cuts.
    Empty,
}
