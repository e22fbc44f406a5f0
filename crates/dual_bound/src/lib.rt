//! The bound that a price set gives on the cost of the legal rotas below some cuts.
#![tactic(auto)]

mod best_lists;
mod day_tables;
mod faults;
mod laws;
mod pricer;
mod proving;
mod settling;
mod terms;

pub use best_lists::best_of_day;
pub use laws::faultless_prices;
pub use pricer::Pricer;
pub use proving::{Buffers, Proved, prove};
pub use settling::{Fixing, SettledNode, settle};
use std::error::Error;
use std::fmt;

/// Why prices aren't a price set for some cuts.
#[derive(Clone, Copy, Debug, PartialEq, Eq, Drop)]
pub enum PriceFault {
    /// The scale isn't 1 to 10,000.
    Scale,
    /// There isn't one price for each slot of the planning period.
    SlotCount,
    /// The price of a slot, the first such one, is above the scale times the cost of an employee too few, or below minus
    /// the scale times the cost of an employee too many.
    SlotPrice { slot: u64 },
    /// There isn't one price for each cut.
    CutCount,
    /// The price of a cut, the first such one, is above 10^12, or it isn't 0 and the cut's class has no prefix.
    CutPrice { cut: u64 },
    /// No memory was left.
    NoMemory,
}

impl fmt::Display for PriceFault {
    ghost use Rattle.std.specs.Prelude.{Some};
    ghost use Rattle.dual_bound.specs.Faults.{price_fault_text};

    ghost output = { λ e. Some (price_fault_text e) };

    /// Writes the fault's number and its slot or cut, separated by a space.
    fn fmt<W: fmt::Write>(&self, f: &mut fmt::Formatter<W>) -> fmt::Result {
        match self {
            PriceFault::Scale => f.write_str("1"),
            PriceFault::SlotCount => f.write_str("2"),
            PriceFault::SlotPrice { slot } => write!(f, "3 {slot}"),
            PriceFault::CutCount => f.write_str("4"),
            PriceFault::CutPrice { cut } => write!(f, "5 {cut}"),
            PriceFault::NoMemory => f.write_str("no memory"),
        }
    }
}

impl Error for PriceFault {}
