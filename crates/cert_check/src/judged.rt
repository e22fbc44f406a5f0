//! What comes of a check.

ghost use Rattle.std.specs.Prelude.{◌≡◌};
ghost use Rattle.cert_check.specs.declared.judged.Refused.TheVariants.{NoMemory};

use std::alloc::AllocError;

/// What an accepted certificate shows.
#[derive(Clone, Copy, PartialEq, Eq, Drop)]
pub struct Accepted {
    /// What the plan costs, and none where there is no plan.
    pub cost: Option<u64>,
    /// No legal rota costs less.
    pub bound: u64,
}

/// Why a certificate isn't accepted: the first cause in the order in which they stand here, the proof lines one after another.
#[derive(Clone, Copy, PartialEq, Eq, Drop)]
pub enum Refused {
    /// A node isn't split so, by the proof line of this number, counted from 1: the node isn't there or is split already, the
    /// shift or the day isn't one of the instance, the prefix has more than 48 breaks, or the number is above 200.
    BadSplit { line: u64 },
    /// The prices of the proof line of this number, counted from 1, give no bound: the node isn't there or is split, or they
    /// aren't a price set for its cuts.
    BadPrice { line: u64 },
    /// The node of the proof line of this number, counted from 1, isn't there or is split, or its cuts leave the number of some
    /// legal duty open.
    NotSettled { line: u64 },
    /// The claimed bound is above the least floor of the unsplit nodes, which is `found`.
    BoundTooHigh { claimed: u64, found: u64 },
    /// The row of this number, counted from 0, is the first bad one.
    BadPlan { row: u64 },
    /// The rows cost `found`, and not what is claimed.
    WrongCost { claimed: u64, found: u64 },
    /// No memory was left.
    NoMemory,
}

impl From<AllocError> for Refused {
    ghost from_gives = { λ _ e. e ≡ NoMemory };

    fn from(_e: AllocError) -> Refused {
        Refused::NoMemory
    }
}
