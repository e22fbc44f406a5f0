//! Why a part isn't joined into a report.
ghost use Rattle.std.specs.Prelude.{◌≡◌};
ghost use Rattle.report_joins.specs.declared.fault.PartFault.TheVariants.{NoMemory};

use cert_check::Refused;
use std::alloc::AllocError;
use std::fmt;
use thiserror::Error;

/// Why a report isn't joined as a part of another: the first cause in the order in which they stand here.
#[derive(Clone, Copy, PartialEq, Eq, Drop, Error)]
pub enum PartFault {
    /// The checker refuses it, and says why.
    #[error("the checker refuses the part")]
    Refused(Refused),
    /// Its proof lines don't begin with those of the report: they differ first at this place, counted from 0 on.
    #[error("the part's proof lines aren't those of the report, from place {at} on")]
    OtherLines { at: u64 },
    /// It has no proof lines behind those of the report.
    #[error("the part has no further proof lines")]
    NothingFurther,
    /// The first further line is of this node, which is split in the report or isn't there.
    #[error("node {node} of the report can't be searched")]
    NoEnd { node: u32 },
    /// The further line at this place is of a node that isn't below that of the first one.
    #[error("the proof line at place {at} is of another node")]
    OtherNode { at: u64 },
    /// Its plan is neither that of the report nor a cheaper one that meets the node's cuts.
    #[error("the part's plan isn't one of that node")]
    OtherPlan,
    /// An earlier part is of the same node.
    #[error("node {node} is searched in an earlier part too")]
    SameNode { node: u32 },
    /// The joined report would have more than 2^30 proof lines.
    #[error("too many proof lines")]
    TooMany,
    /// No memory was left.
    #[error("out of memory")]
    NoMemory,
}

impl fmt::Debug for PartFault {
    /// Writes the fault's sentence.
    fn fmt<W: fmt::Write>(&self, f: &mut fmt::Formatter<W>) -> fmt::Result {
        fmt::Display::fmt(self, f)
    }
}

impl From<AllocError> for PartFault {
    ghost from_gives = { λ _ e. e ≡ NoMemory };

    fn from(_e: AllocError) -> PartFault {
        PartFault::NoMemory
    }
}
