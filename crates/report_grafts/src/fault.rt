//! Why nothing is exported from a report or grafted into it.
ghost use Rattle.std.specs.Prelude.{◌≡◌};
ghost use Rattle.report_grafts.specs.declared.fault.GraftFault.TheVariants.{NoMemory};

use cert_check::Refused;
use std::alloc::AllocError;
use std::fmt;
use thiserror::Error;

/// Why nothing is exported from a report or grafted into it: the first cause in the order in which they stand here.
#[derive(Clone, Copy, PartialEq, Eq, Drop, Error)]
pub enum GraftFault {
    /// The checker refuses the report's certificate, and says why.
    #[error("the checker refuses the report")]
    Refused(Refused),
    /// The certificate makes no node of this number.
    #[error("the report has no node {node}")]
    NoNode { node: u32 },
    /// This node is split: what lies below it lies below its parts.
    #[error("node {node} of the report is split")]
    IsSplit { node: u32 },
    /// The node's cuts aren't those below which the run searched: they differ first at this place, which is the length of the
    /// shorter list where one begins the other.
    #[error("the run searched below other cuts, which differ first at place {at}")]
    OtherCuts { at: u64 },
    /// The report has no rows whose breaks could be planned anew.
    #[error("the report has no rows")]
    NoRows,
    /// No memory was left.
    #[error("out of memory")]
    NoMemory,
}

impl fmt::Debug for GraftFault {
    /// Writes the fault's sentence.
    fn fmt<W: fmt::Write>(&self, f: &mut fmt::Formatter<W>) -> fmt::Result {
        fmt::Display::fmt(self, f)
    }
}

impl From<AllocError> for GraftFault {
    ghost from_gives = { λ _ e. e ≡ NoMemory };

    fn from(_e: AllocError) -> GraftFault {
        GraftFault::NoMemory
    }
}
