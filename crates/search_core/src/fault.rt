//! Why a post isn't allowed.
ghost use Rattle.std.specs.Prelude.{◌≡◌};
ghost use Rattle.search_core.specs.declared.fault.StepFault.TheVariants.{NoMemory};

use crate::class_text::write_class;
use dual_bound::PriceFault;
use head_splits::Class;
use rota_cost::RowFault;
use std::alloc::AllocError;
use std::error::Error;
use std::fmt;

/// Why a post isn't allowed.
#[derive(Drop)]
pub enum StepFault {
    /// The rows of a plan aren't legal.
    NotLegal(RowFault),
    /// A plan costs `found`, and not `kept`.
    WrongCost { kept: u64, found: u64 },
    /// A plan isn't cheaper than the best rota, which costs so much.
    NotBetter { best: u64 },
    /// There is no node of this number.
    NoNode { node: u32 },
    /// The node is split.
    IsSplit { node: u32 },
    /// The node's floor isn't below the cost of the best rota.
    NotOpen { floor: u64, best: u64 },
    /// The class isn't live: no legal duty is of its shift and day and has its first breaks.
    NotLive { class: Class },
    /// The node's cuts leave the class `lo` to `hi` duties, and the number of the split isn't from `lo` on and below `hi`.
    OutOfRange { lo: u16, hi: u16 },
    /// The node's cuts don't fix how often each legal duty stands in a rota below them: the class is that by which to split.
    NotSettled { class: Class },
    /// The prices aren't a price set for the node's cuts.
    Price(PriceFault),
    /// No memory was left.
    NoMemory,
}

impl fmt::Display for StepFault {
    ghost use Rattle.std.specs.Prelude.{Some};
    ghost use Rattle.search_core.specs.FaultText.{step_fault_text};

    ghost output = { λ e. Some (step_fault_text e) };

    /// Writes the refusal's number, and then its fields in their order, or the refusal in it, separated by spaces.
    fn fmt<W: fmt::Write>(&self, f: &mut fmt::Formatter<W>) -> fmt::Result {
        match self {
            StepFault::NotLegal(fault) => write!(f, "1 {fault}"),
            StepFault::WrongCost { kept, found } => write!(f, "2 {kept} {found}"),
            StepFault::NotBetter { best } => write!(f, "3 {best}"),
            StepFault::NoNode { node } => write!(f, "4 {node}"),
            StepFault::IsSplit { node } => write!(f, "5 {node}"),
            StepFault::NotOpen { floor, best } => write!(f, "6 {floor} {best}"),
            StepFault::NotLive { class } => {
                f.write_str("7 ")?;
                write_class(class, f)
            }
            StepFault::OutOfRange { lo, hi } => write!(f, "8 {lo} {hi}"),
            StepFault::NotSettled { class } => {
                f.write_str("9 ")?;
                write_class(class, f)
            }
            StepFault::Price(fault) => write!(f, "10 {fault}"),
            StepFault::NoMemory => f.write_str("no memory"),
        }
    }
}

impl fmt::Debug for StepFault {
    /// Writes what its text is, since a class has none of its own for debugging.
    fn fmt<W: fmt::Write>(&self, f: &mut fmt::Formatter<W>) -> fmt::Result {
        write!(f, "{self}")
    }
}

impl Error for StepFault {}

impl From<AllocError> for StepFault {
    ghost from_gives = { λ _ e. e ≡ NoMemory };

    fn from(_e: AllocError) -> StepFault {
        StepFault::NoMemory
    }
}

impl From<PriceFault> for StepFault {
    ghost use Rattle.std.specs.Prelude.{◌≡◌};
    ghost use Rattle.search_core.specs.Faults.{of_price_fault};

    ghost from_gives = { λ fault e. e ≡ of_price_fault fault };

    fn from(fault: PriceFault) -> StepFault {
        match fault {
            PriceFault::NoMemory => StepFault::NoMemory,
            _ => StepFault::Price(fault),
        }
    }
}
