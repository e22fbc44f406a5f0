//! Moves on plans, and why they are refused.
ghost use Rattle.std.specs.Prelude.{◌≡◌};
ghost use Rattle.local_moves.specs.declared.moves.MoveFault.TheVariants.{NoMemory};

use break_rules::Breaks;
use std::alloc::AllocError;
use std::error::Error;
use std::fmt;

/// A move on a plan.
#[derive(Drop)]
pub enum Move {
    /// One duty more.
    Add {
        shift: u16,
        day: u8,
        breaks: Breaks,
    },
    /// One duty less.
    Drop {
        shift: u16,
        day: u8,
        breaks: Breaks,
    },
    /// One duty gets the break list `to` in place of `from`.
    Rebreak {
        shift: u16,
        day: u8,
        from: Breaks,
        to: Breaks,
    },
    /// Each duty of the shift `from` becomes one of the shift `to` on the same day, with its own break list where the
    /// shifts have one length, and else with the least legal list of `to`.
    Reshift {
        from: u16,
        to: u16,
    },
}

/// Why a move is refused.
#[derive(Clone, Copy, Debug, PartialEq, Eq, Drop)]
pub enum MoveFault {
    /// A shift of the move isn't in the shift list.
    UnknownShift,
    /// The day isn't one of the planning period.
    Day,
    /// The breaks of an added duty aren't legal, or the shift to go over to has no legal break list.
    Breaks,
    /// A duty to be changed isn't there.
    Absent,
    /// A shift would have more duties on a day than one shift may have, `heads` at the most.
    HeadsOver { heads: u64 },
    /// The shifts are of two types.
    OtherKind,
    /// The shifts don't differ in exactly one of start and length.
    NotNear,
    /// No memory was left.
    NoMemory,
}

impl fmt::Display for MoveFault {
    ghost use Rattle.std.specs.Prelude.{Some};
    ghost use Rattle.local_moves.specs.FaultText.{move_fault_text};

    ghost output = { λ e. Some (move_fault_text e) };

    /// Writes the refusal's number, and then its field, separated by a space.
    fn fmt<W: fmt::Write>(&self, f: &mut fmt::Formatter<W>) -> fmt::Result {
        match self {
            MoveFault::UnknownShift => f.write_str("1"),
            MoveFault::Day => f.write_str("2"),
            MoveFault::Breaks => f.write_str("3"),
            MoveFault::Absent => f.write_str("4"),
            MoveFault::HeadsOver { heads } => write!(f, "5 {heads}"),
            MoveFault::OtherKind => f.write_str("6"),
            MoveFault::NotNear => f.write_str("7"),
            MoveFault::NoMemory => f.write_str("no memory"),
        }
    }
}

impl Error for MoveFault {}

impl From<AllocError> for MoveFault {
    ghost from_gives = { λ _ e. e ≡ NoMemory };

    fn from(_e: AllocError) -> MoveFault {
        MoveFault::NoMemory
    }
}
