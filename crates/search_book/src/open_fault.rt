//! Why the book of a search isn't opened.
ghost use Rattle.std.specs.Prelude.{◌≡◌};
ghost use Rattle.search_book.specs.declared.open_fault.OpenFault.TheVariants.{DiskFault, NoMemory};

use gated_journal::JournalFault;
use plan_base::Failed;
use recovery::{RebuildFault, Why};
use std::alloc::AllocError;
use std::error::Error;
use std::fmt;

/// Why a disk's file isn't opened as the journal of an instance.
#[derive(Debug, Drop)]
pub enum OpenFault {
    /// A call on the disk failed.
    DiskFault,
    /// The file isn't of the first version, and no journal.
    NotAJournal,
    /// The journal's header isn't the instance's canonical text: they differ first at this byte, which is the length of the
    /// shorter where that begins the other.
    OtherInstance { at: u64 },
    /// The journal is damaged at this byte of its file.
    Damaged { at: u64 },
    /// The journal's record of that number, from 0 on, is the first that spells no posts or has a post that isn't allowed.
    Rejected { at_record: u64, why: Why },
    /// There is no memory for it.
    NoMemory,
    /// The file begins with the mark of a journal of the first version.
    OldVersion,
}

impl fmt::Display for OpenFault {
    ghost use Rattle.std.specs.Prelude.{Some};
    ghost use Rattle.search_book.specs.OpenFaultText.{open_fault_text};

    ghost output = { λ e. Some (open_fault_text e) };

    /// Writes the refusal's number, and then its fields in their order, separated by spaces.
    fn fmt<W: fmt::Write>(&self, f: &mut fmt::Formatter<W>) -> fmt::Result {
        match self {
            OpenFault::DiskFault => f.write_str("1"),
            OpenFault::NotAJournal => f.write_str("2"),
            OpenFault::OtherInstance { at } => write!(f, "3 {at}"),
            OpenFault::Damaged { at } => write!(f, "4 {at}"),
            OpenFault::Rejected { at_record, why } => write!(f, "5 {at_record} {why}"),
            OpenFault::NoMemory => f.write_str("no memory"),
            OpenFault::OldVersion => f.write_str("7"),
        }
    }
}

impl Error for OpenFault {}

impl From<Failed> for OpenFault {
    ghost from_gives = { λ _ e. e ≡ DiskFault };

    fn from(_: Failed) -> OpenFault {
        OpenFault::DiskFault
    }
}

impl From<AllocError> for OpenFault {
    ghost from_gives = { λ _ e. e ≡ NoMemory };

    fn from(_: AllocError) -> OpenFault {
        OpenFault::NoMemory
    }
}

impl From<JournalFault> for OpenFault {
    ghost use Rattle.std.specs.Prelude.{◌≡◌};
    ghost use Rattle.search_book.specs.Head.{of_journal_fault};

    ghost from_gives = { λ fault e. e ≡ of_journal_fault fault };

    fn from(fault: JournalFault) -> OpenFault {
        match fault {
            JournalFault::DiskFault => OpenFault::DiskFault,
            JournalFault::NotAJournal => OpenFault::NotAJournal,
            JournalFault::Damaged { at } => OpenFault::Damaged { at },
            JournalFault::Full { end: _, limit: _ } => OpenFault::NoMemory,
            JournalFault::NoMemory => OpenFault::NoMemory,
            JournalFault::OldVersion => OpenFault::OldVersion,
        }
    }
}

impl From<RebuildFault> for OpenFault {
    ghost use Rattle.std.specs.Prelude.{◌≡◌};
    ghost use Rattle.search_book.specs.Opened.{of_rebuild_fault};

    ghost from_gives = { λ fault e. e ≡ of_rebuild_fault fault };

    fn from(fault: RebuildFault) -> OpenFault {
        match fault {
            RebuildFault::Rejected { at_record, why } => OpenFault::Rejected { at_record, why },
            RebuildFault::NoMemory => OpenFault::NoMemory,
        }
    }
}
