// Why a journal refuses.
ghost use Rattle.std.specs.Prelude.{◌≡◌};
ghost use Rattle.gated_journal.specs.declared.fault.JournalFault.TheVariants.{DiskFault, NoMemory};

use plan_base::Failed;
use std::alloc::{AllocError, AllocFailed};
use thiserror::Error;

/// Why a journal can't be made, opened or written on.
#[derive(Clone, Copy, Debug, PartialEq, Eq, Error)]
pub enum JournalFault {
    /// A call on the disk failed.
    #[error("the disk failed")]
    DiskFault,
    /// The file isn't of the first version, and has fewer than 12 bytes, or doesn't begin with the mark, or its header
    /// passes its end.
    #[error("the file is no journal")]
    NotAJournal,
    /// A journal whose file is longer than the limit (`at` is the limit), or ends where its first gate would stand
    /// (`at` is the file's length), or ends before the gate behind an open gate's record (`at` is that open gate's place).
    #[error("the journal is damaged at byte {at}")]
    Damaged { at: u64 },
    /// With the record the file would end at `end`, which is past `limit`. Both are lengths in bytes.
    #[error("the journal is full: {end} bytes pass the limit of {limit}")]
    Full { end: u64, limit: u32 },
    /// There is no memory for it.
    #[error("out of memory")]
    NoMemory,
    /// The file begins with the mark of the first version.
    #[error("the journal is of an old version")]
    OldVersion,
}

impl From<Failed> for JournalFault {
    ghost from_gives = { λ _ e. e ≡ DiskFault };

    fn from(_: Failed) -> Self {
        JournalFault::DiskFault
    }
}

impl From<AllocError> for JournalFault {
    ghost from_gives = { λ _ e. e ≡ NoMemory };

    fn from(_: AllocError) -> Self {
        JournalFault::NoMemory
    }
}

impl<T: Drop> From<AllocFailed<T>> for JournalFault {
    ghost from_gives = { λ _ e. e ≡ NoMemory };

    fn from(_: AllocFailed<T>) -> Self {
        JournalFault::NoMemory
    }
}
