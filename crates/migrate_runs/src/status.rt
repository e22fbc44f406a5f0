//! How a migration ends, and what is said of it.

ghost use Rattle.std.specs.Prelude.{◌≡◌, IfOk, string_bytes};
ghost use Rattle.migrate_runs.specs.Status.{status_number, status_text};

use recovery::Why;
use std::alloc::{AllocError, Global};

/// Why the old journal isn't carried over.
#[derive(Drop)]
pub enum OldFault {
    /// The file is no journal of the first version.
    NotAJournal,
    /// The journal is cut off, or longer than a journal may be.
    Damaged { at: u64 },
    /// The record of that number, from 0 on, is the first that spells no posts or has a post that isn't allowed.
    Rejected { at_record: u64, why: Why },
    /// The header isn't the canonical text of an instance.
    Head,
}

/// How a migration ends.
#[derive(Drop)]
pub enum MigrateStatus {
    /// The new journal stands for what the old one stands for, and the line that says so was written.
    Migrated,
    /// The words aren't two names of files that differ.
    Usage,
    /// A write of the line failed. What was written is the beginning of the line.
    WriteFault,
    /// A call on one of the two disks failed.
    DiskFault,
    /// There was no memory.
    NoMemory,
    /// The old journal is refused.
    Old(OldFault),
    /// The new file isn't empty.
    Target { len: u64 },
}

impl MigrateStatus {
    /// The number with which the program ends.
    pub fn number(&self) -> u8
        ensures { result ≡ status_number self.now }
    {
        match self {
            MigrateStatus::Migrated => 0,
            MigrateStatus::Usage => 2,
            MigrateStatus::WriteFault => 6,
            MigrateStatus::DiskFault => 7,
            MigrateStatus::NoMemory => 8,
            MigrateStatus::Old(_) => 9,
            MigrateStatus::Target { .. } => 13,
        }
    }
}

/// What is said of an end that isn't `Migrated`, of which nothing is said.
pub fn status_line(alloc: Global, status: &MigrateStatus) -> Result<String, AllocError>
    ensures { IfOk result (λ line. string_bytes line ≡ status_text status.now) }
{
    match status {
        MigrateStatus::Migrated => Ok(String::new(alloc)),
        MigrateStatus::Usage => String::from_str(alloc, "usage: shift_migrate OLD NEW"),
        MigrateStatus::WriteFault => String::from_str(alloc, "write fault"),
        MigrateStatus::DiskFault => String::from_str(alloc, "disk fault"),
        MigrateStatus::NoMemory => String::from_str(alloc, "no memory"),
        MigrateStatus::Old(OldFault::NotAJournal) => {
            String::from_str(alloc, "old journal refused: 2")
        }
        MigrateStatus::Old(OldFault::Damaged { at }) => {
            format!(in alloc; "old journal refused: 4 {at}")
        }
        MigrateStatus::Old(OldFault::Rejected { at_record, why }) => {
            format!(in alloc; "old journal refused: 5 {at_record} {why}")
        }
        MigrateStatus::Old(OldFault::Head) => String::from_str(alloc, "old journal refused: 6"),
        MigrateStatus::Target { len } => { format!(in alloc; "new file not empty, {len} bytes") }
    }
}
