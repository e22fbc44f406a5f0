//! How a run ends, and what is said of it.

ghost use Rattle.std.specs.Prelude.{◌≡◌, IfOk, string_bytes};
ghost use Rattle.solve_runs.specs.Status.{status_number, status_text};

use instance_json::ReadRefusal;
use search_book::OpenFault;
use std::alloc::{AllocError, Global};

/// The words of the command line, as they are shown to whoever gave others.
const USAGE: &str =
    "usage: solve JOURNAL [--workers W] [--steps B] [--table] [--local | --thorough] [--turns] or solve --demo N [--steps B]";

/// How a run of `solve` ends.
#[derive(Drop)]
pub enum Status {
    /// The report or the line of a demonstration was written, and no legal plan costs less than the best one found.
    Optimal,
    /// The report or the line was written. All steps of the budget were taken, and the search isn't finished.
    Budget,
    /// The report or the line was written, and the journal had no room for the posts of a step: with them the file would have
    /// ended at `end`, which is past `limit`. Both are lengths in bytes.
    Full { end: u64, limit: u32 },
    /// The words are no command (`solve_words::command_of`).
    Usage,
    /// More workers were asked for than sixteen, or than there are advisers: `have` is the lesser of these.
    Workers { asked: u32, have: u32 },
    /// The document that was read is refused. Never holds `NoMemory`.
    Input(ReadRefusal),
    /// A read of the document failed.
    ReadFault,
    /// A write of the report or the line failed. What was written is its beginning.
    WriteFault,
    /// A call on the journal's file failed.
    DiskFault,
    /// There was no memory.
    NoMemory,
    /// The journal's file isn't empty and doesn't stand for posts of this instance that make a book, for this cause. Never
    /// holds `DiskFault` or `NoMemory`.
    Journal(OpenFault),
}

impl Status {
    /// The number with which the program ends.
    pub fn number(&self) -> u8
        ensures { result ≡ status_number self.now }
    {
        match self {
            Status::Optimal => 0,
            Status::Budget => 10,
            Status::Full { end: _, limit: _ } => 11,
            Status::Usage => 2,
            Status::Input(_) => 3,
            Status::Workers { asked: _, have: _ } => 4,
            Status::ReadFault => 5,
            Status::WriteFault => 6,
            Status::DiskFault => 7,
            Status::NoMemory => 8,
            Status::Journal(_) => 9,
        }
    }
}

/// The line that is said of a status on standard error, without its line feed; the empty text of an optimal plan.
pub fn status_line(alloc: Global, status: &Status) -> Result<String, AllocError>
    ensures { IfOk result (λ line. string_bytes line ≡ status_text status.now) }
{
    match status {
        Status::Optimal => Ok(String::new(alloc)),
        Status::Budget => String::from_str(alloc, "stopped: step budget spent"),
        Status::Full { end, limit } => {
            format!(in alloc; "stopped: journal full, {end} of {limit} bytes")
        }
        Status::Usage => String::from_str(alloc, USAGE),
        Status::Workers { asked, have } => {
            format!(in alloc; "workers asked {asked}, advisers {have}")
        }
        Status::Input(why) => format!(in alloc; "instance refused: {why}"),
        Status::ReadFault => String::from_str(alloc, "read fault"),
        Status::WriteFault => String::from_str(alloc, "write fault"),
        Status::DiskFault => String::from_str(alloc, "disk fault"),
        Status::NoMemory => String::from_str(alloc, "no memory"),
        Status::Journal(why) => format!(in alloc; "journal refused: {why}"),
    }
}
