//! What a search over a disk is asked for, what it answers, and how a run ends by its answer.

ghost use Rattle.std.specs.Prelude.{◌≡◌, ◌≢◌, Err};
ghost use Rattle.solve_runs.specs.Searching.{end_of, end_unopened, is_reported};
ghost use Rattle.solve_runs.specs.Writing.{status_at};

use crate::status::Status;
use advice::Adviser;
use plan_base::Disk;
use search_book::{Book, OpenFault};
use worker_gate::RunEnd;

/// What a search is asked for.
#[derive(Clone, Copy, Drop)]
pub struct Request {
    /// How many workers search, each with an adviser of its own.
    pub workers: u16,
    /// How many steps they may take, all together.
    pub steps: u64,
    /// Whether they take turns with the book in the order of tickets.
    pub turns: bool,
}

/// How a search over a disk ends.
#[derive(Drop)]
pub enum SearchEnd {
    /// No node of the book is open, so no legal plan costs less than its best one.
    Finished,
    /// All steps of the budget were taken, and a node is open.
    Spent,
    /// The journal had no room for the posts of a step: with them the file would have ended at `end`, which is past `limit`. Both are
    /// lengths in bytes.
    Full { end: u64, limit: u32 },
    /// It was asked to stop, and a node is open and a step left.
    Stopped,
    /// A call on the disk failed, before the book was opened or after.
    DiskFault,
    /// There was no memory, before the book was opened or after.
    NoMemory,
    /// More workers were asked for than sixteen, or than there are advisers: `have` is the lesser of these. The disk wasn't called.
    TooFewAdvisers { asked: u32, have: u32 },
    /// The disk's file isn't empty and doesn't stand for posts of the instance that make a book, for this cause. Never holds
    /// `DiskFault` or `NoMemory`.
    Refused(OpenFault),
}

impl SearchEnd {
    /// Whether the search came to an end of which a report can be written: finished, spent, full or stopped.
    pub fn is_reported(&self) -> bool
        ensures { result ≡ is_reported self.now }
    {
        matches!(
            self,
            SearchEnd::Finished | SearchEnd::Spent | SearchEnd::Full { .. } | SearchEnd::Stopped
        )
    }
}

/// What a search over a disk hands back.
#[derive(Drop)]
pub struct Searched<D: Disk> {
    /// How it ended.
    pub end: SearchEnd,
    /// The book with its disk, or the disk where no book was opened.
    pub book: Result<Book<D>, D>,
    /// The advisers that served, in their order; all of them where there were too few.
    pub advisers: Vec<Box<dyn Adviser + Send>>,
}

impl<D: Disk> Searched<D> {
    /// The answer of a search that opened no book.
    pub(crate) fn unopened(
        end: SearchEnd,
        disk: D,
        advisers: Vec<Box<dyn Adviser + Send>>,
    ) -> Searched<D>
        ensures { (result.end ≡ end) × (result.book ≡ Err disk) × (result.advisers ≡ advisers) }
    {
        Searched {
            end,
            book: Err(disk),
            advisers,
        }
    }
}

/// How a search ends whose workers ended so.
pub(crate) fn end_of(end: RunEnd) -> SearchEnd
    ensures { result ≡ end_of end }
{
    match end {
        RunEnd::Finished => SearchEnd::Finished,
        RunEnd::Spent => SearchEnd::Spent,
        RunEnd::Full { end, limit } => SearchEnd::Full { end, limit },
        RunEnd::DiskFault => SearchEnd::DiskFault,
        RunEnd::NoMemory => SearchEnd::NoMemory,
        RunEnd::Stopped => SearchEnd::Stopped,
    }
}

/// How a search ends whose book isn't opened.
pub(crate) fn end_unopened(fault: OpenFault) -> SearchEnd
    ensures { result ≡ end_unopened fault }
{
    match fault {
        OpenFault::DiskFault => SearchEnd::DiskFault,
        OpenFault::NoMemory => SearchEnd::NoMemory,
        why => SearchEnd::Refused(why),
    }
}

/// How a run ends whose search ended so, and whose report was written, where there is one.
pub(crate) fn status_at(end: SearchEnd) -> Status
    requires { end ≢ SearchEnd.Stopped }
    ensures { result ≡ status_at end }
{
    match end {
        SearchEnd::Finished => Status::Optimal,
        SearchEnd::Spent => Status::Budget,
        SearchEnd::Full { end, limit } => Status::Full { end, limit },
        SearchEnd::DiskFault => Status::DiskFault,
        SearchEnd::NoMemory => Status::NoMemory,
        // the stop of a run never asks
        SearchEnd::Stopped => unreachable!(),
        SearchEnd::TooFewAdvisers { asked, have } => Status::Workers { asked, have },
        SearchEnd::Refused(why) => Status::Journal(why),
    }
}
