//! The board of a search: where workers take nodes from, and commit what they find.
ghost use Rattle.std.specs.Prelude.{◌≡◌, ◌↔◌, ℕ, ◌<◌, ◌≤◌, ◌^◌, None, Some, IsSome, IsTrue, IfOk, IfErr, length};
ghost use Rattle.search_core.specs.Board.{book_at, yields, BoardView, Commits, CommitRefuses, Gives, IsSoundBoard, TakeMakes};
ghost use Rattle.search_core.specs.Core.{hand};
ghost use Rattle.search_core.specs.Kept.{cuts_in};
ghost use Rattle.search_core.specs.Steps.{Fits};

use crate::{Posts, StepPosts};
use break_rules::NoMemory;
use head_splits::{Cuts, Hint};

/// What a take answers, the first that applies.
#[derive(Clone, Copy, PartialEq, Eq, Drop)]
pub enum Taken {
    /// A commit failed on this board by its disk or its limit.
    Closed,
    /// No node is open.
    Finished,
    /// A worker let go of its node without a commit.
    Halted,
    /// All steps of the budget are taken.
    Spent,
    /// An open node that no worker holds: the one of least floor, and among those of least number. The worker holds it
    /// now, and one more step is taken.
    Node {
        /// The node, by its number.
        node: u32,
        /// What every legal rota below its cuts is known to cost at least.
        floor: u64,
        /// What the best rota costs.
        best: u64,
    },
    /// Each open node is in the hand of a worker.
    Idle,
}

/// What a commit made.
#[derive(Clone, Copy, PartialEq, Eq, Drop)]
pub struct Kept {
    /// Whether the step had a plan cheaper than the best before it.
    pub plan: bool,
    /// How many records were made: one of all posts of the step, or none where it had none.
    pub records: u32,
    /// What the best rota costs after it.
    pub best: u64,
    /// The node's floor after it.
    pub floor: u64,
}

/// Why a step isn't committed, the first that applies of `Shut`, `NotHeld`, `OtherCuts`, `NotClosing`, `Full` and
/// `DiskFault`. Running out of memory may stand in place of any of these. But for `Full` and `DiskFault`, which shut it, the board
/// is as before.
#[derive(Drop)]
pub enum CommitFault {
    /// A call on the disk failed while the posts were recorded. The board is shut from then on.
    DiskFault,
    /// With the record of the posts the journal would end at `end`, which is past `limit`. Both are lengths in bytes. The
    /// board is shut from then on.
    Full {
        end: u64,
        limit: u32,
    },
    /// The worker doesn't hold the step's node, but this one, if any.
    NotHeld {
        held: Option<u32>,
    },
    /// A commit before this one answered `DiskFault` or `Full`.
    Shut,
    /// The step would be closed by its bound, but after its plan and its price the node would be open: its floor would be
    /// below the best cost. The step is handed back.
    NotClosing {
        floor: u64,
        best: u64,
        step: StepPosts,
    },
    /// The cuts of the step's prices aren't the node's: they differ first at this place, which is the length of the shorter
    /// list where that begins the other.
    OtherCuts {
        at: u64,
    },
    /// No memory was left.
    NoMemory,
}

/// What shut a board.
#[derive(Clone, Copy, PartialEq, Eq, Drop)]
pub enum Shutting {
    /// A call on the disk failed while posts were recorded.
    DiskFault,
    /// With the record of the posts the journal would have ended at `end`, which is past `limit`. Both are lengths in bytes.
    Full { end: u64, limit: u32 },
}

/// Where a board began. It stands in contracts alone; no value of it is made.
#[derive(Drop)]
pub struct Origin {
    /// The posts with which it was opened.
    pub history: Posts,
    /// How many calls of its disk had been made then.
    pub moment: u64,
    /// How many of them had failed.
    pub faults: u64,
    /// The greatest length of its journal, in bytes.
    pub limit: u32,
    /// Whether the disk tells its content.
    pub tells: bool,
}

/// The posts of a search, with the nodes that its workers hold. A worker takes a node, finds prices, plans or a way to
/// split it, and commits these as one step that closes the node. Workers have the numbers 0 to 15.
pub trait Board {
    // all that contracts see of it
    ghost seen: { Self → BoardView };

    /// A worker whose hand is empty takes a node, if one is to be had.
    fn take(&mut self, worker: u32) -> Taken
        requires worker { worker < 16 }
        requires empty { hand (seen self.old).hands worker ≡ None }
        ensures { TakeMakes result worker (seen self.old) (seen self.new) };

    /// Whether it gives nodes: nothing shut it, a node is open, no worker gave up, and a step is left.
    fn gives(&self) -> bool
        ensures { IsTrue result ↔ Gives (seen self.now) };

    /// The cuts of the node in a worker's hand.
    fn cuts(&self, worker: u32) -> Result<Cuts, NoMemory>
        requires worker { worker < 16 }
        requires full { IsSome (hand (seen self.now).hands worker) }
        ensures cuts { IfOk result (λ cuts. (k : ℕ) → hand (seen self.now).hands worker ≡ Some k → cuts ≡ cuts_in (book_at (seen self.now)).nodes k) }
        ensures few { IfOk result (λ cuts. length cuts ≤ 2 ^ 24) };

    /// What is known already of the node in a worker's hand: the prices last posted for it or above it, and the best rota. Nothing
    /// is promised of it.
    fn hint(&self, worker: u32) -> Result<Hint, NoMemory>
        requires worker { worker < 16 }
        requires full { IsSome (hand (seen self.now).hands worker) };

    /// A worker commits a step for the node in its hand, and lets go of it. All posts of the step are one record; where it has
    /// none, no record is made.
    fn commit(&mut self, worker: u32, step: StepPosts) -> Result<Kept, CommitFault>
        requires worker { worker < 16 }
        requires fits { Fits (seen self.old).instance step }
        ensures ok { IfOk result (Commits worker step (seen self.old) (seen self.new)) }
        ensures err { IfErr result (CommitRefuses worker step (seen self.old) (seen self.new)) };

    /// A worker lets go of the node in its hand, if there is one, without a commit. The board gives no more nodes then.
    fn yield_node(&mut self, worker: u32)
        requires { worker < 16 }
        ensures { seen self.new ≡ yields worker (seen self.old) };

    /// The node in a worker's hand.
    fn held(&self, worker: u32) -> Option<u32>
        requires { worker < 16 }
        ensures { result ≡ hand (seen self.now).hands worker };

    /// What the best rota costs.
    fn best_cost(&self) -> u64
        ensures { result ≡ (book_at (seen self.now)).cost };

    /// How many posts there are.
    fn posts(&self) -> u64
        ensures { result ≡ length (seen self.now).history };

    // what every board keeps
    ghost sound: { (b : Self) → IsSoundBoard (seen b) };
}

/// What every board keeps: its posts make a book, its workers hold distinct unsplit nodes of it, no more steps are taken than
/// the budget has, and its posts begin with those of its origin. Where its journal's limit shut it, the posts of a step
/// would have ended past it, at the place that is told.
pub fn keeps_sound<B: Board>(board: &B)
    ensures { IsSoundBoard (B.seen board.now) }
{
    let _ = board;
}
