// What lies behind the lock of a board: the board, and how many commits its workers made.
ghost use Rattle.std.specs.Prelude.{◌≡◌, ◌≤◌, IsTrue, Some};
ghost use Rattle.search_core.specs.Core.{empty_hands};
ghost use Rattle.board_lock.specs.Shut.{is_same_shut};
ghost use Rattle.board_lock.specs.Turns.{AreTurns};

use crate::begun::Begun;
use crate::roots::BoardRoot;
use crate::rule::Rooted;
use crate::shut::shut_by;
use search_core::{Board, CommitFault, Kept, Shutting, StepPosts, Taken};
use std::snapshot::Snapshot;
use std::sync::ledger::{Book, Share};

/// A board with a ledger of its commits. What turns of its workers have made of it since it was opened stays with it, in whatever
/// order they came.
pub struct Held<B: Board, L: Begun> {
    /// The board.
    pub board: B,
    /// The board as it was opened. It stands in contracts alone.
    pub opened: Snapshot<B>,
    /// How many workers take nodes of it.
    pub workers: u32,
    /// What shut the board, if anything did.
    pub shut: Option<Shutting>,
    /// Whether a worker let go of its node without a commit.
    pub halted: bool,
    /// The commits that answered `Ok`: each is in the share of the worker that made it.
    pub commits: Book<L>,
    ghost sixteen: { workers ≤ 16 },
    ghost begun: { L.begun_at ≡ Some (B.seen opened.value) },
    ghost as_many: { L.begun_by ≡ workers },
    ghost untaken: { (B.seen opened.value).taken ≡ 0 },
    ghost empty: { (B.seen opened.value).hands ≡ empty_hands },
    ghost closed: { IsTrue (is_same_shut (B.seen board).shut shut) },
    ghost stopped: { (B.seen board).halted ≡ halted },
    ghost turns: { ∥ AreTurns workers (B.seen opened.value) (B.seen board) commits.total ∥₁ },
}

impl<B: Board, L: Begun> Rooted for Held<B, L> {
    type Root = BoardRoot<B>;

    ghost use Rattle.board_lock.specs.Roots.{root_at};

    ghost root = { λ h. root_at h.opened h.workers };
}

impl<B: Board, L: Begun> Held<B, L> {
    ghost use Rattle.std.specs.Prelude.{◌+◌, ◌<◌, None, false, IfErr, IfOk, OnErr, OnOk};
    ghost use Rattle.search_core.specs.Board.{yields, CommitRefuses, Commits, TakeMakes};
    ghost use Rattle.search_core.specs.Core.{hand};
    ghost use Rattle.search_core.specs.Steps.{Fits};
    ghost use Rattle.board_lock.specs.Roots.{root_at};

    /// A board as it is opened, with an empty ledger.
    pub fn new(board: B, workers: u32, commits: Book<L>) -> Held<B, L>
        requires sixteen { workers ≤ 16 }
        requires begun { L.begun_at ≡ Some (B.seen board) }
        requires as_many { L.begun_by ≡ workers }
        requires untaken { (B.seen board).taken ≡ 0 }
        requires empty { (B.seen board).hands ≡ empty_hands }
        requires running { (B.seen board).shut ≡ None }
        requires going { (B.seen board).halted ≡ false }
        requires none { commits.total ≡ 0 }
        ensures board { result.board ≡ board }
        ensures opened { result.opened.value ≡ board }
        ensures workers { result.workers ≡ workers }
        ensures commits { result.commits ≡ commits }
    {
        let opened = Snapshot::of(&board);
        Held {
            board,
            opened,
            workers,
            shut: None,
            halted: false,
            commits,
        }
    }

    /// A worker whose hand is empty takes a node, if one is to be had.
    pub fn take(&mut self, worker: u32) -> Taken
        requires worker { worker < self.old.workers }
        requires empty { hand (B.seen self.old.board).hands worker ≡ None }
        ensures makes { TakeMakes result worker (B.seen self.old.board) (B.seen self.new.board) }
        ensures root { root_at self.new.opened self.new.workers ≡ root_at self.old.opened self.old.workers }
    {
        self.board.take(worker)
    }

    /// A worker commits a step for the node in its hand. Where this answers `Ok`, the commits in its share are one more, and else
    /// as many as before: in any case no more than the budget has steps.
    pub fn commit(
        &mut self,
        worker: u32,
        step: StepPosts,
        share: &mut Share<L>,
    ) -> Result<Kept, CommitFault>
        requires worker { worker < 16 }
        requires fits { Fits (B.seen self.old.opened.value).instance step }
        requires part { 0 < share.old.parts }
        ensures ok { IfOk result (Commits worker step (B.seen self.old.board) (B.seen self.new.board)) }
        ensures err { IfErr result (CommitRefuses worker step (B.seen self.old.board) (B.seen self.new.board)) }
        ensures counted { OnOk result (share.new.amount ≡ share.old.amount + 1) }
        ensures uncounted { OnErr result (share.new.amount ≡ share.old.amount) }
        ensures within { share.new.amount ≤ (B.seen self.new.opened.value).budget }
        ensures parts { share.new.parts ≡ share.old.parts }
        ensures root { root_at self.new.opened self.new.workers ≡ root_at self.old.opened self.old.workers }
    {
        let Held {
            board,
            opened: _,
            workers: _,
            shut,
            halted: _,
            commits,
        } = self;
        match board.commit(worker, step) {
            Ok(kept) => {
                commits.add(share, 1);
                commits.audit(share);
                Ok(kept)
            }
            Err(fault) => {
                *shut = shut_by(&fault, *shut);
                commits.audit(share);
                Err(fault)
            }
        }
    }

    /// A worker lets go of the node in its hand, if there is one, without a commit. The board gives no more nodes then.
    pub fn yield_node(&mut self, worker: u32)
        requires { worker < 16 }
        ensures makes { B.seen self.new.board ≡ yields worker (B.seen self.old.board) }
        ensures root { root_at self.new.opened self.new.workers ≡ root_at self.old.opened self.old.workers }
    {
        self.board.yield_node(worker);
        self.halted = true;
    }

    /// The board, once all shares of its ledger are together again: turns of its workers have made it of the board as it was
    /// opened, and the shares are together the commits that answered `Ok`.
    pub fn into_board(self, all: &mut Share<L>) -> B
        requires whole { all.old.parts ≡ L.parts }
        ensures board { result ≡ self.board }
        ensures turns { ∥ AreTurns self.workers (B.seen self.opened.value) (B.seen result) all.new.amount ∥₁ }
        ensures amount { all.new.amount ≡ all.old.amount }
        ensures parts { all.new.parts ≡ all.old.parts }
    {
        let Held {
            board,
            opened: _,
            workers: _,
            shut: _,
            halted: _,
            mut commits,
        } = self;
        commits.audit(all);
        board
    }
}
