//! A worker's turns at the lock of a board.
ghost use Rattle.std.specs.Prelude.{◌≡◌, ◌+◌, ◌<◌, ◌≤◌, ◌^◌, true, Some, IfErr, IfOk, OnErr, OnOk, length};
ghost use Rattle.search_core.specs.Board.{book_at, yields, Commits};
ghost use Rattle.search_core.specs.Core.{hand};
ghost use Rattle.search_core.specs.Kept.{cuts_in};
ghost use Rattle.search_core.specs.Steps.{Fits};
ghost use Rattle.best_cell.specs.Told.{Follows};
ghost use Rattle.board_lock.specs.Best.{best_of};
ghost use Rattle.board_lock.specs.Passes.{root_of, IsOutside};
ghost use Rattle.board_lock.specs.Roots.{root_at};
ghost use Rattle.worker_gate.specs.Runs.{news_of};
ghost use Rattle.worker_gate.specs.Workers.{IsLeft, IsNews, LeavesStep};

use crate::asking::ask_of;
use crate::chair::Chair;
use crate::taking::Taking;
use advice::Ask;
use board_lock::{Begun, BoardRoot, Desk, Held, Lock, Pass};
use search_core::{Board, CommitFault, Kept, StepPosts, Taken};
use std::mem;
use std::sync::Wait;
use std::sync::ledger::Share;

/// The lock of a board, and a seat at it.
pub(crate) type BoardLock<B, L> = Lock<Desk<B, L>>;

pub(crate) type BoardPass<B, L> = Pass<Desk<B, L>, BoardRoot<B>>;

/// The node in a worker's hand, with what to ask for it.
#[derive(Drop)]
pub(crate) struct Work {
    pub(crate) node: u32,
    pub(crate) ask: Ask,
    /// Whether it was taken at this turn.
    pub(crate) taken: bool,
}

/// Why a worker has nothing to work on.
#[derive(Clone, Copy, PartialEq, Eq, Drop)]
pub(crate) enum Rest {
    /// It takes another turn.
    Again,
    /// Its run is over.
    End,
    /// It is asked to stop, and its hand is empty.
    Asked,
}

/// What became of a step that wasn't committed.
#[derive(Drop)]
pub(crate) enum Left {
    /// The worker goes on with what its hand holds.
    Again,
    /// By its price alone it would have left its node open. It comes back.
    NotClosing(StepPosts),
    /// The worker's run is over.
    End,
}

/// The worker's node with its cuts. Without memory for these the worker lets go of it.
pub(crate) fn work_of<B: Board, L: Begun>(
    held: &mut Held<B, L>,
    worker: u32,
    node: u32,
    floor: u64,
    best: u64,
    taken: bool,
) -> Result<Work, Rest>
    requires worker { worker < 16 }
    requires holds { hand (B.seen held.old.board).hands worker ≡ Some node }
    ensures root { root_at held.new.opened held.new.workers ≡ root_at held.old.opened held.old.workers }
    ensures node { IfOk result (λ work. work.node ≡ node) }
    ensures cuts { IfOk result (λ work. work.ask.cuts ≡ cuts_in (book_at (B.seen held.old.board)).nodes node) }
    ensures few { IfOk result (λ work. length work.ask.cuts ≤ 2 ^ 24) }
    ensures same { OnOk result (B.seen held.new.board ≡ B.seen held.old.board) }
    ensures let_go { OnErr result (B.seen held.new.board ≡ yields worker (B.seen held.old.board)) }
    ensures end { IfErr result (λ rest. rest ≡ Rest.End) }
    ensures best { best_of (B.seen held.new.board) ≡ best_of (B.seen held.old.board) }
    ensures posts { (B.seen held.new.board).history ≡ (B.seen held.old.board).history }
{
    match ask_of(&held.board, worker, floor, best) {
        Ok(ask) => Ok(Work { node, ask, taken }),
        Err(_) => {
            held.yield_node(worker);
            Err(Rest::End)
        }
    }
}

/// The node that the worker's hand holds, or else one that it takes, unless it is asked to stop.
pub(crate) fn next_work<B: Board, L: Begun>(
    held: &mut Held<B, L>,
    worker: u32,
    asked: bool,
) -> Result<Work, Rest>
    requires worker { worker < held.old.workers }
    ensures root { root_at held.new.opened held.new.workers ≡ root_at held.old.opened held.old.workers }
    ensures few { IfOk result (λ work. length work.ask.cuts ≤ 2 ^ 24) }
    ensures asked { IfErr result (λ rest. rest ≡ Rest.Asked → asked ≡ true) }
    ensures best { best_of (B.seen held.new.board) ≡ best_of (B.seen held.old.board) }
    ensures posts { (B.seen held.new.board).history ≡ (B.seen held.old.board).history }
{
    match held.board.held(worker) {
        Some(node) => {
            let best = held.board.best_cost();
            work_of(held, worker, node, 0, best, false)
        }
        None if asked => Err(Rest::Asked),
        None => match held.take(worker) {
            Taken::Node { node, floor, best } => work_of(held, worker, node, floor, best, true),
            Taken::Idle => Err(Rest::Again),
            Taken::Closed => Err(Rest::End),
            Taken::Finished => Err(Rest::End),
            Taken::Halted => Err(Rest::End),
            Taken::Spent => Err(Rest::End),
        },
    }
}

/// Commits the worker's step, or tells how it goes on. Without memory the worker lets go of its node.
pub(crate) fn commit_in<B: Board, L: Begun>(
    held: &mut Held<B, L>,
    worker: u32,
    step: StepPosts,
    share: &mut Share<L>,
) -> Result<Kept, Left>
    requires worker { worker < 16 }
    requires fits { Fits (B.seen held.old.opened.value).instance step }
    requires part { 0 < share.old.parts }
    ensures root { root_at held.new.opened held.new.workers ≡ root_at held.old.opened held.old.workers }
    ensures counted { OnOk result (share.new.amount ≡ share.old.amount + 1) }
    ensures uncounted { OnErr result (share.new.amount ≡ share.old.amount) }
    ensures within { share.new.amount ≤ (B.seen held.old.opened.value).budget }
    ensures parts { share.new.parts ≡ share.old.parts }
    ensures kept { IfOk result (Commits worker step (B.seen held.old.board) (B.seen held.new.board)) }
    ensures left { IfErr result (LeavesStep worker step (B.seen held.old.board) (B.seen held.new.board)) }
    ensures news { IfOk result (λ kept. ∥ IsNews held.old.workers (B.seen held.old.opened.value) worker (news_of step.node kept) ∥₁) }
    ensures best { Follows (best_of (B.seen held.old.board)) (best_of (B.seen held.new.board)) }
{
    match held.commit(worker, step, share) {
        Ok(kept) => Ok(kept),
        Err(CommitFault::NotClosing { step, .. }) => Err(Left::NotClosing(step)),
        Err(CommitFault::NotHeld { .. }) => Err(Left::Again),
        Err(CommitFault::OtherCuts { .. }) => Err(Left::Again),
        Err(CommitFault::NoMemory) => {
            held.yield_node(worker);
            Err(Left::End)
        }
        Err(CommitFault::DiskFault) => Err(Left::End),
        Err(CommitFault::Full { .. }) => Err(Left::End),
        Err(CommitFault::Shut) => Err(Left::End),
    }
}

impl<B: Board, L: Begun> Taking<B, L> for Lock<Desk<B, L>> {
    ghost use Rattle.std.specs.Prelude.{◌≡◌};
    ghost use Rattle.board_lock.specs.Passes.{root_of, IsOutside};
    ghost use Rattle.worker_gate.specs.Turned.{HasBadge};

    type Pass = BoardPass<B, L>;

    ghost outside = { λ lock number pass. IsOutside lock pass };

    ghost root = { λ pass. root_of pass };

    ghost left = { λ pass. 4 };

    ghost rests = { λ lock number known chair. HasBadge lock known chair };

    fn sit(&self, chair: &mut Chair<B>) -> BoardPass<B, L> {
        let there = mem::replace(chair, Chair::Away);
        let Chair::Badge(badge) = there else {
            unreachable!()
        };
        badge.into_seat()
    }

    fn rise(&self, pass: BoardPass<B, L>, chair: &mut Chair<B>) {
        *chair = Chair::Badge(pass.into_badge());
    }

    fn lasts(&self, _pass: &BoardPass<B, L>) -> bool {
        true
    }

    fn take_turn<R: Wait>(
        &self,
        rt: &R,
        pass: &mut BoardPass<B, L>,
        worker: u32,
        asked: bool,
    ) -> Result<Work, Rest> {
        let Desk { mut held, teller } = self.enter(rt, pass);
        let work = next_work(&mut held, worker, asked);
        self.leave(Desk { held, teller }, pass);
        work
    }

    fn commit_turn<R: Wait>(
        &self,
        rt: &R,
        pass: &mut BoardPass<B, L>,
        worker: u32,
        step: StepPosts,
        share: &mut Share<L>,
    ) -> Result<Kept, Left> {
        let Desk {
            mut held,
            mut teller,
        } = self.enter(rt, pass);
        let kept = commit_in(&mut held, worker, step, share);
        held.tell(rt, &mut teller);
        self.leave(Desk { held, teller }, pass);
        kept
    }

    fn yield_turn<R: Wait>(&self, rt: &R, pass: &mut BoardPass<B, L>, worker: u32) {
        let Desk { mut held, teller } = self.enter(rt, pass);
        held.yield_node(worker);
        self.leave(Desk { held, teller }, pass);
    }
}
