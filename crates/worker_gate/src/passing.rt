//! The board behind a lock whose turns are taken in the order of tickets, and a worker's turns there.
ghost use Rattle.std.specs.Prelude.{◌≡◌, ◌+◌, ◌<◌, ◌≤◌, true, Some};
ghost use Rattle.best_cell.specs.Told.{last_of};
ghost use Rattle.board_lock.specs.Best.{best_of};
ghost use Rattle.board_lock.specs.Roots.{root_at};
ghost use Rattle.turn_lock.specs.Passes.{AddsAtMostOne};
ghost use Rattle.worker_gate.specs.Turned.{left_of, IsSeatAt};

use crate::chair::{Chair, TurnPass};
use crate::noted::Noted;
use crate::taking::Taking;
use crate::turns::{Left, Rest, Work};
use best_cell::Teller;
use board_lock::{Begun, BestOf, BoardRoot};
use search_core::{Board, Kept, StepPosts};
use std::mem;
use std::sync::Wait;
use std::sync::ledger::Share;
use turn_lock::{Passed, Turn, TurnLock};

/// A board with its ledger and the passes that were made on it, and the teller of its best cost, which has told last how many posts the board has and
/// what its best rota costs.
pub(crate) struct Passing<B: Board, L: Begun> {
    pub(crate) noted: Noted<B, L>,
    pub(crate) teller: Teller<BestOf<L>>,
    ghost told: { last_of teller ≡ best_of (B.seen noted.held.board) },
    ghost kept: { noted.keeps ≡ true },
}

impl<B: Board, L: Begun> Passed for Passing<B, L> {
    type Root = BoardRoot<B>;

    ghost use Rattle.board_lock.specs.Roots.{root_at};

    ghost root = { λ p. root_at p.noted.held.opened p.noted.held.workers };

    ghost passes = { λ p. p.noted.passes.items };
}

/// A seat's turn at the lock begins.
fn begin_turn<B: Board, L: Begun, R: Wait>(
    rt: &R,
    lock: &TurnLock<Passing<B, L>>,
    pass: &mut TurnPass<B>,
    _worker: u32,
) -> Turn<Passing<B, L>>
    requires seat { IsSeatAt lock.now _worker pass.old.root.value pass.old.seat }
    requires turns { 0 < left_of pass.old.seat }
    ensures root { root_at result.value.noted.held.opened result.value.noted.held.workers ≡ pass.old.root.value }
    ensures lock { result.seat.lock ≡ lock.now.name }
    ensures number { result.seat.number ≡ _worker }
    ensures left { result.seat.left ≡ left_of pass.old.seat }
    ensures of_root { result.seat.root ≡ Some pass.old.root.value }
    ensures known { result.seat.known ≡ result.value.noted.passes.items }
    ensures pass { pass.new.root ≡ pass.old.root }
{
    let Some(seat) = pass.seat.take() else {
        unreachable!()
    };
    lock.enter(rt, seat)
}

/// A seat's turn at the lock ends, with at most one more pass of its worker.
fn end_turn<B: Board, L: Begun>(
    lock: &TurnLock<Passing<B, L>>,
    turn: Turn<Passing<B, L>>,
    pass: &mut TurnPass<B>,
    _worker: u32,
)
    requires root { root_at turn.value.noted.held.opened turn.value.noted.held.workers ≡ pass.old.root.value }
    requires lock { turn.seat.lock ≡ lock.now.name }
    requires number { turn.seat.number ≡ _worker }
    requires of_root { turn.seat.root ≡ Some pass.old.root.value }
    requires passes { AddsAtMostOne _worker turn.seat.known turn.value.noted.passes.items }
    ensures seat { IsSeatAt lock.now _worker pass.old.root.value pass.new.seat }
    ensures left { turn.seat.left ≤ left_of pass.new.seat + 1 }
    ensures pass { pass.new.root ≡ pass.old.root }
{
    let seat = lock.leave(turn);
    pass.seat = Some(seat);
}

impl<B: Board, L: Begun> Taking<B, L> for TurnLock<Passing<B, L>> {
    ghost use Rattle.worker_gate.specs.Turned.{left_of, HasTurns, IsSeatAt};

    type Pass = TurnPass<B>;

    ghost outside = { λ lock number pass. IsSeatAt lock number pass.root.value pass.seat };

    ghost root = { λ pass. pass.root.value };

    ghost left = { λ pass. left_of pass.seat };

    ghost rests = { λ lock number known chair. HasTurns lock number known chair };

    fn sit(&self, chair: &mut Chair<B>) -> TurnPass<B> {
        let there = mem::replace(chair, Chair::Away);
        let Chair::Turns(pass) = there else {
            unreachable!()
        };
        pass
    }

    fn rise(&self, pass: TurnPass<B>, chair: &mut Chair<B>) {
        *chair = Chair::Turns(pass);
    }

    fn lasts(&self, pass: &TurnPass<B>) -> bool {
        match &pass.seat {
            Some(seat) => seat.left() >= 4,
            None => false,
        }
    }

    fn take_turn<R: Wait>(
        &self,
        rt: &R,
        pass: &mut TurnPass<B>,
        worker: u32,
        asked: bool,
    ) -> Result<Work, Rest> {
        let Turn { value, seat } = begin_turn(rt, self, pass, worker);
        let Passing { mut noted, teller } = value;
        let work = noted.next_work(worker, asked);
        let value = Passing { noted, teller };
        end_turn(self, Turn { value, seat }, pass, worker);
        work
    }

    fn commit_turn<R: Wait>(
        &self,
        rt: &R,
        pass: &mut TurnPass<B>,
        worker: u32,
        step: StepPosts,
        share: &mut Share<L>,
    ) -> Result<Kept, Left> {
        let Turn { value, seat } = begin_turn(rt, self, pass, worker);
        let Passing {
            mut noted,
            mut teller,
        } = value;
        let kept = noted.commit(worker, step, share);
        noted.held.tell(rt, &mut teller);
        let value = Passing { noted, teller };
        end_turn(self, Turn { value, seat }, pass, worker);
        kept
    }

    fn yield_turn<R: Wait>(&self, rt: &R, pass: &mut TurnPass<B>, worker: u32) {
        let Turn { value, seat } = begin_turn(rt, self, pass, worker);
        let Passing { mut noted, teller } = value;
        noted.yield_node(worker);
        let value = Passing { noted, teller };
        end_turn(self, Turn { value, seat }, pass, worker);
    }
}
