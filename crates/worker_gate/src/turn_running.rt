//! The run of workers over a board by turns, for a ledger of its commits.
ghost use Rattle.std.specs.Prelude.{◌≡◌, ◌+◌, ◌<◌, ◌≤◌, ◌^◌, ℕ, All, IfErr, IfOk, None, Some, false, true, length, slice_index_or, sum_by, vec_len};
ghost use Rattle.search_core.specs.Core.{empty_hands};
ghost use Rattle.best_cell.specs.Told.{last_of};
ghost use Rattle.board_lock.specs.Best.{best_of};
ghost use Rattle.board_lock.specs.Roots.{root_at};
ghost use Rattle.board_lock.specs.Turns.{AreTurns};
ghost use Rattle.turn_lock.specs.Seats.{new_seats};
ghost use Rattle.worker_gate.specs.Passing.{FollowOn};
ghost use Rattle.worker_gate.specs.Workers.{IsToldLast, WorkersEnd};

use crate::noted::Noted;
use crate::passing::Passing;
use crate::running::{finish_all, tellings};
use crate::seat::Place;
use crate::seating::unseat_all;
use crate::turn_bench::work_by_turns;
use crate::turn_seating::seat_turns;
use crate::{Gate, RunEnd, Seat};
use advice::{Adviser, Stop};
use best_cell::Teller;
use board_lock::{Begun, BestOf, BoardRoot, Held};
use search_core::Board;
use shift_instance::Instance;
use std::alloc::Global;
use std::snapshot::Snapshot;
use std::sync::Wait;
use std::sync::ledger::{Blank, Book};
use std::thread::Threads;
use turn_lock::{Pass, TurnLock, TurnSeat, Unmade};

/// A lock with turns round a board, its seats, and what they know of the board.
type Locked<B, L> = (
    TurnLock<Passing<B, L>>,
    Vec<TurnSeat<BoardRoot<B>>>,
    BoardRoot<B>,
);

/// A lock with turns round a board as it is opened, its seats, and what they know of the board. Without memory the board comes back with its ledger.
fn lock_up<B: Board, L: Begun>(
    alloc: Global,
    board: B,
    workers: u32,
    commits: Book<L>,
    teller: Teller<BestOf<L>>,
) -> Result<Locked<B, L>, Held<B, L>>
    requires some { 0 < workers }
    requires sixteen { workers ≤ 16 }
    requires begun { (L.begun_at ≡ Some (B.seen board)) × (L.begun_by ≡ workers) }
    requires fresh { (B.seen board).taken ≡ 0 }
    requires running { (B.seen board).shut ≡ None }
    requires going { (B.seen board).halted ≡ false }
    requires empty { (B.seen board).hands ≡ empty_hands }
    requires none { commits.total ≡ 0 }
    requires told { last_of teller ≡ best_of (B.seen board) }
    ensures opened { IfOk result (λ made. made.2.opened.value ≡ board) }
    ensures workers { IfOk result (λ made. made.2.workers ≡ workers) }
    ensures count { IfOk result (λ made. made.0.seats ≡ workers) }
    ensures seats { IfOk result (λ made. made.1.items ≡ new_seats made.0.name (Some made.2) 0 workers) }
    ensures refused { IfErr result (λ held. held.board ≡ board) }
{
    let root = BoardRoot {
        opened: Snapshot::of(&board),
        workers,
    };
    let held = Held::new(board, workers, commits);
    let noted = Noted::kept(alloc, held);
    match TurnLock::new(alloc, Passing { noted, teller }, workers) {
        Ok((lock, made)) => Ok((lock, made, root)),
        Err(Unmade { value }) => {
            let BoardRoot {
                opened: _,
                workers: _,
            } = root;
            let Passing { noted, teller: _ } = value;
            let Noted {
                held,
                passes: _,
                keeps: _,
            } = noted;
            Err(held)
        }
    }
}

/// The board with its passes, once all seats at its lock are back.
fn unlock<B: Board, L: Begun>(
    lock: TurnLock<Passing<B, L>>,
    made: Vec<TurnSeat<BoardRoot<B>>>,
    root: BoardRoot<B>,
) -> Noted<B, L>
    requires some { 0 < length made.items }
    requires all { length made.items ≡ lock.seats }
    requires lock { All (λ s. s.lock ≡ lock.name) made.items }
    requires of_root { All (λ s. s.root ≡ Some root) made.items }
    ensures root { root_at result.held.opened result.held.workers ≡ root }
    ensures keeps { result.keeps ≡ true }
{
    let BoardRoot {
        opened: _,
        workers: _,
    } = root;
    let Passing { noted, teller: _ } = lock.close(made);
    noted
}

/// What `run_turns` does, for the ledger that the blank stands for.
pub(crate) fn run_turns_in<
    B: Board + Send,
    L: Begun + Send + Sync,
    G: Gate + Sync,
    S: Stop + Sync,
    R: Threads + Wait + Sync,
>(
    rt: &R,
    alloc: Global,
    instance: &Instance,
    board: B,
    mut seats: Vec<Seat>,
    gate: &G,
    stop: &S,
    blank: Blank,
) -> (B, Vec<Seat>, Vec<Pass>, RunEnd)
    requires ledger { (blank.name ≡ L.name) × (blank.parts ≡ L.parts) × (blank.parts ≡ vec_len seats + 1) }
    requires begun { (L.begun_at ≡ Some (B.seen board)) × (L.begun_by ≡ vec_len seats) }
    requires instance { (B.seen board).instance ≡ instance.now }
    requires fresh { (B.seen board).taken ≡ 0 }
    requires running { (B.seen board).shut ≡ None }
    requires going { (B.seen board).halted ≡ false }
    requires empty { (B.seen board).hands ≡ empty_hands }
    requires budget { (B.seen board).budget < 2 ^ 63 }
    requires some { 0 < vec_len seats }
    requires sixteen { vec_len seats ≤ 16 }
    requires new { All (λ s. (s.told ≡ 0) × (s.share ≡ 0)) seats.items }
    ensures turns { ∥ AreTurns (vec_len seats) (B.seen board) (B.seen result.0) (sum_by (λ s. s.share) result.1.items) ∥₁ }
    ensures passes { ∥ FollowOn (B.seen result.0).history (length (B.seen board).history) result.2.items (length (B.seen result.0).history) ∥₁ }
    ensures end { WorkersEnd (B.seen board) (B.seen result.0) result.3 }
    ensures stopped { result.3 ≡ RunEnd.Stopped → S.can_ask stop.now ≡ true }
    ensures seats { vec_len result.1 ≡ vec_len seats }
    ensures each { All (λ s. s.told ≡ s.share) result.1.items }
    ensures told { (i : ℕ) (d : _) → i < vec_len seats → told (slice_index_or seats.items i d).adviser < 2 ^ 63
        → told (slice_index_or result.1.items i d).adviser ≡ told (slice_index_or seats.items i d).adviser + (slice_index_or result.1.items i d).told }
    ensures last { (i : ℕ) (d : _) → i < vec_len seats
        → IsToldLast (vec_len seats) (B.seen board) i 0 (slice_index_or result.1.items i d).told (last (slice_index_or seats.items i d).adviser) (last (slice_index_or result.1.items i d).adviser) }
{
    let Ok(mut bench) = Vec::<Place<B, L>>::with_capacity(alloc, seats.len()) else {
        return (board, seats, Vec::new(alloc), RunEnd::NoMemory);
    };
    let Ok((teller, mut readers)) = tellings(rt, alloc, &board, seats.len()) else {
        return (board, seats, Vec::new(alloc), RunEnd::NoMemory);
    };
    let (commits, mut all) = blank.open::<L>();
    let (lock, mut made, root) = match lock_up(alloc, board, seats.len() as u32, commits, teller) {
        Ok(made) => made,
        Err(held) => {
            let board = held.into_board(&mut all);
            return (board, seats, Vec::new(alloc), RunEnd::NoMemory);
        }
    };
    seat_turns(
        &lock,
        &root,
        &mut made,
        &mut all,
        &mut seats,
        &mut readers,
        &mut bench,
    );
    work_by_turns(
        rt, alloc, instance, &lock, gate, stop, &root, &mut bench, &mut made,
    );
    let mut noted = unlock(lock, made, root);
    let end = finish_all(alloc, instance, &mut noted, gate, stop, &mut bench);
    unseat_all(&mut bench, &mut seats, &mut all);
    let Noted {
        held,
        passes,
        keeps: _,
    } = noted;
    let board = held.into_board(&mut all);
    (board, seats, passes, end)
}
