//! The run of workers over a board by turns.
ghost use Rattle.std.specs.Prelude.{◌≡◌, ◌≢◌, ◌+◌, ◌*◌, ◌<◌, ◌≤◌, ◌^◌, ℕ, All, None, false, true, length, slice_index_or, sum_by, vec_len};
ghost use Rattle.search_core.specs.Calls.{full_hands, steps_enough};
ghost use Rattle.search_core.specs.Core.{empty_hands, IsFront};
ghost use Rattle.board_lock.specs.Turns.{plans_since, prices_since, AreTurns};
ghost use Rattle.worker_gate.specs.Passing.{FollowOn};
ghost use Rattle.worker_gate.specs.Runs.{IsSameSearch};
ghost use Rattle.worker_gate.specs.Workers.{IsToldLast, WorkersEnd};

use crate::turn_running::run_turns_in;
use crate::{Gate, RunEnd, Seat};
use advice::{Adviser, Stop};
use search_core::{Board, keeps_sound};
use shift_instance::Instance;
use std::alloc::Global;
use std::marker::Brand;
use std::sync::Wait;
use std::sync::ledger::Blank;
use std::thread::Threads;
use turn_lock::Pass;

/// Runs a worker for each seat over a board, as [`run_workers`](crate::run_workers) does, but at a lock whose turns are taken in the order of tickets.
/// Each take, each commit and each letting go of a node is one turn. A turn that appended posts makes a pass, with its worker's number and how many
/// posts there were before and after it; so does each commit that the caller makes once all workers have ended. A worker takes room for a pass at
/// the beginning of each turn, and gives up where there is none. One whose seat has fewer than four turns left begins no further round.
///
/// The passes come back too. They follow one another without a gap from the posts that the board had to those that it has, and each post of a pass
/// carries the number of the worker that made it.
pub fn run_turns<B: Board + Send, G: Gate + Sync, S: Stop + Sync, R: Threads + Wait + Sync>(
    rt: &R,
    alloc: Global,
    instance: &Instance,
    board: B,
    seats: Vec<Seat>,
    gate: &G,
    stop: &S,
) -> (B, Vec<Seat>, Vec<Pass>, RunEnd)
    requires instance { (B.seen board).instance ≡ instance.now }
    requires fresh { (B.seen board).taken ≡ 0 }
    requires running { (B.seen board).shut ≡ None }
    requires going { (B.seen board).halted ≡ false }
    requires empty { (B.seen board).hands ≡ empty_hands }
    requires budget { (B.seen board).budget < 2 ^ 63 }
    requires some { 0 < vec_len seats }
    requires sixteen { vec_len seats ≤ 16 }
    requires new { All (λ s. (s.told ≡ 0) × (s.share ≡ 0)) seats.items }
    ensures same { IsSameSearch (B.seen board) (B.seen result.0) }
    ensures begins { IsFront (B.seen board).history (B.seen result.0).history }
    ensures turns { ∥ AreTurns (vec_len seats) (B.seen board) (B.seen result.0) (sum_by (λ s. s.share) result.1.items) ∥₁ }
    ensures passes { ∥ FollowOn (B.seen result.0).history (length (B.seen board).history) result.2.items (length (B.seen result.0).history) ∥₁ }
    ensures end { WorkersEnd (B.seen board) (B.seen result.0) result.3 }
    ensures stopped { result.3 ≡ RunEnd.Stopped → S.can_ask stop.now ≡ true }
    ensures within { sum_by (λ s. s.share) result.1.items + full_hands (B.seen result.0).hands ≤ (B.seen result.0).taken }
    ensures exact { (B.seen result.0).halted ≡ false → sum_by (λ s. s.share) result.1.items + full_hands (B.seen result.0).hands ≡ (B.seen result.0).taken }
    ensures posts { sum_by (λ s. s.share) result.1.items ≤ prices_since (B.seen board).history (B.seen result.0).history + vec_len seats * plans_since (B.seen board).history (B.seen result.0).history }
    ensures few { (B.seen result.0).taken ≤ steps_enough (B.seen board).instance }
    ensures enough { steps_enough (B.seen board).instance ≤ (B.seen board).budget → result.3 ≢ RunEnd.Spent }
    ensures seats { vec_len result.1 ≡ vec_len seats }
    ensures each { All (λ s. s.told ≡ s.share) result.1.items }
    ensures told { (i : ℕ) (d : _) → i < vec_len seats → told (slice_index_or seats.items i d).adviser < 2 ^ 63
        → told (slice_index_or result.1.items i d).adviser ≡ told (slice_index_or seats.items i d).adviser + (slice_index_or result.1.items i d).told }
    ensures last { (i : ℕ) (d : _) → i < vec_len seats
        → IsToldLast (vec_len seats) (B.seen board) i 0 (slice_index_or result.1.items i d).told (last (slice_index_or seats.items i d).adviser) (last (slice_index_or result.1.items i d).adviser) }
{
    keeps_sound(&board);
    let blank = Blank::new(seats.len() as u64 + 1);
    let (board, seats, passes, end) = run_turns_in::<B, Brand, G, S, R>(
        rt, alloc, instance, board, seats, gate, stop, blank,
    );
    keeps_sound(&board);
    (board, seats, passes, end)
}
