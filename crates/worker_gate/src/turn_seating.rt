//! Seats with turns are given to the places of a bench before a run, and taken from them afterwards.
ghost use Rattle.std.specs.Prelude.{◌≡◌, ◌≤◌, ◌<◌, ◌+◌, [], ℕ, All, Some, false, map, length, slice_index_or, vec_len};
ghost use Rattle.std.specs.Vec.{vec_capacity};
ghost use Rattle.board_lock.specs.declared.roots.BoardRoot.{BoardRoot};
ghost use Rattle.turn_lock.specs.Seats.{new_seats};
ghost use Rattle.worker_gate.specs.Turned.{HasTurns};

use crate::chair::{Chair, TurnPass};
use crate::passing::Passing;
use crate::seat::{Place, Seat};
use best_cell::Reader;
use board_lock::{Begun, BestOf, BoardRoot};
use search_core::Board;
use std::mem;
use std::snapshot::Snapshot;
use std::sync::ledger::Share;
use turn_lock::{TurnLock, TurnSeat};

/// A place for a seat, with a seat at the lock, a share of the ledger, and a reader.
fn seat_turn<B: Board, L: Begun>(
    _lock: &TurnLock<Passing<B, L>>,
    root: &BoardRoot<B>,
    turns: TurnSeat<BoardRoot<B>>,
    all: &mut Share<L>,
    seat: Seat,
    number: u32,
    reader: Reader<BestOf<L>>,
) -> Place<B, L>
    requires lock { turns.lock ≡ _lock.now.name }
    requires root { turns.root ≡ Some root.now }
    requires same { turns.number ≡ number }
    requires number { number < 16 }
    requires new { (seat.told ≡ 0) × (seat.share ≡ 0) }
    requires parts { 1 < all.old.parts }
    requires none { all.old.amount ≡ 0 }
    ensures parts { all.new.parts + 1 ≡ all.old.parts }
    ensures none { all.new.amount ≡ 0 }
    ensures seat { result.seat ≡ seat }
    ensures number { result.number ≡ number }
    ensures unasked { result.asked ≡ false }
    ensures rests { HasTurns _lock.now result.number root.now result.chair }
{
    let share = all.split_off(1, 0);
    Place {
        chair: Chair::Turns(TurnPass {
            seat: Some(turns),
            root: Snapshot::of(root),
        }),
        seat,
        share,
        number,
        reader,
        steps: 0,
        asked: false,
    }
}

/// A place for each seat, in their order, with a seat at the lock and a reader for each.
pub(crate) fn seat_turns<B: Board, L: Begun>(
    lock: &TurnLock<Passing<B, L>>,
    root: &BoardRoot<B>,
    made: &mut Vec<TurnSeat<BoardRoot<B>>>,
    all: &mut Share<L>,
    seats: &mut Vec<Seat>,
    readers: &mut Vec<Reader<BestOf<L>>>,
    bench: &mut Vec<Place<B, L>>,
)
    requires made { made.old.items ≡ new_seats lock.now.name (Some root.now) 0 (vec_len seats.old) }
    requires sixteen { vec_len seats.old ≤ 16 }
    requires new { All (λ s. (s.told ≡ 0) × (s.share ≡ 0)) seats.old.items }
    requires readers { vec_len readers.old ≡ vec_len seats.old }
    requires empty { bench.old.items ≡ [] }
    requires room { vec_len seats.old ≤ vec_capacity bench.old }
    requires parts { vec_len seats.old < all.old.parts }
    requires none { all.old.amount ≡ 0 }
    ensures parts { all.new.parts + vec_len seats.old ≡ all.old.parts }
    ensures none { all.new.amount ≡ 0 }
    ensures bench { map (λ p. p.seat) bench.new.items ≡ seats.old.items }
    ensures numbers { (i : ℕ) (d : _) → i < vec_len seats.old → (slice_index_or bench.new.items i d).number ≡ i }
    ensures unasked { All (λ p. p.asked ≡ false) bench.new.items }
    ensures rest { All (λ p. HasTurns lock.now p.number root.now p.chair) bench.new.items }
    ensures seats { seats.new.items ≡ [] }
    ensures kept { vec_capacity seats.new ≡ vec_capacity seats.old }
    ensures given { made.new.items ≡ [] }
    ensures made { vec_capacity made.new ≡ vec_capacity made.old }
{
    while !seats.is_empty() {
        let seat = seats.remove(0);
        let turns = made.remove(0);
        let number = bench.len() as u32;
        let Some(reader) = readers.pop() else {
            unreachable!()
        };
        let place = seat_turn(lock, root, turns, all, seat, number, reader);
        bench.push_reserved(place);
    }
}

/// The seat at the lock is taken from its place.
fn unseat_turn<B: Board, L: Begun>(
    _lock: &TurnLock<Passing<B, L>>,
    _root: &BoardRoot<B>,
    place: &mut Place<B, L>,
) -> TurnSeat<BoardRoot<B>>
    requires { HasTurns _lock.now place.old.number _root.now place.old.chair }
    ensures lock { result.lock ≡ _lock.now.name }
    ensures root { result.root ≡ Some _root.now }
    ensures seat { place.new.seat ≡ place.old.seat }
    ensures number { place.new.number ≡ place.old.number }
    ensures asked { place.new.asked ≡ place.old.asked }
{
    let chair = mem::replace(&mut place.chair, Chair::Away);
    let Chair::Turns(pass) = chair else {
        unreachable!()
    };
    let TurnPass { seat, root: _ } = pass;
    let Some(seat) = seat else { unreachable!() };
    seat
}

/// The seats at the lock are taken from their places.
pub(crate) fn gather_turns<B: Board, L: Begun>(
    lock: &TurnLock<Passing<B, L>>,
    root: &BoardRoot<B>,
    bench: &mut [Place<B, L>],
    made: &mut Vec<TurnSeat<BoardRoot<B>>>,
)
    requires rest { All (λ p. HasTurns lock.now p.number root.now p.chair) bench.old }
    requires none { made.old.items ≡ [] }
    requires room { length bench.old ≤ vec_capacity made.old }
    ensures len { length bench.new ≡ length bench.old }
    ensures count { length made.new.items ≡ length bench.old }
    ensures lock { All (λ s. s.lock ≡ lock.now.name) made.new.items }
    ensures root { All (λ s. s.root ≡ Some root.now) made.new.items }
    ensures seats { (i : ℕ) (d : _) → i < length bench.old → (slice_index_or bench.new i d).seat ≡ (slice_index_or bench.old i d).seat }
    ensures numbers { (i : ℕ) (d : _) → i < length bench.old → (slice_index_or bench.new i d).number ≡ (slice_index_or bench.old i d).number }
    ensures asked { (i : ℕ) (d : _) → i < length bench.old → (slice_index_or bench.new i d).asked ≡ (slice_index_or bench.old i d).asked }
{
    for place in bench.iter_mut() {
        let seat = unseat_turn(lock, root, place);
        made.push_reserved(seat);
    }
}
