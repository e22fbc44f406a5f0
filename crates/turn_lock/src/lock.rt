// A lock whose turns are taken in the order of tickets.
ghost use Rattle.std.specs.Prelude.{◌≡◌, ◌<◌, ◌≤◌, [], All, IfErr, IfOk, IsOk, Some, length};
ghost use Rattle.turn_lock.specs.Passes.{of_number, AddsAtMostOne, IsPrefix};
ghost use Rattle.turn_lock.specs.Seats.{knows, left_with, new_seats, Meets};

use crate::pass::Passed;
use crate::rule::{Advances, Compares, Deals, Draws, Gathers, Looks, Notes, Opening, Turns};
use crate::seat::{Entered, Turn, TurnSeat};
use crate::view::View;
use atomic_table::{Refused, Seat, Table};
use std::alloc::Global;
use std::marker::Model;
use std::snapshot::Snapshot;
use std::sync::Wait;
use std::thread::yield_now;
use std::time::Duration;

/// How often in a row a thread whose ticket isn't served yet lets others go on before it sleeps.
const YIELDS: u32 = 16;

/// The longest that it sleeps before it looks again, in microseconds: it is woken where a turn ends before.
const LONGEST_SLEEP: u64 = 1_000;

/// A lock round a value, whose turns are taken in the order of tickets. Contracts see it as its name, which no other lock has, and how many seats
/// it was made with.
pub struct TurnLock<T: Passed> {
    table: Table<Option<T>, View<T::Root>, Opening<T>, Turns<T>, Global>,
}

impl<T: Passed> Model for TurnLock<T> {
    ghost use Rattle.std.specs.Prelude.{◌≡◌, ◌<◌};
    ghost use Rattle.turn_lock.specs.Seats.{LockView};

    ghost Value = { LockView };

    ghost view = { λ l. record { name = l.table.shared.table_id; seats = l.table.shared.key.seats } };

    ghost invariant = { λ l. (l.table.shared.table_id.words ≡ 2) × (l.table.shared.table_id.slots ≡ 1) × (0 < l.table.shared.key.seats) };
}

/// No lock was made, since memory ran out: its value comes back.
pub struct Unmade<T> {
    /// The value.
    pub value: T,
}

impl<T: Passed> TurnLock<T> {
    /// A lock round a value without passes, and its seats, numbered from 0.
    pub fn new(
        alloc: Global,
        value: T,
        seats: u32,
    ) -> Result<(TurnLock<T>, Vec<TurnSeat<T::Root>>), Unmade<T>>
        requires some_seats { 0 < seats }
        requires sixteen { seats ≤ 16 }
        requires no_passes { T.passes value ≡ [] }
        ensures lock { IfOk result (λ made. made.0.seats ≡ seats) }
        ensures seats { IfOk result (λ made. made.1.items ≡ new_seats made.0.name (Some (T.root value)) 0 seats) }
        ensures refused { IfErr result (λ unmade. unmade.value ≡ value) }
    {
        let opening = Opening {
            value: Snapshot::of(&value),
            seats,
        };
        let Ok(made) = Vec::with_capacity(alloc, seats as usize) else {
            return Err(Unmade { value });
        };
        let Ok(mut slots) = Vec::with_capacity(alloc, 1) else {
            return Err(Unmade { value });
        };
        slots.push_reserved(Some(value));
        match Table::new(alloc, &[0, 0], slots, &opening) {
            Ok((table, first)) => {
                let lock = TurnLock { table };
                let made = lock.deal(first, seats - 1, made);
                Ok((lock, made))
            }
            Err(Refused { mut slots }) => {
                let Some(Some(value)) = slots.pop() else {
                    unreachable!()
                };
                slots.destroy_empty();
                Err(Unmade { value })
            }
        }
    }

    /// Draws a ticket, waits until it is served, and takes the value out.
    pub fn enter<R: Wait>(&self, rt: &R, seat: TurnSeat<T::Root>) -> Turn<T>
        requires lock { seat.lock ≡ self.now.name }
        requires turns { 0 < seat.left }
        ensures root { Some (T.root result.value) ≡ seat.root }
        ensures begins { IsPrefix seat.known (T.passes result.value) }
        ensures mine { of_number seat.number (T.passes result.value) ≡ seat.mine }
        ensures seat { result.seat ≡ knows seat (T.passes result.value) }
    {
        let TurnSeat {
            badge,
            number,
            left,
        } = seat;
        let mut place: Seat<Option<T>, View<T::Root>> = badge.into_seat();
        let shared = &self.table.shared;
        let ticket = shared.fetch_add::<Draws>(&mut place, 0, 1);
        let mut times = 0u32;
        for _ in rt.forever() {
            let served = shared.load::<Looks<T>>(&mut place, 1);
            if served == ticket {
                let Some(value) = shared.exchange(&mut place, 0, None) else {
                    unreachable!()
                };
                let seat = Entered {
                    seat: place,
                    number,
                    left,
                };
                return Turn { value, seat };
            }
            self.wait(rt, served, times);
            times = times.saturating_add(1);
        }
        unreachable!()
    }

    /// Puts the value back, with at most one more pass, and serves the next ticket.
    pub fn leave(&self, turn: Turn<T>) -> TurnSeat<T::Root>
        requires lock { turn.seat.lock ≡ self.now.name }
        requires root { Some (T.root turn.value) ≡ turn.seat.root }
        requires passes { AddsAtMostOne turn.seat.number turn.seat.known (T.passes turn.value) }
        ensures { result ≡ left_with turn.seat (T.passes turn.value) }
    {
        let Turn {
            value,
            seat: inside,
        } = turn;
        let Entered {
            seat: mut place,
            number,
            left,
        } = inside;
        let shared = &self.table.shared;
        let before = shared.exchange(&mut place, 0, Some(value));
        let None = before else { unreachable!() };
        shared.fetch_add::<Advances<T>>(&mut place, 1, 1);
        shared.wake_all(1);
        TurnSeat {
            badge: place.into_badge(),
            number,
            left: left - 1,
        }
    }

    /// The second of two seats learns what the first knows. Of what both knew one is a front of the other, and the second knows the longer one now.
    pub fn meet(
        &self,
        a: TurnSeat<T::Root>,
        b: TurnSeat<T::Root>,
    ) -> Result<(TurnSeat<T::Root>, TurnSeat<T::Root>), (TurnSeat<T::Root>, TurnSeat<T::Root>)>
        requires first { a.lock ≡ self.now.name }
        requires second { b.lock ≡ self.now.name }
        ensures ok { IsOk result }
        ensures first { IfOk result (λ met. met.0 ≡ a) }
        ensures second { IfOk result (λ met. Meets a b met.1) }
        ensures refused { IfErr result (λ back. (back.0 ≡ a) × (back.1 ≡ b)) }
    {
        let mut first: Seat<Option<T>, View<T::Root>> = a.badge.into_seat();
        let mut second: Seat<Option<T>, View<T::Root>> = b.badge.into_seat();
        let shared = &self.table.shared;
        let note = shared.split_seat::<Notes>(&mut first);
        shared.join_seat::<Notes>(&mut second, note);
        shared.load::<Compares>(&mut second, 1);
        let first = TurnSeat {
            badge: first.into_badge(),
            number: a.number,
            left: a.left,
        };
        let second = TurnSeat {
            badge: second.into_badge(),
            number: b.number,
            left: b.left,
        };
        Ok((first, second))
    }

    /// Ends the lock, and gives its value back. All its seats must be there.
    pub fn close(self, mut seats: Vec<TurnSeat<T::Root>>) -> T
        requires all { length seats.items ≡ self.seats }
        requires lock { All (λ seat. seat.lock ≡ self.name) seats.items }
        ensures root { All (λ seat. Some (T.root result) ≡ seat.root) seats.items }
        ensures mine { All (λ seat. of_number seat.number (T.passes result) ≡ seat.mine) seats.items }
        ensures known { All (λ seat. IsPrefix seat.known (T.passes result)) seats.items }
    {
        let TurnLock { table } = self;
        let Some(last) = seats.pop() else {
            unreachable!()
        };
        let mut all: Seat<Option<T>, View<T::Root>> = last.badge.into_seat();
        while let Some(seat) = seats.pop() {
            let other: Seat<Option<T>, View<T::Root>> = seat.badge.into_seat();
            table.shared.join_seat::<Gathers>(&mut all, other);
        }
        let mut closed = table.close_with(all);
        let Some(value) = closed.take(0) else {
            unreachable!()
        };
        closed.free();
        value
    }
}

impl<T: Passed> TurnLock<T> {
    ghost use Rattle.std.specs.Prelude.{◌+◌, vec_capacity};
    ghost use Rattle.turn_lock.specs.Turning.{making};

    // Gives each number below the last to a seat of its own; the seat that gave them has the last.
    fn deal(
        &self,
        mut first: Seat<Option<T>, View<T::Root>>,
        others: u32,
        mut made: Vec<TurnSeat<T::Root>>,
    ) -> Vec<TurnSeat<T::Root>>
        requires lock { first.table_id ≡ self.now.name }
        requires sixteen { others < 16 }
        requires maker { first.me ≡ (making first.me.0.root others 0 others, []) }
        requires none { made.items ≡ [] }
        requires room { others < vec_capacity made }
        ensures { result.items ≡ new_seats self.now.name first.me.0.root 0 (others + 1) }
    {
        for number in 0..others {
            let seat = self.table.shared.split_seat::<Deals>(&mut first);
            made.push_reserved(TurnSeat {
                badge: seat.into_badge(),
                number,
                left: 1 << 56,
            });
        }
        made.push_reserved(TurnSeat {
            badge: first.into_badge(),
            number: others,
            left: 1 << 56,
        });
        made
    }

    // Waits a while for a ticket, after so many looks in a row that found another one served: at first it lets other threads go on, and later it
    // sleeps until a turn ends, for a millisecond at most.
    fn wait<R: Wait>(&self, rt: &R, served: u64, times: u32) {
        if times < YIELDS {
            yield_now();
            return;
        }
        let longest = Duration::from_micros(LONGEST_SLEEP);
        let expected = (served % (1 << 32)) as u32;
        self.table.shared.park_timeout(rt, 1, expected, longest);
    }
}
