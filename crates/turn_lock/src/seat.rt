// Seats at a lock, outside and inside.
ghost use Rattle.std.specs.Prelude.{◌≡◌};

use crate::pass::Passed;
use crate::view::View;
use atomic_table::{Badge, Seat};
use std::marker::Model;

/// A seat at a lock, outside it. Contracts see it as its lock, its number, how many turns it has left, the root of the lock's value, the passes that
/// it knows to be made, and those of them that it made itself.
#[derive(Drop)]
pub struct TurnSeat<R> {
    pub(crate) badge: Badge<View<R>>,
    pub(crate) number: u32,
    pub(crate) left: u64,
}

impl<R> Model for TurnSeat<R> {
    ghost use Rattle.std.specs.Prelude.{◌≡◌};
    ghost use Rattle.turn_lock.specs.Seats.{SeatView};

    ghost Value = { SeatView R };

    ghost use Rattle.turn_lock.specs.Turning.{first_of, seen_as, IsOutside};

    ghost view = { λ s. seen_as s.badge.table_id s.number s.left (first_of s.badge.views) };

    ghost invariant = { λ s. IsOutside s.number s.left s.badge.views };
}

/// A seat at a lock, inside it. Contracts see it as they do outside: what it knows then are all passes that were made before this turn.
pub struct Entered<T, R> {
    pub(crate) seat: Seat<Option<T>, View<R>>,
    pub(crate) number: u32,
    pub(crate) left: u64,
}

impl<T, R> Model for Entered<T, R> {
    ghost use Rattle.std.specs.Prelude.{◌≡◌};
    ghost use Rattle.turn_lock.specs.Seats.{SeatView};

    ghost Value = { SeatView R };

    ghost use Rattle.turn_lock.specs.Turning.{seen_as, IsInside};

    ghost view = { λ s. seen_as s.seat.table_id s.number s.left s.seat.me.0 };

    ghost invariant = { λ s. IsInside s.number s.left s.seat.me };
}

/// A turn at a lock: the value that lies behind it, and the seat that is inside.
pub struct Turn<T: Passed> {
    /// The value.
    pub value: T,
    /// The seat.
    pub seat: Entered<T, T::Root>,
}

impl<R> TurnSeat<R> {
    /// The number of the seat at its lock.
    pub fn number(&self) -> u32
        ensures { result ≡ self.now.number }
    {
        self.number
    }

    /// How many turns the seat has left.
    pub fn left(&self) -> u64
        ensures { result ≡ self.now.left }
    {
        self.left
    }
}
