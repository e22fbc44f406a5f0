// The rule of the lock's table, and its kinds of step.
ghost use Rattle.std.specs.Prelude.{◌≡◌, ◌≢◌, [], ◌∷◌, Some};
ghost use Rattle.turn_lock.specs.Turning.{after_turn, dealer, dealt, drew, first_view, gathers, hears, note_of, spent, Compared, GoesInside, IsRuled};

use crate::pass::Passed;
use crate::view::View;
use atomic_table::{Join, Play, Split, TableRule};
use std::marker::PhantomData;
use std::snapshot::Snapshot;

// what a lock is told once: its value as it was, and how many seats it has
#[derive(Drop)]
pub struct Opening<T> {
    pub value: Snapshot<T>,
    pub seats: u32,
}

pub struct Turns<T> {
    marker: PhantomData<T>,
}

impl<T: Passed> TableRule<Option<T>, View<T::Root>, Opening<T>> for Turns<T> {
    ghost holds = { λ key. IsRuled T.root T.passes (T.root key.value.value) key.seats };

    ghost first = { λ key. first_view (T.root key.value.value) key.seats };
}

// a seat that is outside draws a ticket
pub struct Draws;

impl<T, R> Play<Option<T>, View<R>> for Draws {
    ghost then = { λ st m r n. n ≡ (drew m.0 r, []) };
}

// a seat with a ticket looks at which one is served, and takes the slot where it is its own
pub struct Looks<T> {
    marker: PhantomData<T>,
}

impl<T: Passed> Play<Option<T>, View<T::Root>> for Looks<T> {
    ghost then = { λ st m r n. (r ≡ m.0.ticket → GoesInside T.root T.passes m n) × (r ≢ m.0.ticket → n ≡ m) };
}

// the seat that is inside gives the slot back with a value in it, and serves the next ticket
pub struct Advances<T> {
    marker: PhantomData<T>,
}

impl<T: Passed> Play<Option<T>, View<T::Root>> for Advances<T> {
    ghost then = { λ st m r n. (value : T) → m.1 ≡ (0, Some value) ∷ [] → n ≡ (after_turn m.0 (T.passes value), []) };
}

// the first seat gives another its number
pub struct Deals;

impl<R> Split<View<R>> for Deals {
    ghost left = { dealer };

    ghost right = { dealt };
}

// a seat takes in another for good
pub struct Gathers;

impl<R> Join<View<R>> for Gathers {
    ghost both = { gathers };

    ghost spent = { spent };
}

// a seat notes what it knows, and another takes the note in
pub struct Notes;

impl<R> Split<View<R>> for Notes {
    ghost left = { λ v. v };

    ghost right = { note_of };
}

impl<R> Join<View<R>> for Notes {
    ghost both = { hears };

    ghost spent = { spent };
}

// a seat compares what it heard with what it knew
pub struct Compares;

impl<T, R> Play<Option<T>, View<R>> for Compares {
    ghost then = { λ st m r n. Compared m.0 n.0 × (n.1 ≡ []) };
}
