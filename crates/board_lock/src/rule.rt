// The rule of a lock's table, and its kinds of step.
ghost use Rattle.std.specs.Prelude.{◌≡◌, []};
ghost use Rattle.board_lock.specs.Locking.{outside, retired, Guarded, Tried};

use crate::view::View;
use atomic_table::{Play, Split, TableRule};
use std::marker::PhantomData;
use std::snapshot::Snapshot;

/// A value with a root, which nothing that is done under its lock changes.
pub trait Rooted {
    /// What a root is.
    type Root;

    /// The root of a value.
    ghost root: { Self → Self.Root };
}

pub struct Guard<T> {
    marker: PhantomData<T>,
}

impl<T: Rooted> TableRule<Option<T>, View<T::Root>, Snapshot<T>> for Guard<T> {
    ghost holds = { λ key. Guarded T.root (T.root key.value) };

    ghost first = { λ key. outside (T.root key.value) };
}

// a seat tries the gate word, and takes the slot where it is free
pub struct Tries<T> {
    marker: PhantomData<T>,
}

impl<T: Rooted> Play<Option<T>, View<T::Root>> for Tries<T> {
    ghost then = { Tried T.root };
}

// the seat that is inside gives the slot back, with a value in it
pub struct Frees;

impl<T, R> Play<Option<T>, View<R>> for Frees {
    ghost then = { λ st m r n. n ≡ (outside m.0.root, []) };
}

// the seat that is inside gives the slot back, with nothing in it
pub struct Retires;

impl<T, R> Play<Option<T>, View<R>> for Retires {
    ghost then = { λ st m r n. n ≡ (retired m.0.root, []) };
}

// a seat that is outside is copied
pub struct Copies;

impl<R> Split<View<R>> for Copies {
    ghost left = { λ v. v };

    ghost right = { λ v. v };
}
