// The rule of the cell, and its kinds of step.
ghost use Rattle.std.specs.Prelude.{ℕ};

use crate::view::View;
use atomic_table::Split;
use crossbeam_utils::rule::{Outcome, Protocol};
use std::marker::{Brand, PhantomData};

/// What each pair that a cell is told says. Whoever makes a cell picks it.
pub trait Telling {
    /// Whether so many posts and that cost may be told.
    ghost tells: { ℕ → ℕ → Type 0 };
}

// whatever may be told where nobody picks
impl Telling for Brand {
    ghost tells = { λ _ _. Unit {0} };
}

// the words are the pair that was told last
pub struct Latest<W> {
    marker: PhantomData<W>,
}

impl<W: Telling> Protocol<[u64; 2], View> for Latest<W> {
    ghost use Rattle.std.specs.Prelude.{[]};
    ghost use Rattle.best_cell.specs.Telling.{teller, IsKept};

    ghost holds = { IsKept W.tells };

    ghost first = { teller [] };
}

// the one teller writes a pair
pub struct Tells;

impl Outcome<[u64; 2], View> for Tells {
    ghost use Rattle.best_cell.specs.Telling.{AddsOne};

    ghost then = { AddsOne };
}

// a reader finds the pair that was told last
pub struct Reads<W> {
    marker: PhantomData<W>,
}

impl<W: Telling> Outcome<[u64; 2], View> for Reads<W> {
    ghost use Rattle.best_cell.specs.Telling.{FindsLast};

    ghost then = { FindsLast W.tells };
}

// one more reader knows what a pass knows
pub struct Informs;

impl Split<View> for Informs {
    ghost use Rattle.best_cell.specs.Telling.{reader_of};

    ghost left = { λ v. v };

    ghost right = { reader_of };
}
