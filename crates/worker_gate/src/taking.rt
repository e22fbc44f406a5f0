//! What a worker does at the lock of a board, whichever lock it is.
ghost use Rattle.std.specs.Prelude.{◌≡◌, ◌+◌, ◌<◌, ◌≤◌, ◌^◌, ℕ, true, IfErr, IfOk, OnErr, OnOk, length};
ghost use Rattle.search_core.specs.Steps.{Fits};
ghost use Rattle.board_lock.specs.declared.roots.BoardRoot.{BoardRoot};
ghost use Rattle.worker_gate.specs.Runs.{news_of};
ghost use Rattle.worker_gate.specs.declared.chair.Chair.{Chair};
ghost use Rattle.worker_gate.specs.Workers.{IsLeft, IsNews};

use crate::chair::Chair;
use crate::turns::{Left, Rest, Work};
use board_lock::{Begun, BoardRoot};
use search_core::{Board, Kept, StepPosts};
use std::sync::Wait;
use std::sync::ledger::Share;

/// A lock at which workers take turns with a board. A turn is one call on the board. Before and after the run a worker's seat lies at its place.
pub(crate) trait Taking<B: Board, L: Begun> {
    /// A seat at the lock, as it works.
    type Pass;

    /// The seat is outside the lock, and that of the worker of a number.
    ghost outside: { Self → ℕ → Self.Pass → Type 0 };

    /// The board as it was opened, of which the seat knows.
    ghost root: { Self.Pass → BoardRoot B };

    /// How many turns the seat has left.
    ghost left: { Self.Pass → ℕ };

    /// At the place of the worker of a number lies a seat that is outside the lock, and knows that root.
    ghost rests: { Self → ℕ → BoardRoot B → Chair B → Type 0 };

    /// Takes the seat from its place.
    fn sit(&self, chair: &mut Chair<B>) -> Self::Pass
        requires rests { (number : ℕ) × (known : BoardRoot B) × rests self.now number known chair.old }
        ensures outside { (number : ℕ) (known : BoardRoot B) → rests self.now number known chair.old → outside self.now number result }
        ensures root { (number : ℕ) (known : BoardRoot B) → rests self.now number known chair.old → root result ≡ known };

    /// Puts the seat back to its place.
    fn rise(&self, pass: Self::Pass, chair: &mut Chair<B>)
        requires outside { (number : ℕ) × outside self.now number pass }
        ensures { (number : ℕ) → outside self.now number pass → rests self.now number (root pass) chair.new };

    /// Whether the seat has turns left for a whole round.
    fn lasts(&self, pass: &Self::Pass) -> bool
        ensures { result ≡ true → 4 ≤ left pass.now };

    /// A turn for a node to work on. A worker that is asked to stop takes none.
    fn take_turn<R: Wait>(
        &self,
        rt: &R,
        pass: &mut Self::Pass,
        worker: u32,
        asked: bool,
    ) -> Result<Work, Rest>
        requires pass { outside self.now worker pass.old }
        requires worker { worker < (root pass.old).workers }
        requires turns { 0 < left pass.old }
        ensures pass { outside self.now worker pass.new }
        ensures root { root pass.new ≡ root pass.old }
        ensures turns { left pass.old ≤ left pass.new + 1 }
        ensures few { IfOk result (λ work. length work.ask.cuts ≤ 2 ^ 24) }
        ensures asked { IfErr result (λ rest. rest ≡ Rest.Asked → asked ≡ true) };

    /// A turn to commit a step for the worker's node, which then tells what the best rota costs.
    fn commit_turn<R: Wait>(
        &self,
        rt: &R,
        pass: &mut Self::Pass,
        worker: u32,
        step: StepPosts,
        share: &mut Share<L>,
    ) -> Result<Kept, Left>
        requires pass { outside self.now worker pass.old }
        requires worker { worker < 16 }
        requires turns { 0 < left pass.old }
        requires fits { Fits (B.seen (root pass.old).opened.value).instance step }
        requires part { 0 < share.old.parts }
        ensures pass { outside self.now worker pass.new }
        ensures root { root pass.new ≡ root pass.old }
        ensures turns { left pass.old ≤ left pass.new + 1 }
        ensures counted { OnOk result (share.new.amount ≡ share.old.amount + 1) }
        ensures uncounted { OnErr result (share.new.amount ≡ share.old.amount) }
        ensures within { OnOk result (share.new.amount ≤ (B.seen (root pass.old).opened.value).budget) }
        ensures parts { share.new.parts ≡ share.old.parts }
        ensures left { IfErr result (IsLeft step) }
        ensures news { IfOk result (λ kept. ∥ IsNews (root pass.old).workers (B.seen (root pass.old).opened.value) worker (news_of step.node kept) ∥₁) };

    /// A turn to let go of the worker's node on running out of memory.
    fn yield_turn<R: Wait>(&self, rt: &R, pass: &mut Self::Pass, worker: u32)
        requires pass { outside self.now worker pass.old }
        requires worker { worker < 16 }
        requires turns { 0 < left pass.old }
        ensures pass { outside self.now worker pass.new }
        ensures root { root pass.new ≡ root pass.old }
        ensures turns { left pass.old ≤ left pass.new + 1 };
}
