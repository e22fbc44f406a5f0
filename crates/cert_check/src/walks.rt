//! A walk along the legal break lists of a shift, whichever way what their rests earn is kept.

ghost use Rattle.std.specs.Prelude.{◌≡◌, ℕ, ℤ, List, IfOk};
ghost use Rattle.break_rules.specs.declared.Break.{Break};
ghost use Rattle.break_rules.specs.declared.Rule.{Rule};
ghost use Rattle.break_rules.specs.Walk.{spot_of};
ghost use Rattle.price_sums.specs.Along.{Completes};
ghost use Rattle.cert_check.specs.Rests.{rest_worth, IsGreatest};
ghost use Rattle.cert_check.specs.Walks.{HasList, AreWays};

use break_rules::{Break, NoMemory, Spot};
use std::alloc::Global;

/// A walk along the legal break lists of a shift, from place to place: at each it tells what rests earn at most on a day.
pub trait Walk {
    /// A place where lists of breaks stand.
    type Place: Copy;

    /// Whether a list of breaks stands at a place, in shifts of a rule and a length, at prices with these sums.
    ghost stands: { Self → Rule → ℕ → List ℤ → Self.Place → List Break → Type 0 };

    /// The spot of a place.
    fn spot(&self, place: Self::Place) -> Spot
        requires { HasList (stands self.now) place }
        ensures { (rule : Rule) (len : ℕ) (sums : List ℤ) (list : List Break) → stands self.now rule len sums place list → result ≡ spot_of rule list };

    /// The most that a rest earns with which a list that stands at a place is legal.
    fn value(&self, place: Self::Place) -> i64
        requires { HasList (stands self.now) place }
        ensures { (rule : Rule) (len : ℕ) (sums : List ℤ) (list : List Break) → stands self.now rule len sums place list → IsGreatest (Completes rule len list) (rest_worth sums rule len list) result };

    /// The breaks with which some legal list goes on from a place, each with the place behind it.
    fn ways(&self, alloc: Global, place: Self::Place) -> Result<Vec<(Break, Self::Place)>, NoMemory>
        requires { HasList (stands self.now) place }
        ensures { IfOk result (λ ways. (rule : Rule) (len : ℕ) (sums : List ℤ) (list : List Break) → stands self.now rule len sums place list → AreWays (stands self.now rule len sums) rule len list ways.items) };
}
