//! Laws of price sets.
ghost use Rattle.std.specs.Prelude.{◌≡◌, ◌↔◌, IsTrue, List, None};
ghost use Rattle.break_rules.specs.Causes.{first_cause};
ghost use Rattle.shift_instance.specs.Problem.{Problem};
ghost use Rattle.head_splits.specs.declared.Cut.{Cut};
ghost use Rattle.head_splits.specs.declared.Prices.{Prices};
ghost use Rattle.head_splits.specs.Bound.{are_prices};
ghost use Rattle.dual_bound.specs.Faults.{price_causes};

/// Prices have no fault exactly where they are a price set for the cuts.
pub fn faultless_prices()
    ensures { (i : Problem) (cuts : List Cut) (prices : Prices) → (first_cause (price_causes i cuts prices) ≡ None) ↔ IsTrue (are_prices i cuts prices) }
{}
