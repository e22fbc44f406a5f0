//! Laws of rotas, cuts and prices. Each function's contract is the law; the functions do nothing.
ghost use Rattle.std.specs.Prelude.{◌≡◌, ◌↔◌, ℕ, ◌+◌, ◌<◌, ◌≤◌, ◌++◌, ◌∷◌, [], IsTrue, IsFalse, IsSomeAnd, List};
ghost use Rattle.shift_instance.specs.declared.Duty.{Duty};
ghost use Rattle.shift_instance.specs.Problem.{Problem};
ghost use Rattle.shift_instance.specs.Rota.{is_legal_rota, cost, count_of, lists_of};
ghost use Rattle.head_splits.specs.declared.Class.{Class};
ghost use Rattle.head_splits.specs.declared.Cut.{Cut};
ghost use Rattle.head_splits.specs.declared.Prices.{Prices};
ghost use Rattle.head_splits.specs.Cuts.{meets, low, high};
ghost use Rattle.head_splits.specs.Bound.{are_prices, bound_of, is_nil};
ghost use Rattle.head_splits.specs.Settled.{is_settled, settled_plan, is_empty, split_class, is_live_class, IsSettledClass, span};

use crate::Side;

/// Weak duality: every legal rota that meets the cuts costs at least the bound of each price set within its ranges.
pub fn weak_duality()
    ensures { (i : Problem) (cuts : List Cut) (prices : Prices) (rota : List Duty)
        → IsTrue (are_prices i cuts prices) → IsTrue (is_legal_rota i rota) → IsTrue (meets rota cuts)
        → bound_of i cuts prices ≤ cost i rota }
{}

/// A node is settled exactly where, for each shift with a legal list and each day, the class of all duties is. A class is
/// settled where the cuts leave it no duty, where it is a whole legal list whose number they fix, and where it isn't a
/// whole legal list and all its live extensions by one break are settled.
pub fn settled_by_classes()
    ensures { (i : Problem) (cuts : List Cut)
        → IsTrue (is_settled i cuts) ↔ ((s day : ℕ) → IsFalse (is_nil (lists_of i s)) → day < i.days → IsSettledClass i cuts s day []) }
{}

/// All legal rotas below a settled node have the same number of each duty.
pub fn settled_same()
    ensures { (i : Problem) (cuts : List Cut) (one other : List Duty) (d : Duty)
        → IsTrue (is_settled i cuts) → IsTrue (is_legal_rota i one) → IsTrue (meets one cuts)
        → IsTrue (is_legal_rota i other) → IsTrue (meets other cuts)
        → count_of one d ≡ count_of other d }
{}

/// Where a legal rota lies below a settled node, the node isn't empty, and the rota costs what the node's plan costs.
pub fn settled_plan()
    ensures cost { (i : Problem) (cuts : List Cut) (rota : List Duty)
        → IsTrue (is_settled i cuts) → IsTrue (is_legal_rota i rota) → IsTrue (meets rota cuts)
        → cost i rota ≡ cost i (settled_plan i cuts) }
    ensures some { (i : Problem) (cuts : List Cut) (rota : List Duty)
        → IsTrue (is_settled i cuts) → IsTrue (is_legal_rota i rota) → IsTrue (meets rota cuts)
        → IsFalse (is_empty i cuts) }
{}

/// A node that isn't settled has a class to split, which is live and whose number the cuts leave open.
pub fn unsettled_splits()
    ensures { (i : Problem) (cuts : List Cut) → IsFalse (is_settled i cuts)
        → IsSomeAnd (split_class i cuts) (λ c. IsTrue (is_live_class i c) × (low cuts c < high i cuts c)) }
{}

/// Both parts of a split of a live class, by a number that the cuts leave open, have a smaller span than the node.
pub fn split_spans()
    ensures at_most { (i : Problem) (cuts : List Cut) (class : Class) (m : ℕ)
        → IsTrue (is_live_class i class) → low cuts class ≤ m → m < high i cuts class
        → span i (cuts ++ record { class = class; side = Side.AtMost; m = m } ∷ []) < span i cuts }
    ensures at_least { (i : Problem) (cuts : List Cut) (class : Class) (m : ℕ)
        → IsTrue (is_live_class i class) → low cuts class ≤ m → m < high i cuts class
        → span i (cuts ++ record { class = class; side = Side.AtLeast; m = m + 1 } ∷ []) < span i cuts }
{}
