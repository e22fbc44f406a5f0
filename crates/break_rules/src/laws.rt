//! Laws of the legal lists and of the walk from break to break, as contracts of functions with empty bodies.

ghost use Rattle.std.specs.Prelude.{◌≡◌, ℕ, true, ◌&&◌, List, [], ◌∷◌, ◌++◌, drop, IsTrue};
ghost use Rattle.std.specs.List.{count_by, list_all, list_any, zip};
ghost use Rattle.break_rules.specs.Breaks.{same_break, same_list, is_less_break, is_less_list, is_legal, legal_lists};
ghost use Rattle.break_rules.specs.Walk.{may_follow, may_end, nexts_of, spot_of, is_walk};

use crate::{Break, Rule, Spot};

/// A list of breaks is legal exactly where a walk reaches it and may end there. A walk begins with no break, and goes on
/// by the breaks that may come next at the spot behind the list so far.
pub fn walks_reach_the_legal_lists()
    ensures opening { (rule : Rule) (len : ℕ) → IsTrue (is_walk rule len []) }
    ensures step { (rule : Rule) (len : ℕ) (list : List Break) (b : Break) → is_walk rule len (list ++ b ∷ []) ≡ (is_walk rule len list && list_any (same_break b) (nexts_of rule len (spot_of rule list))) }
    ensures legal { (rule : Rule) (len : ℕ) (list : List Break) → is_legal rule len list ≡ (is_walk rule len list && may_end rule len list) }
{}

/// The breaks that may come next at a spot are exactly those that may follow there, in strictly rising order.
pub fn next_breaks_are_those_that_may_follow()
    ensures exact { (rule : Rule) (len : ℕ) (spot : Spot) (b : Break) → list_any (same_break b) (nexts_of rule len spot) ≡ may_follow rule len spot.offset spot.used b }
    ensures rising { (rule : Rule) (len : ℕ) (spot : Spot) → list_all (λ p. is_less_break p.0 p.1) (zip (nexts_of rule len spot) (drop 1 (nexts_of rule len spot))) ≡ true }
{}

/// The legal lists of a shift are exactly the lists that are legal, each once, in strictly rising order.
pub fn legal_lists_are_all_that_are_legal()
    ensures exact { (rule : Rule) (len : ℕ) (list : List Break) → list_any (same_list list) (legal_lists rule len) ≡ is_legal rule len list }
    ensures once { (rule : Rule) (len : ℕ) (list : List Break) → IsTrue (is_legal rule len list) → count_by (same_list list) (legal_lists rule len) ≡ 1 }
    ensures rising { (rule : Rule) (len : ℕ) → list_all (λ p. is_less_list p.0 p.1) (zip (legal_lists rule len) (drop 1 (legal_lists rule len))) ≡ true }
{}
