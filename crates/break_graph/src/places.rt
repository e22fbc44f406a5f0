//! The spots that walks reach, in a table by place.

ghost use Rattle.std.specs.Prelude.{◌≡◌, ◌⊎◌, ◌+◌, ◌-◌, ◌*◌, ◌<◌, ◌≤◌, ◌++◌, ℕ, List, [], ◌∷◌, Bool, true, false, IfOk, IsTrue, length, slice_index_or};
ghost use Rattle.break_rules.specs.declared.Break.{Break};
ghost use Rattle.break_rules.specs.Ranges.{IsRule};
ghost use Rattle.break_rules.specs.Walk.{spot_of, is_walk};
ghost use Rattle.break_rules.specs.Live.{place_of};
ghost use Rattle.break_graph.specs.Building.{IsMarked, AreMarked, AreReached};

use break_rules::{NoMemory, Rule, Spot, after, nexts, place, spot_at};
use std::alloc::Global;

/// Whether a place is marked.
pub fn is_marked(table: &[bool], place: usize) -> bool
    ensures { result ≡ slice_index_or table.now place false }
{
    table.get(place).copied().unwrap_or(false)
}

/// Marks a place.
fn mark(table: &mut Vec<bool>, place: usize)
    ensures len { length table.new.items ≡ length table.old.items }
    ensures kept { (other : ℕ) → slice_index_or table.old.items other false ≡ true → slice_index_or table.new.items other false ≡ true }
    ensures marked { place < length table.old.items → slice_index_or table.new.items place false ≡ true }
    ensures others { (other : ℕ) → slice_index_or table.new.items other false ≡ true → (other ≡ place) ⊎ (slice_index_or table.old.items other false ≡ true) }
{
    if place < table.len() {
        table[place] = true;
    }
}

/// Marks the places of the spots behind the breaks that may come next at a spot.
fn mark_nexts(rule: &Rule, len: u16, spot: Spot, table: &mut Vec<bool>)
    requires rule { IsRule rule.now }
    requires long { 256 * (len + 1) ≤ length table.old.items }
    ensures len { length table.new.items ≡ length table.old.items }
    ensures kept { (other : ℕ) → slice_index_or table.old.items other false ≡ true → slice_index_or table.new.items other false ≡ true }
    ensures marked { (list : List Break) (b : Break) → spot ≡ spot_of rule.now list → IsTrue (is_walk rule.now len (list ++ b ∷ [])) → IsMarked rule.now len table.new.items (list ++ b ∷ []) }
    ensures reached { (list : List Break) → spot ≡ spot_of rule.now list → IsTrue (is_walk rule.now len list) → AreReached rule.now len table.old.items → AreReached rule.now len table.new.items }
{
    for next in nexts(rule, len, spot) {
        mark(table, place(len, after(rule, spot, next)));
    }
}

/// Marks the places of the spots behind the breaks that may come next at a place, if it is marked.
fn mark_behind(rule: &Rule, len: u16, place: usize, table: &mut Vec<bool>)
    requires rule { IsRule rule.now }
    requires inside { place < 256 * (len + 1) }
    requires long { 256 * (len + 1) ≤ length table.old.items }
    ensures len { length table.new.items ≡ length table.old.items }
    ensures kept { (other : ℕ) → slice_index_or table.old.items other false ≡ true → slice_index_or table.new.items other false ≡ true }
    ensures marked { (list : List Break) (b : Break) → place_of len (spot_of rule.now list) ≡ place → IsMarked rule.now len table.old.items list → IsTrue (is_walk rule.now len (list ++ b ∷ [])) → IsMarked rule.now len table.new.items (list ++ b ∷ []) }
    ensures reached { AreReached rule.now len table.old.items → AreReached rule.now len table.new.items }
{
    if is_marked(table, place) {
        mark_nexts(rule, len, spot_at(len, place), table);
    }
}

/// A table in which the place of each spot that a walk reaches is marked, and no other place.
pub fn marked_places(alloc: Global, rule: &Rule, len: u16) -> Result<Vec<bool>, NoMemory>
    requires { IsRule rule.now }
    ensures marked { IfOk result (λ table. AreMarked rule.now len table.items) }
    ensures reached { IfOk result (λ table. AreReached rule.now len table.items) }
{
    let count = 256 * (usize::from(len) + 1);
    let mut table = vec![in alloc; false; count]?;
    mark(&mut table, place(len, Spot::opening()));
    for done in 0..count {
        mark_behind(rule, len, count - 1 - done, &mut table);
    }
    Ok(table)
}
