//! What the breaks of a layer reach: the prices before each one, and what is earned behind it.

ghost use Rattle.std.specs.Prelude.{◌≡◌, ℕ, ℤ, ◌+◌, ◌*◌, ◌<◌, ◌≤◌, List, IsTrue, length, map};
ghost use Rattle.break_rules.specs.declared.Break.{Break};
ghost use Rattle.break_rules.specs.Ranges.{IsRule};
ghost use Rattle.break_rules.specs.Walk.{is_walk, end_of_all};
ghost use Rattle.price_sums.specs.Along.{AreSums};
ghost use Rattle.break_layers.specs.Windows.{number_in};
ghost use Rattle.break_layers.specs.Layered.{layer_of, AreLayersBefore, layer_number, IsSizeIn, AreSizesIn, IsInWindow, IsRaised, IsReachAt, IsReachOfSizes, IsReachOfAll};

use crate::layers::{Layer, place_at, time_left};
use crate::numbers::Number;
use crate::sizes::{Sizes, layer_sizes, longest_work, lunches_of};
use crate::windows::{add_sums, clear, number_at, raise_between, raise_to_row, raise_to_windows};
use break_rules::{Break, Rule, lunches_met};

/// Raises numbers by start to what is earned behind the breaks of a layer that have a length.
fn raise_by_size<N: Number>(
    row: &mut [N],
    rule: &Rule,
    len: u16,
    table: &[N],
    layer: Layer,
    size: u16,
)
    requires rule { IsRule rule.now }
    requires size { IsSizeIn rule.now len layer size }
    requires row { length row.old ≡ len + 1 }
    ensures { (day : ℕ) (sums : List ℤ) → day < N.days → AreSums len sums → AreLayersBefore rule.now len sums (layer_number rule.now len layer * (len + 1)) (map (N.on day) table.now) → (start : ℕ) → start ≤ len → IsRaised rule.now len sums layer (record { start = start; len = size }) (number_in (map (N.on day) row.old) start) (number_in (map (N.on day) row.new) start) }
{
    let end = (usize::from(len) + 1).saturating_sub(usize::from(rule.tail) + usize::from(size));
    let entries = lunches_of(rule.lunches.as_slice(), size);
    let left = time_left(rule, len, layer.used.saturating_add(size));
    if entries.is_empty() {
        let behind = place_at(left, len, layer.lunches, usize::from(size));
        raise_between(row, usize::from(rule.lead), end, table, behind);
        return;
    }
    for start in usize::from(rule.lead)..end {
        let stop = Break {
            start: start as u16,
            len: size,
        };
        let lunches = layer.lunches | lunches_met(entries, &stop);
        let behind = place_at(left, len, lunches, start + usize::from(size));
        let most = number_at(table, behind);
        row[start].raise(&most);
    }
}

/// Sets a row to what the breaks of a layer reach at most that have one of some lengths, by their starts.
fn set_reaches<N: Number>(
    row: &mut [N],
    rule: &Rule,
    len: u16,
    sums: &[N],
    table: &[N],
    layer: Layer,
    sizes: Sizes,
)
    requires rule { IsRule rule.now }
    requires sizes { AreSizesIn rule.now len layer sizes }
    requires some { sizes.from ≤ sizes.to }
    requires row { length row.old ≡ len + 1 }
    ensures { (day : ℕ) → day < N.days → AreSums len (map (N.on day) sums.now) → AreLayersBefore rule.now len (map (N.on day) sums.now) (layer_number rule.now len layer * (len + 1)) (map (N.on day) table.now) → (list : List Break) (start : ℕ) → IsTrue (is_walk rule.now len list) → layer ≡ layer_of rule.now list → IsInWindow rule.now list (record { start = start; len = sizes.from }) → IsReachAt rule.now len (map (N.on day) sums.now) list start sizes.from sizes.to (number_in (map (N.on day) row.new) start) }
{
    clear(row);
    for size in sizes.from..sizes.to {
        raise_by_size(row, rule, len, table, layer, size);
    }
    add_sums(row, sums);
}

/// Sets a row to the most that the breaks of a layer reach that have one of some lengths, by the earliest offset at which they may
/// begin.
fn set_windows<N: Number>(
    row: &mut [N],
    rule: &Rule,
    len: u16,
    sums: &[N],
    table: &[N],
    layer: Layer,
    sizes: Sizes,
)
    requires rule { IsRule rule.now }
    requires sizes { AreSizesIn rule.now len layer sizes }
    requires some { sizes.from ≤ sizes.to }
    requires row { length row.old ≡ len + 1 }
    ensures { (day : ℕ) → day < N.days → AreSums len (map (N.on day) sums.now) → AreLayersBefore rule.now len (map (N.on day) sums.now) (layer_number rule.now len layer * (len + 1)) (map (N.on day) table.now) → (list : List Break) → IsTrue (is_walk rule.now len list) → layer ≡ layer_of rule.now list → IsReachOfSizes rule.now len (map (N.on day) sums.now) list sizes.from sizes.to (number_in (map (N.on day) row.new) (end_of_all list + rule.now.work_min)) }
{
    let work = longest_work(rule, sizes.from);
    if sizes.from == sizes.to || work < rule.work_min {
        clear(row);
        return;
    }
    set_reaches(row, rule, len, sums, table, layer, sizes);
    raise_to_windows(row, usize::from(work - rule.work_min) + 1);
}

/// Sets a row to the most that the breaks of a layer reach that may come next, by the offset behind which they come. Another row is
/// for use.
pub(crate) fn best_reaches<N: Number>(
    most: &mut [N],
    row: &mut [N],
    rule: &Rule,
    len: u16,
    sums: &[N],
    table: &[N],
    layer: Layer,
)
    requires rule { IsRule rule.now }
    requires most { length most.old ≡ len + 1 }
    requires row { length row.old ≡ len + 1 }
    ensures { (day : ℕ) → day < N.days → AreSums len (map (N.on day) sums.now) → AreLayersBefore rule.now len (map (N.on day) sums.now) (layer_number rule.now len layer * (len + 1)) (map (N.on day) table.now) → (list : List Break) → IsTrue (is_walk rule.now len list) → layer ≡ layer_of rule.now list → IsReachOfAll rule.now len (map (N.on day) sums.now) list (number_in (map (N.on day) most.new) (end_of_all list)) }
{
    clear(most);
    let (short, long) = layer_sizes(rule, len, layer);
    set_windows(row, rule, len, sums, table, layer, short);
    raise_to_row(most, row, rule.work_min);
    set_windows(row, rule, len, sums, table, layer, long);
    raise_to_row(most, row, rule.work_min);
}
