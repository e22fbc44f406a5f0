//! The table of what is earned at most behind each spot, layer by layer.

ghost use Rattle.std.specs.Prelude.{◌≡◌, ◌+◌, ◌-◌, ◌*◌, ◌<◌, ◌≤◌, ◌^◌, ℕ, ℤ, false, List, IfOk, OnOk, IsTrue, MatchOption, length, map};
ghost use Rattle.break_rules.specs.declared.Break.{Break};
ghost use Rattle.break_rules.specs.declared.Rule.{Rule};
ghost use Rattle.break_rules.specs.Breaks.{is_legal, is_live, total_of};
ghost use Rattle.break_rules.specs.Ranges.{IsRule};
ghost use Rattle.break_rules.specs.Walk.{is_walk, spot_of, end_of_all};
ghost use Rattle.price_sums.specs.Along.{AreSums};
ghost use Rattle.break_layers.specs.Rests.{IsMostEarned};
ghost use Rattle.break_layers.specs.Windows.{number_in};
ghost use Rattle.break_layers.specs.Layered.{layer_of, layer_number, layer_count, layer_place, AreLayersBefore, AreLayers, IsReachOfAll, IsValueOrNothing};

use crate::numbers::Number;
use crate::reaching::best_reaches;
use crate::sizes::has_time;
use crate::windows::{NOTHING, number_at, sums_at};
use break_rules::{NoMemory, Rule, Spot, ends, total_among};
use price_sums::resumption;
use std::alloc::Global;

/// What the spots of a layer have in common.
#[derive(Clone, Copy, Drop)]
pub(crate) struct Layer {
    /// The break time used.
    pub(crate) used: u16,
    /// A bit for each lunch entry that is met.
    pub(crate) lunches: u8,
}

/// The layer of a number: those of more break time first, from the total on.
fn layer_at(total: u16, number: usize) -> Layer
    requires { number < (total + 1) * 4 }
    ensures number { (total - result.used) * 4 + result.lunches ≡ number }
    ensures used { result.used ≤ total }
    ensures lunches { result.lunches ≤ 3 }
{
    Layer {
        used: total - (number / 4) as u16,
        lunches: (number % 4) as u8,
    }
}

/// The break time that is left of the total behind so much break time.
pub(crate) fn time_left(rule: &Rule, len: u16, used: u16) -> u16
    ensures { result ≡ total_of rule.now len - used }
{
    total_among(rule.totals.as_slice(), len).saturating_sub(used)
}

/// The place of an offset in a table, in the layer with so much break time left and these lunches.
pub(crate) fn place_at(left: u16, len: u16, lunches: u8, offset: usize) -> usize
    requires { offset ≤ 131072 }
    ensures place { result ≡ (left * 4 + lunches) * (len + 1) + offset }
    ensures small { result ≤ 2 ^ 40 }
{
    let layer = usize::from(left) * 4 + usize::from(lunches);
    layer * (usize::from(len) + 1) + offset
}

/// The place of a spot in the table.
pub(crate) fn place(rule: &Rule, len: u16, spot: Spot) -> usize
    ensures { result ≡ layer_place rule.now len spot }
{
    let left = time_left(rule, len, spot.used);
    place_at(left, len, spot.lunches, usize::from(spot.offset))
}

/// Whether the list of breaks behind which a spot stands is legal, for a spot that a walk reaches, by the total of the rule.
fn ends_at(rule: &Rule, len: u16, total: u16, spot: Spot) -> bool
    requires rule { IsRule rule.now }
    requires total { total ≡ total_of rule.now len }
    ensures { (list : List Break) → IsTrue (is_walk rule.now len list) → spot ≡ spot_of rule.now list → result ≡ is_legal rule.now len list }
{
    spot.used == total && ends(rule, len, spot)
}

/// What is earned at most behind a spot, by the most that the breaks reach that may come next.
fn value_behind<N: Number>(rule: &Rule, len: u16, total: u16, sums: &[N], spot: Spot, most: N) -> N
    requires rule { IsRule rule.now }
    requires total { total ≡ total_of rule.now len }
    ensures { (day : ℕ) → day < N.days → AreSums len (map (N.on day) sums.now) → (list : List Break) → IsTrue (is_walk rule.now len list) → spot ≡ spot_of rule.now list → IsReachOfAll rule.now len (map (N.on day) sums.now) list (N.on day most) → IsValueOrNothing rule.now len (map (N.on day) sums.now) list (N.on day result) }
{
    let whole = if ends_at(rule, len, total, spot) {
        sums_at(sums, usize::from(len))
    } else {
        most
    };
    whole.without(&sums_at(sums, resumption(rule, spot)))
}

/// Puts the values of the spots of a layer behind those of the layers before it.
fn put_layer<N: Number>(
    rule: &Rule,
    len: u16,
    total: u16,
    sums: &[N],
    layer: Layer,
    most: &[N],
    table: &mut Vec<N>,
) -> Result<(), NoMemory>
    requires rule { IsRule rule.now }
    requires total { total ≡ total_of rule.now len }
    requires used { layer.used ≤ total }
    requires lunches { layer.lunches ≤ 3 }
    requires many { length table.old.items ≡ layer_number rule.now len layer * (len + 1) }
    ensures many { OnOk result (length table.new.items ≡ (layer_number rule.now len layer + 1) * (len + 1)) }
    ensures known { OnOk result ((day : ℕ) → day < N.days → AreSums len (map (N.on day) sums.now) → AreLayersBefore rule.now len (map (N.on day) sums.now) (layer_number rule.now len layer * (len + 1)) (map (N.on day) table.old.items) → ((list : List Break) → IsTrue (is_walk rule.now len list) → layer ≡ layer_of rule.now list → IsReachOfAll rule.now len (map (N.on day) sums.now) list (number_in (map (N.on day) most.now) (end_of_all list))) → AreLayersBefore rule.now len (map (N.on day) sums.now) ((layer_number rule.now len layer + 1) * (len + 1)) (map (N.on day) table.new.items)) }
{
    for offset in 0..usize::from(len) + 1 {
        let spot = Spot {
            offset: offset as u16,
            used: layer.used,
            lunches: layer.lunches,
        };
        table.push(value_behind(rule, len, total, sums, spot, number_at(most, offset)))?;
    }
    Ok(())
}

/// Puts so many places with nothing behind a table.
fn put_nothing<N: Number>(many: usize, table: &mut Vec<N>) -> Result<(), NoMemory>
    ensures many { OnOk result (length table.new.items ≡ length table.old.items + many) }
    ensures kept { OnOk result ((day : ℕ) (k : ℕ) → k < length table.old.items → number_in (map (N.on day) table.new.items) k ≡ number_in (map (N.on day) table.old.items) k) }
{
    for _ in 0..many {
        table.push(N::nothing())?;
    }
    Ok(())
}

/// Puts a layer behind those before it. The two rows are for use, whatever stands there.
fn add_layer<N: Number>(
    rule: &Rule,
    len: u16,
    total: u16,
    sums: &[N],
    layer: Layer,
    most: &mut [N],
    row: &mut [N],
    table: &mut Vec<N>,
) -> Result<(), NoMemory>
    requires rule { IsRule rule.now }
    requires total { total ≡ total_of rule.now len }
    requires used { layer.used ≤ total }
    requires lunches { layer.lunches ≤ 3 }
    requires many { length table.old.items ≡ layer_number rule.now len layer * (len + 1) }
    requires most { length most.old ≡ len + 1 }
    requires row { length row.old ≡ len + 1 }
    ensures many { OnOk result (length table.new.items ≡ (layer_number rule.now len layer + 1) * (len + 1)) }
    ensures known { OnOk result ((day : ℕ) → day < N.days → AreSums len (map (N.on day) sums.now) → AreLayersBefore rule.now len (map (N.on day) sums.now) (layer_number rule.now len layer * (len + 1)) (map (N.on day) table.old.items) → AreLayersBefore rule.now len (map (N.on day) sums.now) ((layer_number rule.now len layer + 1) * (len + 1)) (map (N.on day) table.new.items)) }
{
    if !has_time(rule.lunches.as_slice(), layer) {
        put_nothing(usize::from(len) + 1, table)?;
        return Ok(());
    }
    best_reaches(most, row, rule, len, sums, table, layer);
    put_layer(rule, len, total, sums, layer, most, table)
}

/// A row of nothing, with a place for each offset.
fn empty_row<N: Number>(alloc: Global, len: u16) -> Result<Vec<N>, NoMemory>
    ensures { IfOk result (λ row. length row.items ≡ len + 1) }
{
    let mut row = Vec::new(alloc);
    put_nothing(usize::from(len) + 1, &mut row)?;
    Ok(row)
}

/// Makes the table of all layers, in the memory of one that is lent, whatever stood there.
pub(crate) fn set_layers<N: Number>(
    alloc: Global,
    rule: &Rule,
    len: u16,
    sums: &[N],
    table: &mut Vec<N>,
) -> Result<(), NoMemory>
    requires { IsRule rule.now }
    ensures { OnOk result ((day : ℕ) → day < N.days → AreSums len (map (N.on day) sums.now) → AreLayers rule.now len (map (N.on day) sums.now) (map (N.on day) table.new.items)) }
{
    let total = total_among(rule.totals.as_slice(), len);
    let layers = (usize::from(total) + 1) * 4;
    let mut most = empty_row(alloc, len)?;
    let mut row = empty_row(alloc, len)?;
    table.clear();
    table.reserve(layers * (usize::from(len) + 1))?;
    for number in 0..layers {
        let layer = layer_at(total, number);
        add_layer(rule, len, total, sums, layer, &mut most, &mut row, table)?;
    }
    Ok(())
}

/// The number that the table of one day has for a spot.
pub(crate) fn number_of(rule: &Rule, len: u16, table: &[i64], spot: Spot) -> i64
    ensures { result ≡ number_in table.now (layer_place rule.now len spot) }
{
    number_at(table, place(rule, len, spot))
}

/// What the rests earn at most with which some legal list goes on from a spot, by the table.
pub(crate) fn value_in(rule: &Rule, len: u16, table: &[i64], spot: Spot) -> Option<i64>
    requires { IsRule rule.now }
    ensures { (sums : List ℤ) (list : List Break) → AreSums len sums → AreLayers rule.now len sums table.now → IsTrue (is_walk rule.now len list) → spot ≡ spot_of rule.now list → MatchOption result (is_live rule.now len list ≡ false) (IsMostEarned rule.now len sums list) }
{
    let value = number_of(rule, len, table, spot);
    if value == NOTHING { None } else { Some(value) }
}
