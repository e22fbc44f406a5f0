//! The best rests of break lists by layers of spots.

ghost use Rattle.std.specs.Prelude.{◌≡◌, ◌++◌, List, [], ◌∷◌, IfOk, true, false};
ghost use Rattle.break_rules.specs.declared.Break.{Break};
ghost use Rattle.break_rules.specs.Breaks.{is_legal, is_live};
ghost use Rattle.break_rules.specs.Ranges.{IsRule};
ghost use Rattle.break_rules.specs.Walk.{spot_of};
ghost use Rattle.price_sums.specs.Along.{AreSums};
ghost use Rattle.break_layers.specs.Ways.{live_stops};
ghost use Rattle.pricing.specs.Keeping.{AreEnoughAround, AreWays, IsBestWay, Reaches};

use crate::around::{Rests, alone, better_way, with_next};
use crate::beginnings::Beginnings;
use crate::rests::earned_along;
use crate::values::total;
use break_layers::{LayerValues, Way};
use break_rules::{Break, Breaks, NoMemory, Rule, Spot, ends};
use price_sums::sum_before;
use std::alloc::Global;
use std::marker::Model;

/// What the best rests earn behind each spot, with the sums of the prices.
#[derive(Drop)]
pub struct LayerRests<'a> {
    rule: &'a Rule,
    len: u16,
    sums: Vec<i64>,
    values: LayerValues<'a>,
}

impl<'a> Model for LayerRests<'a> {
    ghost use Rattle.break_layers.specs.Rests.{Priced};
    ghost use Rattle.pricing.specs.Values.{AreLayerRests};

    ghost Value = { Priced };

    ghost view = { λ r. r.values };

    ghost invariant = { λ r. AreLayerRests r.rule.now r.len r.sums.items r.values };
}

/// What the best rests reach that go on by a way: the prices before its break, and what is earned behind it. It takes no memory.
fn reach_by(values: &LayerValues<'_>, sums: &[i64], way: Way) -> i64
    requires rule { IsRule values.now.rule }
    requires small { AreSums values.now.len values.now.sums }
    requires sums { sums.now ≡ values.now.sums }
    ensures { (front : List Break) → is_live values.now.rule values.now.len (front ++ way.stop ∷ []) ≡ true → way.spot ≡ spot_of values.now.rule (front ++ way.stop ∷ []) → Reaches values.now front way.stop result }
{
    let behind = values.value_at(way.spot).unwrap_or(0);
    total(sum_before(sums, usize::from(way.stop.start)), behind)
}

/// Of the ways on behind some breaks that lead to no named list, the first by which the best rests reach most, with that.
fn best_way(
    alloc: Global,
    values: &LayerValues<'_>,
    sums: &[i64],
    front: &[Break],
    ways: &[Way],
    named: &Beginnings,
) -> Result<Option<(Way, i64)>, NoMemory>
    requires rule { IsRule values.now.rule }
    requires small { AreSums values.now.len values.now.sums }
    requires sums { sums.now ≡ values.now.sums }
    requires ways { AreWays values.now front.now ways.now }
    ensures { IfOk result (IsBestWay values.now named.now front.now (live_stops values.now.rule values.now.len front.now)) }
{
    let mut best = None;
    for way in ways {
        let longer = with_next(alloc, front, way.stop)?;
        if !named.has(&longer) {
            best = better_way(best, *way, reach_by(values, sums, *way));
        }
    }
    Ok(best)
}

/// The best list that goes on from some breaks, which are no legal list, with a break that leads to no named list.
fn best_onward(
    alloc: Global,
    values: &LayerValues<'_>,
    sums: &[i64],
    front: &[Break],
    spot: Spot,
    named: &Beginnings,
) -> Result<Vec<Breaks>, NoMemory>
    requires rule { IsRule values.now.rule }
    requires small { AreSums values.now.len values.now.sums }
    requires sums { sums.now ≡ values.now.sums }
    requires live { is_live values.now.rule values.now.len front.now ≡ true }
    requires unfinished { is_legal values.now.rule values.now.len front.now ≡ false }
    requires spot { spot ≡ spot_of values.now.rule front.now }
    ensures { IfOk result (λ lists. AreEnoughAround values.now named.now front.now lists.items) }
{
    let ways = values.ways(alloc, spot)?;
    let mut lists = Vec::new(alloc);
    let (way, _) = match best_way(alloc, values, sums, front, &ways, named)? {
        Some(best) => best,
        None => return Ok(lists),
    };
    let list = with_next(alloc, front, way.stop)?;
    let whole = values.completed(list, way.spot)?;
    lists.push(Breaks::new(whole))?;
    Ok(lists)
}

impl<'a> LayerRests<'a> {
    /// The best rests in shifts of `len` slots, by the sums of the prices of the offsets below each one.
    pub fn new(
        alloc: Global,
        rule: &'a Rule,
        len: u16,
        sums: Vec<i64>,
    ) -> Result<LayerRests<'a>, NoMemory>
        requires rule { IsRule rule.now }
        requires sums { AreSums len sums.items }
        ensures { IfOk result (λ r. r ≡ record { rule = rule.now; len = len; sums = sums.items }) }
    {
        let own = Vec::from_slice(alloc, &sums)?;
        let values = LayerValues::new(alloc, rule, len, sums)?;
        Ok(LayerRests {
            rule,
            len,
            sums: own,
            values,
        })
    }
}

impl<'a> Rests for LayerRests<'a> {
    ghost priced = { λ r. r };

    fn earned(&self, list: &[Break]) -> i64 {
        earned_along(self.rule, self.len, &self.sums, list)
    }

    fn best(&self, alloc: Global) -> Result<Option<(Breaks, i64)>, NoMemory> {
        self.values.best_list(alloc)
    }

    fn around(
        &self,
        alloc: Global,
        front: &[Break],
        named: &Beginnings,
    ) -> Result<Vec<Breaks>, NoMemory> {
        let Some(spot) = self.values.spot_behind(front) else {
            return Ok(Vec::new(alloc));
        };
        if ends(self.rule, self.len, spot) {
            return alone(alloc, front);
        }
        best_onward(alloc, &self.values, &self.sums, front, spot, named)
    }
}
