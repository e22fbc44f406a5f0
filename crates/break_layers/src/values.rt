//! What the best rest of a break list earns, and the best list, by layers.

ghost use Rattle.std.specs.Prelude.{◌≡◌, ◌+◌, ℕ, pos, List, [], ◌∷◌, ◌++◌, IfOk, IsTrue, MatchOption, Some, true, false, map, replicate, slice_get};
ghost use Rattle.break_rules.specs.declared.Break.{Break};
ghost use Rattle.break_rules.specs.Breaks.{is_legal, is_live};
ghost use Rattle.break_rules.specs.Ranges.{IsRule};
ghost use Rattle.break_rules.specs.Walk.{is_walk, spot_of};
ghost use Rattle.price_sums.specs.Along.{AreSums};
ghost use Rattle.break_layers.specs.Rests.{IsMostEarned, IsBestFrom, IsBestList};
ghost use Rattle.break_layers.specs.declared.ways.Way.{Way};
ghost use Rattle.break_layers.specs.Ways.{live_stops};

use crate::layers::{set_layers, value_in};
use crate::lists::{best_list, completed};
use crate::walks::walked;
use crate::ways::{Way, live_ways};
use break_rules::{Break, Breaks, NoMemory, Rule, Spot};
use std::alloc::Global;
use std::marker::Model;

/// Tells for each spot that a walk by the next breaks of a rule reaches what the rests earn at most with which some legal list
/// goes on from there. It is made once for a rule, a length and prices.
#[derive(Drop)]
pub struct LayerValues<'a> {
    rule: &'a Rule,
    len: u16,
    sums: Vec<i64>,
    table: Vec<i64>,
}

impl<'a> Model for LayerValues<'a> {
    ghost use Rattle.break_rules.specs.Ranges.{IsRule};
    ghost use Rattle.price_sums.specs.Along.{AreSums};
    ghost use Rattle.break_layers.specs.Rests.{Priced};
    ghost use Rattle.break_layers.specs.Layered.{AreLayers};

    ghost Value = { Priced };

    ghost view = { λ v. record { rule = v.rule.now; len = v.len; sums = v.sums.items } };

    ghost invariant = { λ v. IsRule v.rule.now × AreSums v.len v.sums.items × AreLayers v.rule.now v.len v.sums.items v.table.items };
}

impl<'a> LayerValues<'a> {
    /// Makes the values for this rule in shifts of `len` slots, by the sums of the prices of the offsets below each one. The time
    /// that it takes is in the order of the spots times the lengths of breaks. The only refusal is running out of memory.
    pub fn new(
        alloc: Global,
        rule: &'a Rule,
        len: u16,
        sums: Vec<i64>,
    ) -> Result<LayerValues<'a>, NoMemory>
        requires rule { IsRule rule.now }
        requires sums { AreSums len sums.items }
        ensures { IfOk result (λ v. v ≡ record { rule = rule.now; len = len; sums = sums.items }) }
    {
        let mut table = Vec::new(alloc);
        set_layers(alloc, rule, len, &sums, &mut table)?;
        Ok(LayerValues {
            rule,
            len,
            sums,
            table,
        })
    }

    /// Makes the values for this rule in shifts of `len` slots where no offset has a price: they tell from which spots some legal
    /// list goes on. The only refusal is running out of memory.
    pub fn unpriced(alloc: Global, rule: &'a Rule, len: u16) -> Result<LayerValues<'a>, NoMemory>
        requires { IsRule rule.now }
        ensures { IfOk result (λ v. v ≡ record { rule = rule.now; len = len; sums = replicate (len + 1) (pos 0) }) }
    {
        let sums = vec![in alloc; 0; usize::from(len) + 1]?;
        LayerValues::new(alloc, rule, len, sums)
    }

    /// Returns what the rests earn at most with which some legal list goes on from the spot of a walk, and `None` where there
    /// are none. It takes no memory.
    pub fn value_at(&self, spot: Spot) -> Option<i64>
        ensures { (list : List Break) → IsTrue (is_walk self.now.rule self.now.len list) → spot ≡ spot_of self.now.rule list → MatchOption result (is_live self.now.rule self.now.len list ≡ false) (IsMostEarned self.now.rule self.now.len self.now.sums list) }
    {
        value_in(self.rule, self.len, &self.table, spot)
    }

    /// Returns the breaks with which some legal list goes on from the spot of a walk, in rising order, each with the spot behind
    /// it. There are none where the walk is a legal list, or where no legal list begins with it. The only refusal is running out of
    /// memory.
    pub fn ways(&self, alloc: Global, spot: Spot) -> Result<Vec<Way>, NoMemory>
        ensures stops { IfOk result (λ ways. (list : List Break) → IsTrue (is_walk self.now.rule self.now.len list) → spot ≡ spot_of self.now.rule list → map (λ w. w.stop) ways.items ≡ live_stops self.now.rule self.now.len list) }
        ensures spots { IfOk result (λ ways. (list : List Break) → IsTrue (is_walk self.now.rule self.now.len list) → spot ≡ spot_of self.now.rule list → (i : ℕ) (w : Way) → slice_get ways.items i ≡ Some w → w.spot ≡ spot_of self.now.rule (list ++ w.stop ∷ [])) }
    {
        live_ways(alloc, self.rule, self.len, &self.table, spot)
    }

    /// Returns the spot behind some breaks, and `None` where no legal list begins with them. It takes no memory.
    pub fn spot_behind(&self, front: &[Break]) -> Option<Spot>
        ensures { MatchOption result (is_live self.now.rule self.now.len front.now ≡ false) (λ spot. (is_live self.now.rule self.now.len front.now ≡ true) × (spot ≡ spot_of self.now.rule front.now)) }
    {
        let spot = walked(self.rule, self.len, front)?;
        match value_in(self.rule, self.len, &self.table, spot) {
            Some(_) => Some(spot),
            None => None,
        }
    }

    /// Adds a best rest to breaks with which some legal list begins, and so returns the least of the legal lists that begin with
    /// them and earn most. The spot is the one behind the breaks. The only refusal is running out of memory.
    pub fn completed(&self, list: Vec<Break>, spot: Spot) -> Result<Vec<Break>, NoMemory>
        requires live { is_live self.now.rule self.now.len list.items ≡ true }
        requires spot { spot ≡ spot_of self.now.rule list.items }
        ensures { IfOk result (λ whole. IsBestFrom self.now.rule self.now.len self.now.sums list.items whole.items) }
    {
        completed(self.rule, self.len, &self.sums, &self.table, list, spot)
    }

    /// Returns the legal list that earns most, with what it earns, and `None` where no list is legal. Among the lists that earn
    /// most it is the least, in the order of lists: break by break, a proper prefix first. The only refusal is running out of
    /// memory.
    pub fn best_list(&self, alloc: Global) -> Result<Option<(Breaks, i64)>, NoMemory>
        ensures { IfOk result (λ found. MatchOption found ((list : List Break) → is_legal self.now.rule self.now.len list ≡ false) (IsBestList self.now.rule self.now.len self.now.sums)) }
    {
        best_list(alloc, self.rule, self.len, &self.sums, &self.table)
    }
}
