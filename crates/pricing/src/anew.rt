//! What tables know at given prices, found anew as far as changed prices reach.

ghost use Rattle.std.specs.Prelude.{◌≡◌, ◌+◌, ◌<◌, ◌≤◌, All, ℤ, List, IfOk, length, count_by, nat_le};
ghost use Rattle.std.specs.Arc.{arc_value};
ghost use Rattle.break_rules.specs.declared.Rule.{Rule};
ghost use Rattle.break_rules.specs.Ranges.{IsRule};
ghost use Rattle.shift_instance.specs.declared.Shift.{Shift};
ghost use Rattle.shift_instance.specs.Problem.{shift_list, slots};
ghost use Rattle.price_sums.specs.Along.{AreSmallPrices, ArePricesOf, AreSums};
ghost use Rattle.pricing.specs.Values.{AreBestRests};
ghost use Rattle.pricing.specs.Found.{IsBestFound};
ghost use Rattle.pricing.specs.Tables.{IsShiftOf, repriced};
ghost use Rattle.pricing.specs.Keeping.{AreBeginnings, AreKeptAbove, AreRestsKept, IsFoundAt, IsGraphKept, IsLastChange, nodes_of};

use crate::found::Found;
use crate::layer_rests::LayerRests;
use crate::rests::BestRests;
use crate::search::best_by_beginnings;
use crate::steps::Steps;
use crate::subject::Subject;
use crate::values::values_anew;
use break_graph::Graph;
use break_rules::{NoMemory, Rule};
use price_sums::price_sums;
use shift_instance::Instance;
use std::alloc::Global;
use std::sync::Arc;
use std::sync::ledger::Ledger;

/// What is kept of a search for the best list, for later prices.
#[derive(Drop)]
pub enum KeptSearch {
    /// The search went along the graph of the shift that the instance keeps.
    OverGraph {
        /// The graph.
        graph: Arc<Graph>,
        /// For each node of it what the best rest of the lists that stand there earns.
        values: Vec<i64>,
    },
    /// The instance keeps no graph of the shift. The search went by layers, of which nothing is kept.
    ByLayers,
}

/// What is known of a shift on a day at given prices.
#[derive(Drop)]
pub struct AtPrices {
    /// What is kept of the search.
    pub kept: KeptSearch,
    /// The best list, if some list is legal.
    pub best: Option<Found>,
}

/// The prices after some changes.
pub fn changed_prices(
    alloc: Global,
    prices: &[i64],
    changes: &[(u32, i64)],
) -> Result<Vec<i64>, NoMemory>
    requires { All (λ change. change.0 < length prices.now) changes.now }
    ensures { IfOk result (λ list. list.items ≡ repriced prices.now changes.now) }
{
    let mut list = Vec::from_slice(alloc, prices)?;
    for (slot, price) in changes {
        list[*slot as usize] = *price;
    }
    Ok(list)
}

/// The greatest offset of a shift on a day at which two price lists differ, and `None` where there is none.
pub fn last_change(
    instance: &Instance,
    shift: u16,
    day: u8,
    old: &[i64],
    new: &[i64],
) -> Option<u16>
    requires shift { shift < length (shift_list instance.now) }
    requires old { length old.now ≡ slots instance.now }
    requires new { length new.now ≡ slots instance.now }
    ensures { (x : Shift × Rule) → IsShiftOf instance.now shift x → IsLastChange instance.now x.0 day old.now new.now x.0.len result }
{
    let len = instance.shift(shift).len;
    let mut last = None;
    for offset in 0..len {
        let slot = instance.slot_of(shift, day, offset);
        if old[slot] != new[slot] {
            last = Some(offset);
        }
    }
    last
}

impl KeptSearch {
    /// What is kept for a shift before its first search.
    pub fn before_all(
        alloc: Global,
        instance: &Instance,
        shift: u16,
    ) -> Result<KeptSearch, NoMemory>
        requires { shift < length (shift_list instance.now) }
        ensures { IfOk result (λ kept. (x : Shift × Rule) → IsShiftOf instance.now shift x → IsGraphKept x.1 x.0.len kept) }
    {
        match instance.shared_graph(shift)? {
            Some(graph) => {
                let values = Vec::new(alloc);
                Ok(KeptSearch::OverGraph { graph, values })
            }
            None => Ok(KeptSearch::ByLayers),
        }
    }
}

impl AtPrices {
    /// What is known at some prices. Over a graph the kept values of the nodes behind an offset stay, and each other node
    /// takes a step. Each beginning of a bonus's prefix takes one too.
    pub fn find<L: Ledger>(
        alloc: Global,
        instance: &Instance,
        subject: &Subject,
        prices: &[i64],
        kept: &KeptSearch,
        last: u16,
        steps: &mut Steps<L>,
    ) -> Result<AtPrices, NoMemory>
        requires shift { subject.now.shift < length (shift_list instance.now) }
        requires beginnings { AreBeginnings subject.now.trie.entries subject.now.beginnings }
        requires count { length prices.now ≡ slots instance.now }
        requires prices { AreSmallPrices prices.now }
        requires graph { (x : Shift × Rule) → IsShiftOf instance.now subject.now.shift x → IsGraphKept x.1 x.0.len kept.now }
        requires kept { (x : Shift × Rule) → IsShiftOf instance.now subject.now.shift x → (sums : List ℤ) → ArePricesOf instance.now x.0 subject.now.day prices.now sums → AreKeptAbove x.1 x.0.len sums last kept.now }
        ensures found { IfOk result (λ a. (x : Shift × Rule) → IsShiftOf instance.now subject.now.shift x → IsFoundAt instance.now x subject.now.day prices.now subject.now.trie.entries a.kept a.best) }
        ensures steps { steps.new ≤ steps.old + (count_by (λ n. nat_le n.spot.offset last) (nodes_of kept.now) + length subject.now.beginnings) }
    {
        let rule = instance.rule_of(subject.shift);
        let len = instance.shift(subject.shift).len;
        let sums = price_sums(alloc, instance, subject.shift, subject.day, prices)?;
        match kept {
            KeptSearch::OverGraph { graph, values } => {
                let graph = Arc::try_clone(graph)?;
                let values = values_anew(alloc, rule, len, &graph, &sums, values, last, steps)?;
                AtPrices::over_graph(alloc, rule, len, graph, sums, values, subject, steps)
            }
            KeptSearch::ByLayers => AtPrices::by_layers(alloc, rule, len, sums, subject, steps),
        }
    }

    /// What is known by the sums of some prices where the values of the nodes of a graph are known.
    fn over_graph<L: Ledger>(
        alloc: Global,
        rule: &Rule,
        len: u16,
        graph: Arc<Graph>,
        sums: Vec<i64>,
        values: Vec<i64>,
        subject: &Subject,
        steps: &mut Steps<L>,
    ) -> Result<AtPrices, NoMemory>
        requires rests { AreBestRests rule.now len (arc_value graph) sums.items values.items }
        requires beginnings { AreBeginnings subject.now.trie.entries subject.now.beginnings }
        ensures kept { IfOk result (λ a. AreRestsKept rule.now len sums.items a.kept) }
        ensures best { IfOk result (λ a. IsBestFound (record { rule = rule.now; len = len; sums = sums.items }) subject.now.trie.entries a.best) }
        ensures steps { steps.new ≤ steps.old + length subject.now.beginnings }
    {
        let rests = BestRests::with_values(rule, len, &graph, sums, values);
        let best = best_by_beginnings(alloc, &rests, &subject.trie, &subject.beginnings, steps)?;
        let values = rests.into_values();
        let kept = KeptSearch::OverGraph { graph, values };
        Ok(AtPrices { kept, best })
    }

    /// What is known by the sums of some prices where the search goes by layers.
    fn by_layers<L: Ledger>(
        alloc: Global,
        rule: &Rule,
        len: u16,
        sums: Vec<i64>,
        subject: &Subject,
        steps: &mut Steps<L>,
    ) -> Result<AtPrices, NoMemory>
        requires rule { IsRule rule.now }
        requires sums { AreSums len sums.items }
        requires beginnings { AreBeginnings subject.now.trie.entries subject.now.beginnings }
        ensures kept { IfOk result (λ a. AreRestsKept rule.now len sums.items a.kept) }
        ensures best { IfOk result (λ a. IsBestFound (record { rule = rule.now; len = len; sums = sums.items }) subject.now.trie.entries a.best) }
        ensures steps { steps.new ≤ steps.old + length subject.now.beginnings }
    {
        let rests = LayerRests::new(alloc, rule, len, sums)?;
        let best = best_by_beginnings(alloc, &rests, &subject.trie, &subject.beginnings, steps)?;
        let kept = KeptSearch::ByLayers;
        Ok(AtPrices { kept, best })
    }
}
