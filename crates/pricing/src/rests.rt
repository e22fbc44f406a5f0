//! The best rests of break lists at given prices.

ghost use Rattle.std.specs.Prelude.{◌≡◌, ◌+◌, ◌-◌, ◌*◌, ◌<◌, ◌≤◌, ◌++◌, ◌∷◌, List, [], IfOk, MatchOption, length, map, true, false};
ghost use Rattle.std.specs.Int.RustNames.{unsigned_abs};
ghost use Rattle.break_rules.specs.declared.Break.{Break};
ghost use Rattle.break_rules.specs.Breaks.{is_legal, is_live};
ghost use Rattle.break_rules.specs.Ranges.{IsRule};
ghost use Rattle.break_graph.specs.Graph.{IsGraph, StandsAt, node_at};
ghost use Rattle.price_sums.specs.Along.{AreSums, earned_from, price_in};
ghost use Rattle.pricing.specs.Values.{IsValue, LeadsOn, AreBestRests, priced_of};
ghost use Rattle.pricing.specs.Keeping.{AreEnoughAround, IsBestEdge, Reaches};
ghost use Rattle.break_layers.specs.Rests.{IsBestFrom};

use crate::around::{Rests, alone, better_way, with_next};
use crate::beginnings::Beginnings;
use crate::values::{difference, first_reaching, node_values, total};
use break_graph::{Edge, Graph};
use break_rules::{Break, Breaks, NoMemory, Rule};
use price_sums::{resumption, sum_before};
use std::alloc::Global;
use std::marker::Model;

/// For each node of a graph what the best rest of the lists that stand there earns.
#[derive(Drop)]
pub struct BestRests<'a> {
    rule: &'a Rule,
    len: u16,
    graph: &'a Graph,
    sums: Vec<i64>,
    values: Vec<i64>,
}

impl<'a> Model for BestRests<'a> {
    ghost use Rattle.pricing.specs.Values.{PricedNodes, AreBestRests};

    ghost Value = { PricedNodes };

    ghost view = { λ r. record { rule = r.rule.now; len = r.len; nodes = r.graph.now; sums = r.sums.items } };

    ghost invariant = { λ r. AreBestRests r.rule.now r.len r.graph.now r.sums.items r.values.items };
}

/// The prices of the offsets at which a duty with a legal list of breaks works, by the sums of the prices before each
/// offset.
pub fn earned_along(rule: &Rule, len: u16, sums: &[i64], list: &[Break]) -> i64
    requires rule { IsRule rule.now }
    requires sums { AreSums len sums.now }
    requires legal { is_legal rule.now len list.now ≡ true }
    ensures earned { result ≡ earned_from (price_in sums.now) rule.now len 0 list.now }
    ensures small { unsigned_abs result ≤ 10000000000 * 65535 }
{
    let resettle = usize::from(rule.resettle);
    let mut sum = 0;
    let mut from = 0;
    for stop in list {
        let start = usize::from(stop.start);
        sum = total(
            sum,
            difference(sum_before(sums, start), sum_before(sums, from)),
        );
        from = start + usize::from(stop.len) + resettle;
    }
    total(
        sum,
        difference(sum_before(sums, usize::from(len)), sum_before(sums, from)),
    )
}

impl<'a> BestRests<'a> {
    /// The best rests in shifts of `len` slots with this graph, by the sums of the prices of the offsets below each one.
    pub fn new(
        alloc: Global,
        rule: &'a Rule,
        len: u16,
        graph: &'a Graph,
        sums: Vec<i64>,
    ) -> Result<BestRests<'a>, NoMemory>
        requires rule { IsRule rule.now }
        requires graph { IsGraph rule.now len graph.now }
        requires sums { AreSums len sums.items }
        ensures { IfOk result (λ r. r ≡ record { rule = rule.now; len = len; nodes = graph.now; sums = sums.items }) }
    {
        let values = node_values(alloc, rule, len, graph, &sums)?;
        Ok(BestRests {
            rule,
            len,
            graph,
            sums,
            values,
        })
    }

    /// The same, with the values of the nodes that are known. It takes no memory.
    pub fn with_values(
        rule: &'a Rule,
        len: u16,
        graph: &'a Graph,
        sums: Vec<i64>,
        values: Vec<i64>,
    ) -> BestRests<'a>
        requires { AreBestRests rule.now len graph.now sums.items values.items }
        ensures { result ≡ record { rule = rule.now; len = len; nodes = graph.now; sums = sums.items } }
    {
        BestRests {
            rule,
            len,
            graph,
            sums,
            values,
        }
    }

    /// The values of the nodes, given back. It takes no memory.
    pub fn into_values(self) -> Vec<i64>
        ensures { AreBestRests self.entry.rule self.entry.len self.entry.nodes self.entry.sums result.items }
    {
        self.values
    }

    /// The node where the empty list stands, and `None` where no list is legal. It takes no memory.
    pub fn opening(&self) -> Option<usize>
        ensures { MatchOption result (is_live self.now.rule self.now.len [] ≡ false) (λ k. StandsAt self.now.rule self.now.len self.now.nodes k []) }
    {
        self.graph.node_count().checked_sub(1)
    }

    /// The edges of a node. It takes no memory.
    pub fn edges_at(&self, at: usize) -> &[Edge]
        requires { at < length self.now.nodes }
        ensures edges { result.now ≡ (node_at self.now.nodes at).edges }
        ensures graph { IsGraph self.now.rule self.now.len self.now.nodes }
        ensures rule { IsRule self.now.rule }
    {
        self.graph.edges(at)
    }

    /// What the best rest of the lists that stand at a node earns. It takes no memory.
    pub fn value_at(&self, at: usize) -> i64
        requires { at < length self.now.nodes }
        ensures { (list : List Break) → StandsAt self.now.rule self.now.len self.now.nodes at list → IsValue self.now.rule self.now.len self.now.sums list result }
    {
        sum_before(&self.values, at)
    }

    /// The first edge of a node that leads on to the best rest, and `None` where the lists that stand there are legal. It
    /// takes no memory.
    fn next_at(&self, at: usize) -> Option<Edge>
        requires { at < length self.now.nodes }
        ensures leads { (list : List Break) → StandsAt self.now.rule self.now.len self.now.nodes at list → MatchOption result (is_legal self.now.rule self.now.len list ≡ true) (LeadsOn self.now.rule self.now.len self.now.sums self.now.nodes list) }
        ensures rule { IsRule self.now.rule }
        ensures back { MatchOption result (Unit {0}) (λ e. e.next < at) }
    {
        let start = sum_before(&self.sums, resumption(self.rule, self.graph.spot(at)));
        let whole = total(sum_before(&self.values, at), start);
        first_reaching(self.graph.edges(at), whole, &self.sums, &self.values)
    }

    /// The breaks of a list that stands at a node, followed by their best rest.
    pub fn completed(&self, node: usize, list: Vec<Break>) -> Result<Vec<Break>, NoMemory>
        requires stands { StandsAt self.now.rule self.now.len self.now.nodes node list.items }
        ensures { IfOk result (λ whole. IsBestFrom self.now.rule self.now.len self.now.sums list.items whole.items) }
    {
        let mut whole = list;
        let mut at = node;
        while let Some(edge) = self.next_at(at) {
            whole.push(edge.stop)?;
            at = edge.next as usize;
        }
        Ok(whole)
    }

    /// The node where some breaks stand, and `None` where no legal list begins with them. It takes no memory.
    pub fn node_behind(&self, front: &[Break]) -> Option<usize>
        ensures behind { MatchOption result (is_live self.now.rule self.now.len front.now ≡ false) (λ k. StandsAt self.now.rule self.now.len self.now.nodes k front.now) }
        ensures rule { IsRule self.now.rule }
    {
        self.graph.node_behind(front)
    }

    /// What the best rests reach that go on by an edge: the prices before its break, and what is earned behind it. It takes no
    /// memory.
    fn reach_by(&self, edge: Edge) -> i64
        requires { edge.next < length self.now.nodes }
        ensures { (front : List Break) → StandsAt self.now.rule self.now.len self.now.nodes edge.next (front ++ edge.stop ∷ []) → Reaches (priced_of self.now) front edge.stop result }
    {
        let behind = self.value_at(edge.next as usize);
        total(sum_before(&self.sums, usize::from(edge.stop.start)), behind)
    }

    /// Of the edges of the node where some breaks stand that lead to no named list, the first by which the best rests reach
    /// most, with that.
    fn best_edge(
        &self,
        alloc: Global,
        front: &[Break],
        at: usize,
        named: &Beginnings,
    ) -> Result<Option<(Edge, i64)>, NoMemory>
        requires { StandsAt self.now.rule self.now.len self.now.nodes at front.now }
        ensures { IfOk result (IsBestEdge self.now named.now front.now (map (λ e. e.stop) (node_at self.now.nodes at).edges)) }
    {
        let mut best = None;
        for edge in self.edges_at(at) {
            let longer = with_next(alloc, front, edge.stop)?;
            if !named.has(&longer) {
                best = better_way(best, *edge, self.reach_by(*edge));
            }
        }
        Ok(best)
    }

    /// The best list that goes on from some breaks, which are no legal list, with a break that leads to no named list.
    fn onward(
        &self,
        alloc: Global,
        front: &[Break],
        at: usize,
        named: &Beginnings,
    ) -> Result<Vec<Breaks>, NoMemory>
        requires stands { StandsAt self.now.rule self.now.len self.now.nodes at front.now }
        requires unfinished { is_legal self.now.rule self.now.len front.now ≡ false }
        requires graph { IsGraph self.now.rule self.now.len self.now.nodes }
        requires rule { IsRule self.now.rule }
        ensures { IfOk result (λ lists. AreEnoughAround (priced_of self.now) named.now front.now lists.items) }
    {
        let mut lists = Vec::new(alloc);
        let (edge, _) = match self.best_edge(alloc, front, at, named)? {
            Some(best) => best,
            None => return Ok(lists),
        };
        let list = with_next(alloc, front, edge.stop)?;
        let whole = self.completed(edge.next as usize, list)?;
        lists.push(Breaks::new(whole))?;
        Ok(lists)
    }
}

impl<'a> Rests for BestRests<'a> {
    ghost priced = { priced_of };

    fn earned(&self, list: &[Break]) -> i64 {
        earned_along(self.rule, self.len, &self.sums, list)
    }

    fn best(&self, alloc: Global) -> Result<Option<(Breaks, i64)>, NoMemory> {
        let Some(at) = self.opening() else {
            return Ok(None);
        };
        let list = self.completed(at, Vec::new(alloc))?;
        Ok(Some((Breaks::new(list), self.value_at(at))))
    }

    fn around(
        &self,
        alloc: Global,
        front: &[Break],
        named: &Beginnings,
    ) -> Result<Vec<Breaks>, NoMemory> {
        let Some(at) = self.node_behind(front) else {
            return Ok(Vec::new(alloc));
        };
        if self.edges_at(at).is_empty() {
            return alone(alloc, front);
        }
        self.onward(alloc, front, at, named)
    }
}
