//! A search below some cuts, and what its steps make of it.
ghost use Rattle.std.specs.Prelude.{◌≡◌, ◌<◌, ◌≤◌, ◌^◌, ◌++◌, ◌∷◌, [], IfOk, IsSomeAnd, MatchOption, length, set, slice_get, true};
ghost use Rattle.head_splits.specs.Nodes.{Node, child, with_floor};
ghost use Rattle.certificate.specs.declared.proof_lines.Line.TheVariants.{Split, Settled};
ghost use Rattle.dual_bound.specs.Proved.{IsProved};
ghost use Rattle.report_grafts.specs.Run.{IsSound};
ghost use Rattle.subtree_search.specs.Searching.{divided, is_open, offered, opening, priced, settled, top, IsNext};
ghost use Rattle.subtree_search.specs.Stepping.{run_of, HasNoOpen, IsSettlement};

use crate::choosing::{least_floor, next_open};
use crate::hints::hint_of;
use crate::node::SearchNode;
use crate::pricing_nodes::copy_of;
use advice::{Ask, Told};
use break_rules::NoMemory;
use certificate::{Line, Lines};
use dual_bound::{Proved, SettledNode};
use head_splits::{Class, Cut, Cuts, Side, meets};
use report_grafts::SubRun;
use rota_cost::Costed;
use shift_instance::Instance;
use std::alloc::Global;
use std::marker::Model;

/// A search below some cuts: its nodes, of which node 0 has these cuts, the best rota that it keeps, and its proof lines, of which
/// so many price a node. It looks for rotas that cost less than the limit.
#[derive(Drop)]
pub(crate) struct Search {
    base: Cuts,
    limit: u64,
    nodes: Vec<SearchNode>,
    best: Option<Costed>,
    lines: Vec<Line>,
    taken: u64,
}

impl Model for Search {
    ghost use Rattle.subtree_search.specs.Searching.{Searching};

    ghost Value = { Searching };

    ghost view = { λ s. record {
      base = s.base;
      limit = s.limit;
      nodes = s.nodes.items;
      best = s.best;
      lines = s.lines.items;
      taken = s.taken;
    } };
}

impl Search {
    /// A search before its first step.
    pub(crate) fn opening(alloc: Global, base: Cuts, limit: u64) -> Result<Search, NoMemory>
        ensures { IfOk result (λ s. s ≡ opening base limit) }
    {
        let mut nodes = Vec::new(alloc);
        nodes.push(SearchNode::new(copy_of(&base)?))?;
        Ok(Search {
            base,
            limit,
            nodes,
            best: None,
            lines: Vec::new(alloc),
            taken: 0,
        })
    }

    /// How many of the proof lines price a node.
    pub(crate) fn taken(&self) -> u64
        ensures { result ≡ self.now.taken }
    {
        self.taken
    }

    /// The least of the limit and of what the best rota costs.
    pub(crate) fn top(&self) -> u64
        ensures { result ≡ top self.now }
    {
        match &self.best {
            Some(best) => self.limit.min(best.cost()),
            None => self.limit,
        }
    }

    /// The node that the search takes next: of its open nodes the one of least floor, and among those of least number.
    pub(crate) fn next(&self) -> Option<usize>
        ensures { MatchOption result (HasNoOpen self.now) (λ k. (n : Node) × IsNext self.now.nodes (top self.now) k n) }
    {
        next_open(&self.nodes, self.top())
    }

    /// The cuts of a node.
    pub(crate) fn cuts_of(&self, node: usize) -> Result<Cuts, NoMemory>
        requires { node < length self.now.nodes }
        ensures { IfOk result (λ cuts. IsSomeAnd (slice_get self.now.nodes node) (λ n. cuts ≡ n.cuts)) }
    {
        let nodes = &self.nodes;
        copy_of(nodes[node].cuts())
    }

    /// What every legal rota below a node costs at least.
    pub(crate) fn floor_of(&self, node: usize) -> u64
        requires { node < length self.now.nodes }
        ensures { IsSomeAnd (slice_get self.now.nodes node) (λ n. result ≡ n.floor) }
    {
        let nodes = &self.nodes;
        nodes[node].floor()
    }

    /// What is asked of an adviser for a node.
    pub(crate) fn ask(&self, alloc: Global, node: usize) -> Result<Ask, NoMemory>
        requires { node < length self.now.nodes }
        ensures { IfOk result (λ ask. IsSomeAnd (slice_get self.now.nodes node) (λ n. ask.cuts ≡ n.cuts)) }
    {
        let nodes = &self.nodes;
        let hint = hint_of(alloc, &nodes[node], &self.lines, &self.best)?;
        Ok(Ask {
            cuts: self.cuts_of(node)?,
            floor: self.floor_of(node),
            best: self.top(),
            hint,
        })
    }

    /// What became of a step for a node.
    pub(crate) fn news(&self, node: usize) -> Told
        requires there { node < length self.now.nodes }
        requires number { node < 2 ^ 32 }
    {
        Told {
            node: node as u32,
            floor: self.floor_of(node),
            best: self.top(),
        }
    }

    /// Whether a node is open.
    pub(crate) fn is_open(&self, node: usize) -> bool
        requires { node < length self.now.nodes }
        ensures { IsSomeAnd (slice_get self.now.nodes node) (λ n. result ≡ is_open (top self.now) n) }
    {
        let top = self.top();
        let nodes = &self.nodes;
        nodes[node].is_open(top)
    }

    /// Offers a plan to the search, which keeps it where the plan meets its cuts and costs less than its top.
    pub(crate) fn offer(self, instance: &Instance, plan: Option<Costed>) -> Search
        ensures offered { result ≡ offered self plan }
        ensures nodes { result.nodes ≡ self.nodes }
        ensures taken { result.taken ≡ self.taken }
    {
        let mut search = self;
        if let Some(plan) = plan {
            if meets(instance, plan.rows(), &search.base) && plan.cost() < search.top() {
                search.best = Some(plan);
            }
        }
        search
    }

    /// Prices a node.
    pub(crate) fn price(self, node: usize, proved: Proved) -> Result<Search, NoMemory>
        requires there { node < length self.nodes }
        requires number { node < 2 ^ 32 }
        requires room { self.taken < 2 ^ 32 }
        requires proved { IsProved proved }
        ensures priced { IfOk result (λ s. IsSomeAnd (slice_get self.nodes node) (λ n. n.cuts ≡ proved.cuts → s ≡ priced proved.instance node n proved.prices self)) }
        ensures longer { IfOk result (λ s. length s.nodes ≡ length self.nodes) }
    {
        let mut search = self;
        let floor = search.floor_of(node).max(proved.bound());
        let (_, prices) = proved.into_parts();
        let line = search.lines.len();
        search.lines.push(Line::Priced {
            node: node as u32,
            prices,
        })?;
        search.nodes[node].price(floor, line);
        search.taken += 1;
        Ok(search)
    }

    /// Splits a node by the number of a class's duties: into at most `m`, and at least `m + 1`.
    pub(crate) fn divide(self, node: usize, class: Class, m: u16) -> Result<Search, NoMemory>
        requires there { node < length self.nodes }
        requires number { node < 2 ^ 32 }
        requires small { m ≤ 200 }
        ensures { IfOk result (λ s. IsSomeAnd (slice_get self.nodes node) (λ n. s ≡ divided node n class m self)) }
    {
        let at_most = self.part(node, &class, Side::AtMost, m)?;
        let at_least = self.part(node, &class, Side::AtLeast, m + 1)?;
        let search = self.with_division(node, class, m)?;
        let search = search.with_parts(at_most, at_least)?;
        Ok(search)
    }

    /// The part of a node that has one cut more.
    fn part(&self, node: usize, class: &Class, side: Side, m: u16) -> Result<SearchNode, NoMemory>
        requires { node < length self.now.nodes }
        ensures { IfOk result (λ part. IsSomeAnd (slice_get self.now.nodes node) (λ n. part ≡ child n class.now side m)) }
    {
        let class = class.clone()?;
        let mut cuts = self.cuts_of(node)?.into_vec();
        cuts.push(Cut { class, side, m })?;
        let nodes = &self.nodes;
        let floor = nodes[node].floor();
        let priced_by = nodes[node].priced_by();
        Ok(SearchNode::part(Cuts::new(cuts), floor, priced_by))
    }

    /// Notes that a node is split, with the line that splits it.
    fn with_division(self, node: usize, class: Class, m: u16) -> Result<Search, NoMemory>
        requires there { node < length self.nodes }
        requires number { node < 2 ^ 32 }
        ensures { IfOk result (λ s. IsSomeAnd (slice_get self.nodes node) (λ n. s ≡ record self { nodes = set self.nodes node (record n { split = true }); lines = self.lines ++ Split node class m ∷ [] })) }
    {
        let mut search = self;
        search.lines.push(Line::Split {
            node: node as u32,
            class,
            m,
        })?;
        search.nodes[node].split();
        Ok(search)
    }

    /// Puts two parts behind the nodes.
    fn with_parts(self, at_most: SearchNode, at_least: SearchNode) -> Result<Search, NoMemory>
        ensures { IfOk result (λ s. s ≡ record self { nodes = self.nodes ++ at_most ∷ at_least ∷ [] }) }
    {
        let mut search = self;
        search.nodes.push(at_most)?;
        search.nodes.push(at_least)?;
        Ok(search)
    }

    /// Gives a node the floor of its plan, with the line that settles it.
    fn with_settled(self, node: usize, floor: u64) -> Result<Search, NoMemory>
        requires there { node < length self.nodes }
        requires number { node < 2 ^ 32 }
        ensures { IfOk result (λ s. IsSomeAnd (slice_get self.nodes node) (λ n. s ≡ record self { nodes = with_floor self.nodes node n floor; lines = self.lines ++ Settled node ∷ [] })) }
    {
        let mut search = self;
        search.lines.push(Line::Settled { node: node as u32 })?;
        search.nodes[node].set_floor(floor);
        Ok(search)
    }

    /// Offers the plan that a settled node's cuts leave, and where the node is still open then, settles it.
    pub(crate) fn settle(
        self,
        instance: &Instance,
        node: usize,
        settlement: SettledNode,
    ) -> Result<Search, NoMemory>
        requires there { node < length self.nodes }
        requires number { node < 2 ^ 32 }
        ensures { IfOk result (λ s. IsSomeAnd (slice_get self.nodes node) (λ n. IsSettlement instance.now n.cuts settlement → s ≡ settled instance.now node n (offered self settlement.plan))) }
    {
        let floor = settlement.floor();
        let search = self.offer(instance, settlement.into_plan());
        if search.is_open(node) {
            let search = search.with_settled(node, floor)?;
            return Ok(search);
        }
        Ok(search)
    }

    /// The run of the search.
    pub(crate) fn into_run(self, alloc: Global, instance: &Instance) -> Result<SubRun, NoMemory>
        requires { IsSound (run_of instance.now self) }
        ensures { IfOk result (λ run. run ≡ run_of instance.now self) }
    {
        let floor = least_floor(&self.nodes, self.top());
        let lines = Lines::from_slice(alloc, &self.lines)?;
        Ok(SubRun::new(
            instance, self.base, self.limit, self.best, lines, self.taken, floor,
        ))
    }
}
