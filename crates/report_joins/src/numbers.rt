//! The numbers of the nodes of a part, of the run that it grew by, and of the report into which the run is grafted.
ghost use Rattle.std.specs.Prelude.{◌≡◌, ◌+◌, ◌*◌, ◌<◌, ◌≤◌, ◌^◌, ℕ, MatchOption};
ghost use Rattle.certificate.specs.Accepted.{node_of};
ghost use Rattle.report_grafts.specs.Grafted.{grafted_line, grafted_number};
ghost use Rattle.report_joins.specs.Faults.{IsElsewhere};
ghost use Rattle.report_joins.specs.Numbers.{with_node};

use certificate::Line;

/// Where a run is grafted: at this node of a tree with so many splits.
#[derive(Clone, Copy, Drop)]
pub(crate) struct Place {
    pub(crate) node: u32,
    pub(crate) splits: u32,
}

impl Place {
    /// The number that a run's node has in the tree.
    fn number(self, node: u32) -> u32
        requires { node + 2 * self.splits < 2 ^ 32 }
        ensures { result ≡ grafted_number self.node self.splits node }
    {
        if node == 0 {
            self.node
        } else {
            node + 2 * self.splits
        }
    }

    /// A run's line as one of the tree.
    pub(crate) fn line(self, line: Line) -> Line
        requires { node_of line + 2 * self.splits < 2 ^ 32 }
        ensures { result ≡ grafted_line self.node self.splits line }
    {
        let number = self.number(node_of(&line));
        with_node(line, number)
    }

    /// The number in a run of the tree's node of that number, where it is one of the run.
    fn run_number(self, node: u32) -> Option<u32>
        requires { 2 * self.splits < 2 ^ 32 }
        ensures { MatchOption result ((k : ℕ) → node ≡ grafted_number self.node self.splits k → ⊥) (λ k. node ≡ grafted_number self.node self.splits k) }
    {
        if node == self.node {
            Some(0)
        } else if node > 2 * self.splits {
            Some(node - 2 * self.splits)
        } else {
            None
        }
    }

    /// A line of the tree as one of the run, where it is of a node of the run.
    #[tactic(auto, using(crate::proofs::Reading::as_numbered, crate::proofs::Reading::is_elsewhere))]
    pub(crate) fn run_line(self, line: Line) -> Option<Line>
        requires { 2 * self.splits < 2 ^ 32 }
        ensures { MatchOption result (IsElsewhere self.node self.splits line) (λ own. line ≡ grafted_line self.node self.splits own) }
    {
        match self.run_number(node_of(&line)) {
            Some(node) => Some(with_node(line, node)),
            None => None,
        }
    }
}

/// The node that a proof line names.
pub(crate) fn node_of(line: &Line) -> u32
    ensures { result ≡ node_of line.now }
{
    match line {
        Line::Split {
            node,
            class: _,
            m: _,
        } => *node,
        Line::Priced { node, prices: _ } => *node,
        Line::Settled { node } => *node,
    }
}

/// A proof line for another node.
pub(crate) fn with_node(line: Line, node: u32) -> Line
    ensures { result ≡ with_node node line }
{
    match line {
        Line::Split { node: _, class, m } => Line::Split { node, class, m },
        Line::Priced { node: _, prices } => Line::Priced { node, prices },
        Line::Settled { node: _ } => Line::Settled { node },
    }
}
