//! A report into which parts are joined, one after another.
ghost use Rattle.std.specs.Prelude.{◌≡◌, ◌∷◌, ◌++◌, ◌+◌, ◌*◌, ◌≤◌, ◌<◌, ◌^◌, ◌==◌, [], All, IfErr, IfOk, IsFalse, IsTrue, MatchOption, Some, map, length};
ghost use Rattle.std.specs.List.{list_any};
ghost use Rattle.certificate.specs.Accepted.{is_accepted, least_floor, node_of, nodes_of};
ghost use Rattle.certificate.specs.Text.{AgreesWith};
ghost use Rattle.report_grafts.specs.Grafted.{grafted_line, grafted_lines, status_of};
ghost use Rattle.report_grafts.specs.Run.{divisions};
ghost use Rattle.report_joins.specs.Faults.{IsPartFault, IsReadFault, IsRefusal};
ghost use Rattle.report_joins.specs.Joined.{alone, IsJoinedCert, JoinsPart};
ghost use Rattle.report_joins.specs.Runs.{IsReadPart, IsRunOf};
ghost use Rattle.report_nodes.specs.Made.{with_below};

use crate::fault::PartFault;
use crate::judging::{accepted_nodes, fault_or_refusal, is_plan, refusal_of};
use crate::numbers::Place;
use crate::parts::{PartRun, run_of};
use crate::plans::{cheaper_plan, copy_of_plan, is_plan_below};
use break_rules::NoMemory;
use certificate::{Cert, CertStatus, Line, Lines};
use report_nodes::NodeTree;
use shift_instance::{Instance, Rows, TOP};
use std::alloc::Global;
use std::marker::Model;
use std::snapshot::Snapshot;

/// The most proof lines of a joined report.
const LINES_MOST: usize = 1 << 30;

/// A report, and what it is with the parts that were joined into it so far.
#[derive(Drop)]
pub struct Joining {
    instance: Snapshot<Instance>,
    /// The report.
    whole: Cert,
    /// The nodes of the report.
    ends: NodeTree,
    /// The nodes that parts were of, in their order.
    nodes: Vec<u32>,
    /// The proof lines so far.
    lines: Vec<Line>,
    /// The nodes that they make.
    tree: NodeTree,
    /// The cheapest plan so far.
    plan: Option<(u64, Rows)>,
}

impl Model for Joining {
    ghost use Rattle.report_joins.specs.Joined.{Joined, IsJoining};

    ghost Value = { Joined };

    ghost view = { λ j. record {
      instance = j.instance.value;
      whole = j.whole;
      nodes = j.nodes.items;
      lines = j.lines.items;
      plan = j.plan;
    } };

    ghost invariant = { λ j. IsJoining j.ends j.tree (record {
      instance = j.instance.value;
      whole = j.whole;
      nodes = j.nodes.items;
      lines = j.lines.items;
      plan = j.plan;
    }) };
}

/// Proof lines as a list.
fn lines_of(alloc: Global, lines: &Lines) -> Result<Vec<Line>, NoMemory>
    ensures { IfOk result (λ list. list.items ≡ lines.now) }
{
    let mut reader = lines.reader();
    let mut list = Vec::new(alloc);
    while let Some(line) = reader.next_line(alloc)? {
        list.push(line)?;
    }
    Ok(list)
}

/// Lines with those of a run that is grafted at a place.
fn with_run(
    alloc: Global,
    lines: Vec<Line>,
    run: &Lines,
    place: Place,
) -> Result<Vec<Line>, NoMemory>
    requires { All (λ line. node_of line + 2 * place.splits < 2 ^ 32) run.now }
    ensures { IfOk result (λ more. more.items ≡ lines.items ++ map (grafted_line place.node place.splits) run.now) }
{
    let mut lines = lines;
    let mut reader = run.reader();
    while let Some(line) = reader.next_line(alloc)? {
        lines.push(place.line(line))?;
    }
    Ok(lines)
}

/// Numbers of nodes with one more.
fn with_number(nodes: Vec<u32>, node: u32) -> Result<Vec<u32>, NoMemory>
    ensures { IfOk result (λ more. more.items ≡ nodes.items ++ node ∷ []) }
{
    let mut nodes = nodes;
    nodes.push(node)?;
    Ok(nodes)
}

/// Whether a node is among some.
fn has_node(nodes: &[u32], node: u32) -> bool
    ensures { result ≡ list_any (λ k. k == node) nodes.now }
{
    nodes.iter().any(|known| *known == node)
}

/// What is said of a plan and a bound.
fn status_of(plan: &Option<(u64, Rows)>, bound: u64) -> CertStatus
    ensures { result ≡ status_of plan.now bound }
{
    match plan {
        None => CertStatus::Bound,
        Some((cost, _)) if *cost == bound => CertStatus::Optimal,
        Some(_) => CertStatus::Stopped,
    }
}

/// The least floor of nodes with those that were made of one of them alone.
fn floor_with(
    alloc: Global,
    ends: &NodeTree,
    node: usize,
    below: &NodeTree,
) -> Result<u64, NoMemory>
    requires { node < length ends.now }
    ensures { IfOk result (λ floor. floor ≡ least_floor (with_below ends.now node below.now)) }
{
    let all = ends.copy(alloc)?.with_below(node, below)?;
    Ok(all.least_floor(TOP))
}

/// What the run of a part makes of its node alone, where the checker accepts the part. No line of the report is judged again.
fn accepted_below(
    alloc: Global,
    instance: &Instance,
    whole: &Cert,
    ends: &NodeTree,
    part: &Cert,
    run: &PartRun,
) -> Result<Option<NodeTree>, NoMemory>
    requires made { nodes_of instance.now whole.now.lines ≡ Some ends.now }
    requires known { length whole.now.lines ≤ 2 ^ 28 }
    requires few { length part.now.lines ≤ 2 ^ 28 }
    requires run { IsRunOf ends.now whole.now.lines part.now.lines run.now.node run.now.lines }
    ensures { IfOk result (λ below. MatchOption below (IsFalse (is_accepted instance.now part.now)) (λ below. IsReadPart instance.now ends.now whole.now part.now run.now.node run.now.lines below)) }
{
    let node = run.node as usize;
    let alone = ends.at(alloc, node)?;
    let Some(below) = alone.after(alloc, instance, &run.lines)? else {
        return Ok(None);
    };
    if floor_with(alloc, ends, node, &below)? < part.bound {
        return Ok(None);
    }
    if is_plan(alloc, instance, &part.plan)? {
        Ok(Some(below))
    } else {
        Ok(None)
    }
}

/// The run of an accepted part and what it makes of its node alone, or why there is none. `known` are the report's proof lines.
fn read_part(
    alloc: Global,
    instance: &Instance,
    whole: &Cert,
    ends: &NodeTree,
    known: &[Line],
    part: &Cert,
) -> Result<(PartRun, NodeTree), PartFault>
    requires accepted { IsTrue (is_accepted instance.now whole.now) }
    requires made { nodes_of instance.now whole.now.lines ≡ Some ends.now }
    requires short { length whole.now.lines ≤ 2 ^ 28 }
    requires known { known.now ≡ whole.now.lines }
    requires few { length part.now.lines ≤ 2 ^ 28 }
    ensures read { IfOk result (λ read. IsReadPart instance.now ends.now whole.now part.now read.0.node read.0.lines read.1) }
    ensures fault { IfErr result (IsReadFault instance.now whole.now part.now) }
{
    let run = match run_of(alloc, ends, known, &part.lines) {
        Ok(run) => run,
        Err(fault) => return Err(fault_or_refusal(alloc, instance, part, fault)),
    };
    match accepted_below(alloc, instance, whole, ends, part, &run)? {
        Some(below) => Ok((run, below)),
        None => Err(refusal_of(alloc, instance, part)),
    }
}

/// Lines with those of a run at a node of the tree that they make, which has so many nodes.
fn grafted(
    alloc: Global,
    lines: Vec<Line>,
    nodes: usize,
    node: u32,
    run: &Lines,
) -> Result<Vec<Line>, NoMemory>
    requires counted { nodes ≡ 2 * divisions lines.items + 1 }
    requires few { nodes ≤ 2 ^ 32 }
    requires fit { All (λ line. node_of line + nodes ≤ 2 ^ 32) run.now }
    ensures { IfOk result (λ more. more.items ≡ grafted_lines lines.items node run.now) }
{
    let splits = ((nodes - 1) / 2) as u32;
    with_run(alloc, lines, run, Place { node, splits })
}

impl Joining {
    /// A report into which no part was joined yet.
    ///
    /// Of the faults only `Refused` and `NoMemory` come.
    pub fn of(alloc: Global, instance: &Instance, whole: Cert) -> Result<Joining, PartFault>
        requires { length whole.lines ≤ 2 ^ 28 }
        ensures alone { IfOk result (λ j. j ≡ alone instance.now whole) }
        ensures accepted { IfOk result (λ _. IsTrue (is_accepted instance.now whole)) }
        ensures fault { IfErr result (IsRefusal instance.now whole) }
    {
        let tree = accepted_nodes(alloc, instance, &whole)?;
        let ends = tree.copy(alloc)?;
        let lines = lines_of(alloc, &whole.lines)?;
        let plan = copy_of_plan(&whole.plan)?;
        Ok(Joining {
            instance: Snapshot::of(instance),
            whole,
            ends,
            nodes: Vec::new(alloc),
            lines,
            tree,
            plan,
        })
    }

    /// The report with a further part: the further lines of the part are grafted into it, and its plan is kept where it is cheaper.
    ///
    /// [`PartFault`] says why the part isn't joined, each cause in its order. `NoMemory` comes only where it was out of memory.
    pub fn add(self, alloc: Global, instance: &Instance, part: &Cert) -> Result<Joining, PartFault>
        requires same { self.instance ≡ instance.now }
        requires few { length part.now.lines ≤ 2 ^ 28 }
        ensures joined { IfOk result (JoinsPart part.now self) }
        ensures fault { IfErr result (IsPartFault self part.now) }
    {
        let known = &self.lines[..self.whole.lines.len()];
        let (run, below) = read_part(alloc, instance, &self.whole, &self.ends, known, part)?;
        let node = run.node;
        let cuts = self.ends.cuts_of(node as usize)?;
        if !is_plan_below(instance, &cuts, &self.whole.plan, &part.plan) {
            return Err(PartFault::OtherPlan);
        }
        if has_node(&self.nodes, node) {
            return Err(PartFault::SameNode { node });
        }
        if LINES_MOST < self.lines.len() + run.lines.len() {
            return Err(PartFault::TooMany);
        }
        let Joining {
            instance: known,
            whole,
            ends,
            nodes,
            lines,
            tree,
            plan,
        } = self;
        let lines = grafted(alloc, lines, tree.len(), node, &run.lines)?;
        let tree = tree.with_below(node as usize, &below)?;
        let nodes = with_number(nodes, node)?;
        let plan = cheaper_plan(plan, &part.plan)?;
        Ok(Joining {
            instance: known,
            whole,
            ends,
            nodes,
            lines,
            tree,
            plan,
        })
    }

    /// The report with all parts that were joined into it: the checker accepts it, its bound is at least the report's, and its plan is the
    /// cheapest of all.
    pub fn into_cert(self, alloc: Global) -> Result<Cert, NoMemory>
        ensures joined { IfOk result (IsJoinedCert self) }
        ensures agrees { IfOk result (λ cert. AgreesWith cert.status cert.plan cert.bound) }
        ensures few { IfOk result (λ cert. length cert.lines ≤ 2 ^ 30) }
    {
        let bound = self.tree.least_floor(TOP);
        let lines = Lines::from_slice(alloc, &self.lines)?;
        Ok(Cert {
            status: status_of(&self.plan, bound),
            plan: self.plan,
            bound,
            lines,
        })
    }
}
