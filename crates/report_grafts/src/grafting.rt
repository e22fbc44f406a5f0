//! The report that a run below one of its nodes is grafted into.
ghost use Rattle.std.specs.Prelude.{◌≡◌, ◌+◌, ◌*◌, ◌<◌, ◌≤◌, ◌^◌, ◌++◌, map, length, ℕ, All, IfOk, IfErr, IsTrue, OnOk};
ghost use Rattle.certificate.specs.Accepted.{is_accepted, node_of};
ghost use Rattle.certificate.specs.Text.{AgreesWith};
ghost use Rattle.report_grafts.specs.Faults.{HasOpenEnd, IsGraftFault, TellsBound};
ghost use Rattle.report_grafts.specs.Grafted.{found_by, grafted_line, grafted_lines, grafted_number, grafted_plan, status_of, AreGood};

use crate::exporting::{end_cuts, judged_branches};
use crate::fault::GraftFault;
use crate::sub_run::SubRun;
use break_rules::NoMemory;
use cert_check::{Refused, check};
use certificate::{Cert, CertStatus, Line, Lines};
use head_splits::first_difference;
use rota_cost::Costed;
use shift_instance::{Instance, Rows};
use std::alloc::{AllocError, Global};

/// Where a run is grafted: at this node of a tree with so many splits.
#[derive(Clone, Copy, Drop)]
struct Place {
    node: u32,
    splits: u32,
}

impl Place {
    /// The number that a run's node has in the tree.
    fn number(self, node: u32) -> u32
        requires { node + 2 * self.splits < 2 ^ 32 }
        ensures { result ≡ grafted_number self.node self.splits node }
    {
        if node == 0 {
            self.node
        } else {
            node + 2 * self.splits
        }
    }

    /// A run's line as one of the tree.
    fn line(self, line: Line) -> Line
        requires { node_of line + 2 * self.splits < 2 ^ 32 }
        ensures { result ≡ grafted_line self.node self.splits line }
    {
        match line {
            Line::Split { node, class, m } => Line::Split {
                node: self.number(node),
                class,
                m,
            },
            Line::Priced { node, prices } => Line::Priced {
                node: self.number(node),
                prices,
            },
            Line::Settled { node } => Line::Settled {
                node: self.number(node),
            },
        }
    }
}

/// Adds proof lines as they are.
fn add_lines(alloc: Global, list: &mut Vec<Line>, lines: &Lines) -> Result<(), NoMemory>
    ensures { OnOk result (list.new.items ≡ list.old.items ++ lines.now) }
{
    let mut reader = lines.reader();
    while let Some(line) = reader.next_line(alloc)? {
        list.push(line)?;
    }
    Ok(())
}

/// Adds the lines of a run as those of the tree into which it is grafted.
fn add_grafted(
    alloc: Global,
    list: &mut Vec<Line>,
    lines: &Lines,
    place: Place,
) -> Result<(), NoMemory>
    requires { All (λ line. node_of line + 2 * place.splits < 2 ^ 32) lines.now }
    ensures { OnOk result (list.new.items ≡ list.old.items ++ map (grafted_line place.node place.splits) lines.now) }
{
    let mut reader = lines.reader();
    while let Some(line) = reader.next_line(alloc)? {
        list.push(place.line(line))?;
    }
    Ok(())
}

/// The lines of a tree and those of a run that is grafted into it.
fn all_lines(alloc: Global, whole: &Lines, run: &Lines, place: Place) -> Result<Lines, NoMemory>
    requires { All (λ line. node_of line + 2 * place.splits < 2 ^ 32) run.now }
    ensures { IfOk result (λ lines. lines ≡ whole.now ++ map (grafted_line place.node place.splits) run.now) }
{
    let mut list = Vec::new(alloc);
    add_lines(alloc, &mut list, whole)?;
    add_grafted(alloc, &mut list, run, place)?;
    Lines::from_slice(alloc, &list)
}

/// The cheaper of a report's plan and a run's best rota.
fn cheaper_plan(
    plan: &Option<(u64, Rows)>,
    best: &Option<Costed>,
) -> Result<Option<(u64, Rows)>, NoMemory>
    ensures { IfOk result (λ cheaper. cheaper ≡ grafted_plan plan.now best.now) }
{
    let Some((cost, rows)) = plan else {
        return Ok(None);
    };
    match best {
        Some(best) if best.cost() < *cost => Ok(Some((best.cost(), best.rows().clone()?))),
        _ => Ok(Some((*cost, rows.clone()?))),
    }
}

/// What is said of a plan and a bound.
fn status_of(plan: &Option<(u64, Rows)>, bound: u64) -> CertStatus
    ensures { result ≡ status_of plan.now bound }
{
    match plan {
        None => CertStatus::Bound,
        Some((cost, _)) if *cost == bound => CertStatus::Optimal,
        Some(_) => CertStatus::Stopped,
    }
}

/// The bound that the refusal of a claim tells.
fn told_by(why: Refused) -> Result<u64, NoMemory>
    requires { (n : ℕ) × TellsBound n why }
    ensures { IfOk result (λ bound. (n : ℕ) → TellsBound n why → bound ≡ n) }
{
    match why {
        Refused::BoundTooHigh { claimed: _, found } => Ok(found),
        Refused::NoMemory => Err(AllocError),
        Refused::BadSplit { line: _ } => unreachable!(),
        Refused::BadPrice { line: _ } => unreachable!(),
        Refused::NotSettled { line: _ } => unreachable!(),
        Refused::BadPlan { row: _ } => unreachable!(),
        Refused::WrongCost {
            claimed: _,
            found: _,
        } => unreachable!(),
    }
}

/// The bound that good lines show, with the lines given back. More is claimed of them than any lines show, so the checker tells
/// what they do.
fn found_by(alloc: Global, instance: &Instance, lines: Lines) -> Result<(u64, Lines), NoMemory>
    requires { AreGood instance.now lines }
    ensures found { IfOk result (λ shown. shown.0 ≡ found_by instance.now lines) }
    ensures lines { IfOk result (λ shown. shown.1 ≡ lines) }
{
    let claim = Cert {
        status: CertStatus::Bound,
        plan: None,
        bound: u64::MAX,
        lines,
    };
    match check(alloc, instance, &claim) {
        Ok(_) => unreachable!(),
        Err(why) => Ok((told_by(why)?, claim.lines)),
    }
}

/// The report after a run below one of its nodes: its lines and then those of the run, the cheaper plan of both, and the bound
/// that the lines show together. No rota is asked for again: the run's lines go on from the node, whose cuts are those below
/// which the run searched.
///
/// [`GraftFault`] says why the run isn't grafted, each cause in its order. `NoMemory` comes only where it was out of memory.
pub fn graft(
    alloc: Global,
    instance: &Instance,
    whole: &Cert,
    node: u32,
    run: &SubRun,
) -> Result<Cert, GraftFault>
    requires same { run.now.instance ≡ instance.now }
    requires few { length whole.now.lines ≤ 2 ^ 28 }
    ensures accepted { IfOk result (λ cert. IsTrue (is_accepted instance.now cert)) }
    ensures better { IfOk result (λ cert. whole.now.bound ≤ cert.bound) }
    ensures lines { IfOk result (λ cert. cert.lines ≡ grafted_lines whole.now.lines node run.now.lines) }
    ensures plan { IfOk result (λ cert. cert.plan ≡ grafted_plan whole.now.plan run.now.best) }
    ensures bound { IfOk result (λ cert. cert.bound ≡ found_by instance.now cert.lines) }
    ensures status { IfOk result (λ cert. cert.status ≡ status_of cert.plan cert.bound) }
    ensures agrees { IfOk result (λ cert. AgreesWith cert.status cert.plan cert.bound) }
    ensures open { IfOk result (λ _. HasOpenEnd instance.now whole.now node run.now.base) }
    ensures fault { IfErr result (IsGraftFault instance.now whole.now node run.now.base) }
{
    let branches = judged_branches(alloc, instance, whole)?;
    let cuts = end_cuts(alloc, &branches, node)?;
    if let Some(at) = first_difference(cuts.as_slice(), run.base().as_slice()) {
        return Err(GraftFault::OtherCuts { at: at as u64 });
    }
    let place = Place {
        node,
        splits: branches.len() as u32,
    };
    let lines = all_lines(alloc, &whole.lines, run.lines(), place)?;
    let plan = cheaper_plan(&whole.plan, run.best())?;
    let (bound, lines) = found_by(alloc, instance, lines)?;
    Ok(Cert {
        status: status_of(&plan, bound),
        plan,
        bound,
        lines,
    })
}
