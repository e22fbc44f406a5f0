//! The run by which a part goes on from its report.
ghost use Rattle.std.specs.Prelude.{◌≡◌, ◌≢◌, ◌+◌, ◌*◌, ◌<◌, ◌≤◌, ◌^◌, ◌∷◌, ◌++◌, [], IfErr, IfOk, MatchBool, MatchOption, Some, length, map, slice_get};
ghost use Rattle.certificate.specs.Accepted.{node_of};
ghost use Rattle.report_grafts.specs.Grafted.{grafted_line};
ghost use Rattle.report_grafts.specs.Run.{divisions};
ghost use Rattle.report_joins.specs.Faults.{IsEnd, IsLineFault};
ghost use Rattle.report_joins.specs.Runs.{IsDeparture, IsLeft, IsRunOf};

use crate::fault::PartFault;
use crate::numbers::{Place, node_of, with_node};
use crate::same_lines::is_same_line;
use break_rules::NoMemory;
use certificate::{Line, LineReader, Lines};
use report_nodes::NodeTree;
use std::alloc::Global;

/// The run by which a part goes on from its report.
#[derive(Drop)]
pub(crate) struct PartRun {
    /// The node of the report below which it is.
    pub(crate) node: u32,
    /// Its proof lines, in which that node has number 0.
    pub(crate) lines: Lines,
}

/// Whether the next line that is read is this one.
fn reads(alloc: Global, reader: &mut LineReader<'_>, line: &Line) -> Result<bool, NoMemory>
    ensures { IfOk result (λ same. MatchBool same (reader.old ≡ line.now ∷ reader.new) (slice_get reader.old 0 ≢ Some line.now)) }
{
    match reader.next_line(alloc)? {
        Some(own) => Ok(is_same_line(&own, line)),
        None => Ok(false),
    }
}

/// What is to be read of some lines behind others, or the first place at which they aren't the others.
fn behind<'a>(alloc: Global, known: &[Line], lines: &'a Lines) -> Result<LineReader<'a>, PartFault>
    ensures behind { IfOk result (λ reader. lines.now ≡ known.now ++ reader) }
    ensures fault { IfErr result (IsDeparture known.now lines.now) }
{
    let mut reader = lines.reader();
    for (at, line) in known.iter().enumerate() {
        if !reads(alloc, &mut reader, line)? {
            return Err(PartFault::OtherLines { at: at as u64 });
        }
    }
    Ok(reader)
}

/// Where a run is grafted at the node of that number, where that is an unsplit one.
fn place_at(ends: &NodeTree, node: u32) -> Option<Place>
    requires { length ends.now ≤ 2 ^ 31 }
    ensures { MatchOption result (IsEnd ends.now node → ⊥) (λ place. IsEnd ends.now node × (place.node ≡ node) × (length ends.now ≤ 2 * place.splits + 2) × (2 * place.splits < length ends.now)) }
{
    let nodes = ends.len();
    if node as usize >= nodes || ends.is_split(node as usize) {
        return None;
    }
    let splits = ((nodes - 1) / 2) as u32;
    Some(Place { node, splits })
}

/// Lines with one more.
fn with_line(lines: Vec<Line>, line: Line) -> Result<Vec<Line>, NoMemory>
    ensures { IfOk result (λ more. more.items ≡ lines.items ++ line ∷ []) }
{
    let mut lines = lines;
    lines.push(line)?;
    Ok(lines)
}

/// A line alone.
fn one_line(alloc: Global, line: Line) -> Result<Vec<Line>, NoMemory>
    ensures { IfOk result (λ lines. lines.items ≡ line ∷ []) }
{
    let lines = vec![in alloc; line]?;
    Ok(lines)
}

/// The run of which these are the lines where it is grafted at a place: this line of that node, and what is to be read behind it. The line
/// stands at a place of a part.
fn run_lines(
    alloc: Global,
    place: Place,
    first: Line,
    rest: LineReader<'_>,
    at: usize,
) -> Result<Vec<Line>, PartFault>
    requires node { node_of first ≡ place.node }
    requires splits { 2 * place.splits < 2 ^ 32 }
    requires at { at + length rest < 2 ^ 63 }
    ensures some { IfOk result (λ run. 0 < length run.items) }
    ensures run { IfOk result (λ run. first ∷ rest.entry ≡ map (grafted_line place.node place.splits) run.items) }
    ensures fault { IfErr result (IsLeft place.node place.splits at (first ∷ rest.entry)) }
{
    let mut reader = rest;
    let mut run = one_line(alloc, with_node(first, 0))?;
    while let Some(line) = reader.next_line(alloc)? {
        match place.run_line(line) {
            Some(own) => run = with_line(run, own)?,
            None => {
                let at = (at + run.len()) as u64;
                return Err(PartFault::OtherNode { at });
            }
        }
    }
    Ok(run)
}

/// The run by which lines go on from others, which make these nodes, or why there is none.
pub(crate) fn run_of(
    alloc: Global,
    ends: &NodeTree,
    known: &[Line],
    lines: &Lines,
) -> Result<PartRun, PartFault>
    requires counted { length ends.now ≡ 2 * divisions known.now + 1 }
    requires known { length known.now ≤ 2 ^ 28 }
    requires lines { length lines.now ≤ 2 ^ 28 }
    ensures run { IfOk result (λ run. IsRunOf ends.now known.now lines.now run.node run.lines) }
    ensures fault { IfErr result (IsLineFault ends.now known.now lines.now) }
{
    let mut reader = behind(alloc, known, lines)?;
    let Some(first) = reader.next_line(alloc)? else {
        return Err(PartFault::NothingFurther);
    };
    let node = node_of(&first);
    let Some(place) = place_at(ends, node) else {
        return Err(PartFault::NoEnd { node });
    };
    let run = run_lines(alloc, place, first, reader, known.len())?;
    let lines = Lines::from_slice(alloc, &run)?;
    Ok(PartRun { node, lines })
}
