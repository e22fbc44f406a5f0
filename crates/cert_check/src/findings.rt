//! What workers find of proof lines before these are judged.

ghost use Rattle.std.specs.Prelude.{◌≡◌, ◌≤◌, ◌^◌, true, length, IfOk};
ghost use Rattle.cert_check.specs.Floors.{line_floor, IsFindingOf};

use crate::floors::line_floor;
use crate::terms::WalkMemory;
use crate::tree::Tree;
use break_rules::NoMemory;
use certificate::Line;
use head_splits::{Cut, Cuts};
use job_pieces::Jobs;
use shift_instance::Instance;
use std::alloc::{AllocError, Global};

/// The floor that a proof line gives a node with these cuts, and none where it gives none.
#[derive(Drop)]
pub struct Finding {
    pub cuts: Cuts,
    pub floor: Option<u64>,
}

/// Proof lines whose floors are found for the cuts that a tree has for their nodes.
#[derive(Drop)]
pub(crate) struct LinesAhead<'a> {
    pub(crate) instance: &'a Instance,
    pub(crate) tree: &'a Tree,
    pub(crate) lines: &'a [Line],
}

/// Whether both are the same cut.
fn is_same_cut(cut: &Cut, other: &Cut) -> bool
    ensures { result ≡ true → cut.now ≡ other.now }
{
    cut.m == other.m
        && cut.side == other.side
        && cut.class.shift == other.class.shift
        && cut.class.day == other.class.day
        && cut.class.prefix.is_same(&other.class.prefix)
}

/// Whether both are the same cuts in the same order.
fn are_same_cuts(cuts: &[Cut], others: &[Cut]) -> bool
    ensures { result ≡ true → cuts.now ≡ others.now }
{
    if cuts.len() != others.len() {
        return false;
    }
    let mut at = 0;
    while at < cuts.len() {
        if !is_same_cut(&cuts[at], &others[at]) {
            return false;
        }
        at += 1;
    }
    true
}

/// What is found of a proof line by which a node is to get a floor, where a tree has the node.
fn finding_at(
    alloc: Global,
    instance: &Instance,
    memory: &mut WalkMemory,
    tree: &Tree,
    node: u32,
    line: &Line,
) -> Result<Option<Finding>, NoMemory>
    requires memory { memory.old ≡ instance.now }
    ensures found { IfOk result (IsFindingOf instance.now line.now) }
    ensures memory { memory.new ≡ memory.old }
{
    let node = node as usize;
    if tree.len() <= node {
        return Ok(None);
    }
    let cuts = tree.cuts_of(node)?;
    let floor = line_floor(alloc, instance, memory, &cuts, line)?;
    Ok(Some(Finding { cuts, floor }))
}

impl<'a> Jobs<Option<Finding>, WalkMemory> for LinesAhead<'a> {
    ghost use Rattle.std.specs.Prelude.{◌≡◌, length, slice_get, IsSomeAnd};
    ghost use Rattle.cert_check.specs.Floors.{IsFindingOf};

    ghost count = { λ r. length r.lines.now };

    ghost gives = { λ r at found. IsSomeAnd (slice_get r.lines.now at) (λ line. IsFindingOf r.instance.now line found) };

    ghost serves = { λ r memory. memory ≡ r.instance.now };

    fn count(&self) -> usize {
        self.lines.len()
    }

    fn begin(&self, alloc: Global) -> WalkMemory {
        WalkMemory::new(alloc, self.instance)
    }

    fn run(
        &self,
        alloc: Global,
        memory: &mut WalkMemory,
        at: usize,
    ) -> Result<Option<Finding>, AllocError> {
        let lines = self.lines;
        let line = &lines[at];
        match line {
            Line::Split {
                node: _,
                class: _,
                m: _,
            } => Ok(None),
            Line::Priced { node, prices: _ } | Line::Settled { node } => finding_at(
                alloc,
                self.instance,
                memory,
                self.tree,
                *node,
                line,
            ),
        }
    }
}

/// The floor that a proof line gives a node with these cuts, and none where it gives none: the one that was found before, where it
/// was found for the same cuts.
pub(crate) fn floor_by(
    alloc: Global,
    instance: &Instance,
    memory: &mut WalkMemory,
    cuts: &Cuts,
    line: &Line,
    found: &Option<Finding>,
) -> Result<Option<u64>, NoMemory>
    requires memory { memory.old ≡ instance.now }
    requires few { length cuts.now ≤ 2 ^ 33 }
    requires found { IsFindingOf instance.now line.now found.now }
    ensures floor { IfOk result (λ floor. floor ≡ line_floor instance.now cuts.now line.now) }
    ensures memory { memory.new ≡ memory.old }
{
    match found {
        Some(found) if are_same_cuts(found.cuts.as_slice(), cuts.as_slice()) => Ok(found.floor),
        _ => line_floor(alloc, instance, memory, cuts, line),
    }
}
