//! Proof lines judged a batch at a time, of which several workers first find the floors that the lines give.

ghost use Rattle.std.specs.Prelude.{◌≡◌, ◌≤◌, ◌<◌, ◌+◌, ◌^◌, ◌∷◌, ◌++◌, [], None, Some, length, IfOk, IfErr, OnOk};
ghost use Rattle.head_splits.specs.Nodes.{new_node};
ghost use Rattle.certificate.specs.Accepted.{nodes_of};
ghost use Rattle.cert_check.specs.Batches.{GoesOn, StopsIn};
ghost use Rattle.cert_check.specs.Floors.{AreFindings};
ghost use Rattle.cert_check.specs.Judged.{line_cause, IsFirstBad};

use crate::findings::{Finding, LinesAhead};
use crate::judged::Refused;
use crate::judging::{bad_line, judge_line, split_node};
use crate::terms::WalkMemory;
use crate::tree::Tree;
use break_rules::NoMemory;
use certificate::{Line, LineReader, Lines};
use job_pieces::do_all;
use shift_instance::Instance;
use std::alloc::Global;
use std::thread::Threads;

/// How many proof lines are read before the workers look at them.
const BATCH: usize = 2048;

/// The next proof lines: as many as a batch has, or all that are left.
fn next_lines(alloc: Global, reader: &mut LineReader<'_>) -> Result<Vec<Line>, NoMemory>
    ensures lines { IfOk result (λ batch. reader.old ≡ batch.items ++ reader.new) }
    ensures some { IfOk result (λ batch. 0 < length reader.old → 0 < length batch.items) }
{
    let mut batch = Vec::new(alloc);
    while batch.len() < BATCH {
        match reader.next_line(alloc)? {
            Some(line) => batch.push(line)?,
            None => return Ok(batch),
        }
    }
    Ok(batch)
}

/// Splits the nodes of a tree that proof lines split, as far as they may be. The tree only tells workers for which cuts they are to
/// look.
fn split_ahead(instance: &Instance, tree: &mut Tree, lines: &[Line]) -> Result<(), NoMemory> {
    for line in lines {
        if let Line::Split { node, class, m } = line {
            split_node(instance, tree, *node, class, *m)?;
        }
    }
    Ok(())
}

/// What several workers find of proof lines, for the cuts that a tree has for their nodes.
fn find_ahead<R: Threads + Sync>(
    rt: &R,
    alloc: Global,
    instance: &Instance,
    tree: &Tree,
    lines: &[Line],
    workers: u32,
) -> Result<Vec<Option<Finding>>, NoMemory>
    requires { 1 ≤ workers }
    ensures { IfOk result (λ found. AreFindings instance.now lines.now found.items) }
{
    let ahead = LinesAhead {
        instance,
        tree,
        lines,
    };
    do_all(rt, alloc, &ahead, workers as usize)
}

/// Judges proof lines one after another, behind so many, with what was found of them.
fn judge_batch(
    alloc: Global,
    instance: &Instance,
    memory: &mut WalkMemory,
    tree: &mut Tree,
    before: u64,
    lines: Vec<Line>,
    found: Vec<Option<Finding>>,
) -> Result<(), Refused>
    requires memory { memory.old ≡ instance.now }
    requires found { AreFindings instance.now lines.items found.items }
    requires number { before + length lines.items < 2 ^ 64 }
    ensures good { OnOk result (GoesOn instance.now tree.old before lines.items tree.new) }
    ensures bad { IfErr result (StopsIn instance.now tree.old before lines.items) }
    ensures memory { OnOk result (memory.new ≡ memory.old) }
{
    let mut found = found.into_iter();
    let mut number = before;
    for line in lines {
        number += 1;
        let known = found.next().flatten();
        if !judge_line(alloc, instance, memory, tree, &line, &known)? {
            return Err(bad_line(&line, number));
        }
    }
    Ok(())
}

/// The nodes that proof lines make of the root, where each line is good. Several workers find at the same time what the lines of a
/// batch give, and each line is then judged after those before it.
pub fn judge_lines_by<R: Threads + Sync>(
    rt: &R,
    alloc: Global,
    instance: &Instance,
    lines: &Lines,
    workers: u32,
) -> Result<Tree, Refused>
    requires { 1 ≤ workers }
    ensures good { IfOk result (λ tree. nodes_of instance.now lines.now ≡ Some tree) }
    ensures causes { IfOk result (λ tree. line_cause instance.now (new_node [] ∷ []) 1 lines.now ≡ None) }
    ensures bad { IfErr result (IsFirstBad instance.now lines.now) }
{
    let mut tree = Tree::root(alloc)?;
    let mut ahead = Tree::root(alloc)?;
    let mut memory = WalkMemory::new(alloc, instance);
    let mut reader = lines.reader();
    while reader.len() > 0 {
        let before = (lines.len() - reader.len()) as u64;
        let batch = next_lines(alloc, &mut reader)?;
        split_ahead(instance, &mut ahead, &batch)?;
        let found = find_ahead(rt, alloc, instance, &ahead, &batch, workers)?;
        judge_batch(
            alloc,
            instance,
            &mut memory,
            &mut tree,
            before,
            batch,
            found,
        )?;
    }
    Ok(tree)
}
