//! The journal of an instance on a disk.
ghost use Rattle.std.specs.Prelude.{◌≡◌, ◌+◌, ◌^◌, ◌≤◌, ◌<◌, [], length, map, Some, IfOk, IfErr, IfSome, OnSome, MatchOption};
ghost use Rattle.plan_base.specs.Disk.{HoldsThroughout, TellsAlike};
ghost use Rattle.gated_journal.specs.View.{IsSettled};
ghost use Rattle.head_splits.specs.Cuts.{DifferAt};
ghost use Rattle.search_book.specs.Head.{HeadCause, KeepsHead};
ghost use Rattle.search_book.specs.Opening.{IsFound, IsOldOrShort};

use crate::open_fault::OpenFault;
use gated_journal::{Journal, settle};
use plan_base::Disk;
use std::alloc::Global;

/// The first place at which two texts differ, where they do.
fn difference(text: &[u8], other: &[u8]) -> Option<usize>
    ensures { MatchOption result (text.now ≡ other.now) (DifferAt text.now other.now) }
{
    let mut at = 0;
    while at < text.len() && at < other.len() {
        if text[at] != other[at] {
            return Some(at);
        }
        at += 1;
    }
    if text.len() == other.len() {
        return None;
    }
    Some(at)
}

/// Opens the journal with this header, or creates it in an empty file by four calls, and reads its records.
pub(crate) fn open_head<D: Disk>(
    alloc: Global,
    disk: &mut D,
    head: &[u8],
    limit: u32,
) -> Result<(Journal, Vec<Vec<u8>>), OpenFault>
    requires count { D.calls disk.old < 2 ^ 62 }
    requires room { 13 + length head.now ≤ limit }
    requires most { limit ≤ 2 ^ 26 }
    ensures view { IfOk result (λ r. (r.0.head ≡ head.now) × (r.0.records ≡ map (λ v. v.items) r.1.items) × (r.0.limit ≡ limit)) }
    ensures settled { IfOk result (λ r. IsSettled r.0 (D.reads disk.new) (D.images disk.new)) }
    ensures found { IfOk result (λ r. IfSome (D.reads disk.old) (IsFound limit head.now r.0.records (D.reads disk.new))) }
    ensures four { IfOk result (λ _. D.reads disk.old ≡ Some [] → D.calls disk.new ≡ D.calls disk.old + 4) }
    ensures least { D.calls disk.old ≤ D.calls disk.new }
    ensures most { D.calls disk.new ≤ D.calls disk.old + 2 ^ 33 + 2 }
    ensures any_moment { OnSome (D.reads disk.old) (HoldsThroughout D.calls D.images_since disk.old disk.new (IsOldOrShort (D.reads disk.old) (D.images disk.old) (13 + length head.now))) }
    ensures telling { TellsAlike (D.reads disk.old) (D.reads disk.new) }
    ensures content { IfErr result (KeepsHead head.now (D.reads disk.old) (D.reads disk.new)) }
    ensures cause { IfErr result (HeadCause limit head.now (D.reads disk.old) (D.faults disk.old) (D.faults disk.new)) }
    ensures faults { D.faults disk.old ≤ D.faults disk.new }
{
    let len = settle(disk)?;
    if len == 0 {
        let journal = Journal::create(alloc, disk, head, limit)?;
        return Ok((journal, Vec::new(alloc)));
    }
    let (journal, found, records) = Journal::open(alloc, disk, limit)?;
    if let Some(at) = difference(&found, head) {
        return Err(OpenFault::OtherInstance { at: at as u64 });
    }
    Ok((journal, records))
}
