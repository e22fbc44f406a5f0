// A journal of a disk's file, whatever stands in it.
ghost use Rattle.std.specs.Prelude.{◌≡◌, ◌+◌, ◌-◌, ◌^◌, ◌<◌, ◌≤◌, List, ℕ, length, map, sum_by, OnOk, IfOk, IfErr, IfSome, IfNone};
ghost use Rattle.plan_base.specs.Disk.{OnlyLooks, IsSynced};
ghost use Rattle.gated_journal.specs.Cuts.{IsMarked, IsUnmarked};
ghost use Rattle.gated_journal.specs.Faults.{ReadFails, StartFails};
ghost use Rattle.gated_journal.specs.Format.{spelled_in, StandsIn};

use crate::fault::JournalFault;
use crate::parse::{FIRST, SECOND, behind_mark, read_records, split_head};
use crate::reads::read_front;
use crate::settling::settle;
use crate::told::ToldRecords;
use plan_base::Disk;
use std::alloc::Global;

// Why bytes that are no journal of a version are refused.
fn refusal(start: &[u8], digit: u8) -> JournalFault
    ensures { StartFails digit start.now result }
{
    if digit == SECOND && behind_mark(start, FIRST).is_some() {
        return JournalFault::OldVersion;
    }
    JournalFault::NotAJournal
}

// The length behind the mark of a version.
fn head_length(start: &[u8], digit: u8) -> Option<u32>
    ensures some { IfSome result (λ n. IsMarked digit start.now n) }
    ensures none { IfNone result (IsUnmarked digit start.now) }
{
    let [a, b, c, d, ..] = behind_mark(start, digit)? else {
        return None;
    };
    Some(u32::from_le_bytes([*a, *b, *c, *d]))
}

// What is wrong with a file that is longer than the limit.
fn judge_long<D: Disk>(alloc: Global, disk: &mut D, len: u64, limit: u32, digit: u8) -> JournalFault
    requires count { D.calls disk.old < 2 ^ 63 - 100 }
    requires length { IfSome (D.reads disk.old) (λ file. len ≡ length file) }
    requires long { limit < len }
    ensures looks { OnlyLooks D.reads D.images D.images_since D.calls disk.old disk.new }
    ensures most { D.calls disk.new ≤ D.calls disk.old + 13 }
    ensures cause { ReadFails digit limit (D.reads disk.old) (D.faults disk.old) (D.faults disk.new) result }
    ensures faults { D.faults disk.old ≤ D.faults disk.new }
{
    match read_front(alloc, disk, 12) {
        Ok(start) => match head_length(&start, digit) {
            Some(size) if 12 + u64::from(size) <= len => JournalFault::Damaged {
                at: u64::from(limit),
            },
            _ => refusal(&start, digit),
        },
        Err(fault) => fault,
    }
}

// The bytes of a file that is no longer than the limit.
fn load<D: Disk>(
    alloc: Global,
    disk: &mut D,
    limit: u32,
    digit: u8,
) -> Result<Vec<u8>, JournalFault>
    requires { D.calls disk.old < 2 ^ 62 + 2 ^ 40 }
    ensures bytes { IfOk result (λ bytes. IfSome (D.reads disk.old) (λ file. bytes.items ≡ file)) }
    ensures short { IfOk result (λ bytes. length bytes.items ≤ limit) }
    ensures synced { OnOk result (IsSynced (D.reads disk.new) (D.images disk.new)) }
    ensures looks { OnlyLooks D.reads D.images D.images_since D.calls disk.old disk.new }
    ensures most { D.calls disk.new ≤ D.calls disk.old + 2 ^ 33 }
    ensures cause { IfErr result (ReadFails digit limit (D.reads disk.old) (D.faults disk.old) (D.faults disk.new)) }
    ensures faults { D.faults disk.old ≤ D.faults disk.new }
{
    let len = settle(disk)?;
    if len > u64::from(limit) {
        return Err(judge_long(alloc, disk, len, limit, digit));
    }
    read_front(alloc, disk, len as usize)
}

/// What stands in a file: the header, the records, what clauses see of both, and the place of the closed gate.
#[derive(Drop)]
pub(crate) struct Found {
    pub head: Vec<u8>,
    pub records: Vec<Vec<u8>>,
    pub told: ToldRecords,
    pub gate: u64,
}

/// Reads a disk's file as a journal of a version.
pub(crate) fn read_as<D: Disk>(
    alloc: Global,
    disk: &mut D,
    limit: u32,
    digit: u8,
) -> Result<Found, JournalFault>
    requires { D.calls disk.old < 2 ^ 62 + 2 ^ 40 }
    ensures head { IfOk result (λ r. r.told.head ≡ r.head.items) }
    ensures records { IfOk result (λ r. r.told.records ≡ map (λ v. v.items) r.records.items) }
    ensures stands { IfOk result (λ r. IfSome (D.reads disk.new) (StandsIn digit limit r.told.head r.told.records)) }
    ensures gate { IfOk result (λ r. r.gate ≡ length (spelled_in digit r.told.head r.told.records)) }
    ensures within { IfOk result (λ r. r.gate < limit) }
    ensures total { IfOk result (λ r. length r.head.items + sum_by length r.told.records ≤ limit) }
    ensures synced { OnOk result (IsSynced (D.reads disk.new) (D.images disk.new)) }
    ensures looks { OnlyLooks D.reads D.images D.images_since D.calls disk.old disk.new }
    ensures most { D.calls disk.new ≤ D.calls disk.old + 2 ^ 33 }
    ensures cause { IfErr result (ReadFails digit limit (D.reads disk.old) (D.faults disk.old) (D.faults disk.new)) }
    ensures faults { D.faults disk.old ≤ D.faults disk.new }
{
    let bytes = load(alloc, disk, limit, digit)?;
    let Some((head, after)) = split_head(&bytes, digit) else {
        return Err(refusal(&bytes, digit));
    };
    let (records, told, gate) = read_records(alloc, &bytes, digit, head, after)?;
    let head = Vec::from_slice(alloc, head)?;
    Ok(Found {
        head,
        records,
        told,
        gate,
    })
}
