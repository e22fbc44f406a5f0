// Records behind gates. A record is written behind a closed gate, and only when a sync has made sure of it its gate is opened.
ghost use Rattle.std.specs.Prelude.{◌≡◌, ◌+◌, ◌-◌, ◌^◌, ◌<◌, ◌≤◌, ◌↔◌, List, ℕ, [], ◌∷◌, ◌++◌, length, OnOk, OnErr, IfOk, IfErr, IfSome, OnSome, IsErrOf, IsTrue, MatchResult, vec_capacity, vec_len, max, map, sum_by};
ghost use Rattle.plan_base.specs.Causes.{Rose};
ghost use Rattle.plan_base.specs.Disk.{TellsAlike, IsSynced, HoldsThroughout, OnlyLooks};
ghost use Rattle.gated_journal.specs.Format.{framed, fresh, end_after, spelled, spelled_in, IsBeforeOrAfter, IsNoLonger, StoodFor};
ghost use Rattle.gated_journal.specs.View.{IsSettled};
ghost use Rattle.gated_journal.specs.Faults.{PutFails, CreateFails, OpenFails, OpenV1Fails};

use crate::fault::JournalFault;
use crate::file_bytes::first_file;
use crate::open_file::read_as;
use crate::parse::{FIRST, SECOND};
use crate::stored::write_synced;
use crate::told::ToldRecords;
use plan_base::{Disk, Failed};
use std::alloc::{AllocError, Global};
use std::marker::Model;

/// A header and records in a file, each record behind a gate byte: 1 is open, and every other byte is closed and ends
/// the journal. The disk is handed in at each call.
///
/// Contracts see the header, the records in order, the limit of the file's length, and `spare`, the length of the
/// longest record that can be put. All lengths are in bytes.
#[derive(Drop)]
pub struct Journal {
    // the header and the records, for clauses alone
    told: ToldRecords,
    // a record's length, its bytes and the next gate, as they are written
    buffer: Vec<u8>,
    spare: usize,
    // the place of the closed gate
    gate: u64,
    limit: u32,
}

impl Model for Journal {
    ghost use Rattle.gated_journal.specs.View.{JournalView};

    ghost Value = { JournalView };

    ghost use Rattle.gated_journal.specs.Inside.{view_of, IsJournal};

    ghost view = { view_of };

    ghost invariant = { IsJournal };
}

// A record's length, its bytes and the next closed gate.
fn join(buffer: &mut Vec<u8>, bytes: &[u8])
    requires room { length bytes.now + 5 ≤ vec_capacity buffer.old }
    requires short { length bytes.now < 2 ^ 32 }
    ensures joined { buffer.new.items ≡ framed bytes.now ++ 0 ∷ [] }
    ensures capacity { vec_capacity buffer.old ≤ vec_capacity buffer.new }
{
    buffer.clear();
    let size = bytes.len() as u32;
    buffer.extend_from_slice(&size.to_le_bytes()).unwrap();
    buffer.extend_from_slice(bytes).unwrap();
    buffer.push(0).unwrap();
}

impl Journal {
    ghost use Rattle.gated_journal.specs.View.{JournalView};

    /// Writes a journal without records to an empty file, by one write and one sync, and its spare is 0.
    ///
    /// `DiskFault` comes only where the disk failed, and `NoMemory` before the first call on the disk.
    pub fn create<D: Disk>(
        alloc: Global,
        disk: &mut D,
        head: &[u8],
        limit: u32,
    ) -> Result<Journal, JournalFault>
        requires count { D.calls disk.old < 2 ^ 62 + 2 ^ 40 }
        requires empty { IfSome (D.reads disk.old) (λ file. file ≡ []) }
        requires room { 13 + length head.now ≤ limit }
        requires most { limit ≤ 2 ^ 26 }
        ensures ok { IfOk result (λ journal. (journal.head ≡ head.now) × (journal.records ≡ []) × (journal.limit ≡ limit) × (journal.spare ≡ 0)) }
        ensures settled { IfOk result (λ journal. IsSettled journal (D.reads disk.new) (D.images disk.new)) }
        ensures file { OnOk result (IfSome (D.reads disk.new) (λ file. file ≡ fresh head.now)) }

        // Each image during the call is no longer than the new file.
        ensures any_moment { IsSynced (D.reads disk.old) (D.images disk.old) → OnSome (D.reads disk.old) (HoldsThroughout D.calls D.images_since disk.old disk.new (IsNoLonger (13 + length head.now))) }
        ensures two { OnOk result (D.calls disk.new ≡ D.calls disk.old + 2) }
        ensures least { D.calls disk.old ≤ D.calls disk.new }
        ensures most { D.calls disk.new ≤ D.calls disk.old + 2 }
        ensures telling { TellsAlike (D.reads disk.old) (D.reads disk.new) }
        ensures cause { IfErr result (CreateFails (D.faults disk.old) (D.faults disk.new)) }
        ensures faults { D.faults disk.old ≤ D.faults disk.new }
        ensures no_memory { IsErrOf result JournalFault.NoMemory → disk.new ≡ disk.old }
    {
        let buffer = first_file(alloc, head)?;
        write_synced(disk, 0, &buffer)?;
        Ok(Journal {
            told: ToldRecords::of_head(head),
            gate: buffer.len() as u64 - 1,
            buffer,
            spare: 0,
            limit,
        })
    }

    /// Opens whatever stands in a disk's file: it syncs, then only reads, and answers the journal with its header and
    /// its records, or why there is none. The journal's spare is 0.
    ///
    /// A file with the mark of the first version is `OldVersion`, whatever else is wrong with it. Another one that is no
    /// journal is `NotAJournal`, also where it is longer than the limit; a journal that is longer than the limit or
    /// cut off is `Damaged`. `DiskFault` comes only where the disk failed. After `NoMemory` the disk
    /// reads as before.
    #[tactic(auto, using(crate::proofs::Refusing::second_fails))]
    pub fn open<D: Disk>(
        alloc: Global,
        disk: &mut D,
        limit: u32,
    ) -> Result<(Journal, Vec<u8>, Vec<Vec<u8>>), JournalFault>
        requires { D.calls disk.old < 2 ^ 62 + 2 ^ 40 }
        ensures view { IfOk result (λ r. (r.0.head ≡ r.1.items) × (r.0.records ≡ map (λ v. v.items) r.2.items) × (r.0.limit ≡ limit) × (r.0.spare ≡ 0)) }
        ensures settled { IfOk result (λ r. IsSettled r.0 (D.reads disk.new) (D.images disk.new)) }

        // What it answers is never longer than the limit, whatever the disk is.
        ensures total { IfOk result (λ r. length r.0.head + sum_by length r.0.records ≤ limit) }
        ensures looks { OnlyLooks D.reads D.images D.images_since D.calls disk.old disk.new }
        ensures most { D.calls disk.new ≤ D.calls disk.old + 2 ^ 33 }
        ensures cause { IfErr result (OpenFails limit (D.reads disk.old) (D.faults disk.old) (D.faults disk.new)) }
        ensures faults { D.faults disk.old ≤ D.faults disk.new }
    {
        let found = read_as(alloc, disk, limit, SECOND)?;
        let journal = Journal {
            told: found.told,
            buffer: Vec::with_capacity(alloc, 5)?,
            spare: 0,
            gate: found.gate,
            limit,
        };
        Ok((journal, found.head, found.records))
    }

    /// Reads a journal of the first version from a disk's file, for the way to the present one: it syncs, then only
    /// reads, and answers the header and the records, or why there are none.
    ///
    /// `NotAJournal` and `Damaged` are those of `open`, by the mark of the first version, and `OldVersion` doesn't
    /// come. `DiskFault` comes only where the disk failed.
    #[tactic(auto, using(crate::proofs::Refusing::first_fails))]
    pub fn open_v1<D: Disk>(
        alloc: Global,
        disk: &mut D,
        limit: u32,
    ) -> Result<(Vec<u8>, Vec<Vec<u8>>), JournalFault>
        requires { D.calls disk.old < 2 ^ 62 + 2 ^ 40 }
        ensures stood { IfOk result (λ r. IfSome (D.reads disk.old) (StoodFor limit r.0.items (map (λ v. v.items) r.1.items))) }

        // What it answers is never longer than the limit, whatever the disk is.
        ensures total { IfOk result (λ r. length r.0.items + sum_by length (map (λ v. v.items) r.1.items) ≤ limit) }
        ensures fits { IfOk result (λ r. length (spelled_in 49 r.0.items (map (λ v. v.items) r.1.items)) + 1 ≤ limit) }
        ensures looks { OnlyLooks D.reads D.images D.images_since D.calls disk.old disk.new }
        ensures most { D.calls disk.new ≤ D.calls disk.old + 2 ^ 33 }
        ensures cause { IfErr result (OpenV1Fails limit (D.reads disk.old) (D.faults disk.old) (D.faults disk.new)) }
        ensures faults { D.faults disk.old ≤ D.faults disk.new }
    {
        let found = read_as(alloc, disk, limit, FIRST)?;
        Ok((found.head, found.records))
    }

    /// Where the journal ends: how many bytes stand in its file up to the closed gate, that one included.
    pub fn end(&self) -> u64
        ensures end { result ≡ length (spelled self.now.head self.now.records) + 1 }
        ensures within { result ≤ self.now.limit }
    {
        let _limit = u64::from(self.limit);
        self.gate + 1
    }

    /// Whether the file stays within the limit with one more record of this length.
    pub fn fits(&self, bytes: usize) -> bool
        ensures { IsTrue result ↔ (end_after self.now.head self.now.records bytes ≤ self.now.limit) }
    {
        bytes as u64 <= u64::from(self.limit)
            && self.gate + 6 + bytes as u64 <= u64::from(self.limit)
    }

    /// Makes room for a record of this length. It never lowers the spare.
    pub fn reserve(&mut self, bytes: usize) -> Result<(), AllocError>
        ensures ok { OnOk result (self.new ≡ record self.old { spare = max self.old.spare bytes }) }
        ensures err { OnErr result (self.new ≡ self.old) }
    {
        if bytes <= self.spare {
            return Ok(());
        }
        let Some(wanted) = bytes.checked_add(5) else {
            return Err(AllocError);
        };
        self.buffer.clear();
        self.buffer.reserve(wanted)?;
        self.spare = bytes;
        Ok(())
    }

    /// Adds a record, by two writes with a sync after each. It takes no memory.
    ///
    /// `Full` comes exactly where the file would pass the limit; then no call on the disk was made. `DiskFault` comes
    /// only where the disk failed; then open the file again, and don't put on this journal.
    pub fn put<D: Disk>(&mut self, disk: &mut D, bytes: &[u8]) -> Result<(), JournalFault>
        requires count { D.calls disk.old < 2 ^ 62 + 2 ^ 40 }
        requires room { length bytes.now ≤ self.old.spare }
        requires settled { IsSettled self.old (D.reads disk.old) (D.images disk.old) }
        ensures ok { OnOk result (self.new ≡ record self.old { records = self.old.records ++ bytes.now ∷ [] }) }
        ensures settled { OnOk result (IsSettled self.new (D.reads disk.new) (D.images disk.new)) }
        ensures err { OnErr result (self.new ≡ self.old) }

        // Each image during the call stands for the records from before it, or for those with the new one.
        ensures any_moment { OnSome (D.reads disk.old) (HoldsThroughout D.calls D.images_since disk.old disk.new (IsBeforeOrAfter self.old.limit self.old.head self.old.records bytes.now)) }
        ensures four { OnOk result (D.calls disk.new ≡ D.calls disk.old + 4) }
        ensures least { D.calls disk.old ≤ D.calls disk.new }
        ensures most { D.calls disk.new ≤ D.calls disk.old + 4 }
        ensures telling { TellsAlike (D.reads disk.old) (D.reads disk.new) }
        ensures cause { MatchResult result (λ _. end_after self.old.head self.old.records (length bytes.now) ≤ self.old.limit) (PutFails (D.faults disk.old) (D.faults disk.new) (end_after self.old.head self.old.records (length bytes.now)) self.old.limit) }
        ensures faults { D.faults disk.old ≤ D.faults disk.new }
        ensures untouched { self.old.limit < end_after self.old.head self.old.records (length bytes.now) → disk.new ≡ disk.old }
    {
        let end = self.gate + 6 + bytes.len() as u64;
        if end > u64::from(self.limit) {
            return Err(JournalFault::Full {
                end,
                limit: self.limit,
            });
        }
        join(&mut self.buffer, bytes);
        write_synced(disk, self.gate + 1, &self.buffer)?;
        write_synced(disk, self.gate, &[1])?;
        self.told = ToldRecords::with(&self.told, bytes);
        self.gate = end - 1;
        Ok(())
    }
}
