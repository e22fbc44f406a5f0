//! The log of posts that a disk's file holds for an instance.
ghost use Rattle.std.specs.Prelude.{◌≡◌, ◌⊎◌, ◌+◌, ◌^◌, ◌<◌, ◌≤◌, [], length, Some, IfOk, IfErr, IfSome, OnSome, MatchResult};
ghost use Rattle.plan_base.specs.Disk.{HoldsThroughout, TellsAlike};
ghost use Rattle.gated_journal.specs.View.{IsSettled};
ghost use Rattle.instance_json.specs.Canonical.{canonical_text};
ghost use Rattle.search_core.specs.Book.{book_of, IsSound};
ghost use Rattle.search_book.specs.declared.open_fault.OpenFault.TheVariants.{DiskFault, NoMemory};
ghost use Rattle.search_book.specs.Head.{KeepsHead};
ghost use Rattle.search_book.specs.Keeping.{IsPostLog};
ghost use Rattle.search_book.specs.Opened.{HoldsBook, OpenCause};
ghost use Rattle.search_book.specs.Opening.{IsBegun, IsFound, IsOldOrShort, IsOpenedFrom};
ghost use Rattle.post_codec.specs.Batches.{SpellPosts};
ghost use Rattle.shift_instance.specs.Valid.{IsValid};

use crate::head::open_head;
use crate::open_fault::OpenFault;
use crate::post_log::PostLog;
use gated_journal::Journal;
use instance_json::canonical;
use plan_base::Disk;
use recovery::rebuild;
use search_core::State;
use shift_instance::Instance;
use std::alloc::Global;
use std::thread::Threads;

/// What isn't opened: why, and the disk, handed back.
#[derive(Drop)]
pub struct Unopened<D: Disk> {
    pub fault: OpenFault,
    pub disk: D,
}

/// What a journal holds.
#[derive(Drop)]
struct Rebuilt {
    journal: Journal,
    /// How many records it has.
    records: u64,
    /// The state that their posts make.
    state: State,
}

/// Opens or creates the journal of an instance, and makes the state of its posts, each of which has to be allowed, by up to
/// `workers` workers.
fn open_state<D: Disk, R: Threads + Sync>(
    rt: &R,
    alloc: Global,
    instance: &Instance,
    disk: &mut D,
    limit: u32,
    workers: u32,
) -> Result<Rebuilt, OpenFault>
    requires some { 1 ≤ workers }
    requires sixteen { workers ≤ 16 }
    requires count { D.calls disk.old < 2 ^ 62 }
    requires room { 13 + length (canonical_text instance.now) ≤ limit }
    requires most { limit ≤ 2 ^ 26 }
    ensures valid { IfOk result (λ _. IsValid instance.now) }
    ensures view { IfOk result (λ r. (r.state.instance ≡ instance.now) × (r.journal.head ≡ canonical_text instance.now) × (r.journal.limit ≡ limit) × (r.records ≡ length r.journal.records)) }
    ensures spell { IfOk result (λ r. SpellPosts r.journal.records r.state.history) }
    ensures folds { IfOk result (λ r. book_of instance.now r.state.history ≡ Some r.state.book) }
    ensures sound { IfOk result (λ r. IsSound instance.now r.state.book) }
    ensures settled { IfOk result (λ r. IsSettled r.journal (D.reads disk.new) (D.images disk.new)) }
    ensures found { IfOk result (λ r. IfSome (D.reads disk.old) (IsFound limit (canonical_text instance.now) r.journal.records (D.reads disk.new))) }
    ensures four { IfOk result (λ _. D.reads disk.old ≡ Some [] → D.calls disk.new ≡ D.calls disk.old + 4) }
    ensures least { D.calls disk.old ≤ D.calls disk.new }
    ensures most { D.calls disk.new ≤ D.calls disk.old + 2 ^ 33 + 2 }
    ensures any_moment { OnSome (D.reads disk.old) (HoldsThroughout D.calls D.images_since disk.old disk.new (IsOldOrShort (D.reads disk.old) (D.images disk.old) (13 + length (canonical_text instance.now)))) }
    ensures telling { TellsAlike (D.reads disk.old) (D.reads disk.new) }
    ensures content { IfErr result (KeepsHead (canonical_text instance.now) (D.reads disk.old) (D.reads disk.new)) }
    ensures cause { IfErr result (OpenCause limit instance.now (D.reads disk.old) (D.faults disk.old) (D.faults disk.new)) }
    ensures only { IfErr result (λ fault. IfSome (D.reads disk.old) (λ file. HoldsBook limit instance.now file → (fault ≡ DiskFault) ⊎ (fault ≡ NoMemory))) }
    ensures faults { D.faults disk.old ≤ D.faults disk.new }
{
    let _parts = instance.parts();
    let head = canonical(alloc, instance)?;
    let (journal, records) = open_head(alloc, disk, &head, limit)?;
    let state = rebuild(rt, alloc, instance, &records, workers)?;
    let _cost = state.cost();
    Ok(Rebuilt {
        journal,
        records: records.len() as u64,
        state,
    })
}

/// Opens the log of the posts that a disk's file holds for an instance, or creates its journal in an empty file, by four
/// calls. The file may have `limit` bytes. The records are read and their prices bounded by up to `workers` workers. A refusal hands
/// the disk back.
///
/// `DiskFault` comes only where the disk failed. The others come where the file isn't empty, and the first of them that
/// applies is answered: `OldVersion`, `NotAJournal`, `Damaged`, `OtherInstance`, and `Rejected` where a record spells no posts or
/// has a post that isn't allowed. A refusal leaves on the disk what was there, or where the file was empty no more than the new
/// journal.
pub(crate) fn open_log<D: Disk, R: Threads + Sync>(
    rt: &R,
    alloc: Global,
    instance: &Instance,
    mut disk: D,
    limit: u32,
    workers: u32,
) -> Result<PostLog<D>, Unopened<D>>
    requires some { 1 ≤ workers }
    requires sixteen { workers ≤ 16 }
    requires count { D.calls disk < 2 ^ 62 }
    requires room { 13 + length (canonical_text instance.now) ≤ limit }
    requires most { limit ≤ 2 ^ 26 }
    ensures begins { IfOk result (IsBegun instance.now limit) }
    ensures log { IfOk result (λ log. IsPostLog D.reads D.images D.images_since D.calls D.faults log) }
    ensures folds { IfOk result (λ log. book_of instance.now log.history ≡ Some log.book) }
    ensures sound { IfOk result (λ log. IsSound instance.now log.book) }
    ensures found { IfOk result (λ log. IfSome (D.reads disk) (IsOpenedFrom limit instance.now log.history log.used (D.reads log.disk))) }
    ensures four { IfOk result (λ log. D.reads disk ≡ Some [] → D.calls log.disk ≡ D.calls disk + 4) }
    ensures any_moment { MatchResult result (λ log. OnSome (D.reads disk) (HoldsThroughout D.calls D.images_since disk log.disk (IsOldOrShort (D.reads disk) (D.images disk) (13 + length (canonical_text instance.now))))) (λ e. OnSome (D.reads disk) (HoldsThroughout D.calls D.images_since disk e.disk (IsOldOrShort (D.reads disk) (D.images disk) (13 + length (canonical_text instance.now))))) }
    ensures telling { MatchResult result (λ log. TellsAlike (D.reads disk) (D.reads log.disk)) (λ e. TellsAlike (D.reads disk) (D.reads e.disk)) }
    ensures content { IfErr result (λ e. KeepsHead (canonical_text instance.now) (D.reads disk) (D.reads e.disk) e.fault) }
    ensures cause { IfErr result (λ e. OpenCause limit instance.now (D.reads disk) (D.faults disk) (D.faults e.disk) e.fault) }
    ensures only { IfErr result (λ e. IfSome (D.reads disk) (λ file. HoldsBook limit instance.now file → (e.fault ≡ DiskFault) ⊎ (e.fault ≡ NoMemory))) }
    ensures faults { MatchResult result (λ log. D.faults disk ≤ D.faults log.disk) (λ e. D.faults disk ≤ D.faults e.disk) }
    ensures least { MatchResult result (λ log. D.calls disk ≤ D.calls log.disk) (λ e. D.calls disk ≤ D.calls e.disk) }
    ensures most { MatchResult result (λ log. D.calls log.disk ≤ D.calls disk + 2 ^ 33 + 2) (λ e. D.calls e.disk ≤ D.calls disk + 2 ^ 33 + 2) }
{
    match open_state(rt, alloc, instance, &mut disk, limit, workers) {
        Ok(
            Rebuilt {
                journal,
                records,
                state,
            },
        ) => {
            let log = PostLog::over(alloc, disk, journal, records, state);
            let _made = log.made();
            Ok(log)
        }
        Err(fault) => Err(Unopened { fault, disk }),
    }
}
