//! The book of a search that a disk's file holds for an instance.
ghost use Rattle.std.specs.Prelude.{◌≡◌, ◌⊎◌, ◌+◌, ◌^◌, ◌<◌, ◌≤◌, [], false, length, Some, IfOk, IfErr, IfSome, OnSome, MatchResult};
ghost use Rattle.plan_base.specs.Disk.{HoldsThroughout, TellsAlike};
ghost use Rattle.instance_json.specs.Canonical.{canonical_text};
ghost use Rattle.search_core.specs.Book.{book_of, IsSound};
ghost use Rattle.search_core.specs.Core.{empty_hands};
ghost use Rattle.search_book.specs.declared.open_fault.OpenFault.TheVariants.{DiskFault, NoMemory};
ghost use Rattle.search_book.specs.Head.{KeepsHead};
ghost use Rattle.search_book.specs.Keeping.{IsRunningPosts};
ghost use Rattle.search_book.specs.Opened.{HoldsBook, OpenCause};
ghost use Rattle.search_book.specs.Opening.{IsBegun, IsOldOrShort, IsOpenedFrom};

use crate::book::Book;
use crate::listing::all_open;
use crate::log_opening::{Unopened, open_log};
use crate::open_fault::OpenFault;
use plan_base::Disk;
use shift_instance::Instance;
use std::alloc::Global;
use std::thread::Threads;

impl<D: Disk> Book<D> {
    /// Opens the book that a disk's file holds for an instance, or creates its journal in an empty file, by four calls. The
    /// file may have `limit` bytes, and workers may take `budget` steps. No step is taken, and no worker holds a node. A
    /// refusal hands the disk back. Up to `workers` workers, 1 to 16, read the records and bound their prices at the same time;
    /// their number doesn't change the answer.
    ///
    /// Whatever bytes the disk holds and whatever it answers, what is opened is a sound book of the instance.
    ///
    /// `DiskFault` comes only where the disk failed. The others come where the file isn't empty, and the first of them that
    /// applies is answered: `OldVersion`, `NotAJournal`, `Damaged`, `OtherInstance`, and `Rejected` where a record spells no
    /// posts or has a post that isn't allowed. A refusal leaves on the disk what was there, or where the file was empty no more
    /// than the new journal.
    pub fn open<R: Threads + Sync>(
        rt: &R,
        alloc: Global,
        instance: &Instance,
        disk: D,
        budget: u64,
        limit: u32,
        workers: u32,
    ) -> Result<Book<D>, Unopened<D>>
        requires some { 1 ≤ workers }
        requires sixteen { workers ≤ 16 }
        requires count { D.calls disk < 2 ^ 62 }
        requires room { 13 + length (canonical_text instance.now) ≤ limit }
        requires most { limit ≤ 2 ^ 26 }
        ensures begins { IfOk result (λ book. IsBegun instance.now limit book.log) }
        ensures idle { IfOk result (λ book. (book.hands ≡ empty_hands) × (book.taken ≡ 0) × (book.budget ≡ budget) × (book.halted ≡ false)) }
        ensures folds { IfOk result (λ book. book_of instance.now book.log.history ≡ Some book.log.book) }
        ensures sound { IfOk result (λ book. IsSound instance.now book.log.book) }
        ensures found { IfOk result (λ book. IfSome (D.reads disk) (IsOpenedFrom limit instance.now book.log.history book.log.used (D.reads book.log.disk))) }
        ensures running { IfOk result (λ book. IsRunningPosts D.reads D.images D.calls book.log) }
        ensures four { IfOk result (λ book. D.reads disk ≡ Some [] → D.calls book.log.disk ≡ D.calls disk + 4) }
        ensures any_moment { MatchResult result (λ book. OnSome (D.reads disk) (HoldsThroughout D.calls D.images_since disk book.log.disk (IsOldOrShort (D.reads disk) (D.images disk) (13 + length (canonical_text instance.now))))) (λ e. OnSome (D.reads disk) (HoldsThroughout D.calls D.images_since disk e.disk (IsOldOrShort (D.reads disk) (D.images disk) (13 + length (canonical_text instance.now))))) }
        ensures telling { MatchResult result (λ book. TellsAlike (D.reads disk) (D.reads book.log.disk)) (λ e. TellsAlike (D.reads disk) (D.reads e.disk)) }
        ensures content { IfErr result (λ e. KeepsHead (canonical_text instance.now) (D.reads disk) (D.reads e.disk) e.fault) }
        ensures cause { IfErr result (λ e. OpenCause limit instance.now (D.reads disk) (D.faults disk) (D.faults e.disk) e.fault) }
        // A file that holds a book isn't refused.
        ensures only { IfErr result (λ e. IfSome (D.reads disk) (λ file. HoldsBook limit instance.now file → (e.fault ≡ DiskFault) ⊎ (e.fault ≡ NoMemory))) }
        ensures faults { MatchResult result (λ book. D.faults disk ≤ D.faults book.log.disk) (λ e. D.faults disk ≤ D.faults e.disk) }
        ensures least { MatchResult result (λ book. D.calls disk ≤ D.calls book.log.disk) (λ e. D.calls disk ≤ D.calls e.disk) }
        ensures most { MatchResult result (λ book. D.calls book.log.disk ≤ D.calls disk + 2 ^ 33 + 2) (λ e. D.calls e.disk ≤ D.calls disk + 2 ^ 33 + 2) }
    {
        let log = match open_log(rt, alloc, instance, disk, limit, workers) {
            Ok(log) => log,
            Err(unopened) => return Err(unopened),
        };
        let _made = log.made();
        match all_open(alloc, log.state()) {
            Ok(nodes) => Ok(Book::over(log, nodes, budget)),
            Err(_) => Err(Unopened {
                fault: OpenFault::NoMemory,
                disk: log.into_disk(),
            }),
        }
    }
}
