//! The run of `shift_migrate`.

ghost use Rattle.std.specs.Prelude.{◌≡◌, ◌≢◌, ◌⊎◌, ◌+◌, ◌^◌, ◌<◌, ◌≤◌, ℕ, List, [], Some, length, map, string_bytes, OnOk, IfOk, IfErr, IfSome, OnSome};
ghost use Rattle.plan_base.specs.Disk.{HoldsThroughout, IsSynced, OnlyLooks};
ghost use Rattle.gated_journal.specs.Format.{spelled, IsUnfinishedOr};
ghost use Rattle.gated_journal.specs.View.{IsSettled};
ghost use Rattle.migrate_runs.specs.Migrate.{CanMigrate, EndsEarly, EndsUnwritten, Explains, IsCarried, IsEarlierOr, IsEarlierOrSame, IsUnfinishedOrSame, Met, NewFails, SaysPosts};

use crate::carrying::{Carried, carry};
use crate::line::migrated_line;
use crate::status::MigrateStatus;
use crate::words::files_of;
use gated_journal::{JOURNAL_MAX, JournalFault, install, settle};
use plan_base::{Disk, Failed, Sink, write_all};
use std::alloc::Global;
use std::thread::Threads;

/// Writes what was carried over to the new file, where that is empty.
fn put<E: Disk>(alloc: Global, new: &mut E, carried: &Carried) -> Result<(), MigrateStatus>
    requires count { E.calls new.old < 2 ^ 62 }
    requires room { length (spelled carried.now.head.items (map (λ r. r.items) carried.now.records.items)) + 1 ≤ JOURNAL_MAX }
    ensures empty { OnOk result (IfSome (E.reads new.old) (λ file. file ≡ [])) }
    ensures settled { OnOk result (IsSettled (record { head = carried.now.head.items; records = map (λ r. r.items) carried.now.records.items; limit = JOURNAL_MAX; spare = 0 }) (E.reads new.new) (E.images new.new)) }
    ensures eight { OnOk result (E.calls new.new ≡ E.calls new.old + 8) }
    ensures any_moment { OnSome (E.reads new.old) (HoldsThroughout E.calls E.images_since new.old new.new (IsEarlierOr (E.images new.old) (IsUnfinishedOr JOURNAL_MAX carried.now.head.items (map (λ r. r.items) carried.now.records.items)))) }
    // Once the file was found to be empty, each image is unfinished or whole.
    ensures later { OnSome (E.reads new.old) (E.calls new.old + 2 < E.calls new.new → (image : List ℕ) → E.images_since new.new (E.calls new.old + 2) image → IsUnfinishedOr JOURNAL_MAX carried.now.head.items (map (λ r. r.items) carried.now.records.items) image) }
    ensures kept { E.calls new.new ≤ E.calls new.old + 2 → OnlyLooks E.reads E.images E.images_since E.calls new.old new.new }
    ensures found { IfSome (E.reads new.old) (λ file. file ≢ [] → E.calls new.new ≤ E.calls new.old + 2) }
    ensures least { E.calls new.old ≤ E.calls new.new }
    ensures cause { IfErr result (NewFails (E.reads new.old) (E.faults new.old) (E.faults new.new)) }
    ensures faults { E.faults new.old ≤ E.faults new.new }
{
    let len = match settle(new) {
        Ok(len) => len,
        Err(Failed) => return Err(MigrateStatus::DiskFault),
    };
    if len > 0 {
        return Err(MigrateStatus::Target { len });
    }
    match install(alloc, new, &carried.head, &carried.records, JOURNAL_MAX) {
        Ok(()) => Ok(()),
        Err(JournalFault::DiskFault) => Err(MigrateStatus::DiskFault),
        // no other fault comes
        Err(_) => Err(MigrateStatus::NoMemory),
    }
}

/// Writes the line of so many records and posts, and says how the run ends.
fn tell<K: Sink>(alloc: Global, out: &mut K, records: usize, posts: u64) -> MigrateStatus
    ensures said { SaysPosts records posts (K.held out.old) (K.held out.new) (K.faults out.old, K.faults out.new) result }
    ensures unwritten { EndsUnwritten result → out.new ≡ out.old }
{
    let Ok(line) = migrated_line(alloc, records, posts) else {
        return MigrateStatus::NoMemory;
    };
    match write_all(out, line.as_bytes()) {
        Ok(()) => MigrateStatus::Migrated,
        Err(Failed) => MigrateStatus::WriteFault,
    }
}

/// The run of `shift_migrate OLD NEW`: reads the journal of the first version on one disk, writes the same posts as a journal of the
/// present version to the empty file on the other, and writes a line of how many records and posts that are.
///
/// The statuses are judged in this order: `Usage` where the words aren't two names of files that differ; the old journal, with
/// `DiskFault` and `Old`; the new file, with `DiskFault` and `Target` where it isn't empty; the installation, with `DiskFault`; and
/// the line, with `WriteFault`. `DiskFault` and `WriteFault` come only where a fault was counted, and `NoMemory` may come at any step
/// after the words.
///
/// Whatever comes, the old file stays as it was. The new one stays so where it isn't empty. Else it is, at each moment of a crash, one
/// that no journal is opened from, or stands for all that the old one stands for.
pub fn migrate_run<R: Threads + Sync, D: Disk, E: Disk, K: Sink>(
    rt: &R,
    alloc: Global,
    words: &[String],
    old: &mut D,
    new: &mut E,
    out: &mut K,
) -> MigrateStatus
    requires old { D.calls old.old < 2 ^ 62 }
    requires new { E.calls new.old < 2 ^ 62 }
    ensures status { Explains
        (record {
          words = map string_bytes words.now;
          old = record { file = D.reads old.old; file_after = D.reads old.new; faults = (D.faults old.old, D.faults old.new) };
          new = record { file = E.reads new.old; file_after = E.reads new.new; faults = (E.faults new.old, E.faults new.new) };
          sink = record { held = K.held out.old; held_after = K.held out.new; faults = (K.faults out.old, K.faults out.new) };
        })
        result }
    // What can be carried over is.
    ensures complete { CanMigrate
        (record {
          words = map string_bytes words.now;
          old = record { file = D.reads old.old; file_after = D.reads old.new; faults = (D.faults old.old, D.faults old.new) };
          new = record { file = E.reads new.old; file_after = E.reads new.new; faults = (E.faults new.old, E.faults new.new) };
          sink = record { held = K.held out.old; held_after = K.held out.new; faults = (K.faults out.old, K.faults out.new) };
        })
        → (result ≡ MigrateStatus.Migrated) ⊎ (result ≡ MigrateStatus.NoMemory) }
    ensures looks { OnlyLooks D.reads D.images D.images_since D.calls old.old old.new }
    ensures kept { E.calls new.new ≤ E.calls new.old + 2 → OnlyLooks E.reads E.images E.images_since E.calls new.old new.new }
    ensures found { IfSome (E.reads new.old) (λ file. file ≢ [] → E.calls new.new ≤ E.calls new.old + 2) }
    ensures any_moment { OnSome (E.reads new.old) (HoldsThroughout E.calls E.images_since new.old new.new (IsEarlierOrSame (E.images new.old) (D.reads old.old))) }
    // Once the new file was found to be empty, each image of it is unfinished, or stands for the posts of the old one.
    ensures later { OnSome (E.reads new.old) (E.calls new.old + 2 < E.calls new.new → (image : List ℕ) → E.images_since new.new (E.calls new.old + 2) image → IsUnfinishedOrSame (D.reads old.old) image) }
    ensures synced { result ≡ MigrateStatus.Migrated → IsSynced (E.reads new.new) (E.images new.new) }
    ensures unwritten { EndsUnwritten result → out.new ≡ out.old }
    // Where the words or the old file are refused, the new file isn't touched, and for the words the old one isn't either.
    ensures early { EndsEarly result → new.new ≡ new.old }
    ensures wordless { result ≡ MigrateStatus.Usage → old.new ≡ old.old }
{
    if files_of(words).is_none() {
        return MigrateStatus::Usage;
    }
    let carried = match carry(rt, alloc, old) {
        Ok(carried) => carried,
        Err(status) => return status,
    };
    match put(alloc, new, &carried) {
        Ok(()) => tell(alloc, out, carried.records.len(), carried.posts),
        Err(status) => status,
    }
}
