//! What is carried over from an old journal.

ghost use Rattle.std.specs.Prelude.{◌≡◌, ◌⊎◌, ◌+◌, ◌^◌, ◌<◌, ◌≤◌, ℕ, List, Some, map, IfOk, IfErr, IfSome};
ghost use Rattle.plan_base.specs.Disk.{OnlyLooks};
ghost use Rattle.shift_instance.specs.Problem.{Problem};
ghost use Rattle.post_codec.specs.declared.post.Post.{Post as APost};
ghost use Rattle.instance_json.specs.Canonical.{canonical_text};
ghost use Rattle.migrate_runs.specs.Migrate.{ended_by, HeadFails, IsCarried, IsInstance, OldBook, OldFails, unread_by};

use crate::line::count_posts;
use crate::status::{MigrateStatus, OldFault};
use gated_journal::{JOURNAL_MAX, Journal, JournalFault};
use instance_json::{ReadRefusal, canonical, read};
use plan_base::Disk;
use recovery::{RebuildFault, migrate_records};
use shift_instance::Instance;
use std::alloc::{AllocError, Global};
use std::thread::Threads;

/// By how many workers at most the old records are judged. Each more takes memory for what it reads.
const WORKERS: u32 = 4;

/// The header and the records of the journal that is made, and the number of its posts.
#[derive(Drop)]
pub(crate) struct Carried {
    pub head: Vec<u8>,
    pub records: Vec<Vec<u8>>,
    pub posts: u64,
}

impl From<AllocError> for MigrateStatus {
    ghost use Rattle.migrate_runs.specs.declared.status.MigrateStatus.TheVariants.{NoMemory};

    ghost from_gives = { λ _ status. status ≡ NoMemory };

    fn from(_e: AllocError) -> MigrateStatus {
        MigrateStatus::NoMemory
    }
}

/// How the run ends where a header isn't read.
fn end_of_reading(refusal: ReadRefusal) -> MigrateStatus
    ensures { result ≡ unread_by refusal }
{
    match refusal {
        ReadRefusal::NoMemory => MigrateStatus::NoMemory,
        ReadRefusal::TooLong
        | ReadRefusal::NotJson
        | ReadRefusal::Missing { .. }
        | ReadRefusal::UnknownField { .. }
        | ReadRefusal::WrongKind { .. }
        | ReadRefusal::Invalid(_) => MigrateStatus::Old(OldFault::Head),
    }
}

/// The instance whose canonical text a header is.
fn instance_of(alloc: Global, head: &[u8]) -> Result<Instance, MigrateStatus>
    ensures text { IfOk result (λ i. head.now ≡ canonical_text i) }
    ensures valid { IfOk result (λ i. IsInstance i) }
    ensures refused { IfErr result (HeadFails head.now) }
{
    let instance = match read(alloc, head) {
        Ok(instance) => instance,
        Err(refusal) => return Err(end_of_reading(refusal)),
    };
    let _parts = instance.parts();
    if canonical(alloc, &instance)?.as_slice() != head {
        return Err(MigrateStatus::Old(OldFault::Head));
    }
    Ok(instance)
}

/// How the run ends where the old journal isn't opened.
fn end_of(fault: JournalFault) -> MigrateStatus
    ensures { result ≡ ended_by fault }
{
    match fault {
        JournalFault::DiskFault => MigrateStatus::DiskFault,
        JournalFault::Damaged { at } => MigrateStatus::Old(OldFault::Damaged { at }),
        JournalFault::NoMemory => MigrateStatus::NoMemory,
        // no other fault comes
        JournalFault::NotAJournal | JournalFault::OldVersion | JournalFault::Full { .. } => {
            MigrateStatus::Old(OldFault::NotAJournal)
        }
    }
}

/// Reads the old journal, and spells its posts anew.
pub(crate) fn carry<R: Threads + Sync, D: Disk>(
    rt: &R,
    alloc: Global,
    old: &mut D,
) -> Result<Carried, MigrateStatus>
    requires { D.calls old.old < 2 ^ 62 }
    ensures carried { IfOk result (λ c. IsCarried (D.reads old.old) c.head.items (map (λ r. r.items) c.records.items) c.posts) }
    ensures looks { OnlyLooks D.reads D.images D.images_since D.calls old.old old.new }
    ensures cause { IfErr result (OldFails (D.reads old.old) (D.faults old.old) (D.faults old.new)) }
    // A file that stands for posts which make a book isn't refused.
    ensures only { (i : Problem) (posts : List APost) (file : List ℕ) → D.reads old.old ≡ Some file → OldBook i posts file → IfErr result (λ s. (s ≡ MigrateStatus.NoMemory) ⊎ (s ≡ MigrateStatus.DiskFault)) }
    ensures faults { D.faults old.old ≤ D.faults old.new }
{
    let (head, records) = match Journal::open_v1(alloc, old, JOURNAL_MAX) {
        Ok(found) => found,
        Err(fault) => return Err(end_of(fault)),
    };
    let instance = instance_of(alloc, &head)?;
    let records = match migrate_records(rt, alloc, &instance, &records, WORKERS) {
        Ok(records) => records,
        Err(RebuildFault::NoMemory) => return Err(MigrateStatus::NoMemory),
        Err(RebuildFault::Rejected { at_record, why }) => {
            return Err(MigrateStatus::Old(OldFault::Rejected { at_record, why }));
        }
    };
    let posts = count_posts(alloc, &records)?;
    Ok(Carried {
        head,
        records,
        posts,
    })
}
