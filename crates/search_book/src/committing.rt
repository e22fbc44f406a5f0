//! How a worker's step is committed: whether it may be, and its posts recorded.
ghost use Rattle.std.specs.Prelude.{◌≡◌, ◌↔◌, ℕ, ◌<◌, ◌^◌, false, true, None, not, Some, IfErr, IfOk, IsTrue, length};
ghost use Rattle.search_core.specs.Book.{is_node_and, Book};
ghost use Rattle.search_core.specs.Core.{hand};
ghost use Rattle.search_core.specs.Kept.{cuts_in};
ghost use Rattle.search_core.specs.Steps.{is_cheaper, Fits};
ghost use Rattle.search_book.specs.Committing.{commit_fault_of, MayCommit, MayNot, RecordsStep, StepFails};

use crate::post_log::PostLog;
use gated_journal::JournalFault;
use head_splits::first_difference;
use plan_base::Disk;
use rota_cost::Costed;
use search_core::{CommitFault, Hands, Kept, StepDraft, StepPosts};

/// Whether a hand holds that node.
fn holds(held: Option<u32>, node: u32) -> bool
    ensures { IsTrue result ↔ (held ≡ Some node) }
{
    held == Some(node)
}

/// Whether a worker may commit a step, or why it may not.
pub(crate) fn may_commit<D: Disk>(
    log: &PostLog<D>,
    hands: &Hands,
    worker: u32,
    step: &StepPosts,
) -> Result<(), CommitFault>
    requires worker { worker < 16 }
    requires unsplit { (w x : ℕ) → hand hands.now w ≡ Some x → is_node_and log.now.book x (λ n. not n.split) ≡ true }
    ensures ok { IfOk result (λ _. MayCommit log.now hands.now worker step.now) }
    ensures err { IfErr result (MayNot log.now hands.now worker step.now) }
{
    if log.shut().is_some() {
        return Err(CommitFault::Shut);
    }
    let held = hands.held(worker);
    if !holds(held, step.node) {
        return Err(CommitFault::NotHeld { held });
    }
    let _made = log.made();
    let Ok(cuts) = log.state().cuts_of(step.node) else {
        return Err(CommitFault::NoMemory);
    };
    match first_difference(step.proved.cuts().as_slice(), cuts.as_slice()) {
        Some(at) => Err(CommitFault::OtherCuts { at: at as u64 }),
        None => Ok(()),
    }
}

/// Whether a plan is there and cheaper than the best cost.
fn is_cheaper(plan: &Option<Costed>, best: u64) -> bool
    ensures { (b : Book) → b.cost ≡ best → result ≡ is_cheaper plan.now b }
{
    match plan {
        Some(plan) => plan.cost() < best,
        None => false,
    }
}

/// A fault of the journal in a commit of posts, as a board's. Such a commit finds the disk's fault, a full journal and want
/// of memory alone.
fn commit_fault_of(fault: JournalFault) -> CommitFault
    ensures { result ≡ commit_fault_of fault }
{
    match fault {
        JournalFault::DiskFault => CommitFault::DiskFault,
        JournalFault::Full { end, limit } => CommitFault::Full { end, limit },
        _ => CommitFault::NoMemory,
    }
}

/// Records the posts of a step that a worker may commit, as one record. Where there are none, no record is made.
pub(crate) fn record_step<D: Disk>(
    log: &mut PostLog<D>,
    worker: u16,
    step: StepPosts,
) -> Result<Kept, CommitFault>
    requires open { log.old.shut ≡ None }
    requires fits { Fits log.old.instance step }
    requires few { length step.proved.cuts < 2 ^ 32 }
    requires cuts { step.proved.cuts ≡ cuts_in log.old.book.nodes step.node }
    requires unsplit { is_node_and log.old.book step.node (λ n. not n.split) ≡ true }
    ensures ok { IfOk result (RecordsStep D.calls worker step log.old log.new) }
    ensures err { IfErr result (StepFails D.faults worker step log.old log.new) }
{
    let _made = log.made();
    let plan = is_cheaper(&step.plan, log.state().cost());
    let Ok(draft) = log.state().draft(worker, step) else {
        return Err(CommitFault::NoMemory);
    };
    let StepDraft {
        posts,
        values,
        best,
        floor,
    } = draft;
    if posts.is_empty() {
        return Ok(Kept {
            plan,
            records: 0,
            best,
            floor,
        });
    }
    match log.commit(posts, &values) {
        Ok(()) => Ok(Kept {
            plan,
            records: 1,
            best,
            floor,
        }),
        Err(fault) => Err(commit_fault_of(fault)),
    }
}
