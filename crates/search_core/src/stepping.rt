//! The posts of a worker's step.
ghost use Rattle.std.specs.Prelude.{◌≡◌, ◌<◌, ◌^◌, ◌≤◌, [], ℕ, Bool, false, length, None, IfOk, IfSome};
ghost use Rattle.shift_instance.specs.Problem.{Problem};
ghost use Rattle.shift_instance.specs.Valid.{IsValid};
ghost use Rattle.shift_instance.specs.declared.TheConstants.{TOP};
ghost use Rattle.search_core.specs.declared.step_posts.Close.TheVariants.{ByPrice};
ghost use Rattle.search_core.specs.Board.{leaves_open};
ghost use Rattle.search_core.specs.Book.{Book};
ghost use Rattle.search_core.specs.Steps.{posts_of, Fits};
ghost use Rattle.search_core.specs.Drafting.{IsAfter, IsDraft, LeavesOpen};

use crate::drafting::{StepDraft, best_with, floor_with};
use crate::{Close, StepPosts};
use break_rules::NoMemory;
use std::alloc::Global;

/// The posts of a worker's step for a node with that floor, over a book with that best cost.
pub(crate) fn draft_of(
    alloc: Global,
    worker: u16,
    floor: u64,
    best: u64,
    step: StepPosts,
) -> Result<StepDraft, NoMemory>
    requires { length step.proved.cuts < 2 ^ 32 }
    ensures drafts { IfOk result (λ d. (i : Problem) (b : Book) → IsValid i → Fits i step → IsAfter i b step.node step.proved.cuts [] best floor false → (s : Bool) × IsDraft i b step.node step.proved.cuts (posts_of i b worker step) d s) }
    ensures few { IfOk result (λ d. length d.posts.items ≤ 4) }
{
    let StepPosts {
        node,
        plan,
        proved,
        close,
    } = step;
    let mut draft = StepDraft {
        posts: Vec::new(alloc),
        values: Vec::new(alloc),
        best,
        floor,
    };
    draft.add_plan(worker, plan)?;
    match close {
        Close::ByPrice => {
            draft.add_prices(worker, node, proved)?;
            Ok(draft)
        }
        Close::Split { class, m } => {
            draft.add_prices(worker, node, proved)?;
            draft.add_split(worker, node, class, m)?;
            Ok(draft)
        }
        Close::Settled(settled) => {
            let floor = settled.floor();
            draft.add_plan(worker, settled.into_plan())?;
            draft.add_prices(worker, node, proved)?;
            draft.add_settled(worker, node, floor)?;
            Ok(draft)
        }
    }
}

/// The node's floor and the best cost after a step, where the node would be open then. Only a step that is closed by its
/// bound may leave it open.
pub(crate) fn stays_open(step: &StepPosts, floor: u64, best: u64) -> Option<(u64, u64)>
    ensures open { IfSome result (λ p. (step.now.close ≡ ByPrice) × ((i : Problem) (b : Book) (w : ℕ) → Fits i step.now → IsAfter i b step.now.node step.now.proved.cuts [] best floor false → LeavesOpen i b w step.now p.0 p.1)) }
    ensures closed { result ≡ None → best < TOP → (i : Problem) (b : Book) (w : ℕ) → Fits i step.now → IsAfter i b step.now.node step.now.proved.cuts [] best floor false → leaves_open i b w step.now ≡ false }
{
    let best = best_with(&step.plan, best);
    let bound = step.proved.bound();
    match &step.close {
        Close::ByPrice => {
            let floor = floor_with(bound, best, floor);
            if floor < best {
                return Some((floor, best));
            }
            None
        }
        Close::Split { class: _, m: _ } => None,
        Close::Settled(settled) => {
            // Its clauses say that its plan is the one that the cuts leave.
            let _floor = settled.floor();
            None
        }
    }
}
