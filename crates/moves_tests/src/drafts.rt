//! Moves on plans that were worked out by hand.
ghost use Rattle.std.specs.Prelude.{◌≡◌};

use crate::drafts_of_days::{DAY, LONGER, Step, early, empty, move_of, take};
use fixtures::instance_of;
use local_moves::{Draft, MoveFault};
use shift_instance::Instance;
use std::alloc::Global;
use std::test::Fail;

/// What a plan costs with a move and, once that is undone, without it; the refusal where there is one.
fn there_and_back(
    instance: &Instance,
    draft: &mut Draft,
    step: Step,
) -> Result<(u64, u64), MoveFault>
    requires { draft.old.instance ≡ instance.now }
    ensures { draft.new.instance ≡ draft.old.instance }
{
    let step = move_of(draft.allocator(), step)?;
    let _before = draft.cost();
    let done = draft.apply(instance, &step)?;
    let there = draft.cost();
    match draft.undo(instance, done) {
        Ok(()) => Ok((there, draft.cost())),
        Err(_) => Err(MoveFault::NoMemory),
    }
}

/// What the plan of two duties that break in the first hours costs with a move and, once that is undone, without it.
fn early_and_back(alloc: Global, instance: &Instance, step: Step) -> Result<(u64, u64), Fail> {
    let mut draft = early(alloc, instance)?;
    Ok(there_and_back(instance, &mut draft, step)?)
}

/// How many steps of a table answer as it says, one after another, before the first that doesn't.
fn good_steps(
    instance: &Instance,
    draft: &mut Draft,
    table: &[(Step, Result<u64, MoveFault>)],
) -> usize
    requires { draft.old.instance ≡ instance.now }
{
    for k in 0..table.len() {
        let (step, answer) = &table[k];
        if take(instance, draft, *step) != *answer {
            return k;
        }
    }
    table.len()
}

/// The same from the plan without duties on.
fn good_steps_of(
    alloc: Global,
    text: &str,
    table: &[(Step, Result<u64, MoveFault>)],
) -> Result<usize, Fail> {
    let instance = instance_of(alloc, text)?;
    let mut draft = empty(alloc, &instance)?;
    Ok(good_steps(&instance, &mut draft, table))
}

// With breaks at the third and the fourth hour one employee too few works in the third and one too many in the fifth.
#[test]
fn other_breaks_lower_the_cost(rt: HostRuntime) -> Result<(), Fail> {
    let alloc = rt.alloc();
    let instance = instance_of(alloc, DAY)?;
    let costs = early_and_back(alloc, &instance, Step::Rebreak(0, 0, 2, 4))?;
    assert_eq!(rt; costs, (3, 6));
    Ok(())
}

// The plan of both duties stays as it is where a move is refused.
#[test]
fn duties_come_and_go(rt: HostRuntime) -> Result<(), Fail> {
    let table = [
        (Step::Add(0, 0, 2), Ok(17)),
        (Step::Add(0, 0, 3), Ok(6)),
        (Step::Rebreak(0, 0, 5, 4), Err(MoveFault::Absent)),
        (Step::Add(0, 0, 4), Err(MoveFault::HeadsOver { heads: 3 })),
        (Step::Drop(0, 0, 3), Ok(17)),
    ];
    assert_eq!(rt; good_steps_of(rt.alloc(), DAY, &table)?, table.len());
    Ok(())
}

// With its break at noon the duty of 9 hours leaves out an hour that needs one and works in the one from 16 on, which needs nobody; that
// of 8 hours has to begin its break at 11.
#[test]
fn duties_go_over_to_a_shorter_shift(rt: HostRuntime) -> Result<(), Fail> {
    let table = [(Step::Add(1, 0, 4), Ok(18)), (Step::Reshift(1, 0), Ok(17))];
    assert_eq!(rt; good_steps_of(rt.alloc(), LONGER, &table)?, table.len());
    Ok(())
}
