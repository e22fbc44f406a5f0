//! What is known of a node whose prices were posted above it.
ghost use Rattle.std.specs.Prelude.{◌≡◌, ◌<◌, IfOk, length};

use break_rules::Breaks;
use fixtures::morning;
use head_splits::{Class, CutPrices, Hint, Prices, SlotPrices};
use post_codec::Post;
use search_core::State;
use shift_instance::Instance;
use std::alloc::Global;
use std::process::Abort;
use std::test::Fail;

/// The split of the first node into no duty and at least one.
fn split(alloc: Global) -> Post {
    Post::Split {
        worker: 0,
        node: 0,
        class: Class {
            shift: 0,
            day: 0,
            prefix: Breaks::new(Vec::new(alloc)),
        },
        m: 0,
    }
}

/// Prices of 2 in the slots 8 to 11 for the first node.
fn priced(alloc: Global) -> Result<Post, Fail> {
    let mut slots = vec![in alloc; 0i64; 24]?;
    slots[8..12].fill(2);
    Ok(Post::Priced {
        worker: 0,
        node: 0,
        prices: Prices {
            q: 1,
            slots: SlotPrices::new(slots),
            cuts: CutPrices::new(Vec::new(alloc)),
        },
    })
}

/// The state that the prices make of the opening.
fn priced_state(alloc: Global, instance: &Instance) -> Result<State, Fail>
    ensures { IfOk result (λ state. state.instance ≡ instance.now) }
{
    let post = priced(alloc)?;
    let mut state = State::new(alloc, instance)?;
    state.step(instance, post).ok().ok_or("not priced")?;
    Ok(state)
}

/// The state that the split makes of that.
fn split_state(alloc: Global, instance: &Instance) -> Result<State, Fail> {
    let mut state = priced_state(alloc, instance)?;
    let split = state.step(instance, split(alloc));
    split.ok().ok_or("not split")?;
    Ok(state)
}

/// How many cuts the prices have that are known of the second part of the first node, and whether each has the price 0.
fn hinted_cuts(state: &State) -> Result<Option<(usize, bool)>, Fail>
    requires { 2 < length state.now.book.nodes }
{
    let Hint { prices, rows: _ } = state.hint(2)?;
    match prices {
        Some(prices) => {
            let are_zero = prices.cuts.as_slice() == [0u64].as_slice();
            Ok(Some((prices.cuts.len(), are_zero)))
        }
        None => Ok(None),
    }
}

/// The same of a state that has to have three nodes.
fn hinted_of_three(rt: &impl Abort, state: &State) -> Result<Option<(usize, bool)>, Fail> {
    assert!(rt; state.nodes().len() == 3);
    hinted_cuts(state)
}

/// The same for the morning, whose first node was priced and then split.
fn hinted_for_morning(rt: &impl Abort, alloc: Global) -> Result<Option<(usize, bool)>, Fail> {
    let instance = morning(alloc)?;
    let state = split_state(alloc, &instance)?;
    hinted_of_three(rt, &state)
}

// The prices were posted for the first node, which has no cuts; its second part has one.
#[test]
fn the_prices_above_a_part_are_known_of_it(rt: HostRuntime) -> Result<(), Fail> {
    let cuts = hinted_for_morning(&rt, rt.alloc())?;
    assert!(rt; cuts == Some((1, true)));
    Ok(())
}
