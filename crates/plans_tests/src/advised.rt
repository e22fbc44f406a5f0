//! Prices, plans and splits that are advised for the adviser's day, for another one, and where a stop asks.
ghost use Rattle.std.specs.Prelude.{◌≡◌, [], true};

use advice::{Advice, Adviser, Ask, Never, Splitting, Stop};
use dual_bound::prove;
use fixtures::{MORNING, MORNING_OF_TWO, instance_of, morning};
use head_splits::{Cuts, Hint, Prices};
use rota_cost::cost_rows;
use shift_instance::{Instance, Rows};
use std::alloc::Global;
use std::test::Fail;
use thorough_search::{Budget, Thorough};

/// Slots of a quarter of an hour, of one day. The one shift has 51 slots from midnight on, in which a slot of work and a slot of break take
/// turns, and at most one duty on a day; one employee is needed where it works. Excess costs 1, shortage 2 and the shift 3.
const MANY_BREAKS: &str =
    "{\"slot_minutes\":15,\"days\":1,\"need\":[1,0,1,0,1,0,1,0,1,0,1,0,1,0,1,0,1,0,1,0,1,0,1,0,1,0,1,0,1,0,1,0,1,0,1,0,1,0,1,0,1,0,1,0,1,0,1,0,1,0,1,0,0,0,0,0,0,0,0,0,0,0,0,0,0,0,0,0,0,0,0,0,0,0,0,0,0,0,0,0,0,0,0,0,0,0,0,0,0,0,0,0,0,0,0,0],\"max_heads\":1,\"weights\":{\"excess\":1,\"shortage\":2,\"shift\":3},\"types\":[{\"name\":\"L\",\"start_min\":0,\"start_max\":0,\"len_min\":51,\"len_max\":51,\"breaks\":{\"lead\":1,\"tail\":1,\"work_min\":1,\"work_max\":1,\"long_work\":1,\"long_rest\":1,\"size_min\":1,\"size_max\":1,\"totals\":[[51,25]],\"lunches\":[],\"resettle\":0}}]}";

/// What is asked for the node without cuts, where the plan without duties is the best and costs so much, and no prices were posted.
fn asked(alloc: Global, best: u64) -> Ask
    ensures { result.cuts ≡ [] }
{
    Ask {
        cuts: Cuts::new(Vec::new(alloc)),
        floor: 0,
        best,
        hint: Hint {
            prices: None,
            rows: Rows::new(Vec::new(alloc)),
        },
    }
}

/// The bound that prices give at the root, where they give one.
fn bound_of(alloc: Global, instance: &Instance, prices: Prices) -> Option<u64> {
    match prove(alloc, instance, Cuts::new(Vec::new(alloc)), prices) {
        Ok(proved) => Some(proved.bound()),
        Err(_) => None,
    }
}

/// What a plan costs, where there is one and it is legal.
fn cost_of(instance: &Instance, plan: Option<Rows>) -> Option<u64> {
    match cost_rows(instance, plan?) {
        Ok(costed) => Some(costed.cost()),
        Err(_) => None,
    }
}

/// The number of a split of the first shift on the first day.
fn number_of(split: Option<Splitting>) -> Option<u16> {
    let Splitting { class, m } = split?;
    if (class.shift, class.day) == (0, 0) {
        Some(m)
    } else {
        None
    }
}

/// What is looked at of an advice for the node without cuts: the bound that its prices give, what its plan costs, and the number of its split.
type Seen = (Option<u64>, Option<u64>, Option<u16>);

/// What is seen of an advice for the instance.
fn seen(alloc: Global, instance: &Instance, advice: Advice) -> Seen {
    let Advice {
        prices,
        plan,
        split,
    } = advice;
    let bound = bound_of(alloc, instance, prices);
    (bound, cost_of(instance, plan), number_of(split))
}

/// What is seen of an adviser's advice for a day, on which the plan without duties costs so much.
fn seen_on<S: Stop + Clone>(
    alloc: Global,
    day: &str,
    best: u64,
    mut adviser: Thorough<S>,
) -> Result<Seen, Fail> {
    let instance = instance_of(alloc, day)?;
    let advice = adviser.advise(&instance, &asked(alloc, best))?;
    Ok(seen(alloc, &instance, advice))
}

// The best prices earn what the shift costs, which its plan costs too. The adviser makes itself of the day at its first advice.
#[test]
fn an_adviser_closes_its_day(rt: HostRuntime) -> Result<(), Fail> {
    let alloc = rt.alloc();
    let found = seen_on(alloc, MORNING, 8, Thorough::new(alloc, 1, Never))?;
    assert_eq!(rt; found, (Some(3), Some(3), None));
    Ok(())
}

/// The adviser of a day.
fn adviser_of(alloc: Global, day: &str) -> Result<Thorough<Never>, Fail> {
    let instance = instance_of(alloc, day)?;
    let adviser = Thorough::of(alloc, &instance, 1, Never)?;
    Ok(adviser)
}

// As two duties may be, half a shift would do, which costs half of it: the node is split above one duty, as a second one would only cost.
#[test]
fn the_adviser_of_a_day_splits_it(rt: HostRuntime) -> Result<(), Fail> {
    let alloc = rt.alloc();
    let found = seen_on(alloc, MORNING_OF_TWO, 8, adviser_of(alloc, MORNING_OF_TWO)?)?;
    assert_eq!(rt; found, (Some(2), Some(3), Some(1)));
    Ok(())
}

// The prices are those of a day of fewer slots, which give no bound here. The plans that the search has are none of this day, and the
// greedy plan is one: the duty is just what is needed and costs the shift, where the 26 slots without anybody cost 52.
#[test]
fn an_adviser_of_another_day_advises_nothing_unlawful(rt: HostRuntime) -> Result<(), Fail> {
    let alloc = rt.alloc();
    let found = seen_on(alloc, MANY_BREAKS, 52, adviser_of(alloc, MORNING)?)?;
    assert_eq!(rt; (found.0, found.1), (None, Some(3)));
    Ok(())
}

// The first step is a usual one and takes a hundredth of the bytes, and so the second gets twice its work. Both close the day.
#[test]
fn an_adviser_within_a_budget_closes_its_day(rt: HostRuntime) -> Result<(), Fail> {
    let alloc = rt.alloc();
    let instance = morning(alloc)?;
    let budget = Budget {
        bytes: 18_400,
        seconds: 1_000,
    };
    let mut adviser = Thorough::within(alloc, &instance, 1, Never, budget)?;
    for _ in 0..2 {
        let advice = adviser.advise(&instance, &asked(alloc, 8))?;
        assert_eq!(rt; seen(alloc, &instance, advice), (Some(3), Some(3), None));
    }
    Ok(())
}

/// A stop that asks from the beginning.
#[derive(Clone, Copy)]
struct Stopping;

impl Stop for Stopping {
    ghost can_ask = { λ stopping. true };

    fn is_asked(&self) -> bool {
        true
    }
}

// The first prices are those of an employee too few in each of the four slots, which earn more than the shift costs: they give the bound
// 3. There is no time for a plan.
#[test]
fn what_is_known_is_advised_once_a_stop_asks(rt: HostRuntime) -> Result<(), Fail> {
    let alloc = rt.alloc();
    let found = seen_on(alloc, MORNING, 8, Thorough::new(alloc, 1, Stopping))?;
    assert_eq!(rt; (found.0, found.1), (Some(3), None));
    Ok(())
}
