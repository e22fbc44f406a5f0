//! A search below a cut, and one of a whole day.
ghost use Rattle.std.specs.Prelude.{◌≤◌, IfOk, length};

use advice::Never;
use advisers::Fixed;
use break_rules::Breaks;
use fixtures::morning_of;
use head_splits::{Class, Cut, Cuts, Side};
use report_grafts::SubRun;
use shift_instance::Instance;
use std::alloc::{AllocError, Global};
use std::test::Fail;
use subtree_search::{solve_below, solve_below_by};

/// The one cut by which the shift has at least two duties.
fn two_heads(alloc: Global) -> Result<Cuts, AllocError>
    ensures { IfOk result (λ cuts. length cuts ≤ 1) }
{
    let class = Class {
        shift: 0,
        day: 0,
        prefix: Breaks::new(Vec::new(alloc)),
    };
    let cut = Cut {
        class,
        side: Side::AtLeast,
        m: 2,
    };
    Ok(Cuts::new(vec![in alloc; cut]?))
}

/// What the best rota of a run costs, its floor, and how many steps it took.
fn numbers(run: &SubRun) -> (Option<u64>, u64, u64) {
    let cost = match run.best() {
        Some(best) => Some(best.cost()),
        None => None,
    };
    (cost, run.floor(), run.taken())
}

/// The numbers of a search below at least two duties.
fn searched(alloc: Global) -> Result<(Option<u64>, u64, u64), Fail> {
    let instance = morning_of(alloc, "2")?;
    let run = solve_below(alloc, &instance, two_heads(alloc)?, 100, 10)?;
    Ok(numbers(&run))
}

// Below at least two duties two are the only ones, whose plan costs 7.
#[test]
fn a_settled_part_has_its_plan(rt: HostRuntime) -> Result<(), Fail> {
    assert!(rt; searched(rt.alloc())? == (Some(7), 7, 1));
    Ok(())
}

/// The numbers of a search of the whole day by price 0 alone.
fn by_no_prices(alloc: Global) -> Result<(Option<u64>, u64, u64), Fail> {
    let instance = morning_of(alloc, "2")?;
    let mut adviser = Fixed::new(alloc, 1, Vec::new(alloc));
    let base = Cuts::new(Vec::new(alloc));
    let run = solve_below_by(alloc, &instance, base, 100, 100, &mut adviser, &Never)?;
    Ok(numbers(&run))
}

// The root is split at one duty, its first part at none. No duty costs 8, one costs 3, and two cost 7.
#[test]
fn prices_of_nothing_split_until_nodes_are_settled(rt: HostRuntime) -> Result<(), Fail> {
    assert!(rt; by_no_prices(rt.alloc())? == (Some(3), 3, 5));
    Ok(())
}
