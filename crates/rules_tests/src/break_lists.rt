//! Which lists of breaks lead on to a legal one, and which is the least, worked out by hand.
ghost use Rattle.break_rules.specs.Ranges.{IsRule};

use crate::small_rules::{eighth, judge, short, window};
use break_rules::{Break, LiveSpots, Lunches, NoMemory, Rule, Spot, least, live};
use std::alloc::Global;
use std::process::Abort;
use std::test::Fail;

/// Stops the test where no list of a shift of 8 slots begins with a short break at 5, or the least one isn't that of one at 2.
fn judge_lists(rt: &impl Abort, alloc: Global, rule: &Rule) -> Result<(), NoMemory>
    requires { IsRule rule.now }
{
    assert!(rt; live(alloc, rule, 8, &[short(5)])?);
    let found = least(alloc, rule, 8)?;
    assert!(rt; found.is_some_and(|list| list.as_slice() == [short(2)].as_slice()));
    Ok(())
}

#[test]
fn the_least_list(rt: HostRuntime) -> Result<(), Fail> {
    let alloc = rt.alloc();
    let rule = eighth(alloc)?;
    judge(&rt, &rule);
    judge_lists(&rt, alloc, &rule)?;
    Ok(())
}

/// The rule with a lunch between offsets 3 and 4.
fn with_lunch(alloc: Global) -> Result<Rule, NoMemory> {
    let mut rule = eighth(alloc)?;
    rule.lunches = Lunches::new(Vec::from_slice(alloc, &[window(3, 4)])?);
    Ok(rule)
}

/// The first break that leads on from the start of a shift of 8 slots.
fn first_break(alloc: Global, rule: &Rule) -> Result<Option<Break>, NoMemory>
    requires { IsRule rule.now }
{
    let spots = LiveSpots::new(alloc, rule, 8)?;
    Ok(spots.first_next(rule, Spot::opening()))
}

/// The breaks that lead on from the start of a shift of 8 slots have to be the lunch at 3.
#[test]
fn a_lunch_leads_the_walk(rt: HostRuntime) -> Result<(), Fail> {
    let alloc = rt.alloc();
    let rule = with_lunch(alloc)?;
    judge(&rt, &rule);
    assert_eq!(rt; first_break(alloc, &rule)?, Some(short(3)));
    Ok(())
}
