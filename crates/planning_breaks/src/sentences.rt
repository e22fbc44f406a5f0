//! What is said of breaks that were planned anew.

use crate::anew::Rebroken;
use plan_comparison::{duties_on, kept_on};
use shift_instance::Rows;
use std::alloc::{AllocError, Global};

/// How many duties of rows on a day others don't have.
fn other_on(before: &Rows, after: &Rows, day: u8) -> u128 {
    duties_on(after, day).saturating_sub(kept_on(before, after, day))
}

/// The days on which duties have other breaks, each with how many of them.
fn days_text(alloc: Global, before: &Rows, after: &Rows, days: u8) -> Result<String, AllocError> {
    let mut text = String::new(alloc);
    for day in 0..days {
        let other = other_on(before, after, day);
        if other == 0 {
            continue;
        }
        if !text.is_empty() {
            text.push_str(", ")?;
        }
        let number = u16::from(day) + 1;
        text.push_str(format!(in alloc; "day {number}: {other}")?.as_str())?;
    }
    Ok(text)
}

/// How many duties rows have, and how many of these others don't have.
fn duties_and_other(before: &Rows, after: &Rows, days: u8) -> (u128, u128) {
    let mut duties = 0u128;
    let mut other = 0u128;
    for day in 0..days {
        duties = duties.saturating_add(duties_on(after, day));
        other = other.saturating_add(other_on(before, after, day));
    }
    (duties, other)
}

/// What is said of breaks by which a plan costs less than before.
fn cheaper_text(
    alloc: Global,
    rebroken: &Rebroken,
    after: &Rows,
    cost: u64,
) -> Result<String, AllocError> {
    let days = rebroken.plan.instance.days();
    let cost_before = rebroken.cost_before;
    let less = cost_before.saturating_sub(cost);
    let (duties, other) = duties_and_other(&rebroken.before, after, days);
    let by_day = days_text(alloc, &rebroken.before, after, days)?;
    format!(in alloc;
        "{other} of {duties} duties got other breaks ({}), by which the plan costs {cost} in place of {cost_before}, {less} less",
        by_day.as_str()
    )
}

/// What is said of the breaks that were found.
fn found_text(
    alloc: Global,
    rebroken: &Rebroken,
    after: &Rows,
    cost: u64,
) -> Result<String, AllocError> {
    if cost < rebroken.cost_before {
        return cheaper_text(alloc, rebroken, after, cost);
    }
    format!(in alloc; "no breaks were found by which the plan costs less than {cost}")
}

/// What is said of how far the breaks of a plan of that cost are from the best ones.
fn best_text(alloc: Global, floor: u64, cost: u64) -> Result<String, AllocError> {
    let gap = cost.saturating_sub(floor);
    if gap == 0 {
        return String::from_str(
            alloc,
            "with as many duties of each shift on each day no legal plan costs less",
        );
    }
    format!(in alloc;
        "with as many duties of each shift on each day no legal plan costs less than {floor}, so other breaks save {gap} more at most"
    )
}

/// What is said of breaks that were planned anew: which duties have others now, what the plan costs with them, and how much less it could
/// cost at most.
pub fn breaks_sentence(alloc: Global, rebroken: &Rebroken) -> Result<String, AllocError> {
    let (found, best) = match &rebroken.plan.cert.plan {
        Some((cost, rows)) => (
            found_text(alloc, rebroken, rows, *cost)?,
            best_text(alloc, rebroken.floor, *cost)?,
        ),
        // it has rows
        None => (String::new(alloc), String::new(alloc)),
    };
    format!(in alloc; "{}; {}", found.as_str(), best.as_str())
}
