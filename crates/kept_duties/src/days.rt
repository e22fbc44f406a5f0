//! Whole days that come back.

use break_rules::NoMemory;
use plan_comparison::{duties_on, kept_on};
use shift_instance::Rows;
use shift_tables::ShiftTables;
use std::alloc::Global;
use working_plan::{Placed, Plan};

/// The most days of a planning period.
const DAYS: u8 = 7;

/// How many choices of days there are.
const CHOICES: u8 = 128;

/// The duties of a plan, and those that are wanted.
#[derive(Clone, Copy)]
pub(crate) struct Sides<'a> {
    /// The duties of the plan.
    pub(crate) own: &'a [Placed],
    /// The wanted ones.
    pub(crate) wanted: &'a [Placed],
    /// How many more wanted duties the plan has once it has the wanted ones of a day, for each day.
    pub(crate) gains: &'a [u128],
    /// What a wanted duty counts that the plan doesn't have, as much as that cost.
    pub(crate) change: f64,
}

/// A choice of the days that have their wanted duties, where the others have the plan's own.
#[derive(Clone, Copy)]
struct Choice {
    /// The days, as bits: day 0 is the lowest.
    days: u8,
    /// What the plan costs then, less what the wanted duties count that it has more then.
    cost: f64,
    /// How many more of the wanted duties it has then.
    gain: u128,
}

impl Choice {
    /// Whether the plan is cheaper by this choice than by another, or just as cheap with more of the wanted duties.
    fn is_better_than(&self, other: &Choice) -> bool {
        self.cost < other.cost || (self.cost <= other.cost && other.gain < self.gain)
    }
}

/// Whether a choice has a day.
fn has_day(days: u8, day: u8) -> bool {
    let from = days.checked_shr(u32::from(day)).unwrap_or(0);
    from % 2 == 1
}

/// How many more wanted duties a plan has once it has the wanted ones of a day, for each day.
pub(crate) fn gains_of(alloc: Global, rows: &Rows, wanted: &Rows) -> Result<Vec<u128>, NoMemory> {
    let mut gains = Vec::new(alloc);
    for day in 0..DAYS {
        gains.push(duties_on(wanted, day).saturating_sub(kept_on(wanted, rows, day)))?;
    }
    Ok(gains)
}

/// How many more of the wanted duties a plan has by a choice of days.
fn gain_of(gains: &[u128], days: u8) -> u128 {
    let mut sum = 0u128;
    for day in 0..DAYS {
        if has_day(days, day) {
            let gain = gains.get(usize::from(day)).copied().unwrap_or(0);
            sum = sum.saturating_add(gain);
        }
    }
    sum
}

/// A number of duties as a factor. No plan has as many as the greatest that is given.
fn as_float(duties: u128) -> f64 {
    f64::from(u32::try_from(duties).unwrap_or(u32::MAX))
}

/// Takes the duties of a day out of a plan.
fn take_day(plan: &mut Plan, tables: &ShiftTables, placed: &[Placed], day: u8) {
    for one in placed {
        if one.day == usize::from(day) {
            plan.take(tables, one);
        }
    }
}

/// Puts the duties of a day into a plan.
fn put_day(
    plan: &mut Plan,
    tables: &ShiftTables,
    placed: &[Placed],
    day: u8,
) -> Result<(), NoMemory> {
    for one in placed {
        if one.day == usize::from(day) {
            plan.put(tables, one)?;
        }
    }
    Ok(())
}

/// Gives a day the duties that a choice says.
fn turn_day(
    plan: &mut Plan,
    tables: &ShiftTables,
    sides: &Sides,
    day: u8,
    is_wanted: bool,
) -> Result<(), NoMemory> {
    let (gone, made) = if is_wanted {
        (sides.own, sides.wanted)
    } else {
        (sides.wanted, sides.own)
    };
    take_day(plan, tables, gone, day);
    put_day(plan, tables, made, day)
}

/// Takes a plan from one choice of days to another.
fn turn(
    plan: &mut Plan,
    tables: &ShiftTables,
    sides: &Sides,
    from: u8,
    to: u8,
) -> Result<(), NoMemory> {
    for day in 0..DAYS {
        let is_wanted = has_day(to, day);
        if has_day(from, day) != is_wanted {
            turn_day(plan, tables, sides, day, is_wanted)?;
        }
    }
    Ok(())
}

/// Of all choices of days the one by which a plan, which has its own duties, is cheapest with what wanted duties count that it lacks, and has
/// the most of them among the cheapest. The plan is as the last choice makes it then.
fn best_choice(plan: &mut Plan, tables: &ShiftTables, sides: &Sides) -> Result<Choice, NoMemory> {
    let mut best = Choice {
        days: 0,
        cost: plan.cost,
        gain: 0,
    };
    for days in 1..CHOICES {
        turn(plan, tables, sides, days.saturating_sub(1), days)?;
        let gain = gain_of(sides.gains, days);
        let choice = Choice {
            days,
            cost: plan.cost - sides.change * as_float(gain),
            gain,
        };
        if choice.is_better_than(&best) {
            best = choice;
        }
    }
    Ok(best)
}

/// Gives a plan, which has its own duties, the wanted ones on those days where it is cheapest with them, and on the most of those where it
/// is just as cheap.
pub(crate) fn restore_days(
    plan: &mut Plan,
    tables: &ShiftTables,
    sides: &Sides,
) -> Result<(), NoMemory> {
    let best = best_choice(plan, tables, sides)?;
    turn(plan, tables, sides, CHOICES.saturating_sub(1), best.days)
}
