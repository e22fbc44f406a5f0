//! The breaks of a plan by time of day, as lines of text.
ghost use Rattle.std.specs.Prelude.{◌≡◌, IsTrue, length};
ghost use Rattle.shift_instance.specs.Rota.{are_legal_rows};

use crate::breaks::{TakenBreak, taken_breaks};
use crate::names::kind_name;
use break_rules::NoMemory;
use plan_tables::{Period, day_slots};
use shift_instance::{Instance, Rows};
use std::alloc::Global;
use std::fmt::Write;

/// Whether two breaks begin and end at the same time.
fn are_at_once(a: &TakenBreak, b: &TakenBreak) -> bool {
    a.begin == b.begin && a.len == b.len
}

/// Adds a break to others. Where duties of its shift take the last of these at the same time, it is counted there.
fn add_to_others(others: &mut Vec<TakenBreak>, next: TakenBreak) -> Result<(), NoMemory> {
    match others.last_mut() {
        Some(last) if are_at_once(last, &next) && last.shift == next.shift => {
            last.count = last.count.saturating_add(next.count);
        }
        _ => others.push(next)?,
    }
    Ok(())
}

/// The breaks of a legal plan, each once for all duties of a shift that take it.
fn breaks_of_shifts(
    alloc: Global,
    instance: &Instance,
    rows: &Rows,
) -> Result<Vec<TakenBreak>, NoMemory>
    requires { IsTrue (are_legal_rows instance.now rows.now) }
{
    let taken = taken_breaks(alloc, instance, rows)?;
    let mut breaks = Vec::new(alloc);
    for next in &taken {
        add_to_others(&mut breaks, *next)?;
    }
    Ok(breaks)
}

/// Adds how many duties of which shift take a break.
fn add_duties(text: &mut String, instance: &Instance, taken: &TakenBreak) -> Result<(), NoMemory> {
    match instance.shifts().get(usize::from(taken.shift)) {
        None => Ok(()),
        Some(shift) => {
            let (count, name) = (taken.count, kind_name(instance, shift.kind));
            let period = Period::of_slots(instance, u32::from(shift.start), shift.len);
            write!(text, "{count} {name} {period}")
        }
    }
}

/// Adds a break, in the line of the break before it where both begin and end at the same time, else in a line of its own.
fn add_break(
    text: &mut String,
    instance: &Instance,
    before: Option<TakenBreak>,
    taken: &TakenBreak,
) -> Result<(), NoMemory> {
    let _valid = instance.slots();
    let first = taken.begin % day_slots(instance);
    match before {
        Some(last) if are_at_once(&last, taken) => text.push_str(", ")?,
        _ => {
            let period = Period::of_slots(instance, first as u32, taken.len);
            write!(text, "\n{period}  ")?;
        }
    }
    add_duties(text, instance, taken)
}

/// Adds the breaks that are taken on a day, counted from 0, below its name.
fn add_day(
    text: &mut String,
    instance: &Instance,
    breaks: &[TakenBreak],
    day: usize,
    name: &str,
) -> Result<(), NoMemory> {
    let _valid = instance.slots();
    text.push_str(name)?;
    let mut before = None;
    for taken in breaks {
        if taken.begin / day_slots(instance) == day {
            add_break(text, instance, before, taken)?;
            before = Some(*taken);
        }
    }
    if before.is_none() {
        text.push_str("\nno breaks")?;
    }
    text.push_str("\n")
}

/// The breaks of a legal plan by time of day: below the name of each day a line for each time at which some break begins and ends,
/// with how many duties of which shifts take it. A break belongs to the day on which it begins.
pub fn breaks_text(
    alloc: Global,
    instance: &Instance,
    rows: &Rows,
    days: &[&str],
) -> Result<String, NoMemory>
    requires legal { IsTrue (are_legal_rows instance.now rows.now) }
    requires names { length days.now ≡ instance.now.days }
{
    let breaks = breaks_of_shifts(alloc, instance, rows)?;
    let mut text = String::new(alloc);
    for (day, name) in days.iter().enumerate() {
        if 0 < day {
            text.push_str("\n")?;
        }
        add_day(&mut text, instance, breaks.as_slice(), day, name)?;
    }
    Ok(text)
}
