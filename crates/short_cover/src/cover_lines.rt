//! How well a plan covers what is wanted, as lines of text.
ghost use Rattle.std.specs.Prelude.{◌≡◌};

use crate::least::{LeastCover, least_covers};
use crate::moments::time_of;
use crate::short::{ShortSlot, short_slots};
use break_rules::NoMemory;
use plan_tables::Attendance;
use shift_instance::Instance;
use std::alloc::Global;
use std::fmt::Write;

/// Adds how many slots are short, and what the columns of their lines are.
fn add_head(text: &mut String, count: usize) -> Result<(), NoMemory> {
    if count == 1 {
        text.push_str("Below need in 1 slot:\n")?;
    } else {
        writeln!(text, "Below need in {count} slots, the worst first:")?;
    }
    text.push_str("day  time    wanted  working  on break\n")
}

/// Adds the line of a short slot.
fn add_slot(text: &mut String, instance: &Instance, slot: &ShortSlot) -> Result<(), NoMemory> {
    let (day, time) = (slot.day(instance), slot.time(instance));
    write!(text, "{day:>3}  {time}")?;
    let (wanted, working, on_break) = (slot.wanted, slot.working, slot.on_break);
    write!(text, "{wanted:>9}{working:>9}{on_break:>10}")?;
    if working == 0 {
        text.push_str("  nobody works")?;
    }
    text.push_str("\n")
}

/// Adds the lines of short slots.
fn add_slots(text: &mut String, instance: &Instance, slots: &[ShortSlot]) -> Result<(), NoMemory> {
    for slot in slots {
        add_slot(text, instance, slot)?;
    }
    Ok(())
}

/// Adds the slots below their needs: at most so many, and how many there are beyond these.
fn add_short(
    text: &mut String,
    instance: &Instance,
    short: &[ShortSlot],
    most: usize,
) -> Result<(), NoMemory> {
    let (shown, rest) = short.split_at(most.min(short.len()));
    if short.is_empty() {
        return text.push_str("No slot is below its need.\n");
    }
    add_head(text, short.len())?;
    add_slots(text, instance, shown)?;
    match rest.len() {
        0 => Ok(()),
        more => writeln!(text, "and {more} more"),
    }
}

/// Adds the line of a day, counted from 1.
fn add_cover(
    text: &mut String,
    instance: &Instance,
    day: usize,
    cover: Option<LeastCover>,
) -> Result<(), NoMemory> {
    match cover {
        None => writeln!(text, "day {day}  nobody is wanted"),
        Some(cover) => {
            let time = time_of(instance, cover.slot);
            let (working, wanted) = (cover.working, cover.wanted);
            writeln!(
                text,
                "day {day}  {time}  {working} at work, {wanted} wanted"
            )
        }
    }
}

/// Adds the least cover of each day.
fn add_covers(
    text: &mut String,
    instance: &Instance,
    covers: &[Option<LeastCover>],
) -> Result<(), NoMemory> {
    text.push_str("Least cover of each day:\n")?;
    for (k, cover) in covers.iter().enumerate() {
        add_cover(text, instance, k.saturating_add(1), *cover)?;
    }
    Ok(())
}

/// How well a plan covers what is wanted, as lines of text: at most so many of the slots below their needs, the worst first, and the
/// least cover of each day.
pub fn short_text(
    alloc: Global,
    instance: &Instance,
    attendance: &Attendance,
    most: usize,
) -> Result<String, NoMemory>
    requires { attendance.now.instance ≡ instance.now }
{
    let short = short_slots(alloc, instance, attendance)?;
    let covers = least_covers(alloc, instance, attendance)?;
    let mut text = String::new(alloc);
    add_short(&mut text, instance, short.as_slice(), most)?;
    text.push_str("\n")?;
    add_covers(&mut text, instance, covers.as_slice())?;
    Ok(text)
}
