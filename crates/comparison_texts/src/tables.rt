//! What became of the duties of each day, as a table.

use break_rules::NoMemory;
use plan_comparison::DayChanges;
use std::alloc::Global;

/// The changes of all days together.
fn total(days: &[DayChanges]) -> DayChanges {
    let mut total = DayChanges {
        kept: 0,
        gone: 0,
        new: 0,
    };
    for day in days {
        total.kept = total.kept.saturating_add(day.kept);
        total.gone = total.gone.saturating_add(day.gone);
        total.new = total.new.saturating_add(day.new);
    }
    total
}

/// Adds a line of the table.
fn add_line(
    alloc: Global,
    text: &mut String,
    name: &str,
    changes: &DayChanges,
) -> Result<(), NoMemory> {
    let line = format!(in alloc;
        "{name:>3}{:>10}{:>10}{:>10}\n",
        changes.kept, changes.gone, changes.new
    )?;
    text.push_str(line.as_str())
}

/// A table of how many duties are kept, gone and new on each day, counted from 1, and on all days.
pub fn changes_table(alloc: Global, days: &[DayChanges]) -> Result<String, NoMemory> {
    let mut text = String::from_str(alloc, "day      kept      gone       new\n")?;
    for (k, day) in days.iter().enumerate() {
        let name = format!(in alloc; "{}", k.saturating_add(1))?;
        add_line(alloc, &mut text, name.as_str(), day)?;
    }
    add_line(alloc, &mut text, "all", &total(days))?;
    Ok(text)
}
