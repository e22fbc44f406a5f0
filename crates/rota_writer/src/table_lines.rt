//! The table of a rota.
ghost use Rattle.std.specs.Prelude.{◌≡◌, ◌<◌, ◌++◌, IsTrue, OnOk, IfOk, codes, length, string_bytes};
ghost use Rattle.std.specs.List.{flat_map};
ghost use Rattle.shift_instance.specs.Problem.{shift_list};
ghost use Rattle.shift_instance.specs.Rota.{are_legal_rows};
ghost use Rattle.shift_instance.specs.Valid.{IsShift};
ghost use Rattle.rota_writer.specs.Table.{two_digits, clock, period_text, break_text, breaks_text, day_number, name_of, when_text, crew_text, line_of, row_table_line, table_text};

use break_rules::{Break, NoMemory};
use shift_instance::{Instance, Row, Rows, Shift};
use std::alloc::Global;
use std::fmt::Write;

/// Adds a number below 100 in two digits.
fn add_two_digits(text: &mut String, number: u64) -> Result<(), NoMemory>
    ensures { OnOk result (string_bytes text.new ≡ string_bytes text.old ++ two_digits number) }
{
    let tens = number / 10;
    let units = number % 10;
    write!(text, "{tens}{units}")
}

/// Adds a time in minutes from the beginning of some day on, as a clock shows it.
fn add_clock(text: &mut String, minutes: u64) -> Result<(), NoMemory>
    ensures { OnOk result (string_bytes text.new ≡ string_bytes text.old ++ clock minutes) }
{
    let time = minutes % 1440;
    add_two_digits(text, time / 60)?;
    text.push_str(":")?;
    add_two_digits(text, time % 60)
}

/// Adds when a length of slots from a slot on begins and ends.
fn add_period(text: &mut String, instance: &Instance, first: u32, len: u16) -> Result<(), NoMemory>
    ensures { OnOk result (string_bytes text.new ≡ string_bytes text.old ++ period_text instance.now first len) }
{
    let parts = instance.parts();
    let slot_minutes = u64::from(parts.slot_minutes);
    let begin = u64::from(first);
    let end = begin + u64::from(len);
    add_clock(text, begin * slot_minutes)?;
    text.push_str("-")?;
    add_clock(text, end * slot_minutes)
}

/// Adds a break of a shift that starts at a slot.
fn add_break(text: &mut String, instance: &Instance, start: u16, b: &Break) -> Result<(), NoMemory>
    ensures { OnOk result (string_bytes text.new ≡ string_bytes text.old ++ break_text instance.now start b.now) }
{
    add_period(text, instance, u32::from(start) + u32::from(b.start), b.len)
}

/// Adds further breaks, each with a comma before it.
fn add_further(
    text: &mut String,
    instance: &Instance,
    start: u16,
    breaks: &[Break],
) -> Result<(), NoMemory>
    ensures { OnOk result (string_bytes text.new ≡ string_bytes text.old ++ flat_map (λ next. codes "," ++ break_text instance.now start next) breaks.now) }
{
    for next in breaks {
        text.push_str(",")?;
        add_break(text, instance, start, next)?;
    }
    Ok(())
}

/// Adds breaks with commas between them, and `-` where there are none.
fn add_breaks(
    text: &mut String,
    instance: &Instance,
    start: u16,
    breaks: &[Break],
) -> Result<(), NoMemory>
    ensures { OnOk result (string_bytes text.new ≡ string_bytes text.old ++ breaks_text instance.now start breaks.now) }
{
    match breaks {
        [] => text.push_str("-"),
        [first, further @ ..] => {
            add_break(text, instance, start, first)?;
            add_further(text, instance, start, further)
        }
    }
}

/// The day on which a shift of a duty on a day starts, counted from 1.
fn day_number(instance: &Instance, shift: Shift, day: u8) -> u32
    ensures { result ≡ day_number instance.now shift day }
{
    let parts = instance.parts();
    let day_slots = 1440 / u32::from(parts.slot_minutes);
    (u32::from(day) + u32::from(shift.start) / day_slots) % u32::from(instance.days()) + 1
}

/// Adds the name of a type.
fn add_name(text: &mut String, instance: &Instance, kind: u16) -> Result<(), NoMemory>
    requires { kind < length instance.now.kinds }
    ensures { OnOk result (string_bytes text.new ≡ string_bytes text.old ++ name_of instance.now kind) }
{
    let parts = instance.parts();
    let kind = &parts.types[usize::from(kind)];
    text.push_str(kind.name.as_str())
}

/// Adds the day and the time of a shift of a duty on a day, as a line begins.
fn add_when(text: &mut String, instance: &Instance, shift: Shift, day: u8) -> Result<(), NoMemory>
    ensures { OnOk result (string_bytes text.new ≡ string_bytes text.old ++ when_text instance.now shift day) }
{
    let number = day_number(instance, shift, day);
    write!(text, "# day {number} ")?;
    add_period(text, instance, u32::from(shift.start), shift.len)
}

/// Adds how many duties there are, and of which type.
fn add_crew(
    text: &mut String,
    instance: &Instance,
    shift: Shift,
    count: u16,
) -> Result<(), NoMemory>
    requires { IsShift instance.now shift }
    ensures { OnOk result (string_bytes text.new ≡ string_bytes text.old ++ crew_text instance.now shift count) }
{
    write!(text, " x{count} ")?;
    add_name(text, instance, shift.kind)
}

/// Adds the line of a row of a shift.
fn add_line(text: &mut String, instance: &Instance, shift: Shift, row: &Row) -> Result<(), NoMemory>
    requires { IsShift instance.now shift }
    ensures { OnOk result (string_bytes text.new ≡ string_bytes text.old ++ line_of instance.now shift row.now) }
{
    add_when(text, instance, shift, row.day)?;
    add_crew(text, instance, shift, row.count)?;
    text.push_str(" ")?;
    add_breaks(text, instance, shift.start, row.breaks.as_slice())?;
    text.push_str("\n")
}

/// Adds the line of a row.
fn add_row(text: &mut String, instance: &Instance, row: &Row) -> Result<(), NoMemory>
    requires { row.now.shift < length (shift_list instance.now) }
    ensures { OnOk result (string_bytes text.new ≡ string_bytes text.old ++ row_table_line instance.now row.now) }
{
    let shift = instance.shift(row.shift);
    add_line(text, instance, shift, row)
}

/// The table of legal rows, as bytes: for each row, in the order of the rows, one line
/// `# day DAY HH:MM-HH:MM xCOUNT NAME BREAKS` with its line feed.
///
/// DAY is the day on which the shift starts, counted from 1, and the times are those of the shift's beginning and end.
/// BREAKS is `-` where there are none, else their beginnings and ends in the same form, joined by commas. Times are those of a
/// clock: midnight is `00:00`, also as an end.
pub fn table(alloc: Global, instance: &Instance, rows: &Rows) -> Result<Vec<u8>, NoMemory>
    requires { IsTrue (are_legal_rows instance.now rows.now) }
    ensures { IfOk result (λ text. text.items ≡ table_text instance.now rows.now) }
{
    let mut text = String::new(alloc);
    for row in rows.as_slice() {
        add_row(&mut text, instance, row)?;
    }
    Ok(text.into_bytes())
}
