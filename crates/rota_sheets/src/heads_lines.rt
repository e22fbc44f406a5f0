//! A table of how many duties each shift has on each day, as lines of text.
ghost use Rattle.std.specs.Prelude.{◌≡◌, IfOk, IsTrue, length};
ghost use Rattle.shift_instance.specs.Rota.{are_legal_rows};

use crate::heads::{UsedShift, duties_on, heads_on, used_shifts};
use crate::names::kind_name;
use break_rules::NoMemory;
use plan_tables::Period;
use shift_instance::{Instance, Rows};
use std::alloc::Global;
use std::fmt::Write;

/// The column of a day.
#[derive(Clone, Copy, Drop)]
struct DayColumn {
    /// How many duties start on the day.
    duties: u64,
    /// How wide the column is.
    width: usize,
}

/// The columns of a table of duties by shift and day.
#[derive(Drop)]
struct Columns {
    /// How wide the names of types are.
    names: usize,
    /// The columns of the days, from the first.
    days: Vec<DayColumn>,
    /// How many duties there are.
    duties: u64,
    /// How wide the column of sums is.
    sums: usize,
}

/// How many bytes the longest name of a used type has, or what stands above the names.
fn name_width(instance: &Instance, used: &[UsedShift]) -> usize {
    let mut width = "shift".len();
    for one in used {
        width = kind_name(instance, one.shift.kind).len().max(width);
    }
    width
}

/// How wide a column is below its head, with numbers up to the greatest: two spaces lie between columns.
fn column_width(alloc: Global, head: &str, greatest: u64) -> Result<usize, NoMemory> {
    let digits = greatest.to_string(alloc)?.len();
    Ok(head.chars().count().max(digits).saturating_add(2))
}

/// The columns of the days.
fn day_columns(
    alloc: Global,
    instance: &Instance,
    rows: &Rows,
    days: &[&str],
) -> Result<Vec<DayColumn>, NoMemory>
    requires legal { IsTrue (are_legal_rows instance.now rows.now) }
    requires names { length days.now ≡ instance.now.days }
    ensures { IfOk result (λ columns. length columns.items ≡ instance.now.days) }
{
    let mut columns = Vec::new(alloc);
    for day in 0..instance.days() {
        let duties = duties_on(instance, rows, day);
        let width = column_width(alloc, days[usize::from(day)], duties)?;
        columns.push(DayColumn { duties, width })?;
    }
    Ok(columns)
}

/// How many duties start on the days together.
fn all_duties(instance: &Instance, rows: &Rows) -> u64
    requires { IsTrue (are_legal_rows instance.now rows.now) }
{
    let mut duties = 0;
    for day in 0..instance.days() {
        duties += duties_on(instance, rows, day);
    }
    duties
}

/// The columns of the table of a plan.
fn columns_of(
    alloc: Global,
    instance: &Instance,
    rows: &Rows,
    used: &[UsedShift],
    days: &[&str],
) -> Result<Columns, NoMemory>
    requires legal { IsTrue (are_legal_rows instance.now rows.now) }
    requires names { length days.now ≡ instance.now.days }
    ensures { IfOk result (λ columns. length columns.days.items ≡ instance.now.days) }
{
    let duties = all_duties(instance, rows);
    Ok(Columns {
        names: name_width(instance, used),
        days: day_columns(alloc, instance, rows, days)?,
        duties,
        sums: column_width(alloc, "sum", duties)?,
    })
}

/// Adds what the columns are.
fn add_head(text: &mut String, columns: &Columns, days: &[&str]) -> Result<(), NoMemory> {
    let first = "shift";
    // Behind the names stand two spaces and the times of the shift.
    let width = columns.names.saturating_add(13);
    write!(text, "{first:<width$}")?;
    for (name, column) in days.iter().zip(columns.days.as_slice()) {
        let width = column.width;
        write!(text, "{name:>width$}")?;
    }
    let (last, width) = ("sum", columns.sums);
    writeln!(text, "{last:>width$}")
}

/// Adds a number at the right end of a column, or `-` for none.
fn add_number(text: &mut String, number: u64, width: usize) -> Result<(), NoMemory> {
    let none = "-";
    match number {
        0 => write!(text, "{none:>width$}"),
        _ => write!(text, "{number:>width$}"),
    }
}

/// Adds the name and the times of a shift.
fn add_shift(
    text: &mut String,
    instance: &Instance,
    columns: &Columns,
    used: &UsedShift,
) -> Result<(), NoMemory> {
    let (name, width) = (kind_name(instance, used.shift.kind), columns.names);
    let period = Period::of_slots(instance, u32::from(used.shift.start), used.shift.len);
    write!(text, "{name:<width$}  {period}")
}

/// Adds the line of a shift.
fn add_line(
    text: &mut String,
    instance: &Instance,
    rows: &Rows,
    columns: &Columns,
    used: &UsedShift,
) -> Result<(), NoMemory>
    requires legal { IsTrue (are_legal_rows instance.now rows.now) }
    requires days { length columns.now.days.items ≡ instance.now.days }
{
    add_shift(text, instance, columns, used)?;
    let mut sum = 0;
    for day in 0..instance.days() {
        let heads = heads_on(instance, rows, used.number, day);
        add_number(text, heads, columns.days[usize::from(day)].width)?;
        sum += heads;
    }
    add_number(text, sum, columns.sums)?;
    text.push_str("\n")
}

/// Adds the line of the sums of the days.
fn add_sums(text: &mut String, columns: &Columns) -> Result<(), NoMemory> {
    let all = "all";
    let width = columns.names.saturating_add(13);
    write!(text, "{all:<width$}")?;
    for column in &columns.days {
        add_number(text, column.duties, column.width)?;
    }
    add_number(text, columns.duties, columns.sums)?;
    text.push_str("\n")
}

/// How many duties of each shift start on each day of a legal plan, as a table: a line for each shift that has a duty, by its start,
/// then by its length, then by its type, with the sum of its duties, and a last line for all shifts. `-` stands for none. The names of
/// the days stand above their columns.
pub fn heads_text(
    alloc: Global,
    instance: &Instance,
    rows: &Rows,
    days: &[&str],
) -> Result<String, NoMemory>
    requires legal { IsTrue (are_legal_rows instance.now rows.now) }
    requires names { length days.now ≡ instance.now.days }
{
    let used = used_shifts(alloc, instance, rows)?;
    let columns = columns_of(alloc, instance, rows, used.as_slice(), days)?;
    let mut text = String::new(alloc);
    add_head(&mut text, &columns, days)?;
    for one in &used {
        add_line(&mut text, instance, rows, &columns, one)?;
    }
    add_sums(&mut text, &columns)?;
    Ok(text)
}
