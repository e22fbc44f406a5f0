//! The fields of a duty, and the names of their columns.
ghost use Rattle.std.specs.Prelude.{◌≡◌, ◌+◌, ◌*◌, ◌^◌, ◌<◌, ◌++◌, IfOk, OnOk, codes, if◌then◌else◌, map, string_bytes};
ghost use Rattle.std.specs.List.{flat_map};
ghost use Rattle.rota_writer.specs.Table.{clock, name_of};
ghost use Rattle.shift_instance.specs.Problem.{below};
ghost use Rattle.shift_instance.specs.Rota.{duty_of};
ghost use Rattle.shift_instance.specs.Valid.{IsShift};
ghost use Rattle.table_records.specs.Guarding.{guarded};
ghost use Rattle.rota_table.specs.Fields.{break_columns, break_fields, day_name, duty_fields, ends_next_day, first_columns, first_fields, lacking_fields, rota_columns, worked_slots};

use break_rules::{Break, NoMemory};
use plan_tables::{ClockTime, Hours, day_number};
use shift_instance::{Instance, Row, Shift};
use std::alloc::Global;
use table_records::guarded;

/// The names of the columns before those of the breaks.
fn first_columns(alloc: Global) -> Result<Vec<String>, NoMemory>
    ensures { IfOk result (λ names. map string_bytes names.items ≡ first_columns) }
{
    let mut names = Vec::new(alloc);
    names.push(String::from_str(alloc, "day")?)?;
    names.push(String::from_str(alloc, "day_name")?)?;
    names.push(String::from_str(alloc, "start")?)?;
    names.push(String::from_str(alloc, "end")?)?;
    names.push(String::from_str(alloc, "next_day")?)?;
    names.push(String::from_str(alloc, "type")?)?;
    names.push(String::from_str(alloc, "paid")?)?;
    names.push(String::from_str(alloc, "worked")?)?;
    Ok(names)
}

/// Adds the names of the columns of a break.
fn add_break_columns(alloc: Global, names: &mut Vec<String>, number: usize) -> Result<(), NoMemory>
    requires { number + 1 < 2 ^ 64 }
    ensures { OnOk result (map string_bytes names.new.items ≡ map string_bytes names.old.items ++ break_columns number) }
{
    let shown = number as u64 + 1;
    names.push(format!(in alloc; "break_{shown}_start")?)?;
    names.push(format!(in alloc; "break_{shown}_end")?)?;
    Ok(())
}

/// The names of the columns, for so many breaks.
pub(crate) fn rota_columns(alloc: Global, most: usize) -> Result<Vec<String>, NoMemory>
    ensures { IfOk result (λ names. map string_bytes names.items ≡ rota_columns most) }
{
    let mut names = first_columns(alloc)?;
    for number in 0..most {
        add_break_columns(alloc, &mut names, number)?;
    }
    Ok(names)
}

/// Whether a shift ends at midnight or on the day after that on which it starts.
fn ends_next_day(instance: &Instance, shift: Shift) -> bool
    ensures { result ≡ ends_next_day instance.now shift }
{
    let parts = instance.parts();
    let day_slots = 1440 / u32::from(parts.slot_minutes);
    day_slots <= u32::from(shift.start) % day_slots + u32::from(shift.len)
}

/// The slots of a shift without its breaks.
fn worked_slots(len: u16, breaks: &[Break]) -> u16
    ensures { result ≡ worked_slots len breaks.now }
{
    let mut left = len;
    for b in breaks {
        left = left.saturating_sub(b.len);
    }
    left
}

/// The word for whether something is so.
fn yes_or_no(so: bool) -> &'static str
    ensures { result.now ≡ (if so then codes "yes" else codes "no") }
{
    if so { "yes" } else { "no" }
}

/// The time of a slot, counted from the beginning of a day, as a clock shows it.
fn clock_text(alloc: Global, instance: &Instance, slot: u32) -> Result<String, NoMemory>
    ensures { IfOk result (λ text. string_bytes text ≡ clock (slot * instance.now.slot_minutes)) }
{
    ClockTime::of_slot(instance, slot).to_string(alloc)
}

/// The name of a shift's type, guarded.
fn type_text(alloc: Global, instance: &Instance, shift: Shift) -> Result<String, NoMemory>
    requires { IsShift instance.now shift }
    ensures { IfOk result (λ text. string_bytes text ≡ guarded (name_of instance.now shift.kind)) }
{
    let parts = instance.parts();
    let kind = &parts.types[usize::from(shift.kind)];
    guarded(alloc, kind.name.as_str())
}

/// The name of a day by its number, counted from 1, guarded, and nothing where the day has no name.
fn day_name(alloc: Global, names: &[String], number: u32) -> Result<String, NoMemory>
    ensures { IfOk result (λ text. string_bytes text ≡ day_name names.now number) }
{
    match names.get(number.saturating_sub(1) as usize) {
        Some(name) => guarded(alloc, name.as_str()),
        None => Ok(String::new(alloc)),
    }
}

/// The fields of a duty of a row before those of its breaks.
fn first_fields(
    alloc: Global,
    instance: &Instance,
    names: &[String],
    shift: Shift,
    row: &Row,
) -> Result<Vec<String>, NoMemory>
    requires { IsShift instance.now shift }
    ensures { IfOk result (λ fields. map string_bytes fields.items ≡ first_fields instance.now names.now shift (duty_of row.now)) }
{
    let day = day_number(instance, shift, row.day);
    let start = u32::from(shift.start);
    let worked = worked_slots(shift.len, row.breaks.as_slice());
    let mut fields = Vec::new(alloc);
    fields.push(day.to_string(alloc)?)?;
    fields.push(day_name(alloc, names, day)?)?;
    fields.push(clock_text(alloc, instance, start)?)?;
    fields.push(clock_text(alloc, instance, start + u32::from(shift.len))?)?;
    fields.push(String::from_str(alloc, yes_or_no(ends_next_day(instance, shift)))?)?;
    fields.push(type_text(alloc, instance, shift)?)?;
    fields.push(Hours::of_slots(instance, u64::from(shift.len)).to_string(alloc)?)?;
    fields.push(Hours::of_slots(instance, u64::from(worked)).to_string(alloc)?)?;
    Ok(fields)
}

/// Adds the beginning and the end of a break of a shift that starts at a slot.
fn add_break(
    alloc: Global,
    fields: &mut Vec<String>,
    instance: &Instance,
    start: u16,
    b: &Break,
) -> Result<(), NoMemory>
    ensures { OnOk result (map string_bytes fields.new.items ≡ map string_bytes fields.old.items ++ break_fields instance.now start b.now) }
{
    let begin = u32::from(start) + u32::from(b.start);
    fields.push(clock_text(alloc, instance, begin)?)?;
    fields.push(clock_text(alloc, instance, begin + u32::from(b.len))?)?;
    Ok(())
}

/// Adds the beginnings and the ends of breaks of a shift that starts at a slot.
fn add_breaks(
    alloc: Global,
    fields: &mut Vec<String>,
    instance: &Instance,
    start: u16,
    breaks: &[Break],
) -> Result<(), NoMemory>
    ensures { OnOk result (map string_bytes fields.new.items ≡ map string_bytes fields.old.items ++ flat_map (break_fields instance.now start) breaks.now) }
{
    for b in breaks {
        add_break(alloc, fields, instance, start, b)?;
    }
    Ok(())
}

/// Adds the two empty fields of a break that a duty lacks.
fn add_lack(alloc: Global, fields: &mut Vec<String>) -> Result<(), NoMemory>
    ensures { OnOk result (map string_bytes fields.new.items ≡ map string_bytes fields.old.items ++ lacking_fields 0) }
{
    fields.push(String::new(alloc))?;
    fields.push(String::new(alloc))?;
    Ok(())
}

/// Adds the empty fields of so many breaks that a duty lacks.
fn add_lacking(alloc: Global, fields: &mut Vec<String>, count: usize) -> Result<(), NoMemory>
    ensures { OnOk result (map string_bytes fields.new.items ≡ map string_bytes fields.old.items ++ flat_map lacking_fields (below count)) }
{
    for _ in 0..count {
        add_lack(alloc, fields)?;
    }
    Ok(())
}

/// The fields of a duty of a row, with columns for so many breaks.
pub(crate) fn duty_fields(
    alloc: Global,
    instance: &Instance,
    names: &[String],
    most: usize,
    shift: Shift,
    row: &Row,
) -> Result<Vec<String>, NoMemory>
    requires { IsShift instance.now shift }
    ensures { IfOk result (λ fields. map string_bytes fields.items ≡ duty_fields instance.now names.now most shift (duty_of row.now)) }
{
    let breaks = row.breaks.as_slice();
    let mut fields = first_fields(alloc, instance, names, shift, row)?;
    add_breaks(alloc, &mut fields, instance, shift.start, breaks)?;
    add_lacking(alloc, &mut fields, most.saturating_sub(breaks.len()))?;
    Ok(fields)
}
