//! The rows of a plan that stand in a plan of another instance.
ghost use Rattle.std.specs.Prelude.{◌≡◌, ◌<◌, ◌++◌, ◌∷◌, IfOk, IfSome, IsTrue, List, OnOk, filter, length};
ghost use Rattle.shift_instance.specs.declared.Row.{Row};
ghost use Rattle.shift_instance.specs.Problem.{shift_list};
ghost use Rattle.shift_instance.specs.Rota.{are_legal_rows, is_list_of};
ghost use Rattle.carried_rows.specs.Carrying.{carried, carried_of, carried_on, carried_to, fitted, goes_to, is_like, like_of, moved};

use crate::obstacles::{has_type_named, name_of};
use break_rules::{Breaks, NoMemory, legal};
use shift_instance::{Instance, Row, Rows};
use std::alloc::Global;

/// Whether a shift of the new instance, by its number, is one of the old instance once more.
fn is_like(old: &Instance, new: &Instance, before: u16, after: u16) -> bool
    requires before { before < length (shift_list old.now) }
    requires after { after < length (shift_list new.now) }
    ensures { result ≡ is_like old.now new.now before after }
{
    let was = old.shift(before);
    let is = new.shift(after);
    old.parts().slot_minutes == new.parts().slot_minutes
        && was.start == is.start
        && was.len == is.len
        && has_type_named(new, is, name_of(old, was))
}

/// The first shift of the old instance, by its number, that is a shift of the new one.
fn like_of(old: &Instance, new: &Instance, shift: u16) -> Option<u16>
    requires { shift < length (shift_list new.now) }
    ensures like { result ≡ like_of old.now new.now shift }
    ensures known { IfSome result (λ before. before < length (shift_list old.now)) }
{
    let count = old.shifts().len() as u16;
    for before in 0..count {
        if is_like(old, new, before, shift) {
            return Some(before);
        }
    }
    None
}

/// Whether a row's breaks are legal for a shift.
fn is_list_of(instance: &Instance, shift: u16, row: &Row) -> bool
    requires { shift < length (shift_list instance.now) }
    ensures { result ≡ is_list_of instance.now shift row.now.breaks }
{
    let len = instance.shift(shift).len;
    legal(instance.rule_of(shift), len, row.breaks.as_slice())
}

/// Whether a row is of a shift of the old instance and on a day, and its breaks are legal for a shift of the new one.
fn goes_to(new: &Instance, before: u16, shift: u16, day: u8, row: &Row) -> bool
    requires { shift < length (shift_list new.now) }
    ensures { result ≡ goes_to new.now before shift day row.now }
{
    row.shift == before && row.day == day && is_list_of(new, shift, row)
}

/// A row of a shift with as many duties as there is room for.
fn moved(alloc: Global, shift: u16, room: u16, row: &Row) -> Result<Row, NoMemory>
    ensures { IfOk result (λ r. r ≡ moved shift room row.now) }
{
    Ok(Row {
        shift,
        day: row.day,
        breaks: Breaks::new(Vec::from_slice(alloc, row.breaks.as_slice())?),
        count: row.count.min(room),
    })
}

/// Adds a row, where it goes to a shift on a day, with as many duties as there is room for, and gives the room that is left.
fn carry_row(
    list: &mut Vec<Row>,
    alloc: Global,
    new: &Instance,
    before: u16,
    shift: u16,
    day: u8,
    room: u16,
    row: &Row,
) -> Result<u16, NoMemory>
    requires { shift < length (shift_list new.now) }
    ensures { IfOk result (λ left. (rest : List Row) → list.new.items ++ fitted shift left (filter (goes_to new.now before shift day) rest) ≡ list.old.items ++ fitted shift room (filter (goes_to new.now before shift day) (row.now ∷ rest))) }
{
    if room == 0 {
        return Ok(0);
    }
    if !goes_to(new, before, shift, day, row) {
        return Ok(room);
    }
    list.push(moved(alloc, shift, room, row)?)?;
    Ok(room.saturating_sub(row.count))
}

/// Adds the rows of a shift of the old instance on a day as rows of a shift of the new one, as far as there is room.
fn carry_on(
    list: &mut Vec<Row>,
    alloc: Global,
    new: &Instance,
    rows: &Rows,
    before: u16,
    shift: u16,
    day: u8,
) -> Result<(), NoMemory>
    requires { shift < length (shift_list new.now) }
    ensures { OnOk result (list.new.items ≡ list.old.items ++ carried_on new.now rows.now before shift day) }
{
    let mut room = new.heads();
    for row in rows.as_slice() {
        room = carry_row(list, alloc, new, before, shift, day, room, row)?;
    }
    Ok(())
}

/// Adds the rows of a shift of the old instance as rows of a shift of the new one, day by day.
fn carry_to(
    list: &mut Vec<Row>,
    alloc: Global,
    new: &Instance,
    rows: &Rows,
    before: u16,
    shift: u16,
) -> Result<(), NoMemory>
    requires { shift < length (shift_list new.now) }
    ensures { OnOk result (list.new.items ≡ list.old.items ++ carried_to new.now rows.now before shift) }
{
    for day in 0..new.days() {
        carry_on(list, alloc, new, rows, before, shift, day)?;
    }
    Ok(())
}

/// Adds the rows that become rows of a shift of the new instance.
fn carry_of(
    list: &mut Vec<Row>,
    alloc: Global,
    old: &Instance,
    new: &Instance,
    rows: &Rows,
    shift: u16,
) -> Result<(), NoMemory>
    requires { shift < length (shift_list new.now) }
    ensures { OnOk result (list.new.items ≡ list.old.items ++ carried_of old.now new.now rows.now shift) }
{
    match like_of(old, new, shift) {
        Some(before) => carry_to(list, alloc, new, rows, before, shift),
        None => Ok(()),
    }
}

/// The rows of a plan of the old instance that stand in a plan of the new one: those of a type of the same name, with the same start,
/// length, day and breaks, where these are legal there, each with as many duties as the new instance's `max_heads` leaves room for. Of a
/// legal plan they are a legal plan.
pub fn carried_rows(
    alloc: Global,
    old: &Instance,
    new: &Instance,
    rows: &Rows,
) -> Result<Rows, NoMemory>
    ensures carried { IfOk result (λ list. list ≡ carried old.now new.now rows.now) }
    ensures legal { IsTrue (are_legal_rows old.now rows.now) → IfOk result (λ list. IsTrue (are_legal_rows new.now list)) }
{
    let mut list = Vec::new(alloc);
    let shifts = new.shifts().len() as u16;
    for shift in 0..shifts {
        carry_of(&mut list, alloc, old, new, rows, shift)?;
    }
    Ok(Rows::new(list))
}
