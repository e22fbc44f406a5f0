//! The breaks of a plan by the time at which they are taken.
ghost use Rattle.std.specs.Prelude.{◌≡◌, ◌<◌, ◌++◌, IfOk, IsTrue, OnOk, length};
ghost use Rattle.std.specs.List.{flat_map};
ghost use Rattle.shift_instance.specs.Problem.{shift_list};
ghost use Rattle.shift_instance.specs.Rota.{are_legal_rows};
ghost use Rattle.rota_sheets.specs.TakenBreaks.{AreTakenBreaks, breaks_of_row};

use break_rules::NoMemory;
use shift_instance::{Instance, Row, Rows};
use std::alloc::Global;

/// A break that duties of a shift take.
#[derive(Clone, Copy, PartialEq, Eq, Drop)]
pub struct TakenBreak {
    /// The slot in which it begins, counted from the beginning of the planning period. Behind the last slot comes the first.
    pub begin: usize,
    /// Its slots.
    pub len: u16,
    /// The shift of the duties, by its number in the shift list.
    pub shift: u16,
    /// How many duties take it.
    pub count: u32,
}

/// Adds the breaks of a row.
fn add_row(taken: &mut Vec<TakenBreak>, instance: &Instance, row: &Row) -> Result<(), NoMemory>
    requires { row.now.shift < length (shift_list instance.now) }
    ensures { OnOk result (taken.new.items ≡ taken.old.items ++ breaks_of_row instance.now row.now) }
{
    for b in row.breaks.as_slice() {
        taken.push(TakenBreak {
            begin: instance.slot_of(row.shift, row.day, b.start),
            len: b.len,
            shift: row.shift,
            count: u32::from(row.count),
        })?;
    }
    Ok(())
}

/// The breaks of all rows, row by row.
fn breaks_by_row(
    alloc: Global,
    instance: &Instance,
    rows: &Rows,
) -> Result<Vec<TakenBreak>, NoMemory>
    requires { IsTrue (are_legal_rows instance.now rows.now) }
    ensures { IfOk result (λ taken. taken.items ≡ flat_map (breaks_of_row instance.now) rows.now) }
{
    let _valid = instance.slots();
    let mut taken = Vec::new(alloc);
    for row in rows.as_slice() {
        add_row(&mut taken, instance, row)?;
    }
    Ok(taken)
}

/// The breaks of a legal plan: one for each break of a row, by the slot in which it begins, then by its length, then by its shift.
pub fn taken_breaks(
    alloc: Global,
    instance: &Instance,
    rows: &Rows,
) -> Result<Vec<TakenBreak>, NoMemory>
    requires { IsTrue (are_legal_rows instance.now rows.now) }
    ensures { IfOk result (λ taken. AreTakenBreaks instance.now rows.now taken.items) }
{
    let mut taken = breaks_by_row(alloc, instance, rows)?;
    taken.sort_by_key(|b| (b.begin, b.len, b.shift))?;
    Ok(taken)
}
