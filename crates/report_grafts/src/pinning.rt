//! Cuts that leave nothing open but breaks.
ghost use Rattle.std.specs.Prelude.{◌≡◌, ◌<◌, ◌≤◌, ◌++◌, IfOk, IsTrue, OnOk, length};
ghost use Rattle.shift_instance.specs.Problem.{shift_list};
ghost use Rattle.shift_instance.specs.Rota.{are_legal_rows, heads_on, rota_of};
ghost use Rattle.head_splits.specs.Cuts.{whole_class};
ghost use Rattle.report_grafts.specs.Pins.{pins_of, pins_of_shift, pins_on};

use break_rules::{Breaks, NoMemory};
use head_splits::{Class, Cut, Cuts, Side, duties_in_class};
use shift_instance::{Instance, Rows};
use std::alloc::Global;

/// The class of all duties of a shift on a day.
fn whole_class(alloc: Global, shift: u16, day: u8) -> Class
    ensures { result ≡ whole_class shift day }
{
    Class {
        shift,
        day,
        prefix: Breaks::new(Vec::new(alloc)),
    }
}

/// Adds the cuts by which a shift has so many duties on a day.
fn add_pins(
    alloc: Global,
    list: &mut Vec<Cut>,
    shift: u16,
    day: u8,
    heads: u16,
) -> Result<(), NoMemory>
    ensures { OnOk result (list.new.items ≡ list.old.items ++ pins_on shift day heads) }
{
    list.push(Cut {
        class: whole_class(alloc, shift, day),
        side: Side::AtMost,
        m: heads,
    })?;
    list.push(Cut {
        class: whole_class(alloc, shift, day),
        side: Side::AtLeast,
        m: heads,
    })?;
    Ok(())
}

/// How many duties legal rows have of a shift on a day, which are no more than there may be.
fn heads_on(alloc: Global, instance: &Instance, rows: &Rows, shift: u16, day: u8) -> u16
    requires { IsTrue (are_legal_rows instance.now rows.now) }
    ensures { result ≡ heads_on (rota_of rows.now) shift day }
{
    let duties = duties_in_class(rows.as_slice(), &whole_class(alloc, shift, day));
    prove!(duties <= u128::from(instance.heads()));
    duties as u16
}

/// Adds the cuts by which a shift has on each day as many duties as in legal rows.
fn add_shift(
    alloc: Global,
    instance: &Instance,
    rows: &Rows,
    shift: u16,
    list: &mut Vec<Cut>,
) -> Result<(), NoMemory>
    requires legal { IsTrue (are_legal_rows instance.now rows.now) }
    requires shift { shift < length (shift_list instance.now) }
    ensures { OnOk result (list.new.items ≡ list.old.items ++ pins_of_shift instance.now (rota_of rows.now) shift) }
{
    if !instance.is_live(alloc, shift, &[])? {
        return Ok(());
    }
    for day in 0..instance.days() {
        let heads = heads_on(alloc, instance, rows, shift, day);
        add_pins(alloc, list, shift, day, heads)?;
    }
    Ok(())
}

/// The cuts by which each shift with a legal break list has on each day as many duties as in legal rows: first no more, then no
/// fewer. A search below them plans the breaks of these duties anew, and nothing else.
pub fn pins(alloc: Global, instance: &Instance, rows: &Rows) -> Result<Cuts, NoMemory>
    requires { IsTrue (are_legal_rows instance.now rows.now) }
    ensures pins { IfOk result (λ cuts. cuts ≡ pins_of instance.now (rota_of rows.now)) }
{
    let mut list = Vec::new(alloc);
    for shift in 0..instance.shifts().len() as u16 {
        add_shift(alloc, instance, rows, shift, &mut list)?;
    }
    Ok(Cuts::new(list))
}
