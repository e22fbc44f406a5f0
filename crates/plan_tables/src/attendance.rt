//! Who is at work in each slot of a plan, and who is on break.
ghost use Rattle.std.specs.Prelude.{◌≡◌, ◌+◌, ◌<◌, ◌≤◌, ◌++◌, [], IfOk, IsTrue, OnOk, length, map, replicate};
ghost use Rattle.shift_instance.specs.Problem.{shift_list, slots};
ghost use Rattle.shift_instance.specs.Rota.{are_legal_rows, cover, duty_of, rota_of};
ghost use Rattle.plan_tables.specs.Attendance.{on_break, unbroken};

use break_rules::{Breaks, NoMemory};
use rota_cost::Cover;
use shift_instance::{Duty, Instance, Row, Rows};
use std::alloc::Global;
use std::marker::Model;

/// How many duties of a plan work in each slot, and how many of them are on break there.
///
/// Contracts see the instance, and the duties of the plan.
#[derive(Drop)]
pub struct Attendance {
    working: Cover,
    unbroken: Cover,
}

impl Model for Attendance {
    ghost use Rattle.rota_cost.specs.Cover.{Covering};

    ghost Value = { Covering };

    ghost view = { λ a. a.working };

    ghost use Rattle.plan_tables.specs.Attendance.{IsAttendance};

    ghost invariant = { λ a. IsAttendance a.working a.unbroken };
}

/// The duty of a row.
fn duty_of(alloc: Global, row: &Row) -> Result<Duty, NoMemory>
    ensures { IfOk result (λ d. d ≡ duty_of row.now) }
{
    Ok(Duty {
        shift: row.shift,
        day: row.day,
        breaks: Breaks::new(Vec::from_slice(alloc, row.breaks.as_slice())?),
    })
}

/// The duty of a row, without its breaks.
fn unbroken(alloc: Global, row: &Row) -> Duty
    ensures { result ≡ unbroken (duty_of row.now) }
{
    Duty {
        shift: row.shift,
        day: row.day,
        breaks: Breaks::new(Vec::new(alloc)),
    }
}

/// Adds the duties of a row to a cover, and to another one without their breaks.
fn add_row(
    alloc: Global,
    instance: &Instance,
    working: &mut Cover,
    whole: &mut Cover,
    row: &Row,
) -> Result<(), NoMemory>
    requires working { working.old.instance ≡ instance.now }
    requires whole { whole.old.instance ≡ instance.now }
    requires shift { row.now.shift < length (shift_list instance.now) }
    requires day { row.now.day < instance.now.days }
    requires room { length working.old.duties + row.now.count ≤ 2147483648 }
    requires room_unbroken { length whole.old.duties + row.now.count ≤ 2147483648 }
    ensures working { OnOk result (working.new.instance ≡ instance.now) }
    ensures whole { OnOk result (whole.new.instance ≡ instance.now) }
    ensures duties { OnOk result (working.new.duties ≡ working.old.duties ++ replicate row.now.count (duty_of row.now)) }
    ensures unbroken { OnOk result (whole.new.duties ≡ whole.old.duties ++ replicate row.now.count (unbroken (duty_of row.now))) }
{
    let duty = duty_of(alloc, row)?;
    let without = unbroken(alloc, row);
    working.add_often(instance, &duty, row.count);
    whole.add_often(instance, &without, row.count);
    Ok(())
}

/// Adds the duties of legal rows to a cover without duties, and to another one without their breaks.
fn add_rows(
    alloc: Global,
    instance: &Instance,
    working: &mut Cover,
    whole: &mut Cover,
    rows: &[Row],
) -> Result<(), NoMemory>
    requires legal { IsTrue (are_legal_rows instance.now rows.now) }
    requires working { working.old ≡ record { instance = instance.now; duties = [] } }
    requires whole { whole.old ≡ record { instance = instance.now; duties = [] } }
    ensures working { OnOk result (working.new.instance ≡ instance.now) }
    ensures whole { OnOk result (whole.new.instance ≡ instance.now) }
    ensures duties { OnOk result (working.new.duties ≡ rota_of rows.now) }
    ensures unbroken { OnOk result (whole.new.duties ≡ map unbroken (rota_of rows.now)) }
{
    let _valid = instance.slots();
    for row in rows {
        add_row(alloc, instance, working, whole, row)?;
    }
    Ok(())
}

impl Attendance {
    /// The duties of legal rows, at work and on break.
    pub fn new(alloc: Global, instance: &Instance, rows: &Rows) -> Result<Attendance, NoMemory>
        requires { IsTrue (are_legal_rows instance.now rows.now) }
        ensures { IfOk result (λ a. a ≡ record { instance = instance.now; duties = rota_of rows.now }) }
    {
        let mut working = Cover::new(alloc, instance)?;
        let mut whole = Cover::new(alloc, instance)?;
        add_rows(alloc, instance, &mut working, &mut whole, rows.as_slice())?;
        Ok(Attendance {
            working,
            unbroken: whole,
        })
    }

    /// How many duties work in a slot. It takes no memory.
    pub fn working(&self, t: usize) -> u32
        requires { t < slots self.now.instance }
        ensures { result ≡ cover self.now.instance self.now.duties t }
    {
        self.working.working(t)
    }

    /// How many duties are on break in a slot: they would work there if they had no breaks, and don't. It takes no memory.
    pub fn on_break(&self, t: usize) -> u32
        requires { t < slots self.now.instance }
        ensures { result ≡ on_break self.now.instance self.now.duties t }
    {
        self.unbroken
            .working(t)
            .saturating_sub(self.working.working(t))
    }
}
