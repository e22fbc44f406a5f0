//! Drafts once more.
ghost use Rattle.std.specs.Prelude.{◌≡◌, ◌<◌, IfOk, OnErr, OnOk};
ghost use Rattle.shift_instance.specs.Rota.{rota_of};

use crate::draft::Draft;
use crate::reshifting::add_copies;
use break_rules::NoMemory;
use shift_instance::{Duty, Instance, Row, Rows};
use std::alloc::{AllocError, Global};

/// Rows once more.
fn copied_rows(rows: &Rows) -> Result<Rows, NoMemory>
    ensures { IfOk result (λ copy. copy ≡ rows.now) }
{
    let copy = rows.clone()?;
    Ok(copy)
}

/// The duties of rows, row by row.
fn duties_in(alloc: Global, rows: &[Row]) -> Result<Vec<Duty>, NoMemory>
    ensures { IfOk result (λ duties. duties.items ≡ rota_of rows.now) }
{
    let mut duties = Vec::new(alloc);
    for row in rows {
        add_copies(alloc, &mut duties, row)?;
    }
    Ok(duties)
}

impl Draft {
    /// The draft once more.
    pub fn copied(&self, instance: &Instance) -> Result<Draft, NoMemory>
        requires { self.now.instance ≡ instance.now }
        ensures { IfOk result (λ d. d ≡ self.now) }
    {
        let rows = copied_rows(self.rows())?;
        Draft::new(self.allocator(), instance, rows)
    }

    /// Makes it the same as another draft, in the memory that it has and in more only where it needs more. After want of
    /// memory it is as before.
    pub fn assign_from(&mut self, instance: &Instance, other: &Draft) -> Result<(), NoMemory>
        requires instance { self.old.instance ≡ instance.now }
        requires other { other.now.instance ≡ instance.now }
        ensures assigned { OnOk result (self.new ≡ other.now) }
        ensures unchanged { OnErr result (self.new ≡ self.old) }
    {
        let alloc = self.allocator();
        let gone = duties_in(alloc, self.rows().as_slice())?;
        let made = duties_in(alloc, other.rows().as_slice())?;
        match self.exchange(instance, &gone, made) {
            Ok(()) => Ok(()),
            Err(_made) => Err(AllocError),
        }
    }
}
