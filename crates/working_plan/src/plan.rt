//! A plan that duties are put into and taken out of.
ghost use Rattle.std.specs.Prelude.{◌<◌, length, IfSome};

use crate::levels::{Levels, Stretches};
use break_rules::NoMemory;
use shift_tables::{Pauses, ShiftTables};
use std::alloc::Global;

/// A duty of a plan.
#[derive(Clone, Copy, PartialEq, Eq, PartialOrd, Ord)]
pub struct Placed {
    /// The number of its shift.
    pub shift: u16,
    /// Its day.
    pub day: usize,
    /// Its breaks.
    pub pauses: Pauses,
}

/// A plan with its cost.
#[derive(Drop)]
pub struct Plan {
    alloc: Global,
    /// The breaks of the duties of each shift on each day.
    duties: Vec<Vec<Pauses>>,
    /// The duties of each shift.
    counts: Vec<u32>,
    /// The shifts that have duties.
    pub used: Vec<u16>,
    /// The employees of each slot.
    pub levels: Levels,
    /// What the plan costs.
    pub cost: f64,
}

/// The place of some breaks in a list.
fn place_in(list: &[Pauses], pauses: &Pauses) -> Option<usize>
    ensures { IfSome result (λ k. k < length list.now) }
{
    for (k, other) in list.iter().enumerate() {
        if *other == *pauses {
            return Some(k);
        }
    }
    None
}

/// The place of a number in a list.
fn place_of(list: &[u16], number: u16) -> Option<usize>
    ensures { IfSome result (λ k. k < length list.now) }
{
    for (k, other) in list.iter().enumerate() {
        if *other == number {
            return Some(k);
        }
    }
    None
}

/// Takes some breaks out of a list, once; `false` where they aren't there.
fn take_from(list: &mut Vec<Pauses>, pauses: &Pauses) -> bool {
    match place_in(list, pauses) {
        Some(k) => {
            list.swap_remove(k);
            true
        }
        None => false,
    }
}

/// Takes a number out of a list.
fn forget(list: &mut Vec<u16>, number: u16) {
    if let Some(k) = place_of(list, number) {
        list.swap_remove(k);
    }
}

/// Empties all lists of a list.
fn empty_all(lists: &mut [Vec<Pauses>]) {
    for list in lists.iter_mut() {
        list.clear();
    }
}

impl Plan {
    /// The plan without duties.
    pub fn new(alloc: Global, tables: &ShiftTables) -> Result<Plan, NoMemory> {
        let levels = Levels::new(alloc, tables)?;
        let cost = levels.cost(tables);
        let shifts = tables.shift_count();
        let places = shifts.saturating_mul(tables.days);
        let mut duties = Vec::new(alloc);
        for _ in 0..places {
            duties.push(Vec::new(alloc))?;
        }
        Ok(Plan {
            alloc,
            duties,
            counts: vec![in alloc; 0; shifts]?,
            used: Vec::new(alloc),
            levels,
            cost,
        })
    }

    /// Takes all duties out.
    pub fn clear(&mut self, tables: &ShiftTables) {
        empty_all(&mut self.duties);
        self.counts.fill(0);
        self.used.clear();
        self.levels.clear(tables);
        self.cost = self.levels.cost(tables);
    }

    /// The breaks of the duties of a shift on a day.
    pub fn duties(&self, tables: &ShiftTables, shift: u16, day: usize) -> &[Pauses] {
        match self.duties.get(tables.place(shift, day)) {
            Some(list) => list.as_slice(),
            None => &[],
        }
    }

    /// Whether a shift has room for one more duty on a day.
    pub fn has_room(&self, tables: &ShiftTables, shift: u16, day: usize) -> bool {
        self.duties(tables, shift, day).len() < tables.heads
    }

    /// The duties of a shift.
    pub fn count(&self, shift: u16) -> u32 {
        self.counts.get(usize::from(shift)).copied().unwrap_or(0)
    }

    /// Counts one duty more of a shift, and what it costs to use it.
    fn count_one(&mut self, tables: &ShiftTables, shift: u16) -> Result<(), NoMemory> {
        let Some(count) = self.counts.get_mut(usize::from(shift)) else {
            return Ok(());
        };
        if *count == 0 {
            self.used.push(shift)?;
            self.cost += tables.weight;
        }
        *count = count.saturating_add(1);
        Ok(())
    }

    /// Counts one duty less of a shift.
    fn uncount_one(&mut self, tables: &ShiftTables, shift: u16) {
        if let Some(count) = self.counts.get_mut(usize::from(shift)) {
            *count = count.saturating_sub(1);
            if *count == 0 {
                self.cost -= tables.weight;
                forget(&mut self.used, shift);
            }
        }
    }

    /// Puts a duty in.
    pub fn put(&mut self, tables: &ShiftTables, placed: &Placed) -> Result<(), NoMemory> {
        let place = tables.place(placed.shift, placed.day);
        let Some(list) = self.duties.get_mut(place) else {
            return Ok(());
        };
        list.push(placed.pauses)?;
        self.count_one(tables, placed.shift)?;
        let stretches = Stretches::of(tables, placed.shift, placed.day, &placed.pauses);
        let effect = self.levels.raise(&stretches);
        self.cost -= effect.gain(tables);
        Ok(())
    }

    /// Takes a duty out that is in.
    pub fn take(&mut self, tables: &ShiftTables, placed: &Placed) {
        let place = tables.place(placed.shift, placed.day);
        let Some(list) = self.duties.get_mut(place) else {
            return;
        };
        if !take_from(list, &placed.pauses) {
            return;
        }
        self.uncount_one(tables, placed.shift);
        let stretches = Stretches::of(tables, placed.shift, placed.day, &placed.pauses);
        let effect = self.levels.lower(&stretches);
        self.cost += effect.gain(tables);
    }

    /// Adds the duties of a shift on a day to a list.
    pub fn list_day(
        &self,
        tables: &ShiftTables,
        shift: u16,
        day: usize,
        list: &mut Vec<Placed>,
    ) -> Result<(), NoMemory> {
        for pauses in self.duties(tables, shift, day) {
            list.push(Placed {
                shift,
                day,
                pauses: *pauses,
            })?;
        }
        Ok(())
    }

    /// Adds the duties of a shift to a list.
    fn list_shift(
        &self,
        tables: &ShiftTables,
        shift: u16,
        list: &mut Vec<Placed>,
    ) -> Result<(), NoMemory> {
        for day in 0..tables.days {
            self.list_day(tables, shift, day, list)?;
        }
        Ok(())
    }

    /// Adds all duties to a list.
    pub fn list_into(&self, tables: &ShiftTables, list: &mut Vec<Placed>) -> Result<(), NoMemory> {
        for shift in &self.used {
            self.list_shift(tables, *shift, list)?;
        }
        Ok(())
    }
}
