//! Moves that give a day the duties of another one.

use crate::search::PlanSearch;
use advice::Stop;
use break_rules::NoMemory;
use shift_tables::ShiftTables;
use std::alloc::Global;
use working_plan::Placed;

/// Which days want nearly the same employees, slot by slot.
#[derive(Drop)]
pub(crate) struct Likeness {
    days: usize,
    alike: Vec<bool>,
}

/// Whether two lists of wanted employees differ by at most a tenth of the greater numbers, each summed up.
fn are_alike(needs: &[i32], others: &[i32]) -> bool {
    let mut off = 0u64;
    let mut sum = 0u64;
    for (a, b) in needs.iter().zip(others) {
        let most = u64::try_from((*a).max(*b)).unwrap_or(0);
        off = off.saturating_add(u64::from(a.abs_diff(*b)));
        sum = sum.saturating_add(most);
    }
    off.saturating_mul(10) <= sum
}

/// The numbers of the slots of a day.
fn on_day<'a>(tables: &ShiftTables, numbers: &'a [i32], day: usize) -> &'a [i32] {
    let from = day.wrapping_mul(tables.day_slots);
    let to = from.wrapping_add(tables.day_slots);
    numbers.get(from..to).unwrap_or(&[])
}

/// Whether two days are alike, by the least and by the most wanted employees.
fn are_days_alike(tables: &ShiftTables, a: usize, b: usize) -> bool {
    let need = tables.need.as_slice();
    let most = tables.need_max.as_slice();
    are_alike(on_day(tables, need, a), on_day(tables, need, b))
        && are_alike(on_day(tables, most, a), on_day(tables, most, b))
}

impl Likeness {
    /// Which days are alike.
    pub(crate) fn new(alloc: Global, tables: &ShiftTables) -> Result<Likeness, NoMemory> {
        let days = tables.days;
        let mut alike = Vec::new(alloc);
        for pair in 0..days.saturating_mul(days) {
            let a = pair.checked_div(days).unwrap_or(0);
            let b = pair.checked_rem(days).unwrap_or(0);
            alike.push(are_days_alike(tables, a, b))?;
        }
        Ok(Likeness { days, alike })
    }

    /// Whether a day is like none before it.
    fn is_new(&self, day: usize) -> bool {
        for before in 0..day {
            if self.has(day, before) {
                return false;
            }
        }
        true
    }

    /// How many days are like none before them.
    pub(crate) fn kinds(&self) -> u32 {
        let mut kinds = 0u32;
        for day in 0..self.days {
            if self.is_new(day) {
                kinds = kinds.saturating_add(1);
            }
        }
        kinds
    }

    /// Whether two days are alike.
    fn has(&self, a: usize, b: usize) -> bool {
        let place = a.wrapping_mul(self.days).wrapping_add(b);
        self.alike.get(place).copied().unwrap_or(false)
    }
}

impl<S: Stop + Drop> PlanSearch<S> {
    /// Lists the duties of the running plan on a day, to be copied.
    fn list_running(&mut self, tables: &ShiftTables, day: usize) -> Result<(), NoMemory> {
        self.copied.clear();
        for k in 0..self.plan.used.len() {
            if let Some(shift) = self.plan.used.get(k).copied() {
                self.plan.list_day(tables, shift, day, &mut self.copied)?;
            }
        }
        Ok(())
    }

    /// Lists the duties of a plan of the pool on a day, to be copied.
    fn list_pooled(&mut self, number: usize, day: usize) -> Result<(), NoMemory> {
        self.copied.clear();
        for placed in self.pool.duties(number) {
            if placed.day == day {
                self.copied.push(*placed)?;
            }
        }
        Ok(())
    }

    /// Takes all duties of a day out.
    fn empty_day(&mut self, tables: &ShiftTables, day: usize) -> Result<(), NoMemory> {
        self.order.clear();
        self.order.extend_from_slice(self.plan.used.as_slice())?;
        for k in 0..self.order.len() {
            if let Some(shift) = self.order.get(k).copied() {
                let _ = self.drop_day(tables, shift, day)?;
            }
        }
        Ok(())
    }

    /// Puts the listed duties in on a day.
    fn put_copied(&mut self, tables: &ShiftTables, day: usize) -> Result<(), NoMemory> {
        for k in 0..self.copied.len() {
            if let Some(placed) = self.copied.get(k).copied() {
                let Placed { shift, pauses, .. } = placed;
                self.put(tables, Placed { shift, day, pauses })?;
            }
        }
        Ok(())
    }

    /// Puts the listed duties in place of those of a day, and fills up and sweeps it and the next one.
    fn copy_to(&mut self, tables: &ShiftTables, day: usize) -> Result<(), NoMemory> {
        self.empty_day(tables, day)?;
        self.put_copied(tables, day)?;
        let next = day.wrapping_add(1).checked_rem(tables.days).unwrap_or(0);
        self.fill_day(tables, day)?;
        let _ = self.sweep(tables, day, true)?;
        if next != day {
            self.fill_day(tables, next)?;
            let _ = self.sweep(tables, next, true)?;
        }
        Ok(())
    }

    /// Lists the duties of another day of the running plan, or of a day of a plan of the pool, to be copied to a day.
    fn list_source(&mut self, tables: &ShiftTables, day: usize) -> Result<(), NoMemory> {
        let other = self.chance.below(tables.days);
        if self.pool.len() == 0 || (1 < tables.days && self.chance.is_once_in(2)) {
            return self.list_running(tables, other);
        }
        let from = if self.chance.is_once_in(2) {
            day
        } else {
            other
        };
        let number = self.chance.below(self.pool.len());
        self.list_pooled(number, from)
    }

    /// A day takes all duties of another one; the change is kept as the temperature allows.
    pub(crate) fn move_day(
        &mut self,
        tables: &ShiftTables,
        temperature: f64,
    ) -> Result<(), NoMemory> {
        let mark = self.log.len();
        let before = self.plan.cost;
        let from = self.chance.below(tables.slots);
        let Some(slot) = self.plan.levels.off_slot(from) else {
            return Ok(());
        };
        let day = slot.checked_div(tables.day_slots).unwrap_or(0);
        self.list_source(tables, day)?;
        self.copy_to(tables, day)?;
        if self.is_taken(self.plan.cost - before, temperature) {
            self.note_best(tables)
        } else {
            self.undo_to(tables, mark)
        }
    }

    /// What the cover of a day costs.
    fn cost_of_day(&self, tables: &ShiftTables, day: usize) -> f64 {
        let from = day.wrapping_mul(tables.day_slots);
        let to = from.wrapping_add(tables.day_slots);
        self.plan.levels.cost_between(tables, from, to)
    }

    /// The day like another one whose cover costs least, where that is less than the other's.
    fn cheaper_day(&self, tables: &ShiftTables, day: usize) -> Option<usize> {
        let mut found = None;
        let mut least = self.cost_of_day(tables, day);
        for other in 0..tables.days {
            let cost = self.cost_of_day(tables, other);
            if cost < least && self.likeness.has(day, other) {
                least = cost;
                found = Some(other);
            }
        }
        found
    }

    /// A day takes all duties of another one, unless the plan gets dearer.
    fn spread_to(&mut self, tables: &ShiftTables, day: usize, from: usize) -> Result<(), NoMemory> {
        let mark = self.log.len();
        let before = self.plan.cost;
        self.list_running(tables, from)?;
        self.copy_to(tables, day)?;
        if before < self.plan.cost {
            self.undo_to(tables, mark)?;
        }
        Ok(())
    }

    /// Each day takes all duties of the cheapest day like it that is cheaper, unless the plan gets dearer.
    pub(crate) fn spread(&mut self, tables: &ShiftTables) -> Result<(), NoMemory> {
        for day in 0..tables.days {
            if let Some(from) = self.cheaper_day(tables, day) {
                self.spread_to(tables, day, from)?;
            }
        }
        self.note_best(tables)
    }
}
