//! The move on the duties of a day: some out, and the best ones in again.

use crate::search::PlanSearch;
use advice::Stop;
use break_rules::NoMemory;
use shift_tables::ShiftTables;
use working_plan::Placed;

/// Of so many moves on duties one copies a whole day.
const COPIED: usize = 50;

/// The days that a move touches.
type Touched = [bool; 7];

/// Marks a day as touched.
fn touch(days: &mut Touched, day: usize) {
    if let Some(place) = days.get_mut(day) {
        *place = true;
    }
}

impl<S: Stop + Drop> PlanSearch<S> {
    /// Adds the days to the list on which a shift has a duty whose window has a slot.
    fn list_days_near(
        &mut self,
        tables: &ShiftTables,
        shift: u16,
        slot: usize,
    ) -> Result<(), NoMemory> {
        let len = tables.len_of(shift);
        for day in 0..tables.days {
            let is_near = tables.offset(shift, day, slot) < len;
            if is_near && !self.plan.duties(tables, shift, day).is_empty() {
                self.near_duties.push((shift, day))?;
            }
        }
        Ok(())
    }

    /// Lists the shifts and days that have a duty whose window has a slot.
    fn list_near(&mut self, tables: &ShiftTables, slot: usize) -> Result<(), NoMemory> {
        self.near_duties.clear();
        for k in 0..self.plan.used.len() {
            if let Some(shift) = self.plan.used.get(k).copied() {
                self.list_days_near(tables, shift, slot)?;
            }
        }
        Ok(())
    }

    /// Takes one of the duties of a shift on a day out, unless it is the shift's last.
    fn take_some(&mut self, tables: &ShiftTables, shift: u16, day: usize) -> Result<(), NoMemory> {
        if self.plan.count(shift) <= 1 {
            return Ok(());
        }
        let Some(pauses) = self.chance.pick(self.plan.duties(tables, shift, day)) else {
            return Ok(());
        };
        self.take(tables, Placed { shift, day, pauses })
    }

    /// Takes one to three duties out near a slot of a day, or of used shifts on that day.
    fn ruin(
        &mut self,
        tables: &ShiftTables,
        day: usize,
        days: &mut Touched,
    ) -> Result<(), NoMemory> {
        let count = self.chance.below(3).saturating_add(1);
        for k in 0..count {
            let Some((mut shift, mut on)) = self.chance.pick(&self.near_duties) else {
                break;
            };
            if 0 < k && self.chance.is_once_in(3) {
                shift = self.some_used().unwrap_or(shift);
                on = day;
            }
            touch(days, on);
            self.take_some(tables, shift, on)?;
        }
        Ok(())
    }

    /// Puts a duty of some used shift in on a day, where there is room.
    fn force(&mut self, tables: &ShiftTables, day: usize) -> Result<(), NoMemory> {
        if let Some(shift) = self.some_used() {
            if self.plan.has_room(tables, shift, day) {
                let _ = self.put_best(tables, shift, day)?;
            }
        }
        Ok(())
    }

    /// Fills up and sweeps the touched days.
    fn mend(&mut self, tables: &ShiftTables, days: &Touched) -> Result<(), NoMemory> {
        for (day, is_touched) in days.iter().enumerate() {
            if *is_touched {
                self.fill_day(tables, day)?;
                let wide = self.chance.is_once_in(2);
                let _ = self.sweep(tables, day, wide)?;
            }
        }
        Ok(())
    }

    /// A move on duties: seldom a day takes all duties of another one, and else some duties are exchanged.
    pub(crate) fn move_duties(
        &mut self,
        tables: &ShiftTables,
        temperature: f64,
    ) -> Result<(), NoMemory> {
        if self.chance.is_once_in(COPIED) {
            return self.move_day(tables, temperature);
        }
        self.exchange_duties(tables, temperature)
    }

    /// Some duties near a slot that hasn't just the employees that are wanted are taken out, and the best duties of the used
    /// shifts put in; the change is kept as the temperature allows.
    fn exchange_duties(&mut self, tables: &ShiftTables, temperature: f64) -> Result<(), NoMemory> {
        let mark = self.log.len();
        let before = self.plan.cost;
        self.count(tables.slots);
        let from = self.chance.below(tables.slots);
        let Some(slot) = self.plan.levels.off_slot(from) else {
            return Ok(());
        };
        self.list_near(tables, slot)?;
        let day = slot.checked_div(tables.day_slots).unwrap_or(0);
        let mut days = [false; 7];
        touch(&mut days, day);
        self.ruin(tables, day, &mut days)?;
        if self.chance.is_once_in(2) {
            self.force(tables, day)?;
        }
        self.mend(tables, &days)?;
        if self.is_taken(self.plan.cost - before, temperature) {
            self.note_best(tables)
        } else {
            self.undo_to(tables, mark)
        }
    }
}
