//! Filling up and sweeping the duties of a day.

use crate::search::{PlanSearch, stretches};
use advice::Stop;
use break_rules::NoMemory;
use shift_tables::ShiftTables;
use working_plan::Placed;

/// The most duties that are filled in at a time.
const FILLS: u32 = 4096;

impl<S: Stop + Drop> PlanSearch<S> {
    /// The used shift, other than `barred`, of which one more duty on a day gains most, where that is more than `least`.
    fn best_used(
        &mut self,
        tables: &ShiftTables,
        day: usize,
        least: f64,
        barred: Option<u16>,
    ) -> Option<u16> {
        let mut best = None;
        let mut most = least;
        for k in 0..self.plan.used.len() {
            let shift = self.plan.used.get(k).copied()?;
            if barred == Some(shift) || !self.plan.has_room(tables, shift, day) {
                continue;
            }
            if self.bound(tables, shift, day) <= most {
                continue;
            }
            let value = self.value(tables, shift, day);
            if most < value {
                most = value;
                best = Some(shift);
            }
        }
        best
    }

    /// Puts duties of used shifts in on a day as long as one gains.
    pub(crate) fn fill_day(&mut self, tables: &ShiftTables, day: usize) -> Result<(), NoMemory> {
        for _ in 0..FILLS {
            if self.is_spent() {
                break;
            }
            let Some(shift) = self.best_used(tables, day, 0.0, None) else {
                break;
            };
            if !self.put_best(tables, shift, day)? {
                break;
            }
        }
        Ok(())
    }

    /// Whether some used shift other than one may gain more than `least` on a day.
    fn may_gain(&mut self, tables: &ShiftTables, day: usize, least: f64, barred: u16) -> bool {
        for k in 0..self.plan.used.len() {
            let Some(shift) = self.plan.used.get(k).copied() else {
                break;
            };
            if shift != barred
                && self.plan.has_room(tables, shift, day)
                && least < self.bound(tables, shift, day)
            {
                return true;
            }
        }
        false
    }

    /// What the last duty of a shift costs beside its slots.
    fn last_fee(&self, tables: &ShiftTables, shift: u16, last: u32) -> f64 {
        if self.plan.count(shift) == last {
            tables.weight
        } else {
            0.0
        }
    }

    /// Whether taking a duty out and another one in may gain; never `false` where it does.
    fn is_hopeful(&mut self, tables: &ShiftTables, placed: &Placed, wide: bool) -> bool {
        let stretches = stretches(tables, placed);
        let fee = self.last_fee(tables, placed.shift, 1);
        let effect = self.plan.levels.expose(&stretches);
        let lost = effect.gain(tables) - fee;
        let hopeful = lost < 0.0
            || lost < self.bound(tables, placed.shift, placed.day) - fee
            || (wide && self.may_gain(tables, placed.day, lost, placed.shift));
        self.plan.levels.cover(&stretches);
        hopeful
    }

    /// The shift of which one more duty gains most, where that is more than `least`: that of a duty that was taken out, or, if
    /// `wide`, any used one.
    fn best_return(
        &mut self,
        tables: &ShiftTables,
        placed: &Placed,
        least: f64,
        wide: bool,
    ) -> Option<u16> {
        let fee = self.last_fee(tables, placed.shift, 0);
        let mut best = None;
        let mut most = least;
        if most < self.bound(tables, placed.shift, placed.day) - fee {
            let value = self.value(tables, placed.shift, placed.day) - fee;
            if most < value {
                most = value;
                best = Some(placed.shift);
            }
        }
        if wide {
            let other = self.best_used(tables, placed.day, most, Some(placed.shift));
            return other.or(best);
        }
        best
    }

    /// Takes a duty out, and another one in, where that gains, and tells whether it does.
    fn replace(
        &mut self,
        tables: &ShiftTables,
        placed: Placed,
        wide: bool,
    ) -> Result<bool, NoMemory> {
        let mark = self.log.len();
        let before = self.plan.cost;
        self.take(tables, placed)?;
        let lost = self.plan.cost - before;
        match self.best_return(tables, &placed, lost.max(0.0), wide) {
            Some(shift) => {
                let _ = self.put_best(tables, shift, placed.day)?;
            }
            None => {
                if 0.0 <= lost {
                    self.undo_to(tables, mark)?;
                    return Ok(false);
                }
            }
        }
        Ok(true)
    }

    /// Replaces the duties of a shift on a day where that gains. They are taken from the last to the first: one that was taken
    /// out and put in again stands behind all that are still to come. As long as nothing changes, a duty like a hopeless one is one.
    fn sweep_shift(
        &mut self,
        tables: &ShiftTables,
        shift: u16,
        day: usize,
        wide: bool,
    ) -> Result<bool, NoMemory> {
        let mut any = false;
        let mut hopeless = None;
        let base = tables.base(shift, day);
        let len = tables.len_of(shift);
        let count = self.plan.duties(tables, shift, day).len();
        for k in (0..count).rev() {
            self.count(len);
            if self.is_spent() || !self.plan.levels.is_off(base, len) {
                break;
            }
            let Some(pauses) = self.plan.duties(tables, shift, day).get(k).copied() else {
                continue;
            };
            let placed = Placed { shift, day, pauses };
            if hopeless == Some(pauses) {
                continue;
            }
            if !self.is_hopeful(tables, &placed, wide) {
                hopeless = Some(pauses);
            } else if self.replace(tables, placed, wide)? {
                any = true;
                hopeless = None;
            }
        }
        Ok(any)
    }

    /// Each duty of a day out and the best one in again: of its own shift, or, if `wide`, of all used ones. Tells whether the
    /// plan changed.
    pub(crate) fn sweep(
        &mut self,
        tables: &ShiftTables,
        day: usize,
        wide: bool,
    ) -> Result<bool, NoMemory> {
        let mut any = false;
        self.order.clear();
        for shift in &self.plan.used {
            self.order.push(*shift)?;
        }
        for k in 0..self.order.len() {
            if let Some(shift) = self.order.get(k).copied() {
                any |= self.sweep_shift(tables, shift, day, wide)?;
            }
        }
        Ok(any)
    }

    /// Fills up and sweeps all days, some times, and gives up where the cost is above a limit after the first time.
    pub(crate) fn polish(
        &mut self,
        tables: &ShiftTables,
        most: u32,
        limit: f64,
    ) -> Result<(), NoMemory> {
        for round in 0..most {
            let before = self.plan.cost;
            let mut any = false;
            for day in 0..tables.days {
                self.fill_day(tables, day)?;
                any |= self.sweep(tables, day, true)?;
            }
            let is_done = !any && before <= self.plan.cost;
            let is_hopeless = round == 0 && limit < self.plan.cost;
            if is_done || is_hopeless || self.is_spent() {
                break;
            }
        }
        Ok(())
    }
}
