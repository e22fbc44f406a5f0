//! Moves on the set of used shifts.

use crate::search::{PlanSearch, Task};
use advice::Stop;
use break_rules::NoMemory;
use shift_tables::ShiftTables;
use working_plan::Placed;

/// The duties of a shift on each day.
pub(crate) type Heads = [usize; 7];

/// How often a change of the set is polished.
const POLISHES: u32 = 4;

/// The most moves of a repair.
const REPAIRS: u32 = 300;

/// The most moves of a repair of a change that is kept without them.
const TOUCHES: u32 = 60;

/// After how many moves of a repair days take the duties of cheaper ones.
const SPREAD: u32 = 100;

/// How many shifts are drawn at most of which a used one becomes that which gains most.
const DRAWN: u32 = 6;

/// The part of the changes that is repaired, those that raise the cost least.
const REPAIRED: f64 = 0.03;

/// The repair of a change of the set that is under way.
#[derive(Clone, Copy)]
pub(crate) struct Repair {
    /// What the plan may cost in the end.
    threshold: f64,
    /// The temperature of its moves.
    cool: f64,
    /// What the plan cost at first.
    from: f64,
    /// How many moves were made.
    moves: u32,
}

/// The duties of two shifts together, by day.
fn joined(a: &Heads, b: &Heads) -> Heads {
    let mut both = [0; 7];
    for (place, (x, y)) in both.iter_mut().zip(a.iter().zip(b)) {
        *place = x.saturating_add(*y);
    }
    both
}

/// Half of the duties of each day, rounded down, and the rest.
fn halved(heads: &Heads) -> (Heads, Heads) {
    let mut first = [0; 7];
    let mut second = [0; 7];
    for (place, x) in first.iter_mut().zip(heads) {
        *place = *x / 2;
    }
    for (place, x) in second.iter_mut().zip(heads) {
        *place = *x - *x / 2;
    }
    (first, second)
}

impl<S: Stop + Drop> PlanSearch<S> {
    /// Takes so many duties of a shift on a day out, the last ones first, and tells how many these are.
    pub(crate) fn drop_some(
        &mut self,
        tables: &ShiftTables,
        shift: u16,
        day: usize,
        count: usize,
    ) -> Result<usize, NoMemory> {
        for _ in 0..count {
            if let Some(pauses) = self.plan.duties(tables, shift, day).last().copied() {
                self.take(tables, Placed { shift, day, pauses })?;
            }
        }
        Ok(count)
    }

    /// Takes all duties of a shift on a day out, and tells how many there were.
    pub(crate) fn drop_day(
        &mut self,
        tables: &ShiftTables,
        shift: u16,
        day: usize,
    ) -> Result<usize, NoMemory> {
        let count = self.plan.duties(tables, shift, day).len();
        self.drop_some(tables, shift, day, count)
    }

    /// Takes all duties of a shift out, and tells how many there were on each day.
    pub(crate) fn drop_shift(
        &mut self,
        tables: &ShiftTables,
        shift: u16,
    ) -> Result<Heads, NoMemory> {
        let mut heads = [0; 7];
        for (day, place) in heads.iter_mut().take(tables.days).enumerate() {
            *place = self.drop_day(tables, shift, day)?;
        }
        Ok(heads)
    }

    /// What one more duty of a shift on a day gains, and 0 where it doesn't or there is no room for it.
    fn gain(&mut self, tables: &ShiftTables, shift: u16, day: usize) -> f64 {
        if self.plan.has_room(tables, shift, day) && 0.0 < self.bound(tables, shift, day) {
            self.value(tables, shift, day).max(0.0)
        } else {
            0.0
        }
    }

    /// What one more duty of a shift gains on each day, summed up.
    fn gain_of_days(&mut self, tables: &ShiftTables, shift: u16) -> f64 {
        let mut sum = 0.0;
        for day in 0..tables.days {
            sum += self.gain(tables, shift, day);
        }
        sum
    }

    /// Puts so many duties of a shift in on a day, as far as there is room, and, if `strict`, as long as they gain.
    fn put_day(
        &mut self,
        tables: &ShiftTables,
        shift: u16,
        day: usize,
        count: usize,
        strict: bool,
    ) -> Result<(), NoMemory> {
        for _ in 0..count {
            let goes_on = if strict {
                0.0 < self.gain(tables, shift, day)
            } else {
                self.plan.has_room(tables, shift, day)
            };
            if self.is_spent() || !goes_on || !self.put_best(tables, shift, day)? {
                break;
            }
        }
        Ok(())
    }

    /// Puts so many duties of a shift in on each day, as far as there is room, and, if `strict`, as long as they gain.
    pub(crate) fn put_heads(
        &mut self,
        tables: &ShiftTables,
        shift: u16,
        heads: &Heads,
        strict: bool,
    ) -> Result<(), NoMemory> {
        for (day, count) in heads.iter().take(tables.days).enumerate() {
            self.put_day(tables, shift, day, *count, strict)?;
        }
        Ok(())
    }

    /// Puts duties of a shift in on each day as long as they gain.
    pub(crate) fn add_shift(&mut self, tables: &ShiftTables, shift: u16) -> Result<(), NoMemory> {
        let heads = [tables.heads; 7];
        self.put_heads(tables, shift, &heads, true)
    }

    /// Of some shifts that are drawn, near one or else candidates, the first whose duties gain most; never that one itself.
    fn most_gaining(&mut self, tables: &ShiftTables, shift: u16, is_near: bool) -> Option<u16> {
        let mut found = None;
        let mut most = 0.0;
        for _ in 0..DRAWN {
            let drawn = if is_near {
                self.neighbour(tables, shift)?
            } else {
                self.candidate(tables)?
            };
            if drawn == shift || found == Some(drawn) || self.is_spent() {
                continue;
            }
            let gain = self.gain_of_days(tables, drawn);
            if most < gain {
                most = gain;
                found = Some(drawn);
            }
        }
        found
    }

    /// A used shift becomes another one, three times in four one near it: of some that are drawn the one that gains most in its place.
    /// Where none of them gains, the shift goes.
    fn become_other(&mut self, tables: &ShiftTables, shift: u16) -> Result<(), NoMemory> {
        let is_near = !self.chance.is_once_in(4);
        let heads = self.drop_shift(tables, shift)?;
        let Some(other) = self.most_gaining(tables, shift, is_near) else {
            return Ok(());
        };
        let strict = self.chance.is_once_in(2);
        self.put_heads(tables, other, &heads, strict)
    }

    /// A candidate is added, and none to two used shifts are dropped.
    fn add_candidate(&mut self, tables: &ShiftTables, shift: u16) -> Result<(), NoMemory> {
        let Some(other) = self.candidate(tables) else {
            return Ok(());
        };
        if self.chance.is_once_in(2) {
            let _ = self.drop_shift(tables, shift)?;
        }
        if 1 < self.plan.used.len() && self.chance.is_once_in(2) {
            if let Some(dropped) = self.some_used() {
                let _ = self.drop_shift(tables, dropped)?;
            }
        }
        self.add_shift(tables, other)
    }

    /// The usable shift from one slot of the day to another.
    pub(crate) fn usable_between(&self, tables: &ShiftTables, start: u16, end: u16) -> Option<u16> {
        for shift in &tables.usable {
            if let Some(place) = tables.shifts.get(usize::from(*shift)) {
                if place.start == start && place.start.saturating_add(place.len) == end {
                    return Some(*shift);
                }
            }
        }
        None
    }

    /// Two used shifts that overlap exchange their ends.
    fn exchange_ends(&mut self, tables: &ShiftTables, shift: u16) -> Result<(), NoMemory> {
        let Some(other) = self.some_used() else {
            return Ok(());
        };
        let (Some(x), Some(y)) = (
            tables.shifts.get(usize::from(shift)),
            tables.shifts.get(usize::from(other)),
        ) else {
            return Ok(());
        };
        let (x_end, y_end) = (x.start.saturating_add(x.len), y.start.saturating_add(y.len));
        if shift == other || y_end <= x.start || x_end <= y.start {
            return Ok(());
        }
        let first = self.usable_between(tables, x.start, y_end);
        let second = self.usable_between(tables, y.start, x_end);
        let (Some(first), Some(second)) = (first, second) else {
            return Ok(());
        };
        if first == shift || first == other {
            return Ok(());
        }
        let heads = self.drop_shift(tables, shift)?;
        let others = self.drop_shift(tables, other)?;
        self.put_heads(tables, first, &heads, true)?;
        self.put_heads(tables, second, &others, true)
    }

    /// Two used shifts become one of them or near it.
    fn join_shifts(
        &mut self,
        tables: &ShiftTables,
        shift: u16,
        other: u16,
    ) -> Result<(), NoMemory> {
        let heads = self.drop_shift(tables, shift)?;
        let others = self.drop_shift(tables, other)?;
        let joint = match self.chance.below(4) {
            0 => Some(shift),
            1 => self.neighbour(tables, other),
            _ => self.neighbour(tables, shift),
        };
        match joint {
            Some(joint) => self.put_heads(tables, joint, &joined(&heads, &others), true),
            None => Ok(()),
        }
    }

    /// A used shift becomes two near it.
    fn split_shift(&mut self, tables: &ShiftTables, shift: u16) -> Result<(), NoMemory> {
        let first = self.neighbour(tables, shift);
        let second = self.neighbour(tables, shift);
        let (Some(first), Some(second)) = (first, second) else {
            return Ok(());
        };
        let (half, rest) = halved(&self.drop_shift(tables, shift)?);
        self.put_heads(tables, first, &half, true)?;
        self.put_heads(tables, second, &rest, true)
    }

    /// Two used shifts become one, or one becomes two.
    fn join_or_split(&mut self, tables: &ShiftTables, shift: u16) -> Result<(), NoMemory> {
        let other = self.some_used().unwrap_or(shift);
        if shift != other && self.chance.is_once_in(2) {
            self.join_shifts(tables, shift, other)
        } else {
            self.split_shift(tables, shift)
        }
    }

    /// Changes the set of used shifts in one of the ways, as a number from 0 to 44 tells.
    fn change_set(&mut self, tables: &ShiftTables, shift: u16, way: usize) -> Result<(), NoMemory> {
        match way {
            0..=17 => self.move_boundary(tables, shift),
            18..=27 => self.become_other(tables, shift),
            28..=30 => {
                let _ = self.drop_shift(tables, shift)?;
                Ok(())
            }
            31..=33 => self.add_candidate(tables, shift),
            34..=35 => self.exchange_ends(tables, shift),
            36..=40 => self.grow_some(tables),
            _ => self.join_or_split(tables, shift),
        }
    }

    /// Has the next moves repair a change of the set: moves on duties, as long as they promise to bring the cost to a threshold.
    fn repair(&mut self, tables: &ShiftTables, threshold: f64, temperature: f64) {
        let unit = tables.excess.min(tables.shortage);
        self.task = Task::Repair(Repair {
            threshold,
            cool: unit.min(temperature),
            from: self.plan.cost,
            moves: 0,
        });
    }

    /// Whether a repair goes on.
    fn is_repairing(&self, repair: Repair) -> bool {
        let cost = self.plan.cost;
        let is_slow = repair.threshold < cost
            && (repair.from - cost) * 2.0 < repair.from - repair.threshold;
        let most = if repair.from <= repair.threshold {
            TOUCHES
        } else {
            REPAIRS
        };
        repair.moves < most && !self.is_spent() && !(repair.moves == REPAIRS / 4 && is_slow)
    }

    /// One move of a repair, or its end.
    pub(crate) fn repair_on(
        &mut self,
        tables: &ShiftTables,
        repair: Repair,
    ) -> Result<(), NoMemory> {
        if repair.moves < REPAIRS && repair.moves % SPREAD == 0 {
            self.spread(tables)?;
        }
        if !self.is_repairing(repair) {
            self.task = Task::Moves;
            return self.end_change(tables, repair.threshold);
        }
        self.task = Task::Repair(Repair {
            moves: repair.moves.saturating_add(1),
            ..repair
        });
        self.move_duties(tables, repair.cool)
    }

    /// Keeps a change of the set where the cost is at most a threshold, and else undoes it.
    fn end_change(&mut self, tables: &ShiftTables, threshold: f64) -> Result<(), NoMemory> {
        if self.plan.cost <= threshold {
            self.log.clear();
        } else {
            self.undo_to(tables, 0)?;
        }
        self.note_best(tables)
    }

    /// Whether a change of the set is among those that are repaired; follows the law of their rises.
    fn is_repaired(&mut self, tables: &ShiftTables, rise: f64) -> bool {
        let is_low = rise <= self.repaired_rise;
        let pull = if is_low { REPAIRED - 1.0 } else { REPAIRED };
        self.repaired_rise += 0.1 * tables.weight * pull;
        is_low
    }

    /// A move on the set of used shifts, kept where it ends below a threshold that is drawn beforehand. Where it is to be repaired, the
    /// next moves do that.
    pub(crate) fn move_set(
        &mut self,
        tables: &ShiftTables,
        way: usize,
        temperature: f64,
    ) -> Result<(), NoMemory> {
        let Some(shift) = self.some_used() else {
            return Ok(());
        };
        let before = self.plan.cost;
        self.change_set(tables, shift, way)?;
        if self.log.is_empty() {
            return Ok(());
        }
        let threshold = before + self.chance.exponential() * temperature;
        let cap = before * 1.3 + 2.0 * tables.weight;
        self.polish(tables, POLISHES, cap)?;
        let rise = self.plan.cost - before;
        if self.is_repaired(tables, rise) || self.plan.cost <= threshold {
            self.repair(tables, threshold, temperature);
            return self.note_best(tables);
        }
        self.end_change(tables, threshold)
    }

    /// Adds so many candidates.
    pub(crate) fn add_candidates(
        &mut self,
        tables: &ShiftTables,
        count: u32,
    ) -> Result<(), NoMemory> {
        for _ in 0..count {
            if let Some(candidate) = self.candidate(tables) {
                self.add_shift(tables, candidate)?;
            }
        }
        Ok(())
    }

    /// One change of the set of used shifts, taken whatever it costs.
    pub(crate) fn kick(&mut self, tables: &ShiftTables) -> Result<(), NoMemory> {
        let Some(shift) = self.some_used() else {
            return Ok(());
        };
        let way = self.chance.below(10);
        if way < 5 {
            self.become_other(tables, shift)?;
        } else if way != 7 {
            let _ = self.drop_shift(tables, shift)?;
        }
        if way == 8 {
            if let Some(dropped) = self.some_used() {
                let _ = self.drop_shift(tables, dropped)?;
            }
        }
        let added = match way {
            7 | 9 => 1,
            8 => 2,
            _ => 0,
        };
        self.add_candidates(tables, added)?;
        self.polish(tables, 2, f64::INFINITY)
    }
}
