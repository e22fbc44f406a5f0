//! The climb.

use crate::corners::{Corner, Share};
use crate::limits::Limits;
use crate::pass::clear;
use crate::price_range::PriceRange;
use crate::ranges::Ranges;
use crate::values::Values;
use advice::Stop;
use break_rules::NoMemory;
use shift_tables::ShiftTables;
use std::alloc::Global;

/// The rounds between two full passes.
const BATCH: u32 = 10;

/// The part of a shift's cost that it must earn to enter the working set.
const KEPT: f64 = 0.8;

/// The work, in edges of graphs and slots, after which a climb ends, whatever its limits.
const MOST_WORK: u64 = 1 << 31;

/// A climb of prices, with the memory that it takes.
#[derive(Drop)]
pub struct Climb {
    alloc: Global,
    pub(crate) values: Values,
    /// The slots in which some duty may work.
    pub(crate) reached: Vec<bool>,
    pub(crate) everyone: Vec<bool>,
    /// The working set.
    pub(crate) working: Vec<bool>,
    pub(crate) shift_worth: Vec<f64>,
    pub(crate) corners: Vec<Corner>,
    pub(crate) shares: Vec<Share>,
    /// The places of the chosen duties, with their numbers.
    pub(crate) chosen: Vec<(usize, f64)>,
    pub(crate) cover: Vec<f64>,
    /// The duties of each cut on duties of certain breaks.
    pub(crate) front_counts: Vec<f64>,
    /// How far each slot is from the number of its band that its price moves towards, and behind these each such cut from its number.
    /// So go the lists of prices below.
    pub(crate) violations: Vec<f64>,
    pub(crate) direction: Vec<f64>,
    /// The prices of the running pass.
    pub(crate) point: Vec<f64>,
    current: Vec<f64>,
    best: Vec<f64>,
    pub(crate) factor: f64,
    /// The work at which the running climb ends.
    end: u64,
    /// The averaged duties of each shift on each day, and the averaged part of each shift.
    pub(crate) heads: Vec<f64>,
    pub(crate) parts: Vec<f64>,
}

/// How far steps go, and how much the direction turns.
#[derive(Clone, Copy)]
struct Pace {
    step: f64,
    fails: u32,
    turn: f64,
}

impl Pace {
    /// A step from one value to another: longer steps after a good one, shorter ones after three that fail.
    fn adapt(&mut self, from: f64, to: f64) {
        if from * 1.000001 < to {
            if from * (1.0 + self.step * 0.5) < to {
                self.step = (self.step * 1.3).min(1.0);
            }
            self.fails = 0;
            return;
        }
        self.fails = self.fails.saturating_add(1);
        if 3 <= self.fails {
            self.fails = 0;
            self.shorten();
        }
    }

    /// Shorter steps.
    fn shorten(&mut self) {
        self.step *= 0.5;
        if self.step < 0.01 {
            self.turn = (self.turn * 0.7).max(0.02);
        }
        if self.step < 0.0001 {
            self.step = 0.02;
        }
    }
}

/// The value of the current prices, and that of the best.
#[derive(Clone, Copy)]
struct Stock {
    value: f64,
    best: f64,
}

/// Writes a list over another one.
fn copy(to: &mut [f64], from: &[f64]) {
    for (x, y) in to.iter_mut().zip(from) {
        *x = *y;
    }
}

/// Marks the slots of a window.
fn mark(reached: &mut [bool], base: usize, len: usize) {
    let slots = reached.len();
    for place in base..base.wrapping_add(len) {
        let slot = place.checked_rem(slots).unwrap_or(0);
        if let Some(x) = reached.get_mut(slot) {
            *x = true;
        }
    }
}

/// The slots in which some duty may work.
fn reached(alloc: Global, tables: &ShiftTables) -> Result<Vec<bool>, NoMemory> {
    let mut reached = vec![in alloc; false; tables.slots]?;
    for shift in &tables.usable {
        for day in 0..tables.days {
            mark(
                &mut reached,
                tables.base(*shift, day),
                tables.len_of(*shift),
            );
        }
    }
    Ok(reached)
}

impl Climb {
    /// A climb that hasn't begun.
    pub fn new(alloc: Global, tables: &ShiftTables) -> Result<Climb, NoMemory> {
        let slots = tables.slots;
        let shifts = tables.shift_count();
        let places = shifts.saturating_mul(tables.days);
        Ok(Climb {
            alloc,
            values: Values::new(alloc, tables)?,
            reached: reached(alloc, tables)?,
            everyone: vec![in alloc; true; shifts]?,
            working: vec![in alloc; false; shifts]?,
            shift_worth: vec![in alloc; 0.0; shifts]?,
            corners: Vec::new(alloc),
            shares: Vec::new(alloc),
            chosen: Vec::new(alloc),
            cover: vec![in alloc; 0.0; slots]?,
            front_counts: Vec::new(alloc),
            violations: Vec::new(alloc),
            direction: Vec::new(alloc),
            point: Vec::new(alloc),
            current: Vec::new(alloc),
            best: Vec::new(alloc),
            factor: 0.0,
            end: 0,
            heads: vec![in alloc; 0.0; places]?,
            parts: vec![in alloc; 0.0; shifts]?,
        })
    }

    /// The work done so far: edges of graphs, and slots.
    pub fn work(&self) -> u64 {
        self.values.work
    }

    /// The prices that gave the greatest value: of the slots, and behind them of the cuts on duties of certain breaks.
    pub fn best(&self) -> &[f64] {
        self.best.as_slice()
    }

    /// The averaged duties of each shift on each day, shift by shift.
    pub fn heads(&self) -> &[f64] {
        self.heads.as_slice()
    }

    /// The averaged part of each shift.
    pub fn parts(&self) -> &[f64] {
        self.parts.as_slice()
    }

    /// What the best duty of each shift on each day earns at the best prices, shift by shift, once more.
    pub fn worth(&mut self, tables: &ShiftTables, ranges: &Ranges) -> Result<Vec<f64>, NoMemory> {
        self.values
            .value(tables, ranges, &self.best, &self.everyone)?;
        let worth = Vec::from_slice(self.alloc, self.values.worth.as_slice())?;
        Ok(worth)
    }

    /// Makes the working set of the shifts that earn much, or adds them to it.
    fn renew_working(&mut self, tables: &ShiftTables, ranges: &Ranges, anew: bool) {
        for shift in &tables.usable {
            let at = usize::from(*shift);
            let worth = self.shift_worth.get(at).copied().unwrap_or(0.0);
            let is_in = KEPT * tables.weight <= self.factor * worth
                || ranges.is_forced(tables, *shift);
            if let Some(x) = self.working.get_mut(at) {
                *x = is_in || (!anew && *x);
            }
        }
    }

    /// The direction at a place, without what leads out of the box.
    fn inward(&self, tables: &ShiftTables, place: usize) -> f64 {
        let along = self.direction.get(place).copied().unwrap_or(0.0);
        let price = self.current.get(place).copied().unwrap_or(0.0);
        PriceRange::at(tables, place).inward(price, along)
    }

    /// The square of the length of the direction, without what leads out of the box.
    fn length_squared(&self, tables: &ShiftTables) -> f64 {
        let mut sum = 0.0;
        for place in 0..self.direction.len() {
            let along = self.inward(tables, place);
            sum += along * along;
        }
        sum
    }

    /// Puts the point a step away from the current prices; `false` where there is no way.
    fn go(&mut self, tables: &ShiftTables, value: f64, step: f64) -> bool {
        let norm = self.length_squared(tables);
        if norm < 0.000000000001 {
            return false;
        }
        let size = step * value.abs().max(0.5) / norm;
        for place in 0..self.direction.len() {
            let along = self.inward(tables, place);
            let price = self.current.get(place).copied().unwrap_or(0.0);
            if let Some(x) = self.point.get_mut(place) {
                *x = PriceRange::at(tables, place).nearest(price + size * along);
            }
        }
        true
    }

    /// Whether the running climb has done all the work that it may.
    fn is_spent(&self) -> bool {
        self.end <= self.values.work
    }

    /// Rounds over the working set, from the current prices of a value; gives the value of those it ends at.
    fn run_batch<S: Stop>(
        &mut self,
        tables: &ShiftTables,
        ranges: &Ranges,
        pace: &mut Pace,
        from: f64,
        goal: f64,
        stop: &S,
    ) -> Result<f64, NoMemory> {
        let mut value = from;
        for _ in 0..BATCH {
            let is_over = goal <= value || self.is_spent() || stop.is_asked();
            if is_over || !self.go(tables, value, pace.step) {
                break;
            }
            let next = self.pass(tables, ranges, false)?;
            let weight = self.turn(pace.turn);
            self.mix(weight);
            pace.adapt(value, next);
            if value * 1.000001 < next {
                value = next;
                copy(&mut self.current, &self.point);
            }
        }
        Ok(value)
    }

    /// Values the current prices over all shifts, and keeps them where they are the best so far; goes back to the best where
    /// they are much worse.
    fn take_stock(
        &mut self,
        tables: &ShiftTables,
        ranges: &Ranges,
        best: f64,
    ) -> Result<Stock, NoMemory> {
        copy(&mut self.point, &self.current);
        let value = self.pass(tables, ranges, true)?;
        copy(&mut self.current, &self.point);
        self.renew_working(tables, ranges, false);
        if best < value {
            copy(&mut self.best, &self.current);
            return Ok(Stock { value, best: value });
        }
        if value < best * 0.98 - 0.02 {
            copy(&mut self.current, &self.best);
            return Ok(Stock { value: best, best });
        }
        Ok(Stock { value, best })
    }

    /// Makes room for so many prices.
    fn make_room(&mut self, slots: usize, fronts: usize) -> Result<(), NoMemory> {
        let count = slots.saturating_add(fronts);
        self.front_counts = vec![in self.alloc; 0.0; fronts]?;
        self.violations = vec![in self.alloc; 0.0; count]?;
        self.direction = vec![in self.alloc; 0.0; count]?;
        self.point = vec![in self.alloc; 0.0; count]?;
        self.current = vec![in self.alloc; 0.0; count]?;
        self.best = vec![in self.alloc; 0.0; count]?;
        Ok(())
    }

    /// Puts the point at some prices, kept in their ranges; slots in which no duty may work have the greatest price.
    fn lay_start(&mut self, tables: &ShiftTables, start: &[f64]) {
        for place in 0..self.point.len() {
            let range = PriceRange::at(tables, place);
            let price = start.get(place).copied().unwrap_or(0.0);
            let is_reached = self.reached.get(place).copied().unwrap_or(true);
            if let Some(x) = self.point.get_mut(place) {
                *x = if is_reached {
                    range.nearest(price)
                } else {
                    tables.shortage
                };
            }
        }
    }

    /// Begins at some prices: values them over all shifts.
    fn begin(
        &mut self,
        tables: &ShiftTables,
        ranges: &Ranges,
        start: &[f64],
    ) -> Result<f64, NoMemory> {
        self.make_room(tables.slots, ranges.fronts().len())?;
        self.lay_start(tables, start);
        clear(&mut self.heads);
        clear(&mut self.parts);
        let value = self.pass(tables, ranges, true)?;
        self.renew_working(tables, ranges, true);
        copy(&mut self.current, &self.point);
        copy(&mut self.best, &self.point);
        copy(&mut self.direction, &self.violations);
        self.mix(1.0);
        Ok(value)
    }

    /// Climbs from some prices, of the slots and behind them of the first cuts on duties of certain breaks, and gives the
    /// greatest value found: a bound on the cost below the cuts, but for rounding.
    ///
    /// It prices all shifts at most once more than there are tens of rounds, and those of the working set at most once in each
    /// round. It ends at the round after which it has visited some two thousand million edges and slots, or in which it is asked to
    /// stop.
    pub fn climb<S: Stop>(
        &mut self,
        tables: &ShiftTables,
        ranges: &Ranges,
        start: &[f64],
        limits: Limits,
        stop: &S,
    ) -> Result<f64, NoMemory> {
        self.end = self.values.work.saturating_add(MOST_WORK);
        let mut best = self.begin(tables, ranges, start)?;
        let mut value = best;
        let mut pace = Pace {
            step: limits.step,
            fails: 0,
            turn: 0.5,
        };
        let mut stalls = 0u32;
        for _ in 0..limits.rounds / BATCH {
            let is_over = limits.goal <= best || limits.stalls <= stalls || self.is_spent();
            if is_over || stop.is_asked() {
                break;
            }
            let from = value;
            value = self.run_batch(tables, ranges, &mut pace, value, limits.goal, stop)?;
            if best < value {
                let stock = self.take_stock(tables, ranges, best)?;
                value = stock.value;
                best = stock.best;
            }
            let has_gained = from + 0.002 * from.abs().max(1.0) <= value;
            stalls = if has_gained {
                0
            } else {
                stalls.saturating_add(1)
            };
        }
        Ok(best)
    }
}
