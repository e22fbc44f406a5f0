//! One pass: the value of prices at the top of their ray, and how the best solution there fails the bands.

use crate::climb::Climb;
use crate::corners::{Corner, Share, top};
use crate::price_range::PriceRange;
use crate::ranges::Ranges;
use break_rules::NoMemory;
use shift_tables::{Pauses, ShiftTables, begins_with};

/// Adds so many employees to the cover of some slots of a window.
fn add_cover(cover: &mut [f64], from: usize, to: usize, heads: f64) {
    let slots = cover.len();
    for place in from..to {
        let slot = if place < slots {
            place
        } else {
            place.wrapping_sub(slots)
        };
        if let Some(x) = cover.get_mut(slot) {
            *x += heads;
        }
    }
}

/// Adds so many duties with some breaks to the cover.
fn add_duties(
    tables: &ShiftTables,
    cover: &mut [f64],
    shift: u16,
    day: usize,
    pauses: &Pauses,
    heads: f64,
) {
    let Some(place) = tables.shifts.get(usize::from(shift)) else {
        return;
    };
    let base = tables.base(shift, day);
    let mut from = base;
    for stop in pauses.as_slice() {
        let start = base.wrapping_add(usize::from(stop.start));
        add_cover(cover, from, start, heads);
        from = start
            .wrapping_add(usize::from(stop.len))
            .wrapping_add(usize::from(place.resettle));
    }
    add_cover(
        cover,
        from,
        base.wrapping_add(usize::from(place.len)),
        heads,
    );
}

/// Adds so many duties of unknown breaks to the cover, each by the part of its window in which it works.
fn add_parts(tables: &ShiftTables, cover: &mut [f64], shift: u16, day: usize, heads: f64) {
    let Some(place) = tables.shifts.get(usize::from(shift)) else {
        return;
    };
    let base = tables.base(shift, day);
    let end = base.wrapping_add(usize::from(place.len));
    let part = 1.0 - place.total / f64::from(place.len).max(1.0);
    add_cover(cover, base, end, heads * part);
}

/// Writes 0 over a list.
pub(crate) fn clear(list: &mut [f64]) {
    for x in list.iter_mut() {
        *x = 0.0;
    }
}

/// The factor by which prices on a ray come to the edge of their ranges, at most 2^40.
fn edge(tables: &ShiftTables, prices: &[f64], reached: &[bool]) -> f64 {
    let mut most = f64::MAX;
    for (place, price) in prices.iter().enumerate() {
        if reached.get(place).copied().unwrap_or(true) {
            most = PriceRange::at(tables, place).factor(*price).min(most);
        }
    }
    most
}

/// The number of a slot's band that a price counts for: the most wanted employees where it is below 0, and else the need.
fn wanted(price: f64, need: i32, most: i32) -> f64 {
    f64::from(if price < 0.0 { most } else { need })
}

/// The number of a slot's band that its price moves towards where so many work: the one that the price counts for, and for price 0
/// the one that is nearest to how many work.
fn target(price: f64, need: i32, most: i32, working: f64) -> f64 {
    let (need, most) = (f64::from(need), f64::from(most));
    if 0.0 < price {
        need
    } else if price < 0.0 {
        most
    } else {
        working.max(need).min(most)
    }
}

impl Climb {
    /// What wanted employees and cuts earn along the ray, and what those slots earn that nobody can work in.
    fn needed(&self, tables: &ShiftTables, ranges: &Ranges) -> (f64, f64) {
        let mut slope = 0.0;
        let mut fixed = 0.0;
        let bands = tables.need.iter().zip(&tables.need_max);
        for ((price, (need, most)), reached) in self.point.iter().zip(bands).zip(&self.reached) {
            let earned = *price * wanted(*price, *need, *most);
            if *reached {
                slope += earned;
            } else {
                fixed += earned;
            }
        }
        let cut_prices = self.point.iter().skip(tables.slots);
        for (cut, price) in ranges.fronts().iter().zip(cut_prices) {
            slope += cut.earned(*price) * cut.m;
        }
        (slope, fixed)
    }

    /// Counts one shift: as one that must be used, or as a corner.
    fn count_shift(
        &mut self,
        tables: &ShiftTables,
        ranges: &Ranges,
        shift: u16,
        slope: &mut f64,
        fixed: &mut f64,
    ) -> Result<(), NoMemory> {
        let is_forced = ranges.is_forced(tables, shift);
        let worth = if is_forced {
            ranges.forced_worth(tables, &self.values.worth, shift)
        } else {
            ranges.free_worth(tables, &self.values.worth, shift)
        };
        if let Some(place) = self.shift_worth.get_mut(usize::from(shift)) {
            *place = worth;
        }
        if is_forced {
            *fixed += tables.weight;
            *slope -= worth;
            self.shares.push(Share {
                shift,
                part: 1.0,
                forced: true,
            })?;
        } else if 0.0 < worth {
            self.corners.push(Corner {
                factor: tables.weight / worth,
                worth,
                shift,
            })?;
        }
        Ok(())
    }

    /// Counts the duties with some breaks to the cuts on them.
    fn count_fronts(
        &mut self,
        ranges: &Ranges,
        shift: u16,
        day: usize,
        pauses: &Pauses,
        heads: f64,
    ) {
        for (count, cut) in self.front_counts.iter_mut().zip(ranges.fronts()) {
            if cut.shift == shift
                && cut.day == day
                && begins_with(pauses.as_slice(), cut.front.as_slice())
            {
                *count += heads;
            }
        }
    }

    /// Chooses so many duties of a shift on a day, and adds them to the cover.
    fn choose(
        &mut self,
        tables: &ShiftTables,
        ranges: &Ranges,
        shift: u16,
        day: usize,
        heads: f64,
    ) -> Result<(), NoMemory> {
        self.chosen.push((tables.place(shift, day), heads))?;
        let cut_prices = self.point.get(tables.slots..).unwrap_or(&[]);
        match self.values.found(tables, ranges, cut_prices, shift, day)? {
            Some(found) => {
                let pauses = found.pauses;
                add_duties(tables, &mut self.cover, shift, day, &pauses, heads);
                self.count_fronts(ranges, shift, day, &pauses, heads);
            }
            None => add_parts(tables, &mut self.cover, shift, day, heads),
        }
        let scanned = tables.len_of(shift).saturating_add(ranges.fronts().len());
        self.values.count_work(scanned);
        Ok(())
    }

    /// Chooses the duties of a share.
    fn choose_share(
        &mut self,
        tables: &ShiftTables,
        ranges: &Ranges,
        share: Share,
    ) -> Result<(), NoMemory> {
        for day in 0..tables.days {
            let place = tables.place(share.shift, day);
            let heads = ranges.best_heads(place, self.values.at(place), share.forced);
            if 0.0 < heads {
                self.choose(tables, ranges, share.shift, day, heads * share.part)?;
            }
        }
        Ok(())
    }

    /// How far the cover of each slot is from the number that its price moves towards, and the count of each cut on duties of certain
    /// breaks from its number.
    fn lay_violations(&mut self, tables: &ShiftTables, ranges: &Ranges) {
        let bands = tables.need.iter().zip(&tables.need_max);
        let counted = self.cover.iter().zip(bands).zip(&self.reached);
        let priced = counted.zip(&self.point);
        for (place, (((x, (need, most)), reached), price)) in self
            .violations
            .iter_mut()
            .zip(priced)
        {
            *place = if *reached {
                target(*price, *need, *most, *x) - *x
            } else {
                0.0
            };
        }
        let fronts = ranges.fronts().iter().zip(&self.front_counts);
        for (place, (cut, count)) in self.violations.iter_mut().skip(tables.slots).zip(fronts) {
            *place = cut.violation(*count);
        }
    }

    /// The chosen duties, and how they fail the bands and the cuts.
    fn find_violations(&mut self, tables: &ShiftTables, ranges: &Ranges) -> Result<(), NoMemory> {
        self.chosen.clear();
        clear(&mut self.cover);
        clear(&mut self.front_counts);
        for k in 0..self.shares.len() {
            if let Some(share) = self.shares.get(k).copied() {
                self.choose_share(tables, ranges, share)?;
            }
        }
        self.lay_violations(tables, ranges);
        Ok(())
    }

    /// Moves the point along its ray.
    fn scale(&mut self, tables: &ShiftTables, factor: f64) {
        for (price, reached) in self.point.iter_mut().zip(&self.reached) {
            if *reached {
                *price *= factor;
            }
        }
        for price in self.point.iter_mut().skip(tables.slots) {
            *price *= factor;
        }
    }

    /// Counts the shifts of the working set, or all; gives the slope of the ray, and what doesn't change along it.
    fn count_shifts(
        &mut self,
        tables: &ShiftTables,
        ranges: &Ranges,
        all: bool,
    ) -> Result<(f64, f64), NoMemory> {
        self.corners.clear();
        self.shares.clear();
        let (mut slope, mut fixed) = self.needed(tables, ranges);
        for shift in &tables.usable {
            let at = usize::from(*shift);
            if all || self.working.get(at).copied().unwrap_or(false) {
                self.count_shift(tables, ranges, *shift, &mut slope, &mut fixed)?;
            }
        }
        Ok((slope, fixed))
    }

    /// What the shifts that needn't be used earn above their cost at a point of the ray.
    fn surplus(&self, tables: &ShiftTables, factor: f64) -> f64 {
        let mut sum = 0.0;
        for corner in &self.corners {
            sum += (factor * corner.worth - tables.weight).max(0.0);
        }
        sum
    }

    /// Brings the point to the top of its ray over the shifts of the working set, or over all, and gives the value there, with
    /// the solution and its violations.
    pub(crate) fn pass(
        &mut self,
        tables: &ShiftTables,
        ranges: &Ranges,
        all: bool,
    ) -> Result<f64, NoMemory> {
        if all {
            self.values
                .value(tables, ranges, &self.point, &self.everyone)?;
        } else {
            self.values
                .value(tables, ranges, &self.point, &self.working)?;
        }
        let (slope, fixed) = self.count_shifts(tables, ranges, all)?;
        let most = edge(tables, &self.point, &self.reached);
        let factor = top(&mut self.corners, &mut self.shares, slope, most)?;
        let value = fixed + factor * slope - self.surplus(tables, factor);
        self.find_violations(tables, ranges)?;
        self.scale(tables, factor);
        if all {
            self.factor = factor;
        }
        self.values.count_work(self.point.len().saturating_mul(8));
        Ok(value)
    }
}
