//! What the best duty of each shift on each day earns.

use crate::ranges::Ranges;
use break_rules::NoMemory;
use shift_tables::{Bonus, Found, LANES, Lane, ListGraph, ShiftTables};
use std::alloc::Global;
use std::num::saturating_f64_to_i64;

/// The most slots of a shift.
const WINDOW: usize = 288;

/// What the whole prices of a window may add up to: sums of windows fit into 32 bits then, with a sign.
const WHOLE: f64 = 1073741824.0;

/// 2 to the power of 31.
const ROUND: f64 = 2147483648.0;

/// What the best duties earn at some prices, with the memory that it takes to find it.
#[derive(Drop)]
pub(crate) struct Values {
    /// What the best duty of each shift on each day earns.
    pub(crate) worth: Vec<f64>,
    /// The sums of the prices before each slot, twice around the planning period.
    sums: Vec<f64>,
    /// The same of prices that are whole numbers of units, beyond 32 bits going round.
    whole_sums: Vec<i32>,
    /// How many units make a price of 1.
    units: f64,
    /// For each graph, the shifts and days whose lists it has.
    users: Vec<Vec<(u16, usize)>>,
    /// The places that are valued in the next walk, and how many there are.
    lanes: [usize; LANES],
    count: usize,
    windows: Vec<Lane>,
    rests: Vec<Lane>,
    list_rests: Vec<f64>,
    /// What duties earn by the cuts on their shift and day.
    bonuses: Vec<Bonus>,
    pub(crate) work: u64,
}

/// The shifts and days of a graph.
fn list_users(
    alloc: Global,
    tables: &ShiftTables,
    number: usize,
) -> Result<Vec<(u16, usize)>, NoMemory> {
    let mut users = Vec::new(alloc);
    for shift in &tables.usable {
        if tables.graph_of(*shift) == number {
            for day in 0..tables.days {
                users.push((*shift, day))?;
            }
        }
    }
    Ok(users)
}

/// How many units make a price of 1, where a slot's price is at most so great: a power of 2, so that sums of prices that are halves,
/// quarters and so on stay exact.
fn units_of(greatest: f64) -> f64 {
    let mut units = WHOLE;
    for _ in 0..64 {
        if WHOLE < units * greatest * 288.0 {
            units *= 0.5;
        }
    }
    units
}

/// The whole number nearest to a number of units, and 0 for one that 32 bits can't hold.
fn whole_price(units: f64) -> i32 {
    let raised = saturating_f64_to_i64(units + ROUND + 0.5);
    i32::try_from(raised.wrapping_sub(1 << 31)).unwrap_or(0)
}

/// Whether a shift is asked for.
fn is_asked(asked: &[bool], shift: u16) -> bool {
    asked.get(usize::from(shift)).copied().unwrap_or(false)
}

/// Writes the sums of a window into one lane.
fn lay_lane(windows: &mut [Lane], sums: &[i32], lane: usize) {
    let first = sums.first().copied().unwrap_or(0);
    for (place, sum) in windows.iter_mut().zip(sums) {
        if let Some(x) = place.get_mut(lane) {
            *x = sum.wrapping_sub(first);
        }
    }
}

impl Values {
    /// Nothing is known yet.
    pub(crate) fn new(alloc: Global, tables: &ShiftTables) -> Result<Values, NoMemory> {
        let places = tables.shift_count().saturating_mul(tables.days);
        let sums = tables.slots.saturating_mul(2).saturating_add(1);
        let mut users = Vec::new(alloc);
        for number in 0..tables.graphs().len() {
            users.push(list_users(alloc, tables, number)?)?;
        }
        Ok(Values {
            worth: vec![in alloc; 0.0; places]?,
            sums: vec![in alloc; 0.0; sums]?,
            whole_sums: vec![in alloc; 0; sums]?,
            units: units_of(tables.excess.max(tables.shortage)),
            users,
            lanes: [0; LANES],
            count: 0,
            windows: vec![in alloc; [0; LANES]; WINDOW + 1]?,
            rests: vec![in alloc; [0; LANES]; tables.most_nodes()]?,
            list_rests: vec![in alloc; 0.0; tables.most_nodes()]?,
            bonuses: Vec::new(alloc),
            work: 0,
        })
    }

    /// What the best duty of a shift on a day earns.
    pub(crate) fn at(&self, place: usize) -> f64 {
        self.worth.get(place).copied().unwrap_or(0.0)
    }

    /// Sums the prices up, twice around.
    fn lay_sums(&mut self, prices: &[f64]) {
        let (mut sum, mut whole) = (0.0, 0i32);
        let twice = prices.iter().chain(prices.iter());
        let places = self.sums.iter_mut().zip(&mut self.whole_sums);
        for ((place, whole_place), price) in places.skip(1).zip(twice) {
            sum += *price;
            whole = whole.wrapping_add(whole_price(*price * self.units));
            *place = sum;
            *whole_place = whole;
        }
    }

    /// Counts work.
    pub(crate) fn count_work(&mut self, work: usize) {
        self.work = self.work.saturating_add(work as u64);
    }

    /// Writes what the best duty at a place earns.
    fn set_worth(&mut self, place: usize, earned: f64) {
        if let Some(x) = self.worth.get_mut(place) {
            *x = earned;
        }
    }

    /// Values the windows that were laid together.
    fn walk(&mut self, graph: &ListGraph, len: usize) {
        let windows = self.windows.get(..=len).unwrap_or(&[]);
        let lane = graph.best_by_lane(windows, &mut self.rests);
        for k in 0..LANES {
            if k < self.count {
                self.set_worth(self.lanes[k], f64::from(lane[k]) / self.units);
            }
        }
        self.count = 0;
        self.count_work(graph.edge_count().saturating_mul(3));
    }

    /// Lays the window of a shift on a day for the next walk.
    fn lay(&mut self, tables: &ShiftTables, shift: u16, day: usize) {
        let base = tables.base(shift, day);
        let len = tables.len_of(shift);
        let end = base.wrapping_add(len);
        let sums = self.whole_sums.get(base..=end).unwrap_or(&[]);
        lay_lane(&mut self.windows, sums, self.count);
        if let Some(place) = self.lanes.get_mut(self.count) {
            *place = tables.place(shift, day);
        }
        self.count = self.count.wrapping_add(1);
        self.count_work(len);
    }

    /// The shifts and days of a graph.
    fn users_of(&self, number: usize) -> &[(u16, usize)] {
        match self.users.get(number) {
            Some(users) => users.as_slice(),
            None => &[],
        }
    }

    /// Values all shifts and days of a graph whose shifts are asked for, but for those that have no duties.
    fn value_graph(
        &mut self,
        tables: &ShiftTables,
        ranges: &Ranges,
        number: usize,
        graph: &ListGraph,
        asked: &[bool],
    ) {
        let mut len = 0;
        for k in 0..self.users_of(number).len() {
            let Some((shift, day)) = self.users_of(number).get(k).copied() else {
                break;
            };
            if !is_asked(asked, shift) {
                continue;
            }
            let place = tables.place(shift, day);
            if ranges.is_closed(place) {
                self.set_worth(place, 0.0);
                continue;
            }
            len = tables.len_of(shift);
            self.lay(tables, shift, day);
            if self.count == LANES {
                self.walk(graph, len);
            }
        }
        if 0 < self.count {
            self.walk(graph, len);
        }
        self.count_work(self.users_of(number).len());
    }

    /// What duties of a shift on a day earn by the cuts on them, at some prices of the cuts.
    fn lay_bonuses(
        &mut self,
        ranges: &Ranges,
        cut_prices: &[f64],
        shift: u16,
        day: usize,
    ) -> Result<(), NoMemory> {
        self.bonuses.clear();
        for (cut, price) in ranges.fronts().iter().zip(cut_prices) {
            if cut.shift == shift && cut.day == day {
                self.bonuses.push(Bonus {
                    front: cut.front,
                    earned: cut.earned(*price),
                })?;
            }
        }
        Ok(())
    }

    /// The best break list of a shift on a day at the prices of slots that were valued last and some prices of cuts; none where
    /// it has too many breaks.
    pub(crate) fn found(
        &mut self,
        tables: &ShiftTables,
        ranges: &Ranges,
        cut_prices: &[f64],
        shift: u16,
        day: usize,
    ) -> Result<Option<Found>, NoMemory> {
        self.lay_bonuses(ranges, cut_prices, shift, day)?;
        let Some(graph) = tables.graph(shift) else {
            return Ok(None);
        };
        let walks = self.bonuses.len().saturating_add(1);
        self.count_work(graph.edge_count().saturating_mul(walks));
        let base = tables.base(shift, day);
        let end = base.wrapping_add(tables.len_of(shift));
        let sums = self.sums.get(base..=end).unwrap_or(&[]);
        let _ = graph.best_value(sums, &mut self.list_rests);
        Ok(graph.best_with(sums, &self.list_rests, &self.bonuses))
    }

    /// Finds what the best duties earn of those shifts asked for and days that have cuts on duties of certain breaks. Where the
    /// best list has too many breaks, what it earns without the cuts stays.
    fn value_fronts(
        &mut self,
        tables: &ShiftTables,
        ranges: &Ranges,
        cut_prices: &[f64],
        asked: &[bool],
    ) -> Result<(), NoMemory> {
        for cut in ranges.fronts() {
            let place = tables.place(cut.shift, cut.day);
            if !cut.is_first || !is_asked(asked, cut.shift) || ranges.is_closed(place) {
                continue;
            }
            let found = self.found(tables, ranges, cut_prices, cut.shift, cut.day)?;
            if let Some(found) = found {
                self.set_worth(place, found.earned);
            }
        }
        Ok(())
    }

    /// Finds what the best duties of the shifts asked for earn at some prices: those of the slots, and behind them those of the
    /// cuts on duties of certain breaks.
    pub(crate) fn value(
        &mut self,
        tables: &ShiftTables,
        ranges: &Ranges,
        prices: &[f64],
        asked: &[bool],
    ) -> Result<(), NoMemory> {
        let slot_prices = prices.get(..tables.slots).unwrap_or(&[]);
        let cut_prices = prices.get(tables.slots..).unwrap_or(&[]);
        self.lay_sums(slot_prices);
        self.count_work(prices.len());
        for (number, graph) in tables.graphs().iter().enumerate() {
            self.value_graph(tables, ranges, number, graph, asked);
        }
        self.value_fronts(tables, ranges, cut_prices, asked)
    }
}
