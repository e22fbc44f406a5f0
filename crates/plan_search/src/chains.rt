//! Chains of moves, each from a start of its own, from hot to cold.

use crate::search::{PlanSearch, Task};
use advice::Stop;
use break_rules::NoMemory;
use shift_tables::ShiftTables;
use std::num::{nearest_u64_to_f64, saturating_f64_to_u64};

/// A chain of moves: the work at which it began, how much work it takes, and its first temperature.
#[derive(Clone, Copy)]
pub(crate) struct Chain {
    begun: u64,
    length: u64,
    hot: f64,
}

/// How a chain begins.
#[derive(Clone, Copy)]
enum Start {
    /// From nothing, or from the guide.
    Fresh,
    /// From a plan mixed of others.
    Mixed,
    /// From a plan near the best one of the leg, or near one of the pool.
    Near,
}

/// Each so manieth chain begins anew.
const ANEW: u32 = 8;

/// What a chain takes for each of its moves where there is one shift to choose from, for each kind of days and once more.
const MOVE: f64 = 29.0;

/// The work of a leg after which its chains are twice as long as at first.
const DOUBLED: f64 = 80_000_000.0;

/// Chains begin from mixed plans once the pool has so many.
const MIXABLE: usize = 3;

/// How much work a move that is under way may do beyond what was allowed for a run.
const BEYOND: u64 = 1 << 24;

impl Chain {
    /// A chain that has ended.
    pub(crate) fn ended() -> Chain {
        Chain {
            begun: 0,
            length: 0,
            hot: 0.0,
        }
    }

    /// The chain ends here.
    pub(crate) fn end(&mut self) {
        self.length = 0;
    }

    /// Whether it has taken all its work, by the work that was done so far.
    fn is_over(self, work: u64) -> bool {
        self.length <= work.saturating_sub(self.begun)
    }

    /// The temperature after so much work, on a geometric way down to a last one.
    fn temperature(self, work: u64, last: f64) -> f64 {
        let done = nearest_u64_to_f64(work.saturating_sub(self.begun));
        let whole = nearest_u64_to_f64(self.length.max(1));
        let left = (1.0 - done / whole).max(0.0);
        (left * self.hot.ln() + (1.0 - left) * last.ln()).exp()
    }
}

/// The lesser weight of an employee too many or too few, and at least 1.
fn unit(tables: &ShiftTables) -> f64 {
    tables.excess.min(tables.shortage).max(1.0)
}

impl<S: Stop + Drop> PlanSearch<S> {
    /// Puts the best plan of the leg in place of the running one.
    fn restore_best(&mut self, tables: &ShiftTables) -> Result<(), NoMemory> {
        self.plan.clear(tables);
        for k in 0..self.leg.best.len() {
            if let Some(placed) = self.leg.best.get(k).copied() {
                self.plan.put(tables, &placed)?;
            }
        }
        let work = self.leg.best.len().saturating_mul(32);
        self.count(work);
        self.log.clear();
        Ok(())
    }

    /// The duties of a shift by day in the guide, with 0.3 added and rounded down.
    fn guided_heads(&self, tables: &ShiftTables, shift: u16) -> [usize; 7] {
        let mut heads = [0; 7];
        for (day, place) in heads.iter_mut().enumerate() {
            if day < tables.days {
                let known = self.guide.heads.get(tables.place(shift, day));
                let heads = known.copied().unwrap_or(0.0);
                *place = std::num::saturating_f64_to_usize(heads + 0.3);
            }
        }
        heads
    }

    /// Puts the guide's duties of its most used shifts in; but for the first chain, one shift in five is left out.
    fn put_guided(&mut self, tables: &ShiftTables, most: usize) -> Result<(), NoMemory> {
        let is_first = self.chains <= 1;
        for k in 0..most {
            let Some(shift) = self.guide.shifts.get(k).copied() else {
                break;
            };
            if is_first || !self.chance.is_once_in(5) {
                let heads = self.guided_heads(tables, shift);
                self.put_heads(tables, shift, &heads, true)?;
            }
        }
        Ok(())
    }

    /// Adds those of the guide's most used shifts that aren't used.
    fn add_guided(&mut self, tables: &ShiftTables, most: usize) -> Result<(), NoMemory> {
        for k in 0..most {
            let Some(shift) = self.guide.shifts.get(k).copied() else {
                break;
            };
            if self.plan.count(shift) == 0 {
                self.add_shift(tables, shift)?;
            }
        }
        Ok(())
    }

    /// Begins anew from the most used shifts of the guide.
    fn begin_guided(&mut self, tables: &ShiftTables) -> Result<(), NoMemory> {
        let most = self.chance.pick(&[6usize, 10, 16, 30]).unwrap_or(6);
        self.put_guided(tables, most)?;
        self.add_guided(tables, most)
    }

    /// Begins anew.
    fn begin(&mut self, tables: &ShiftTables) -> Result<(), NoMemory> {
        self.plan.clear(tables);
        self.log.clear();
        if self.is_unguided() {
            self.add_candidates(tables, 12)?;
        } else {
            self.begin_guided(tables)?;
        }
        self.polish(tables, 5, f64::INFINITY)?;
        self.log.clear();
        Ok(())
    }

    /// Puts a plan of the pool in place of the running one, or else the best one: so many times in 100 one of the pool.
    fn restore_some(&mut self, tables: &ShiftTables, pooled: usize) -> Result<(), NoMemory> {
        if self.pool.len() == 0 || pooled <= self.chance.below(100) {
            return self.restore_best(tables);
        }
        let number = self.chance.below(self.pool.len());
        self.restore_pooled(tables, number)
    }

    /// Begins from a mixed plan: a union of two of the pool, or one that grew.
    fn begin_mixed(&mut self, tables: &ShiftTables) -> Result<(), NoMemory> {
        if self.chance.is_once_in(2) {
            self.begin_union(tables)?;
        } else {
            self.restore_some(tables, 67)?;
            self.grow(tables)?;
        }
        self.log.clear();
        Ok(())
    }

    /// Begins from the best plan, or one of the pool, after one or two changes of its shifts.
    fn begin_near(&mut self, tables: &ShiftTables) -> Result<(), NoMemory> {
        self.restore_some(tables, 30)?;
        let kicks = self.chance.below(2).saturating_add(1);
        for _ in 0..kicks {
            self.kick(tables)?;
            self.log.clear();
        }
        Ok(())
    }

    /// Offers the running plan and the best one of the leg to the pool.
    fn pool_plans(&mut self, tables: &ShiftTables) -> Result<(), NoMemory> {
        self.copied.clear();
        self.plan.list_into(tables, &mut self.copied)?;
        self.pool.offer(&self.copied, self.plan.cost)?;
        self.pool.offer(&self.leg.best, self.leg.cost)
    }

    /// How the next chain begins.
    fn next_start(&mut self) -> Start {
        let is_due = self.chains % ANEW == 0 && !self.leg.is_united;
        if self.leg.best.is_empty() || is_due {
            Start::Fresh
        } else if MIXABLE <= self.pool.len() && self.chance.below(100) < 40 {
            Start::Mixed
        } else {
            Start::Near
        }
    }

    /// How many moves of a small instance the next chain takes at first.
    fn moves_from(&self, start: Start) -> f64 {
        let part = match self.chains % 3 {
            0 => 0.4,
            1 => 1.0,
            _ => 3.0,
        };
        match start {
            Start::Fresh if self.chains / ANEW % 2 == 0 => 3000.0,
            Start::Fresh => 9000.0,
            Start::Mixed => 300.0 * part,
            Start::Near => 600.0 * part,
        }
    }

    /// How much work the next chain takes: the more, the more shifts there are to choose from, the more kinds of days there are, and the
    /// more work was done in the leg.
    fn length_from(&self, tables: &ShiftTables, start: Start) -> u64 {
        let shifts = nearest_u64_to_f64(tables.usable.len() as u64);
        let kinds = 1.0 + f64::from(self.likeness.kinds());
        let growth = 1.0 + nearest_u64_to_f64(self.leg.work(self.work)) / DOUBLED;
        saturating_f64_to_u64(self.moves_from(start) * MOVE * kinds * shifts.sqrt() * growth)
    }

    /// Makes the running plan the one that the next chain begins from.
    fn begin_from(&mut self, tables: &ShiftTables, start: Start) -> Result<(), NoMemory> {
        match start {
            Start::Fresh => self.begin(tables)?,
            Start::Mixed => self.begin_mixed(tables)?,
            Start::Near => self.begin_near(tables)?,
        }
        self.note_best(tables)
    }

    /// Begins the next chain, and a leg with it where one is over.
    fn begin_chain(&mut self, tables: &ShiftTables) -> Result<(), NoMemory> {
        self.pool_plans(tables)?;
        if self.leg.is_over(self.work) {
            self.begin_leg()?;
        }
        let start = self.next_start();
        let length = self.length_from(tables, start);
        self.chains = self.chains.saturating_add(1);
        self.begin_from(tables, start)?;
        let heat = match start {
            Start::Fresh => 0.02,
            _ => 0.01,
        };
        self.chain = Chain {
            begun: self.work,
            length,
            hot: (heat * self.leg.cost).max(unit(tables)),
        };
        Ok(())
    }

    /// One move of the running chain.
    fn step(&mut self, tables: &ShiftTables) -> Result<(), NoMemory> {
        self.log.clear();
        self.count(tables.slots);
        if self.plan.used.is_empty() {
            if let Some(shift) = self.candidate(tables) {
                self.add_shift(tables, shift)?;
                self.log.clear();
            }
        }
        let temperature = self.chain.temperature(self.work, 0.15 * unit(tables));
        let way = self.chance.below(100);
        match way.checked_sub(55) {
            Some(way) => self.move_set(tables, way, temperature)?,
            None => self.move_duties(tables, temperature)?,
        }
        Ok(())
    }

    /// Goes on with what the search is at, by a move, or begins the next chain.
    fn go_on(&mut self, tables: &ShiftTables) -> Result<(), NoMemory> {
        match self.task {
            Task::Pruning(pruning) => {
                self.prune_on(tables, pruning)?;
                self.chain.begun = self.work;
                Ok(())
            }
            Task::Repair(repair) => self.repair_on(tables, repair),
            Task::Moves if self.chain.is_over(self.work) => self.begin_chain(tables),
            Task::Moves => self.step(tables),
        }
    }

    /// Goes on for some work, counted in edges of graphs and in slots, and a little more: the move that is under way then is
    /// ended, which is cut short where it takes long. Once the search is asked to stop, the move that is under way is cut short.
    pub fn run(&mut self, tables: &ShiftTables, work: u64) -> Result<(), NoMemory> {
        if tables.usable.is_empty() {
            return Ok(());
        }
        let until = self.work.saturating_add(work);
        self.limit = until.saturating_add(BEYOND);
        for _ in 0..work {
            if until <= self.work || self.stop().is_asked() {
                break;
            }
            self.go_on(tables)?;
        }
        Ok(())
    }
}
