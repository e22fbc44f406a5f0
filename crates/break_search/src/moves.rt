//! The moves of the search for cheaper breaks: some duties are taken out, and put in again one by one with the breaks that gain most.

use crate::breaking::{BreakSearch, Taken};
use advice::Stop;
use break_rules::NoMemory;
use working_plan::Placed;

/// The most moves of a run.
const MOVES: u32 = 1 << 30;

/// The most duties that a move changes.
const TOGETHER: usize = 4;

/// How many rounds of work without a better plan go by before the next plan may be dearer.
const PATIENCE: u64 = 8;

/// How many times the plan may get dearer by one more employee too few or too many before the search goes back to its best plan.
const STEPS_UP: f64 = 4.0;

impl<S: Stop + Drop> BreakSearch<S> {
    /// Takes the duty of that number out of the plan.
    fn take(&mut self, duty: usize) -> Result<(), NoMemory> {
        let Some(placed) = self.duties.get(duty).copied() else {
            return Ok(());
        };
        self.taken.push(Taken {
            duty,
            pauses: placed.pauses,
        })?;
        self.plan.take(&self.tables, &placed);
        Ok(())
    }

    /// Puts the duty of that number into the plan again, as it is now.
    fn put(&mut self, duty: usize) -> Result<(), NoMemory> {
        match self.duties.get(duty) {
            Some(placed) => self.plan.put(&self.tables, placed),
            None => Ok(()),
        }
    }

    /// Gives a duty that was taken out the breaks that gain most.
    fn rebreak(&mut self, duty: usize) {
        let Some(Placed { shift, day, .. }) = self.duties.get(duty).copied() else {
            return;
        };
        self.count(shift);
        let best = self.walk.best_list(
            &self.tables,
            &self.plan.levels,
            &mut self.chance,
            shift,
            day,
        );
        if let Some(pauses) = best {
            if let Some(placed) = self.duties.get_mut(duty) {
                placed.pauses = pauses;
            }
        }
    }

    /// Puts the duties in again that the running move took out, each with the breaks that gain most.
    fn put_taken(&mut self) -> Result<(), NoMemory> {
        for k in 0..self.taken.len() {
            if let Some(taken) = self.taken.get(k).copied() {
                self.rebreak(taken.duty);
                self.put(taken.duty)?;
            }
        }
        Ok(())
    }

    /// Undoes the running move.
    fn undo(&mut self) -> Result<(), NoMemory> {
        for k in 0..self.taken.len() {
            let Some(taken) = self.taken.get(k).copied() else {
                continue;
            };
            let Some(placed) = self.duties.get_mut(taken.duty) else {
                continue;
            };
            let now = *placed;
            placed.pauses = taken.pauses;
            let before = *placed;
            self.plan.take(&self.tables, &now);
            self.plan.put(&self.tables, &before)?;
        }
        Ok(())
    }

    /// Ends the running move: where the plan may be as dear as it is, it is kept, and else the move is undone. Says whether the plan is the
    /// best so far.
    fn end_move(&mut self) -> Result<bool, NoMemory> {
        self.put_taken()?;
        if self.plan.cost <= self.best_cost() + self.slack {
            return self.note_best();
        }
        self.undo()?;
        Ok(false)
    }

    /// Changes the breaks of each duty in turn where that makes the plan no dearer. Says whether one of the plans is the best so far.
    fn sweep(&mut self) -> Result<bool, NoMemory> {
        let mut is_better = false;
        for duty in 0..self.duties.len() {
            if self.is_asked() {
                break;
            }
            self.taken.clear();
            self.take(duty)?;
            is_better |= self.end_move()?;
        }
        Ok(is_better)
    }

    /// Lists the duties whose windows have a slot whose employees aren't within its band, or all duties where no slot has such.
    fn list_near(&mut self) -> Result<(), NoMemory> {
        self.near.clear();
        self.count_slots();
        let from = self.chance.below(self.tables.slots);
        let slot = self.plan.levels.off_slot(from);
        for (duty, placed) in self.duties.iter().enumerate() {
            let is_near = match slot {
                Some(slot) => {
                    let offset = self.tables.offset(placed.shift, placed.day, slot);
                    offset < self.tables.len_of(placed.shift)
                }
                None => true,
            };
            if is_near {
                self.near.push(duty)?;
            }
        }
        Ok(())
    }

    /// One of the listed duties, which is taken off the list.
    fn draw_near(&mut self) -> Option<usize> {
        let place = self.chance.below(self.near.len());
        if place < self.near.len() {
            return Some(self.near.swap_remove(place));
        }
        None
    }

    /// Some duties near a slot that hasn't just the employees that are wanted get other breaks. Says whether the plan is the best so far.
    fn exchange(&mut self) -> Result<bool, NoMemory> {
        self.taken.clear();
        self.list_near()?;
        let count = self.chance.below(TOGETHER).saturating_add(1);
        for _ in 0..count {
            if let Some(duty) = self.draw_near() {
                self.take(duty)?;
            }
        }
        self.end_move()
    }

    /// Lets the next plans be dearer by one more employee too few or too many or, where that was done some times, goes back to the best plan.
    fn loosen(&mut self) -> Result<(), NoMemory> {
        let unit = self.tables.excess.max(1.0);
        self.slack += unit;
        if unit * STEPS_UP < self.slack {
            self.slack = 0.0;
            self.restore_best()?;
        }
        Ok(())
    }

    /// Searches on for about so much work, or until the stop asks.
    pub(crate) fn run(&mut self, work: u64) -> Result<(), NoMemory> {
        let end = self.work().saturating_add(work);
        let patience = self.round().saturating_mul(PATIENCE);
        let _ = self.sweep()?;
        let mut gained = self.work();
        for _ in 0..MOVES {
            if end <= self.work() || self.is_asked() {
                break;
            }
            if self.exchange()? {
                self.slack = 0.0;
                gained = self.work();
            } else if gained.saturating_add(patience) <= self.work() {
                self.loosen()?;
                gained = self.work();
            }
        }
        Ok(())
    }
}
