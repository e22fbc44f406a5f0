//! Plans mixed of other ones, which chains begin from, and the removal of shifts that aren't worth their cost.

use crate::changes::Heads;
use crate::search::{PlanSearch, Task};
use advice::Stop;
use break_rules::NoMemory;
use shift_tables::ShiftTables;
use working_plan::Placed;

/// How often a mixed plan is polished.
const MIXED: u32 = 3;

/// How often a plan is polished to tell what it costs without a shift.
const TRIED: u32 = 2;

/// How often a plan is polished that has lost a shift for good.
const PRUNED: u32 = 4;

/// A pruning that is under way.
#[derive(Clone, Copy)]
pub(crate) struct Pruning {
    /// How many shifts the plan may have in the end.
    size: usize,
    /// The shift, of those tried since the last one was taken out, without which the plan costs least.
    found: Option<u16>,
    /// What the plan costs without it.
    least: f64,
}

impl Pruning {
    /// A pruning to so many shifts of which nothing was tried yet.
    fn to(size: usize) -> Pruning {
        Pruning {
            size,
            found: None,
            least: f64::INFINITY,
        }
    }
}

impl<S: Stop + Drop> PlanSearch<S> {
    /// Puts the plan of a number in the pool in place of the running one.
    pub(crate) fn restore_pooled(
        &mut self,
        tables: &ShiftTables,
        number: usize,
    ) -> Result<(), NoMemory> {
        self.plan.clear(tables);
        self.log.clear();
        let count = self.pool.duties(number).len();
        for k in 0..count {
            if let Some(placed) = self.pool.duties(number).get(k).copied() {
                self.plan.put(tables, &placed)?;
            }
        }
        self.count(count.saturating_mul(32));
        Ok(())
    }

    /// Puts in each second duty of those shifts of a plan of the pool that another plan of the pool hasn't.
    fn add_half(
        &mut self,
        tables: &ShiftTables,
        number: usize,
        other: usize,
    ) -> Result<(), NoMemory> {
        let mut shift = None;
        let mut is_due = true;
        for k in 0..self.pool.duties(number).len() {
            let Some(placed) = self.pool.duties(number).get(k).copied() else {
                break;
            };
            is_due = shift != Some(placed.shift) || !is_due;
            shift = Some(placed.shift);
            if is_due && !self.pool.set(other).contains(&placed.shift) {
                self.put(tables, placed)?;
            }
        }
        Ok(())
    }

    /// Begins from the union of two plans of the pool: the first one whole, and each second duty of each shift that only the second
    /// one has.
    pub(crate) fn begin_union(&mut self, tables: &ShiftTables) -> Result<(), NoMemory> {
        let first = self.chance.below(self.pool.len());
        let others = self.pool.len().saturating_sub(1);
        let mut second = self.chance.below(others);
        if first <= second {
            second = second.saturating_add(1);
        }
        self.restore_pooled(tables, first)?;
        self.add_half(tables, second, first)?;
        let size = self.pool.set(first).len().max(self.pool.set(second).len());
        self.polish(tables, MIXED, f64::INFINITY)?;
        self.prune(size)
    }

    /// Takes half of the duties of a shift on each day out, rounded up, and tells how many these are.
    fn drop_half(&mut self, tables: &ShiftTables, shift: u16) -> Result<Heads, NoMemory> {
        let mut heads = [0; 7];
        for (day, place) in heads.iter_mut().take(tables.days).enumerate() {
            let count = self.plan.duties(tables, shift, day).len();
            let half = count.saturating_sub(count / 2);
            *place = self.drop_some(tables, shift, day, half)?;
        }
        Ok(heads)
    }

    /// A shift that isn't used takes half of the duties of a used one that is near it; or a candidate gets a duty on each day.
    fn grow_once(&mut self, tables: &ShiftTables) -> Result<(), NoMemory> {
        let Some(shift) = self.some_used() else {
            return Ok(());
        };
        let is_near = self.chance.is_once_in(2);
        let other = if is_near {
            self.neighbour(tables, shift)
        } else {
            self.candidate(tables)
        };
        let Some(other) = other else {
            return Ok(());
        };
        if 0 < self.plan.count(other) {
            return Ok(());
        }
        let heads = if is_near {
            self.drop_half(tables, shift)?
        } else {
            [1; 7]
        };
        self.put_heads(tables, other, &heads, false)
    }

    /// One to three shifts that aren't used come in at once, since one alone may gain less than it costs.
    pub(crate) fn grow_some(&mut self, tables: &ShiftTables) -> Result<(), NoMemory> {
        let times = self.chance.below(3).saturating_add(1);
        for _ in 0..times {
            self.grow_once(tables)?;
        }
        Ok(())
    }

    /// Grows the running plan by one to three shifts, and prunes it again, to at most one shift more than before.
    pub(crate) fn grow(&mut self, tables: &ShiftTables) -> Result<(), NoMemory> {
        let size = self.plan.used.len();
        self.grow_some(tables)?;
        self.polish(tables, MIXED, f64::INFINITY)?;
        let more = self.chance.below(2);
        self.prune(size.saturating_add(more))
    }

    /// What the running plan costs once a shift is taken out and the rest polished; the plan stays as it is.
    fn cost_without(&mut self, tables: &ShiftTables, shift: u16) -> Result<f64, NoMemory> {
        let mark = self.log.len();
        let limit = self.plan.cost + 2.0 * tables.weight;
        let _ = self.drop_shift(tables, shift)?;
        self.polish(tables, TRIED, limit)?;
        let cost = self.plan.cost;
        self.undo_to(tables, mark)?;
        Ok(cost)
    }

    /// Has the next moves prune the running plan: take shifts out one by one, each time that without which it costs least, as long
    /// as it has more than so many shifts or gets cheaper.
    fn prune(&mut self, size: usize) -> Result<(), NoMemory> {
        self.log.clear();
        self.task = Task::Pruning(Pruning::to(size));
        self.removals.clear();
        self.removals.extend_from_slice(self.plan.used.as_slice())
    }

    /// Takes the shift out for good without which the running plan costs least, where that is due, and goes on with the others.
    /// Else the pruning ends.
    fn end_round(&mut self, tables: &ShiftTables, pruning: Pruning) -> Result<(), NoMemory> {
        self.task = Task::Moves;
        let is_due = pruning.size < self.plan.used.len() || pruning.least < self.plan.cost;
        let Some(shift) = pruning.found else {
            return self.note_best(tables);
        };
        if !is_due {
            return self.note_best(tables);
        }
        let _ = self.drop_shift(tables, shift)?;
        self.polish(tables, PRUNED, f64::INFINITY)?;
        self.prune(pruning.size)
    }

    /// One move of a pruning: tries what the running plan costs without the next shift, or ends a round of tries.
    pub(crate) fn prune_on(
        &mut self,
        tables: &ShiftTables,
        tried: Pruning,
    ) -> Result<(), NoMemory> {
        let Some(shift) = self.removals.pop() else {
            return self.end_round(tables, tried);
        };
        let cost = self.cost_without(tables, shift)?;
        if cost < tried.least && !self.is_spent() {
            self.task = Task::Pruning(Pruning {
                size: tried.size,
                found: Some(shift),
                least: cost,
            });
        }
        Ok(())
    }
}
