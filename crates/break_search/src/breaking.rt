//! The search for cheaper breaks.

use crate::chance::Chance;
use crate::walk::Walk;
use advice::Stop;
use break_rules::NoMemory;
use kept_duties::{placed_of, plan_of, rows_of};
use shift_instance::{Instance, Rows};
use shift_tables::{Pauses, ShiftTables};
use std::alloc::Global;
use working_plan::{Placed, Plan};

/// What a move takes away from a duty of that number.
#[derive(Clone, Copy)]
pub(crate) struct Taken {
    /// The number of the duty.
    pub(crate) duty: usize,
    /// The breaks that it had.
    pub(crate) pauses: Pauses,
}

/// A search for cheaper breaks of the duties of a plan. It does the same for the same seed, for as long as it isn't asked to stop.
#[derive(Drop)]
pub(crate) struct BreakSearch<S: Stop + Drop> {
    alloc: Global,
    pub(crate) tables: ShiftTables,
    pub(crate) chance: Chance,
    pub(crate) walk: Walk,
    /// The plan that changes.
    pub(crate) plan: Plan,
    /// Its duties. Each keeps its number, whatever its breaks.
    pub(crate) duties: Vec<Placed>,
    /// The numbers of the duties that a move chooses from.
    pub(crate) near: Vec<usize>,
    /// What the running move took away.
    pub(crate) taken: Vec<Taken>,
    /// How much dearer than the best plan the next one may be.
    pub(crate) slack: f64,
    best: Vec<Placed>,
    best_cost: f64,
    /// The work done so far: edges of graphs, and slots.
    work: u64,
    /// The work of one change of each duty.
    round: u64,
    stop: S,
}

/// The work of a change of each duty: the edges of its graph, and its slots some times.
fn round_of(tables: &ShiftTables, duties: &[Placed]) -> u64 {
    let mut work = 0u64;
    for placed in duties {
        work = work.saturating_add(work_of(tables, placed.shift));
    }
    work
}

/// The work of a change of a duty of a shift.
fn work_of(tables: &ShiftTables, shift: u16) -> u64 {
    let edges = match tables.graph(shift) {
        Some(graph) => graph.edge_count(),
        None => 0,
    };
    edges.saturating_add(tables.len_of(shift).saturating_mul(4)) as u64
}

impl<S: Stop + Drop> BreakSearch<S> {
    /// A search that begins with the plan of some rows; none where a duty of theirs has too many breaks.
    pub(crate) fn new(
        alloc: Global,
        instance: &Instance,
        rows: &Rows,
        seed: u64,
        stop: S,
    ) -> Result<Option<BreakSearch<S>>, NoMemory> {
        let Some(duties) = placed_of(alloc, rows)? else {
            return Ok(None);
        };
        let tables = ShiftTables::new(alloc, instance)?;
        let plan = plan_of(alloc, &tables, duties.as_slice())?;
        let mut chance = Chance::new(seed);
        let walk = Walk::new(alloc, &tables, &mut chance)?;
        let best = Vec::from_slice(alloc, duties.as_slice())?;
        let best_cost = plan.cost;
        let round = round_of(&tables, duties.as_slice());
        Ok(Some(BreakSearch {
            alloc,
            tables,
            chance,
            walk,
            plan,
            duties,
            near: Vec::new(alloc),
            taken: Vec::new(alloc),
            slack: 0.0,
            best,
            best_cost,
            work: 0,
            round,
            stop,
        }))
    }

    /// What the best plan so far costs.
    pub(crate) fn best_cost(&self) -> f64 {
        self.best_cost
    }

    /// The rows of the best plan so far.
    pub(crate) fn best_rows(&self) -> Result<Rows, NoMemory> {
        let plan = plan_of(self.alloc, &self.tables, self.best.as_slice())?;
        rows_of(self.alloc, &self.tables, &plan)
    }

    /// The work of a change of each duty.
    pub(crate) fn round(&self) -> u64 {
        self.round
    }

    /// The work done so far.
    pub(crate) fn work(&self) -> u64 {
        self.work
    }

    /// Counts the work of a change of a duty.
    pub(crate) fn count(&mut self, shift: u16) {
        let work = work_of(&self.tables, shift);
        self.work = self.work.saturating_add(work);
    }

    /// Counts the work of a look at all slots.
    pub(crate) fn count_slots(&mut self) {
        self.work = self.work.saturating_add(self.tables.slots as u64);
    }

    /// Whether the search is asked to stop.
    pub(crate) fn is_asked(&self) -> bool {
        self.stop.is_asked()
    }

    /// Keeps the plan where it is the best so far, and says whether it is.
    pub(crate) fn note_best(&mut self) -> Result<bool, NoMemory> {
        if self.best_cost <= self.plan.cost {
            return Ok(false);
        }
        self.best = Vec::from_slice(self.alloc, self.duties.as_slice())?;
        self.best_cost = self.plan.cost;
        Ok(true)
    }

    /// Goes back to the best plan so far.
    pub(crate) fn restore_best(&mut self) -> Result<(), NoMemory> {
        self.duties = Vec::from_slice(self.alloc, self.best.as_slice())?;
        self.plan = plan_of(self.alloc, &self.tables, self.duties.as_slice())?;
        Ok(())
    }
}
