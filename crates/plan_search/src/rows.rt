//! Plans as rows, and rows as plans.
ghost use Rattle.std.specs.Prelude.{◌≡◌, IfOk, IfSome};

use crate::search::{PlanSearch, Task};
use advice::Stop;
use break_rules::{Breaks, NoMemory};
use rota_cost::{Costed, cost_rows};
use shift_instance::{Instance, Row, Rows};
use shift_tables::{Pauses, ShiftTables};
use std::alloc::Global;
use working_plan::Placed;

/// The row of some duties that are alike.
fn row(alloc: Global, placed: &Placed, count: u16) -> Result<Row, NoMemory> {
    Ok(Row {
        shift: placed.shift,
        day: u8::try_from(placed.day).unwrap_or(u8::MAX),
        breaks: Breaks::new(Vec::from_slice(alloc, placed.pauses.as_slice())?),
        count,
    })
}

/// The rows of duties that stand in order.
fn rows_of(alloc: Global, sorted: &[Placed]) -> Result<Vec<Row>, NoMemory> {
    let mut rows = Vec::new(alloc);
    let mut count = 0u16;
    for (k, placed) in sorted.iter().enumerate() {
        count = count.saturating_add(1);
        if sorted.get(k.wrapping_add(1)) != Some(placed) {
            rows.push(row(alloc, placed, count)?)?;
            count = 0;
        }
    }
    Ok(rows)
}

impl<S: Stop + Drop> PlanSearch<S> {
    /// The best plan so far, with its cost, judged: none where there is none, or where it isn't legal.
    pub fn best_plan(&self, instance: &Instance) -> Result<Option<Costed>, NoMemory>
        ensures instance { IfOk result (λ plan. IfSome plan (λ c. c.instance ≡ instance.now)) }
    {
        if f64::INFINITY <= self.best_cost {
            return Ok(None);
        }
        let mut sorted = Vec::from_slice(self.alloc, self.best.as_slice())?;
        sorted.sort_unstable();
        let rows = rows_of(self.alloc, sorted.as_slice())?;
        match cost_rows(instance, Rows::new(rows)) {
            Ok(plan) => Ok(Some(plan)),
            Err(_) => Ok(None),
        }
    }

    /// Offers a plan to go on from, which is taken where it is cheaper than the best so far. A plan with a duty of too many
    /// breaks isn't taken.
    pub fn offer(&mut self, tables: &ShiftTables, rows: &Rows) -> Result<(), NoMemory> {
        self.plan.clear(tables);
        self.log.clear();
        self.chain.end();
        self.task = Task::Moves;
        for row in rows.as_slice() {
            let Some(pauses) = Pauses::of(row.breaks.as_slice()) else {
                return Ok(());
            };
            let placed = Placed {
                shift: row.shift,
                day: usize::from(row.day),
                pauses,
            };
            for _ in 0..row.count {
                self.plan.put(tables, &placed)?;
            }
        }
        self.note_best(tables)
    }
}
