//! The greedy plan of an instance, as advisers of the instance keep it.
ghost use Rattle.std.specs.Prelude.{◌≡◌, IfOk};
ghost use Rattle.advisers.specs.Advised.{plan_with_cost, plan_of};

use break_rules::NoMemory;
use greedy::greedy_plan;
use rota_cost::recount;
use shift_instance::{Instance, Rows};
use std::alloc::Global;

/// The greedy plan of an instance, with what it costs. It is made once, and each adviser of the instance gets a copy.
#[derive(Drop)]
pub struct GreedyPlan {
    /// The rows of the plan.
    pub rows: Rows,
    /// What they cost.
    pub cost: u64,
}

impl GreedyPlan {
    /// The greedy plan of an instance.
    pub fn of(alloc: Global, instance: &Instance) -> Result<GreedyPlan, NoMemory>
        ensures { IfOk result (λ plan. plan ≡ plan_with_cost instance.now) }
    {
        let rows = greedy_plan(alloc, instance)?;
        let cost = recount(instance, &rows);
        Ok(GreedyPlan { rows, cost })
    }

    /// The plan once more.
    pub fn copy(&self) -> Result<GreedyPlan, NoMemory>
        ensures { IfOk result (λ plan. plan ≡ self.now) }
    {
        let rows = self.rows.clone()?;
        Ok(GreedyPlan {
            rows,
            cost: self.cost,
        })
    }
}

/// The plan of these rows, and `None` where there is none.
pub fn plan_of(rows: Rows) -> Option<Rows>
    ensures { result ≡ plan_of rows }
{
    if rows.is_empty() { None } else { Some(rows) }
}
