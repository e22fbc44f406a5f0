//! What a plan adds up to.
ghost use Rattle.std.specs.Prelude.{◌≡◌, ◌+◌, ◌*◌, ◌^◌, ◌<◌, IfOk, IsTrue};
ghost use Rattle.shift_instance.specs.Rota.{are_legal_rows, rota_of};
ghost use Rattle.plan_tables.specs.Summing.{IsSummary};
ghost use Rattle.plan_tables.specs.Tallies.{day_summaries, day_summary, part};

use crate::costliest::costliest;
use crate::tallies::{day_slots, duties, duties_on, shifts_used, totals_in};
use crate::{Attendance, CostlySlot, Totals};
use break_rules::NoMemory;
use rota_cost::recount;
use shift_instance::{Instance, Rows};
use std::alloc::Global;

/// How many of the slots that cost most a summary names.
pub const COSTLIEST: usize = 5;

/// A part of what a plan costs: so much of something, at a weight.
#[derive(Clone, Copy, PartialEq, Eq, Drop)]
pub struct CostPart {
    /// The cost of one.
    pub weight: u32,
    /// How many there are.
    pub amount: u64,
    /// What they cost together.
    pub cost: u64,
}

impl CostPart {
    /// So many at a weight.
    fn new(weight: u32, amount: u64) -> CostPart
        requires { weight * amount < 2 ^ 64 }
        ensures { result ≡ part weight amount }
    {
        CostPart {
            weight,
            amount,
            cost: u64::from(weight) * amount,
        }
    }
}

/// What a plan does on a day.
#[derive(Clone, Copy, PartialEq, Eq, Drop)]
pub struct DaySummary {
    /// How many duties start on the day.
    pub duties: u64,
    /// What its slots add up to.
    pub totals: Totals,
}

/// What a plan adds up to.
#[derive(Drop)]
pub struct Summary {
    /// What the plan costs: its three parts together.
    pub cost: u64,
    /// The part of employees too many, one in one slot counting 1.
    pub excess: CostPart,
    /// The part of employees too few, one in one slot counting 1.
    pub shortage: CostPart,
    /// The part of the shifts that have a duty.
    pub shifts: CostPart,
    /// How many duties the plan has.
    pub duties: u64,
    /// What the slots of the planning period add up to.
    pub totals: Totals,
    /// The slots that cost most, the costliest first and equal ones in their order: at most `COSTLIEST`, each of which costs something.
    pub costliest: Vec<CostlySlot>,
    /// The days of the planning period, from the first.
    pub days: Vec<DaySummary>,
}

/// What a plan does on a day, counted from 0.
fn day_summary(instance: &Instance, attendance: &Attendance, rows: &Rows, day: u8) -> DaySummary
    requires legal { IsTrue (are_legal_rows instance.now rows.now) }
    requires attendance { attendance.now ≡ record { instance = instance.now; duties = rota_of rows.now } }
    requires day { day < instance.now.days }
    ensures { result ≡ day_summary instance.now (rota_of rows.now) day }
{
    let per_day = day_slots(instance);
    DaySummary {
        duties: duties_on(instance, rows, day),
        totals: totals_in(instance, attendance, usize::from(day) * per_day, per_day),
    }
}

/// What a plan does on each day.
fn day_summaries(
    alloc: Global,
    instance: &Instance,
    attendance: &Attendance,
    rows: &Rows,
) -> Result<Vec<DaySummary>, NoMemory>
    requires legal { IsTrue (are_legal_rows instance.now rows.now) }
    requires attendance { attendance.now ≡ record { instance = instance.now; duties = rota_of rows.now } }
    ensures { IfOk result (λ days. days.items ≡ day_summaries instance.now (rota_of rows.now)) }
{
    let mut days = Vec::new(alloc);
    for day in 0..instance.days() {
        days.push(day_summary(instance, attendance, rows, day))?;
    }
    Ok(days)
}

impl Summary {
    /// What legal rows add up to.
    pub fn new(alloc: Global, instance: &Instance, rows: &Rows) -> Result<Summary, NoMemory>
        requires { IsTrue (are_legal_rows instance.now rows.now) }
        ensures sums { IfOk result (IsSummary instance.now (rota_of rows.now)) }
        ensures parts { IfOk result (λ s. s.cost ≡ s.excess.cost + s.shortage.cost + s.shifts.cost) }
    {
        let attendance = Attendance::new(alloc, instance, rows)?;
        let (excess, shortage, shift) = instance.weights();
        let totals = totals_in(instance, &attendance, 0, instance.slots());
        Ok(Summary {
            cost: recount(instance, rows),
            excess: CostPart::new(excess, totals.over),
            shortage: CostPart::new(shortage, totals.under),
            shifts: CostPart::new(shift, shifts_used(instance, rows)),
            duties: duties(instance, rows),
            totals,
            costliest: costliest(alloc, instance, &attendance, COSTLIEST)?,
            days: day_summaries(alloc, instance, &attendance, rows)?,
        })
    }
}
