//! Breaks planned anew.
ghost use Rattle.std.specs.Prelude.{◌≡◌, ◌⊎◌, ◌≤◌, ◌^◌, IfOk, IfSome, IsTrue, List, length, true};
ghost use Rattle.std.specs.Option.{option_map};
ghost use Rattle.shift_instance.specs.declared.Duty.{Duty};
ghost use Rattle.shift_instance.specs.Rota.{are_legal_rows, cost, is_legal_rota, rota_of};
ghost use Rattle.shift_instance.specs.Valid.{IsValid};
ghost use Rattle.head_splits.specs.Cuts.{meets};
ghost use Rattle.report_grafts.specs.Pins.{pins_of};
ghost use Rattle.report_grafts.specs.Run.{IsSound, is_finished, top};
ghost use Rattle.break_plans.specs.Anew.{ComesOfSearch, HasHeadsOf, IsCheaper, rows_after, steps_for};

use advice::{Adviser, Stop};
use break_rules::NoMemory;
use head_splits::Cuts;
use report_grafts::{SubRun, pins};
use rota_cost::recount;
use shift_instance::{Instance, Rows};
use std::alloc::Global;
use subtree_search::solve_below_by;

/// What came of planning the breaks of some rows anew.
#[derive(Drop)]
pub struct Anew {
    /// Cheaper rows with as many duties of each shift on each day, where some were found.
    pub cheaper: Option<Rows>,
    /// What they cost or, where none were found, what the rows cost whose breaks were planned anew.
    pub cost: u64,
    /// What every legal rota with as many duties of each shift on each day costs at least. Where it is the cost, none is cheaper.
    pub floor: u64,
    /// How many steps the search took.
    pub steps: u64,
}

/// The cuts that fix how many duties legal rows have of each shift on each day.
#[tactic(auto, using(crate::proofs::Planned::few_pins))]
fn few_pins(alloc: Global, instance: &Instance, rows: &Rows) -> Result<Cuts, NoMemory>
    requires { IsTrue (are_legal_rows instance.now rows.now) }
    ensures pins { IfOk result (λ cuts. cuts ≡ pins_of instance.now (rota_of rows.now)) }
    ensures few { IfOk result (λ cuts. length cuts ≤ 2 ^ 28) }
    ensures valid { IsValid instance.now }
{
    // an instance is valid
    let _slots = instance.slots();
    let cuts = pins(alloc, instance, rows)?;
    Ok(cuts)
}

/// The rows of a run's best rota, where it has one.
fn rows_of(run: &SubRun) -> Result<Option<Rows>, NoMemory>
    ensures { IfOk result (λ rows. rows ≡ option_map (λ best. best.rows) run.now.best) }
{
    match run.best() {
        Some(best) => Ok(Some(best.rows().clone()?)),
        None => Ok(None),
    }
}

/// The least of a run's limit and of what its best rota costs.
fn top_of(run: &SubRun) -> u64
    ensures { result ≡ top run.now }
{
    match run.best() {
        Some(best) => run.limit().min(best.cost()),
        None => run.limit(),
    }
}

/// What a run came to.
fn anew_of(run: &SubRun) -> Result<Anew, NoMemory>
    ensures cheaper { IfOk result (λ a. a.cheaper ≡ option_map (λ best. best.rows) run.now.best) }
    ensures cost { IfOk result (λ a. a.cost ≡ top run.now) }
    ensures floor { IfOk result (λ a. a.floor ≡ run.now.floor) }
    ensures steps { IfOk result (λ a. a.steps ≡ run.now.taken) }
    ensures enough { IfOk result (λ a. (rota : List Duty) → IsTrue (is_legal_rota run.now.instance rota) → IsTrue (meets rota run.now.base) → a.floor ≤ cost run.now.instance rota) }
    ensures sound { IsSound run.now }
{
    // its clauses say that the run is sound
    let _lines = run.lines();
    Ok(Anew {
        cheaper: rows_of(run)?,
        cost: top_of(run),
        floor: run.floor(),
        steps: run.taken(),
    })
}

/// Plans the breaks of legal rows anew, by a search of at most so many steps for cheaper rows in which each shift has as many duties on each
/// day. Any adviser will do, and a stop may end the search early. The only refusal is running out of memory.
pub fn planned_anew<A: Adviser, S: Stop>(
    alloc: Global,
    instance: &Instance,
    rows: &Rows,
    steps: u64,
    adviser: &mut A,
    stop: &S,
) -> Result<Anew, NoMemory>
    requires legal { IsTrue (are_legal_rows instance.now rows.now) }
    requires steps { steps ≤ 10 ^ 9 }
    ensures searched { IfOk result (ComesOfSearch instance.now rows.now steps) }
    ensures cheaper { IfOk result (λ a. IfSome a.cheaper (IsCheaper instance.now rows.now)) }
    ensures cost { IfOk result (λ a. a.cost ≡ cost instance.now (rota_of (rows_after rows.now a.cheaper))) }
    ensures floor { IfOk result (λ a. (rota : List Duty) → IsTrue (is_legal_rota instance.now rota) → HasHeadsOf instance.now rows.now rota → a.floor ≤ cost instance.now rota) }
    ensures ends { IfOk result (λ a. (a.floor ≡ a.cost) ⊎ ((a.steps ≡ steps) ⊎ (S.can_ask stop.now ≡ true))) }
    ensures enough { steps_for instance.now rows.now ≤ steps → IfOk result (λ a. (a.floor ≡ a.cost) ⊎ (S.can_ask stop.now ≡ true)) }
{
    let before = recount(instance, rows);
    let base = few_pins(alloc, instance, rows)?;
    let run = solve_below_by(alloc, instance, base, before, steps, adviser, stop)?;
    anew_of(&run)
}
