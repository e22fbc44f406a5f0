//! An older plan, of which a search keeps what it can.

ghost use Rattle.std.specs.Prelude.{IfOk, IfSome, IsTrue};
ghost use Rattle.shift_instance.specs.Rota.{are_legal_rows};

use crate::reading::plan_in;
use break_rules::NoMemory;
use carried_rows::carried_rows;
use comparison_texts::left_lines;
use descents::{descended, evened};
use kept_duties::least_changed;
use plan_comparison::kept_duties;
use planning_runs::{Cause, JudgedPlan, PlanRefusal, with_rows};
use planning_words::LikeWords;
use rota_cost::cost_rows;
use shift_instance::{Instance, Rows};
use std::alloc::Global;

/// The most moves that make an older plan cheaper before a search.
const DESCENT_MOST: u16 = 1_000;

/// The most moves that make the plan of a search more even.
const EVENING_MOST: u16 = 200;

/// An older plan, of which a search keeps what it can.
#[derive(Drop)]
pub struct Older {
    /// The duties that are to be kept; none where no older plan is named.
    pub(crate) wanted: Rows,
    /// The plan that the search begins with: these duties after moves that make it cheaper.
    pub(crate) begin: Rows,
    /// What each duty counts that isn't kept, as much as that cost.
    change: u32,
}

/// The rows of a plan, where its report has one.
pub fn rows_in(plan: &JudgedPlan) -> Option<&Rows>
    ensures { IfSome result (λ rows. IsTrue (are_legal_rows plan.now.instance rows.now)) }
{
    match &plan.cert.plan {
        Some((_cost, rows)) => Some(rows),
        None => None,
    }
}

/// How many duties rows have.
fn duties(rows: &Rows) -> u64 {
    let mut duties = 0u64;
    for row in rows.as_slice() {
        duties = duties.saturating_add(u64::from(row.count));
    }
    duties
}

/// Says which rows of an older plan can't be kept, and why.
fn tell_left(
    rt: HostRuntime,
    old: &Instance,
    new: &Instance,
    rows: &Rows,
) -> Result<(), PlanRefusal> {
    for line in &left_lines(rt.alloc(), old, new, rows)? {
        let _ = eprintln!(rt; "shift_plan: not kept: {line}");
    }
    Ok(())
}

/// The refusal where a report has no plan to keep.
fn no_plan(alloc: Global, report: &str) -> PlanRefusal {
    PlanRefusal::said(
        Cause::Report,
        format!(in alloc; "the report `{report}` has no plan to keep"),
    )
}

/// The refusal where no duty of the plan in a report can be kept.
fn none_kept(alloc: Global, report: &str) -> PlanRefusal {
    PlanRefusal::said(
        Cause::Words,
        format!(in alloc;
            "no duty of the plan in `{report}` can be kept: leave --like and --of out to begin without it"
        ),
    )
}

/// The rows of an older plan that can stand in a plan of an instance. What can't be kept is said.
fn carried(
    rt: HostRuntime,
    report: &str,
    old: &Instance,
    rows: &Rows,
    instance: &Instance,
) -> Result<Rows, PlanRefusal> {
    let kept = carried_rows(rt.alloc(), old, instance, rows)?;
    tell_left(rt, old, instance, rows)?;
    if kept.is_empty() {
        return Err(none_kept(rt.alloc(), report));
    }
    let _ = eprintln!(rt;
        "shift_plan: begins with {} of the {} duties in {report}",
        duties(&kept),
        duties(rows)
    );
    Ok(kept)
}

/// The rows of an older plan that a search of an instance is to keep. What can't be kept is said.
fn rows_of(
    rt: HostRuntime,
    report: &str,
    old: &JudgedPlan,
    instance: &Instance,
) -> Result<Rows, PlanRefusal> {
    match rows_in(old) {
        Some(rows) => carried(rt, report, &old.instance, rows, instance),
        None => Err(no_plan(rt.alloc(), report)),
    }
}

/// The rows that the words name, as far as a search of an instance can keep them.
fn wanted_rows(
    rt: HostRuntime,
    words: &LikeWords,
    instance: &Instance,
) -> Result<Rows, PlanRefusal> {
    let old = plan_in(rt, words.of, words.report)?;
    rows_of(rt, words.report, &old, instance)
}

/// The plan of wanted rows after moves that make it cheaper; no rows where they are no plan.
fn begun(alloc: Global, instance: &Instance, wanted: &Rows) -> Result<Rows, NoMemory> {
    match cost_rows(instance, wanted.clone()?) {
        Ok(plan) => descended(alloc, instance, plan.into_rows(), DESCENT_MOST),
        Err(_) => Ok(Rows::new(Vec::new(alloc))),
    }
}

/// What each duty counts that isn't kept: as the words say, or else as much as one employee too many in one slot, and at least 1.
fn change_of(words: &LikeWords, instance: &Instance) -> u32 {
    let (excess, _, _) = instance.weights();
    match words.change {
        Some(change) => change,
        None => excess.max(1),
    }
}

impl Older {
    /// No older plan.
    fn none(alloc: Global) -> Older {
        Older {
            wanted: Rows::new(Vec::new(alloc)),
            begin: Rows::new(Vec::new(alloc)),
            change: 0,
        }
    }

    /// The older plan with these rows.
    fn of(
        alloc: Global,
        words: &LikeWords,
        instance: &Instance,
        wanted: Rows,
    ) -> Result<Older, NoMemory> {
        let begin = begun(alloc, instance, &wanted)?;
        Ok(Older {
            wanted,
            begin,
            change: change_of(words, instance),
        })
    }
}

/// The older plan that the words name, of which a search of an instance keeps what it can; one without duties where they name none.
pub fn older_plan(
    rt: HostRuntime,
    like: Option<LikeWords>,
    instance: &Instance,
) -> Result<Older, PlanRefusal> {
    let Some(words) = like else {
        return Ok(Older::none(rt.alloc()));
    };
    let wanted = wanted_rows(rt, &words, instance)?;
    Ok(Older::of(rt.alloc(), &words, instance, wanted)?)
}

/// The rows of a legal plan after moves that make it more even and no dearer, where it keeps as many duties then.
fn evened_beside(
    alloc: Global,
    instance: &Instance,
    rows: Rows,
    wanted: &Rows,
) -> Result<Rows, NoMemory>
    requires legal { IsTrue (are_legal_rows instance.now rows) }
    ensures legal { IfOk result (λ new. IsTrue (are_legal_rows instance.now new)) }
{
    let kept = kept_duties(wanted, &rows);
    let even = evened(alloc, instance, rows.clone()?, EVENING_MOST, wanted)?;
    if kept_duties(wanted, &even) < kept {
        return Ok(rows);
    }
    Ok(even)
}

/// The rows of the plan that costs least with what the duties count that it doesn't keep, as far as such a plan is found beside these rows.
fn least_rows(
    alloc: Global,
    instance: &Instance,
    rows: &Rows,
    older: &Older,
) -> Result<Rows, NoMemory>
    requires legal { IsTrue (are_legal_rows instance.now rows.now) }
    ensures legal { IfOk result (λ new. IsTrue (are_legal_rows instance.now new)) }
{
    let begin = older.begin.clone()?;
    let rows = rows.clone()?;
    let least = least_changed(alloc, instance, rows, begin, &older.wanted, older.change)?;
    evened_beside(alloc, instance, least, &older.wanted)
}

/// The plan of a search with other rows: those of the plan that costs least with what the duties count that it doesn't keep, as far as such a
/// plan is found. Where no older plan is named, it stays as it is.
fn plan_with_kept(alloc: Global, plan: JudgedPlan, older: &Older) -> Result<JudgedPlan, NoMemory> {
    if older.wanted.is_empty() {
        return Ok(plan);
    }
    let Some(rows) = rows_in(&plan) else {
        return Ok(plan);
    };
    let rows = least_rows(alloc, &plan.instance, rows, older)?;
    with_rows(alloc, plan, rows)
}

/// How many of the duties that were to be kept a plan has, and what it costs.
#[derive(Clone, Copy)]
struct KeptAndCost {
    kept: u128,
    cost: u64,
}

/// How many of the duties that were to be kept a plan has, and what it costs; none where it has no rows.
fn kept_and_cost(plan: &JudgedPlan, wanted: &Rows) -> Option<KeptAndCost> {
    match &plan.cert.plan {
        Some((cost, rows)) => Some(KeptAndCost {
            kept: kept_duties(wanted, rows),
            cost: *cost,
        }),
        None => None,
    }
}

/// Says how many of the duties that were to be kept the plan has that is written.
fn tell_written(rt: HostRuntime, wanted: &Rows, written: KeptAndCost) {
    let kept = written.kept;
    let _ = eprintln!(rt;
        "shift_plan: keeps {kept} of these {} duties",
        duties(wanted)
    );
}

/// Says what a plan that was found keeps, where it is cheaper than the one that is written.
fn tell_cheaper(rt: HostRuntime, found: KeptAndCost, written: KeptAndCost) {
    let fewer = found.kept;
    let less = found.cost;
    let cost = written.cost;
    if less < cost {
        let _ = eprintln!(rt;
            "shift_plan: a plan of cost {less} was found that keeps {fewer} of them; it costs {cost} to keep more (--change 0 writes the cheaper one)"
        );
    }
}

/// Says how many of the duties that were to be kept the plan has that is written, and what a cheaper one has that was found, if there is one.
fn tell_kept(
    rt: HostRuntime,
    wanted: &Rows,
    found: Option<KeptAndCost>,
    written: Option<KeptAndCost>,
) {
    let Some(written) = written else {
        return;
    };
    tell_written(rt, wanted, written);
    if let Some(found) = found {
        tell_cheaper(rt, found, written);
    }
}

/// The plan that is written in the place of the one that a search found: it keeps what it can of the older plan, which is said.
pub(crate) fn kept(
    rt: HostRuntime,
    found: JudgedPlan,
    older: &Older,
) -> Result<JudgedPlan, PlanRefusal> {
    let wanted = &older.wanted;
    let before = kept_and_cost(&found, wanted);
    let plan = plan_with_kept(rt.alloc(), found, older)?;
    if !wanted.is_empty() {
        tell_kept(rt, wanted, before, kept_and_cost(&plan, wanted));
    }
    Ok(plan)
}
