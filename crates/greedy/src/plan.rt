//! The rounds of the greedy plan.
ghost use Rattle.std.specs.Prelude.{◌≡◌, ◌<◌, ◌≤◌, ◌+◌, ◌++◌, ◌∷◌, [], ℕ, length, IfOk, OnOk, IsTrue, MatchBool, false, if◌then◌else◌};
ghost use Rattle.shift_instance.specs.Problem.{shift_list};
ghost use Rattle.shift_instance.specs.Rota.{are_legal_rows, cost, heads_on, rota_of};
ghost use Rattle.greedy.specs.Bounds.{AreBounds};
ghost use Rattle.greedy.specs.Kept.{AreKept};
ghost use Rattle.greedy.specs.Sizes.{ArePrices};
ghost use Rattle.greedy.specs.Values.{AreValuesOf};
ghost use Rattle.greedy.specs.Drafts.{IsDraft, LeadsToGreedy};
ghost use Rattle.greedy.specs.Greedy.{AreRowsAfterRounds, IsAfterRounds, best_duty, day_value, greedy_rows, is_wanted, marginal_prices, new_duties};

use crate::bounds::{next_shift, raise};
use crate::draft::GreedyDraft;
use crate::gains::is_wanted;
use crate::kept::KeptGains;
use crate::lists::best_list;
use crate::values::value_on;
use advice::{Never, Stop};
use break_rules::NoMemory;
use price_sums::Lane;
use shift_instance::{Instance, Rows};
use std::alloc::Global;

/// Adds a duty of a shift with its best list on a day, where the day counts.
fn add_day(
    alloc: Global,
    instance: &Instance,
    draft: &mut GreedyDraft,
    prices: &[i64],
    values: &Lane,
    shift: u16,
    day: u8,
) -> Result<(), NoMemory>
    requires draft { IsDraft instance.now draft.old.cover draft.old.heads.items draft.old.rows.items }
    requires prices { ArePrices instance.now prices.now }
    requires values { AreValuesOf instance.now prices.now shift values.now }
    requires shift { shift < length (shift_list instance.now) }
    requires day { day < instance.now.days }
    ensures draft { OnOk result (IsDraft instance.now draft.new.cover draft.new.heads.items draft.new.rows.items) }
    ensures duties { OnOk result (draft.new.cover.duties ≡ draft.old.cover.duties ++ (if is_wanted instance.now (heads_on draft.old.cover.duties shift day) (day_value instance.now prices.now shift day) then best_duty instance.now prices.now shift day ∷ [] else [])) }
{
    let value = value_on(values, day);
    if !is_wanted(instance, draft.heads_on(instance, shift, day), value) {
        return Ok(());
    }
    if let Some(list) = best_list(alloc, instance, prices, shift, day)? {
        draft.add(alloc, instance, shift, day, &list)?;
    }
    Ok(())
}

/// Adds a duty of a shift with its best list on each day that counts.
fn add_days(
    alloc: Global,
    instance: &Instance,
    draft: &mut GreedyDraft,
    prices: &[i64],
    values: &Lane,
    shift: u16,
) -> Result<(), NoMemory>
    requires draft { IsDraft instance.now draft.old.cover draft.old.heads.items draft.old.rows.items }
    requires prices { prices.now ≡ marginal_prices instance.now draft.old.cover.duties }
    requires values { AreValuesOf instance.now prices.now shift values.now }
    requires shift { shift < length (shift_list instance.now) }
    ensures draft { OnOk result (IsDraft instance.now draft.new.cover draft.new.heads.items draft.new.rows.items) }
    ensures duties { OnOk result (draft.new.cover.duties ≡ draft.old.cover.duties ++ new_duties instance.now draft.old.cover.duties shift) }
{
    for day in 0..instance.days() {
        add_day(alloc, instance, draft, prices, values, shift, day)?;
    }
    Ok(())
}

/// One round: takes the shift of greatest gain, and says whether there was one. Once the stop asks, the round takes none. The bounds are
/// no less than the gains, and stay so; what is kept is at the marginal prices of the plan, and stays so while there are shifts to take.
fn round<S: Stop>(
    alloc: Global,
    instance: &Instance,
    draft: &mut GreedyDraft,
    kept: &mut KeptGains,
    stop: &S,
) -> Result<bool, NoMemory>
    requires draft { IsDraft instance.now draft.old.cover draft.old.heads.items draft.old.rows.items }
    requires bounds { AreBounds instance.now draft.old.cover.duties kept.old.bounds.items }
    requires kept { AreKept instance.now draft.old.cover.duties kept.old.prices.items kept.old.sums kept.old.known.items }
    ensures draft { OnOk result (IsDraft instance.now draft.new.cover draft.new.heads.items draft.new.rows.items) }
    ensures rounds { OnOk result (IsAfterRounds instance.now draft.old.cover.duties → IsAfterRounds instance.now draft.new.cover.duties) }
    ensures leads { IfOk result (λ more. (rounds : ℕ) → LeadsToGreedy instance.now (rounds + 1) draft.old.cover.duties
        → MatchBool more (LeadsToGreedy instance.now rounds draft.new.cover.duties) (S.can_ask stop.now ≡ false → LeadsToGreedy instance.now 0 draft.new.cover.duties)) }
    ensures bounds { OnOk result (AreBounds instance.now draft.new.cover.duties kept.new.bounds.items) }
    ensures kept { OnOk result (AreKept instance.now draft.new.cover.duties kept.new.prices.items kept.new.sums kept.new.known.items) }
{
    match next_shift(
        alloc,
        instance,
        draft,
        &kept.sums,
        &mut kept.bounds,
        &mut kept.known,
        stop,
    )? {
        Some(taken) => {
            let shift = taken.shift;
            let values = taken.values;
            add_days(alloc, instance, draft, &kept.prices, &values, shift)?;
            raise(instance, &mut kept.bounds, shift);
            kept.take_prices(alloc, instance, &draft.cover)?;
            Ok(true)
        }
        None => Ok(false),
    }
}

/// The greedy plan as a draft or, once the stop asks, the plan after the rounds so far.
fn greedy_draft<S: Stop>(
    alloc: Global,
    instance: &Instance,
    stop: &S,
) -> Result<GreedyDraft, NoMemory>
    ensures draft { IfOk result (λ d. IsDraft instance.now d.cover d.heads.items d.rows.items) }
    ensures rounds { IfOk result (λ d. IsAfterRounds instance.now d.cover.duties) }
    ensures leads { IfOk result (λ d. S.can_ask stop.now ≡ false → LeadsToGreedy instance.now 0 d.cover.duties) }
{
    let mut draft = GreedyDraft::empty(alloc, instance)?;
    let mut kept = KeptGains::opening(alloc, instance, &draft.cover)?;
    let most = instance.shifts().len()
        * usize::from(instance.days())
        * usize::from(instance.heads());
    'rounds: for _round in 0..most {
        if !round(alloc, instance, &mut draft, &mut kept, stop)? {
            return Ok(draft);
        }
    }
    Ok(draft)
}

/// The rows of the greedy plan of an instance, by shift, then by day, then by break list: from no duties, in each round a
/// duty of the shift that gains most at the marginal prices of the slots, on each day where it gains, each with the best
/// list of the shift on that day. A shift without a legal list isn't used. Once the stop asks, the round that is under way adds
/// nothing, and the rows after the rounds before it are handed over.
pub fn greedy_plan_until<S: Stop>(
    alloc: Global,
    instance: &Instance,
    stop: &S,
) -> Result<Rows, NoMemory>
    ensures rounds { IfOk result (λ rows. AreRowsAfterRounds instance.now rows) }
    ensures rows { IfOk result (λ rows. S.can_ask stop.now ≡ false → rows ≡ greedy_rows instance.now) }
    ensures legal { IfOk result (λ rows. IsTrue (are_legal_rows instance.now rows)) }
    ensures cheaper { IfOk result (λ rows. cost instance.now (rota_of rows) ≤ cost instance.now []) }
{
    let draft = greedy_draft(alloc, instance, stop)?;
    let GreedyDraft { rows, .. } = draft;
    Ok(Rows::new(rows))
}

/// The rows of the greedy plan of an instance, with all its rounds.
pub fn greedy_plan(alloc: Global, instance: &Instance) -> Result<Rows, NoMemory>
    ensures rows { IfOk result (λ rows. rows ≡ greedy_rows instance.now) }
    ensures legal { IfOk result (λ rows. IsTrue (are_legal_rows instance.now rows)) }
    ensures cheaper { IfOk result (λ rows. cost instance.now (rota_of rows) ≤ cost instance.now []) }
{
    greedy_plan_until(alloc, instance, &Never)
}
