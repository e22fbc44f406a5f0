//! Upper bounds of the gains of shifts. While duties are added a gain falls, but for that of the shift that is taken, so a
//! bound stays one, and only shifts whose bound leads are looked at again.
ghost use Rattle.std.specs.Prelude.{◌≡◌, ℕ, ℤ, pos, ◌<◌, ◌≤◌, ◌+ℤ◌, [], Some, None, IfOk, IfSome, OnOk, MatchOption, false, length, set};
ghost use Rattle.shift_instance.specs.Problem.{shift_list};
ghost use Rattle.greedy.specs.Bounds.{AreBounds, bound_at};
ghost use Rattle.greedy.specs.Drafts.{IsDraft, Leads};
ghost use Rattle.greedy.specs.Greedy.{gain, marginal_prices, next_shift};
ghost use Rattle.greedy.specs.Kept.{KeepsEach};
ghost use Rattle.greedy.specs.Sizes.{ArePrices, IsWithin};
ghost use Rattle.greedy.specs.Values.{AreValuesOf};

use crate::draft::GreedyDraft;
use crate::gains::gain;
use crate::known::{KnownDays, kept_values};
use advice::Stop;
use break_rules::NoMemory;
use price_sums::{DaySums, Lane};
use shift_instance::Instance;
use std::alloc::Global;

/// What no gain passes: more than all slots earn on each day at the greatest weight.
const MOST: i64 = 14_114_000_000;

/// A shift to take, with its values, one for each day.
#[derive(Drop)]
pub(crate) struct Taken {
    /// The number of the shift.
    pub(crate) shift: u16,
    /// Its values.
    pub(crate) values: Lane,
}

/// Bounds of the gains of all shifts in the plan with no duties.
pub(crate) fn opening_bounds(alloc: Global, instance: &Instance) -> Result<Vec<i64>, NoMemory>
    ensures { IfOk result (λ bounds. AreBounds instance.now [] bounds.items) }
{
    let bounds = vec![in alloc; MOST; instance.shifts().len()]?;
    Ok(bounds)
}

/// The shift of greatest bound, and of least number among equals, where that bound is above 0.
fn leading(bounds: &[i64]) -> Option<u16>
    requires few { length bounds.now ≤ 1024 }
    requires small { (s : ℕ) → IsWithin 14114000000 (bound_at bounds.now s) }
    ensures { (top : ℤ) × Leads (bound_at bounds.now) (length bounds.now) result top }
{
    let mut best = None;
    let mut best_bound = 0;
    for shift in 0..bounds.len() as u16 {
        let bound = bounds[usize::from(shift)];
        if best_bound < bound {
            best = Some(shift);
            best_bound = bound;
        }
    }
    best
}

/// The shift to take next, with its values at the marginal prices that the sums are of: that of greatest gain, and of least number
/// among equals, where its gain is above 0. Its bound is its gain then. Before each look at a shift the stop is looked at, and once it
/// asks, no shift is to take.
pub(crate) fn next_shift<S: Stop>(
    alloc: Global,
    instance: &Instance,
    draft: &GreedyDraft,
    sums: &DaySums,
    bounds: &mut Vec<i64>,
    known: &mut [KnownDays],
    stop: &S,
) -> Result<Option<Taken>, NoMemory>
    requires draft { IsDraft instance.now draft.now.cover draft.now.heads.items draft.now.rows.items }
    requires sums { sums.now.instance ≡ instance.now }
    requires prices { sums.now.prices ≡ marginal_prices instance.now draft.now.cover.duties }
    requires priced { ArePrices instance.now sums.now.prices }
    requires bounds { AreBounds instance.now draft.now.cover.duties bounds.old.items }
    requires known { KeepsEach instance.now sums.now.prices known.old }
    ensures next { IfOk result (λ found. MatchOption found (S.can_ask stop.now ≡ false → None ≡ next_shift instance.now draft.now.cover.duties) (λ taken. Some taken.shift ≡ next_shift instance.now draft.now.cover.duties)) }
    ensures values { IfOk result (λ found. IfSome found (λ taken. AreValuesOf instance.now sums.now.prices taken.shift taken.values)) }
    ensures exact { IfOk result (λ found. IfSome found (λ taken. bound_at bounds.new.items taken.shift ≡ gain instance.now draft.now.cover.duties taken.shift)) }
    ensures bounds { OnOk result (AreBounds instance.now draft.now.cover.duties bounds.new.items) }
    ensures known { OnOk result (KeepsEach instance.now sums.now.prices known.new) }
{
    let mut lanes = Vec::new(alloc);
    'looks: while let Some(shift) = leading(bounds) {
        if stop.is_asked() {
            return Ok(None);
        }
        let entry = &mut known[usize::from(shift)];
        let values = kept_values(alloc, instance, sums, shift, entry, &mut lanes)?;
        let gain = gain(instance, draft, &values, shift);
        if gain == bounds[usize::from(shift)] {
            return Ok(Some(Taken { shift, values }));
        }
        bounds[usize::from(shift)] = gain;
    }
    Ok(None)
}

/// Raises the bound of a shift by the shift weight, which it no longer pays once it is used.
pub(crate) fn raise(instance: &Instance, bounds: &mut Vec<i64>, shift: u16)
    requires shift { shift < length bounds.old.items }
    requires small { IsWithin 14114000000 (bound_at bounds.old.items shift) }
    ensures { bounds.new.items ≡ set bounds.old.items shift (bound_at bounds.old.items shift +ℤ pos instance.now.shift) }
{
    let (_, _, weight) = instance.weights();
    bounds[usize::from(shift)] += i64::from(weight);
}
