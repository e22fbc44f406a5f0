//! The gains of shifts.
ghost use Rattle.std.specs.Prelude.{◌≡◌, ◌<◌, length};
ghost use Rattle.shift_instance.specs.Problem.{shift_list};
ghost use Rattle.greedy.specs.Drafts.{IsDraft};
ghost use Rattle.greedy.specs.Greedy.{gain, is_wanted, marginal_prices};
ghost use Rattle.greedy.specs.Values.{AreValuesOf};

use crate::draft::GreedyDraft;
use crate::values::value_on;
use price_sums::Lane;
use shift_instance::Instance;

/// Whether there is room for one more duty beside that many, and it has a value above 0.
pub(crate) fn is_wanted(instance: &Instance, heads: u16, value: i64) -> bool
    ensures { result ≡ is_wanted instance.now heads value }
{
    heads < instance.heads() && 0 < value
}

/// The gain of a shift, of its values at the plan's marginal prices.
pub(crate) fn gain(instance: &Instance, draft: &GreedyDraft, values: &Lane, shift: u16) -> i64
    requires draft { IsDraft instance.now draft.now.cover draft.now.heads.items draft.now.rows.items }
    requires values { AreValuesOf instance.now (marginal_prices instance.now draft.now.cover.duties) shift values.now }
    requires shift { shift < length (shift_list instance.now) }
    ensures { result ≡ gain instance.now draft.now.cover.duties shift }
{
    let mut gain = 0;
    for day in 0..instance.days() {
        let value = value_on(values, day);
        if is_wanted(instance, draft.heads_on(instance, shift, day), value) {
            gain += value;
        }
    }
    if draft.is_used(instance, shift) {
        return gain;
    }
    let (_, _, weight) = instance.weights();
    gain - i64::from(weight)
}
