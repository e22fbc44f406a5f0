//! The floors that proof lines give.

ghost use Rattle.std.specs.Prelude.{◌≡◌, ◌≤◌, ◌^◌, length, IfOk};
ghost use Rattle.cert_check.specs.Floors.{line_floor, price_floor};

use crate::prices::are_prices;
use crate::settled::settled_floor;
use crate::terms::{WalkMemory, bound_by_walk};
use break_rules::NoMemory;
use certificate::Line;
use head_splits::{Cuts, Prices};
use shift_instance::Instance;
use std::alloc::Global;

/// The bound of prices below some cuts, and none where they aren't a price set for these.
fn price_floor(
    alloc: Global,
    instance: &Instance,
    memory: &mut WalkMemory,
    cuts: &Cuts,
    prices: &Prices,
) -> Result<Option<u64>, NoMemory>
    requires memory { memory.old ≡ instance.now }
    requires few { length cuts.now ≤ 2 ^ 33 }
    ensures floor { IfOk result (λ floor. floor ≡ price_floor instance.now cuts.now prices.now) }
    ensures memory { memory.new ≡ memory.old }
{
    if !are_prices(instance, cuts, prices) {
        return Ok(None);
    }
    let bound = bound_by_walk(alloc, memory, instance, cuts, prices)?;
    Ok(Some(bound))
}

/// The floor that a proof line gives a node with these cuts, and none where it gives none: the prices aren't a price set for the
/// cuts, the cuts leave the number of some legal duty open, or the line is a split.
pub(crate) fn line_floor(
    alloc: Global,
    instance: &Instance,
    memory: &mut WalkMemory,
    cuts: &Cuts,
    line: &Line,
) -> Result<Option<u64>, NoMemory>
    requires memory { memory.old ≡ instance.now }
    requires few { length cuts.now ≤ 2 ^ 33 }
    ensures floor { IfOk result (λ floor. floor ≡ line_floor instance.now cuts.now line.now) }
    ensures memory { memory.new ≡ memory.old }
{
    match line {
        Line::Split {
            node: _,
            class: _,
            m: _,
        } => Ok(None),
        Line::Priced { node: _, prices } => price_floor(alloc, instance, memory, cuts, prices),
        Line::Settled { node: _ } => settled_floor(alloc, instance, cuts),
    }
}
