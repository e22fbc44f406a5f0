//! Bounds of advised prices.
ghost use Rattle.std.specs.Prelude.{◌≡◌, ◌≤◌, ◌^◌, IfOk, length};
ghost use Rattle.dual_bound.specs.Proved.{IsProved};
ghost use Rattle.subtree_search.specs.Stepping.{lawful_prices, no_prices, IsBoundFor};

use break_rules::NoMemory;
use dual_bound::{Buffers, PriceFault, Proved};
use head_splits::{CutPrices, Cuts, Prices, SlotPrices};
use shift_instance::Instance;
use std::alloc::{AllocError, Global};

/// The cuts once more.
pub(crate) fn copy_of(cuts: &Cuts) -> Result<Cuts, NoMemory>
    ensures { IfOk result (λ copy. copy ≡ cuts.now) }
{
    let copy = cuts.clone()?;
    Ok(copy)
}

/// Price 0 for each slot and each cut, at scale 1, which is a price set for all cuts.
fn no_prices(alloc: Global, instance: &Instance, cuts: &Cuts) -> Result<Prices, NoMemory>
    ensures { IfOk result (λ prices. prices ≡ no_prices instance.now cuts.now) }
{
    let slots = vec![in alloc; 0; instance.slots()]?;
    let cuts = vec![in alloc; 0; cuts.len()]?;
    Ok(Prices {
        q: 1,
        slots: SlotPrices::new(slots),
        cuts: CutPrices::new(cuts),
    })
}

/// The bound of prices for cuts, or nothing where they aren't a price set.
fn proved_by(
    instance: &Instance,
    buffers: &mut Buffers,
    cuts: &Cuts,
    prices: Prices,
) -> Result<Option<Proved>, NoMemory>
    requires few { length cuts.now ≤ 2 ^ 33 }
    requires buffers { buffers.old ≡ instance.now }
    ensures proved { IfOk result (λ found. IsBoundFor instance.now cuts.now prices found) }
    ensures buffers { buffers.new ≡ buffers.old }
{
    match buffers.prove(instance, copy_of(cuts)?, prices) {
        Ok(proved) => {
            // Its clauses say that the bound is the prices' own.
            let _bound = proved.bound();
            Ok(Some(proved))
        }
        Err(fault) => match fault {
            PriceFault::NoMemory => Err(AllocError),
            _ => Ok(None),
        },
    }
}

/// The bound of prices where they are a price set for the cuts, and else of price 0 everywhere.
pub(crate) fn prove_lawful(
    alloc: Global,
    instance: &Instance,
    buffers: &mut Buffers,
    cuts: &Cuts,
    prices: Prices,
) -> Result<Proved, NoMemory>
    requires few { length cuts.now ≤ 2 ^ 33 }
    requires buffers { buffers.old ≡ instance.now }
    ensures prices { IfOk result (λ p. (p.instance ≡ instance.now) × (p.cuts ≡ cuts.now) × (p.prices ≡ lawful_prices instance.now cuts.now prices)) }
    ensures proved { IfOk result (λ p. IsProved p) }
    ensures buffers { buffers.new ≡ buffers.old }
{
    if let Some(proved) = proved_by(instance, buffers, cuts, prices)? {
        return Ok(proved);
    }
    let prices = no_prices(alloc, instance, cuts)?;
    match proved_by(instance, buffers, cuts, prices)? {
        Some(proved) => Ok(proved),
        // these prices have no fault
        None => Err(AllocError),
    }
}
