//! The bound of prices below two cuts, and a pricer that follows them.
ghost use Rattle.std.specs.Prelude.{◌≡◌, ◌<◌, length};

use crate::priced_day::{day, prices, two_cuts};
use dual_bound::{PriceFault, Pricer, prove};
use head_splits::{Cuts, Prices};
use pricing::Steps;
use shift_instance::Instance;
use std::alloc::Global;
use std::marker::Brand;
use std::sync::ledger::{Blank, Ledger};
use std::test::Fail;

/// The bound of prices below cuts.
fn bound(alloc: Global, instance: &Instance, cuts: Cuts, prices: Prices) -> Result<u64, PriceFault>
    requires { length cuts ≡ 2 }
{
    Ok(prove(alloc, instance, cuts, prices)?.bound())
}

// The hours are worth -4 and the second cut 8. A duty with the wanted break takes the three hours back and gets 4, so it is worth 1, and two are
// worth less than the shift costs.
#[test]
fn a_bound_is_proved(rt: HostRuntime) -> Result<(), Fail> {
    let alloc = rt.alloc();
    let instance = day(alloc)?;
    let prices = prices(alloc, -1, 4)?;
    let cuts = two_cuts(alloc)?;
    assert_eq!(rt; bound(alloc, &instance, cuts, prices), Ok(4));
    Ok(())
}

#[test]
fn a_price_above_its_range(rt: HostRuntime) -> Result<(), Fail> {
    let alloc = rt.alloc();
    let instance = day(alloc)?;
    let prices = prices(alloc, 3, 0)?;
    let cuts = two_cuts(alloc)?;
    let fault = PriceFault::SlotPrice { slot: 8 };
    assert_eq!(rt; bound(alloc, &instance, cuts, prices), Err(fault));
    Ok(())
}

/// Whether a pricer has the bound of the prices above, and then of those where an hour is worth 1 and the cuts 0.
fn follow_prices<L: Ledger>(
    alloc: Global,
    instance: &Instance,
    cuts: &Cuts,
    first: Prices,
    then: Prices,
    steps: &mut Steps<L>,
) -> Result<bool, PriceFault>
    requires cuts { length cuts.now ≡ 2 }
{
    let mut pricer = Pricer::new(alloc, instance, cuts, first, steps)?;
    let first = pricer.value();
    pricer.reprice(instance, then, steps)?;
    Ok((first, pricer.value()) == (4, 1))
}

/// The same, with steps that nobody reads.
fn are_followed<L: Ledger>(
    alloc: Global,
    instance: &Instance,
    cuts: &Cuts,
    first: Prices,
    then: Prices,
    blank: Blank,
) -> Result<bool, PriceFault>
    requires name { blank.name ≡ L.name }
    requires parts { blank.parts ≡ L.parts }
    requires some { 0 < L.parts }
    requires cuts { length cuts.now ≡ 2 }
{
    follow_prices(
        alloc,
        instance,
        cuts,
        first,
        then,
        &mut Steps::<L>::new(blank),
    )
}

#[test]
fn a_pricer_follows_the_prices(rt: HostRuntime) -> Result<(), Fail> {
    let alloc = rt.alloc();
    let instance = day(alloc)?;
    let cuts = two_cuts(alloc)?;
    let first = prices(alloc, -1, 4)?;
    let then = prices(alloc, 1, 0)?;
    let blank = Blank::new(1);
    assert!(rt; are_followed::<Brand>(alloc, &instance, &cuts, first, then, blank)?);
    Ok(())
}
