//! The rounds of the subgradient method.
ghost use Rattle.std.specs.Prelude.{◌≡◌, ◌<◌, ◌≤◌, ◌+◌, ◌^◌, pos, ◌*ℤ◌, IfOk, OnOk, length};
ghost use Rattle.std.specs.Int.RustNames.{unsigned_abs};
ghost use Rattle.advisers.specs.Rounds.{better, pricing_in, valued_of};
ghost use Rattle.advisers.specs.Subgradient.{best_prices, first_prices, step_in};

use crate::forced::forced_prices;
use crate::stepping::next_prices;
use break_rules::NoMemory;
use dual_bound::Pricer;
use head_splits::{CutPrices, Cuts, Prices, SlotPrices};
use pricing::Steps;
use shift_instance::Instance;
use std::alloc::{AllocError, Global};
use std::marker::Brand;
use std::sync::ledger::{Blank, Ledger};

/// How often the prices are changed: so there are 40 rounds.
const STEPS: u16 = 39;

/// Prices with their value.
#[derive(Drop)]
pub(crate) struct Valued {
    /// The prices.
    pub(crate) prices: Prices,
    /// The bound that they give.
    pub(crate) value: u64,
}

/// A price at scale 1, at another scale.
fn scaled(price: i64, q: u16) -> i64
    requires { unsigned_abs (price *ℤ pos q) ≤ 10000000000 }
    ensures { result ≡ price *ℤ pos q }
{
    price * i64::from(q)
}

/// The first prices.
fn first_prices(alloc: Global, instance: &Instance, cuts: &Cuts, q: u16) -> Result<Prices, NoMemory>
    requires scale { (1 ≤ q) × (q ≤ 10000) }
    ensures { IfOk result (λ prices. prices ≡ first_prices instance.now cuts.now q) }
{
    let forced = forced_prices(alloc, instance, cuts)?;
    let mut slots = Vec::with_capacity(alloc, instance.slots())?;
    for t in 0..forced.len() {
        slots.push(scaled(forced[t], q))?;
    }
    let none = vec![in alloc; 0; cuts.len()]?;
    Ok(Prices {
        q,
        slots: SlotPrices::new(slots),
        cuts: CutPrices::new(none),
    })
}

/// The prices once more.
fn copy_of(prices: &Prices) -> Result<Prices, NoMemory>
    ensures { IfOk result (λ copy. copy ≡ prices.now) }
{
    let copy = prices.clone()?;
    Ok(copy)
}

/// The step of a round at a scale.
fn step_in(q: u16, round: u16) -> u16
    requires { round < 65535 }
    ensures { result ≡ step_in q round }
{
    (q / (round + 1)).max(1)
}

impl Valued {
    /// A pricer's prices with their value.
    fn of(pricer: &Pricer) -> Result<Valued, NoMemory>
        ensures { IfOk result (λ v. v ≡ valued_of pricer.now) }
    {
        let prices = copy_of(pricer.prices())?;
        Ok(Valued {
            prices,
            value: pricer.value(),
        })
    }
}

/// A pricer at the prices of the first round.
fn first_round<L: Ledger>(
    alloc: Global,
    instance: &Instance,
    cuts: &Cuts,
    q: u16,
    steps: &mut Steps<L>,
) -> Result<Pricer, NoMemory>
    requires few { length cuts.now ≤ 2 ^ 33 }
    requires scale { (1 ≤ q) × (q ≤ 10000) }
    ensures { IfOk result (λ pricer. pricer ≡ pricing_in instance.now cuts.now q 0) }
{
    let prices = first_prices(alloc, instance, cuts, q)?;
    match Pricer::new(alloc, instance, cuts, prices, steps) {
        Ok(pricer) => Ok(pricer),
        // these prices have no fault
        Err(_) => Err(AllocError),
    }
}

/// Brings a pricer to the prices of the round after its own.
fn next_round<L: Ledger>(
    alloc: Global,
    instance: &Instance,
    cuts: &Cuts,
    q: u16,
    round: u16,
    pricer: &mut Pricer,
    steps: &mut Steps<L>,
) -> Result<(), NoMemory>
    requires not_last { round < 39 }
    requires round { pricer.old ≡ pricing_in instance.now cuts.now q round }
    ensures { OnOk result (pricer.new ≡ pricing_in instance.now cuts.now q (round + 1)) }
{
    let prices = next_prices(alloc, instance, cuts, step_in(q, round), pricer)?;
    match pricer.reprice(instance, prices, steps) {
        Ok(()) => Ok(()),
        // these prices have no fault
        Err(_) => Err(AllocError),
    }
}

/// The better of the best prices so far and those of a pricer: the pricer's where they are worth more.
fn better(best: Valued, pricer: &Pricer) -> Result<Valued, NoMemory>
    ensures { IfOk result (λ v. v ≡ better best (valued_of pricer.now)) }
{
    if best.value < pricer.value() {
        return Valued::of(pricer);
    }
    Ok(best)
}

/// The prices of greatest value of at most 40 rounds, as [`best_prices`] has them, found with a count of steps that begins here.
fn best_of_rounds<L: Ledger>(
    alloc: Global,
    instance: &Instance,
    cuts: &Cuts,
    q: u16,
    goal: u64,
    blank: Blank,
) -> Result<Prices, NoMemory>
    requires name { blank.name ≡ L.name }
    requires parts { blank.parts ≡ L.parts }
    requires some { 0 < L.parts }
    requires few { length cuts.now ≤ 2 ^ 33 }
    requires scale { (1 ≤ q) × (q ≤ 10000) }
    ensures { IfOk result (λ prices. prices ≡ best_prices instance.now cuts.now q goal 40) }
{
    let mut steps = Steps::<L>::new(blank);
    let mut pricer = first_round(alloc, instance, cuts, q, &mut steps)?;
    let mut best = Valued::of(&pricer)?;
    for round in 0..STEPS {
        if goal <= pricer.value() {
            return Ok(best.prices);
        }
        next_round(alloc, instance, cuts, q, round, &mut pricer, &mut steps)?;
        let leader = better(best, &pricer)?;
        best = leader;
    }
    Ok(best.prices)
}

/// The prices of greatest value of at most 40 rounds, the earliest among equals. No round is made after the first whose
/// value reaches the goal.
pub(crate) fn best_prices(
    alloc: Global,
    instance: &Instance,
    cuts: &Cuts,
    q: u16,
    goal: u64,
) -> Result<Prices, NoMemory>
    requires few { length cuts.now ≤ 2 ^ 33 }
    requires scale { (1 ≤ q) × (q ≤ 10000) }
    ensures { IfOk result (λ prices. prices ≡ best_prices instance.now cuts.now q goal 40) }
{
    // Nobody reads the count of steps.
    best_of_rounds::<Brand>(alloc, instance, cuts, q, goal, Blank::new(1))
}
