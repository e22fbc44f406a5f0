//! A worker's decision.
ghost use Rattle.std.specs.Prelude.{◌≡◌, ◌≢◌, ◌≤◌, ◌^◌, ◌↔◌, IsTrue, IfOk, IfSome, length, max, nat_le};
ghost use Rattle.std.specs.Option.{option_map};
ghost use Rattle.dual_bound.specs.Proved.{IsProved};
ghost use Rattle.rota_cost.specs.Costed.{IsCosted};
ghost use Rattle.search_core.specs.Steps.{Fits, FitsClose};
ghost use Rattle.search_core.specs.declared.step_posts.Close.TheVariants.{ByPrice};
ghost use Rattle.worker_gate.specs.Decision.{cost_to_reach, lawful_plan, lawful_prices, zero_prices, IsDecision, IsGivenClose};

use crate::splitting::lawful_split;
use advice::{Advice, Ask, Splitting};
use break_rules::NoMemory;
use dual_bound::{Buffers, Fixing, PriceFault, Proved, settle};
use head_splits::{CutPrices, Cuts, Prices, SlotPrices};
use rota_cost::{Costed, cost_rows};
use search_core::{Close, StepPosts};
use shift_instance::{Instance, Rows};
use std::alloc::{AllocError, Global};

/// The rows of a plan with their cost, where there are some and they are legal.
fn cost_plan(instance: &Instance, plan: Option<Rows>) -> Option<Costed>
    ensures rows { option_map (λ p. p.rows) result ≡ lawful_plan instance.now plan }
    ensures costed { IfSome result (λ p. (p.instance ≡ instance.now) × IsCosted p) }
{
    match cost_rows(instance, plan?) {
        Ok(costed) => {
            // Its clauses say that the cost is the rows' own.
            let _cost = costed.cost();
            Some(costed)
        }
        Err(_) => None,
    }
}

/// The cuts once more.
pub(crate) fn copy_of(cuts: &Cuts) -> Result<Cuts, NoMemory>
    ensures { IfOk result (λ copy. copy ≡ cuts.now) }
{
    let copy = cuts.clone()?;
    Ok(copy)
}

/// Price 0 for each slot and each of that many cuts, at scale 1.
fn zero_prices(alloc: Global, instance: &Instance, cuts: usize) -> Result<Prices, NoMemory>
    ensures { IfOk result (λ prices. prices ≡ zero_prices instance.now cuts) }
{
    let slots = vec![in alloc; 0; instance.slots()]?;
    let cuts = vec![in alloc; 0; cuts]?;
    Ok(Prices {
        q: 1,
        slots: SlotPrices::new(slots),
        cuts: CutPrices::new(cuts),
    })
}

/// The bound of price 0 everywhere.
fn prove_zero(
    alloc: Global,
    instance: &Instance,
    buffers: &mut Buffers,
    cuts: &Cuts,
) -> Result<Proved, NoMemory>
    requires few { length cuts.now ≤ 2 ^ 33 }
    requires buffers { buffers.old ≡ instance.now }
    ensures prices { IfOk result (λ p. (p.instance ≡ instance.now) × (p.cuts ≡ cuts.now) × (p.prices ≡ zero_prices instance.now (length cuts.now))) }
    ensures proved { IfOk result (λ p. IsProved p) }
    ensures buffers { buffers.new ≡ buffers.old }
{
    let prices = zero_prices(alloc, instance, cuts.len())?;
    match buffers.prove(instance, copy_of(cuts)?, prices) {
        Ok(proved) => {
            // Its clauses say that the bound is the prices' own.
            let _bound = proved.bound();
            Ok(proved)
        }
        // these prices have no fault
        Err(_) => Err(AllocError),
    }
}

/// The bound of prices where they are a price set for the cuts, and else of price 0 everywhere.
fn prove_lawful(
    alloc: Global,
    instance: &Instance,
    buffers: &mut Buffers,
    cuts: &Cuts,
    prices: Prices,
) -> Result<Proved, NoMemory>
    requires few { length cuts.now ≤ 2 ^ 33 }
    requires buffers { buffers.old ≡ instance.now }
    ensures prices { IfOk result (λ p. (p.instance ≡ instance.now) × (p.cuts ≡ cuts.now) × (p.prices ≡ lawful_prices instance.now cuts.now prices)) }
    ensures proved { IfOk result (λ p. IsProved p) }
    ensures buffers { buffers.new ≡ buffers.old }
{
    match buffers.prove(instance, copy_of(cuts)?, prices) {
        Ok(proved) => {
            // Its clauses say that the bound is the prices' own.
            let _bound = proved.bound();
            Ok(proved)
        }
        Err(fault) => match fault {
            PriceFault::NoMemory => Err(AllocError),
            _ => prove_zero(alloc, instance, buffers, cuts),
        },
    }
}

/// What a node's floor has to reach: the cost of the best rota or, where it is cheaper, that of the plan.
fn cost_to_reach(best: u64, plan: &Option<Costed>) -> u64
    ensures { result ≡ cost_to_reach best plan.now }
{
    match plan {
        Some(plan) => best.min(plan.cost()),
        None => best,
    }
}

/// The settled plan that these cuts have, or else a split: the advised one where it is lawful, and else the one that settling the
/// cuts gives.
pub(crate) fn close_of(
    alloc: Global,
    instance: &Instance,
    cuts: Cuts,
    advised: Option<Splitting>,
) -> Result<Close, NoMemory>
    ensures given { IfOk result (λ close. IsGivenClose instance.now cuts advised close) }
    ensures fits { IfOk result (λ close. FitsClose instance.now cuts close) }
    ensures other { IfOk result (λ close. close ≢ ByPrice) }
{
    let split = lawful_split(alloc, instance, &cuts, advised)?;
    match settle(alloc, instance, cuts)? {
        Fixing::Done(node) => Ok(Close::Settled(node)),
        Fixing::Open { class, m } => match split {
            Some(Splitting { class, m }) => Ok(Close::Split { class, m }),
            None => Ok(Close::Split { class, m }),
        },
    }
}

/// The step that a worker makes of an advice for a node. The advised prices count where they are a price set for the
/// node's cuts, and else price 0 everywhere. The advised plan counts where it is legal. The step closes the node by its
/// price where the greater of the node's floor and the bound reaches the cost of the best rota or of the plan. Else it closes a
/// settled node as settled, and splits any other: as advised where the class is live and the node's cuts leave the number open
/// there, and else as settling the cuts gives.
pub fn step_of(
    alloc: Global,
    instance: &Instance,
    node: u32,
    ask: Ask,
    advice: Advice,
) -> Result<StepPosts, NoMemory>
    requires { length ask.cuts ≤ 2 ^ 33 }
    ensures decision { IfOk result (λ step. IsDecision instance.now node ask.cuts ask.floor ask.best advice step) }
    ensures fits { IfOk result (λ step. Fits instance.now step) }
{
    let mut buffers = Buffers::new(alloc, instance);
    step_in(alloc, instance, &mut buffers, node, ask, advice)
}

/// What [`step_of`] makes, with its prices proved in buffers of the instance.
pub(crate) fn step_in(
    alloc: Global,
    instance: &Instance,
    buffers: &mut Buffers,
    node: u32,
    ask: Ask,
    advice: Advice,
) -> Result<StepPosts, NoMemory>
    requires few { length ask.cuts ≤ 2 ^ 33 }
    requires buffers { buffers.old ≡ instance.now }
    ensures decision { IfOk result (λ step. IsDecision instance.now node ask.cuts ask.floor ask.best advice step) }
    ensures fits { IfOk result (λ step. Fits instance.now step) }
    ensures buffers { buffers.new ≡ buffers.old }
{
    let Ask {
        cuts,
        floor,
        best,
        hint: _,
    } = ask;
    let Advice {
        prices,
        plan,
        split,
    } = advice;
    let plan = cost_plan(instance, plan);
    let proved = prove_lawful(alloc, instance, buffers, &cuts, prices)?;
    let close = if cost_to_reach(best, &plan) <= floor.max(proved.bound()) {
        Close::ByPrice
    } else {
        close_of(alloc, instance, cuts, split)?
    };
    Ok(StepPosts {
        node,
        plan,
        proved,
        close,
    })
}
