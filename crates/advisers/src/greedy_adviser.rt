//! The adviser that advises the greedy plan.
ghost use Rattle.std.specs.Prelude.{◌≡◌, ◌≤◌, ◌^◌, IfErr, IfOk, None, OnOk, Some, false, length, replicate, true};
ghost use Rattle.advisers.specs.Advised.{IsOwn, advice_with, greedy_advice, greedy_prices, kept_after, own_plan, plan_with_cost};
ghost use Rattle.advisers.specs.Hearing.{after, unheard};

use crate::forced::forced_prices;
use crate::greedy_plan::{GreedyPlan, plan_of};
use crate::heard::Heard;
use advice::{Advice, Adviser, Ask, Told};
use break_rules::NoMemory;
use head_splits::{CutPrices, Cuts, Prices, SlotPrices};
use shift_instance::Instance;
use std::alloc::Global;
use std::marker::Model;

/// The adviser of the greedy plan. Made by `new`, it makes the plan of each instance that it is asked about, at each advice. Else it
/// serves one instance, whose plan it keeps: that of the plan that it was made with, or the first that it advises for.
///
/// Contracts see whether it keeps the plan that it first makes, the plan with its cost, once it keeps one, and what the adviser was
/// told.
#[derive(Drop)]
pub struct Greedy {
    alloc: Global,
    keeps: bool,
    kept: Option<GreedyPlan>,
    heard: Heard,
}

impl Model for Greedy {
    ghost use Rattle.advisers.specs.Hearing.{Planned};

    ghost Value = { Planned };

    ghost view = { λ g. record { keeps = g.keeps; kept = g.kept; heard = g.heard } };
}

/// The prices of what cuts force, at scale 1. A slot's price is the cost of an employee too few where fewer work there than
/// needed of the duties that the cuts force, each with the least legal list of its shift; minus the cost of an employee too
/// many where more do; and else 0. Each cut's price is 0.
pub fn greedy_prices(alloc: Global, instance: &Instance, cuts: &Cuts) -> Result<Prices, NoMemory>
    requires { length cuts.now ≤ 2 ^ 33 }
    ensures { IfOk result (λ prices. prices ≡ greedy_prices instance.now cuts.now) }
{
    let slots = forced_prices(alloc, instance, cuts)?;
    let none = vec![in alloc; 0; cuts.len()]?;
    Ok(Prices {
        q: 1,
        slots: SlotPrices::new(slots),
        cuts: CutPrices::new(none),
    })
}

impl Greedy {
    /// The adviser of every instance. It keeps no plan. It takes no memory.
    pub fn new(alloc: Global) -> Greedy
        ensures { result ≡ record { keeps = false; kept = None; heard = unheard } }
    {
        Greedy {
            alloc,
            keeps: false,
            kept: None,
            heard: Heard::nothing(),
        }
    }

    /// The adviser of the first instance that it advises for. It takes no memory.
    pub fn of_first(alloc: Global) -> Greedy
        ensures { result ≡ record { keeps = true; kept = None; heard = unheard } }
    {
        let mut greedy = Greedy::new(alloc);
        greedy.keeps = true;
        greedy
    }

    /// The adviser of the instance of this plan. It takes no memory.
    pub fn of(alloc: Global, plan: GreedyPlan) -> Greedy
        ensures { result ≡ record { keeps = true; kept = Some plan; heard = unheard } }
    {
        Greedy {
            alloc,
            keeps: true,
            kept: Some(plan),
            heard: Heard::nothing(),
        }
    }

    /// The kept plan once more or, where none is kept, the greedy plan of this instance.
    pub(crate) fn own_plan(&self, instance: &Instance) -> Result<GreedyPlan, NoMemory>
        ensures { IfOk result (λ plan. plan ≡ own_plan self.now.kept instance.now) }
    {
        match &self.kept {
            Some(kept) => kept.copy(),
            None => GreedyPlan::of(self.alloc, instance),
        }
    }

    /// Keeps a plan, where any is kept and none is yet.
    pub(crate) fn keep(&mut self, plan: &GreedyPlan) -> Result<(), NoMemory>
        ensures kept { OnOk result (self.new ≡ record self.old { kept = kept_after self.old.keeps self.old.kept plan.now }) }
        ensures wanting { IfErr result (λ _. self.new ≡ self.old) }
    {
        if self.keeps && self.kept.is_none() {
            self.kept = Some(plan.copy()?);
        }
        Ok(())
    }
}

impl Adviser for Greedy {
    ghost told = { λ g. g.heard.told };

    ghost last = { λ g. g.heard.last };

    /// Advises the prices of what the cuts force in the instance asked about, the adviser's plan where it has a duty, and no
    /// split.
    fn advise(&mut self, instance: &Instance, ask: &Ask) -> Result<Advice, NoMemory>
        requires { length ask.now.cuts ≤ 2 ^ 33 }
        ensures advice { IfOk result (λ advice. advice ≡ advice_with (own_plan self.old.kept instance.now) instance.now ask.now.cuts) }
        ensures own { IsOwn self.old.kept instance.now → IfOk result (λ advice. advice ≡ greedy_advice instance.now ask.now.cuts) }
        ensures kept { OnOk result (self.new ≡ record self.old { kept = kept_after self.old.keeps self.old.kept (plan_with_cost instance.now) }) }
        ensures wanting { IfErr result (λ _. self.new ≡ self.old) }
    {
        let prices = greedy_prices(self.alloc, instance, &ask.cuts)?;
        let plan = self.own_plan(instance)?;
        self.keep(&plan)?;
        let GreedyPlan { rows, .. } = plan;
        Ok(Advice {
            prices,
            plan: plan_of(rows),
            split: None,
        })
    }

    /// Tells the adviser what became of a step.
    fn learn(&mut self, news: &Told)
        ensures { self.new ≡ record self.old { heard = after self.old.heard news.now } }
    {
        self.heard.hear(news);
    }
}
