//! The adviser that looks for prices by the subgradient method.
ghost use Rattle.std.specs.Prelude.{◌≡◌, ◌≤◌, ◌^◌, IfErr, IfOk, None, OnOk, Some, false, length, true};
ghost use Rattle.advisers.specs.Advised.{IsOwn, kept_after, own_plan, plan_with_cost};
ghost use Rattle.advisers.specs.Hearing.{after, unheard};
ghost use Rattle.advisers.specs.Subgradient.{goal_of, subgradient_advice, subgradient_advice_with};

use crate::Greedy;
use crate::greedy_plan::{GreedyPlan, plan_of};
use crate::rounds::best_prices;
use advice::{Advice, Adviser, Ask, Told};
use break_rules::NoMemory;
use shift_instance::Instance;
use std::alloc::Global;
use std::marker::Model;

/// The adviser that looks for prices by the subgradient method, from the greedy adviser's prices on, anew at each advice, and
/// advises the greedy plan. Made by `new`, it makes the plan of each instance that it is asked about, at each advice. Else it serves one
/// instance, whose plan it keeps: that of the plan that it was made with, or the first that it advises for.
///
/// Contracts see its scale, whether it keeps the plan that it first makes, the plan with its cost, once it keeps one, and what the
/// adviser was told.
#[derive(Drop)]
pub struct Subgradient {
    alloc: Global,
    q: u16,
    greedy: Greedy,
    ghost scale: { (1 ≤ q) × (q ≤ 10000) },
}

impl Model for Subgradient {
    ghost use Rattle.std.specs.Prelude.{◌≤◌};
    ghost use Rattle.advisers.specs.Hearing.{Scaled};

    ghost Value = { Scaled };

    ghost view = { λ s. record { q = s.q; keeps = s.greedy.keeps; kept = s.greedy.kept; heard = s.greedy.heard } };
}

/// What a bound has to reach so that no more is wanted: the cost of the best rota or, where it is cheaper, that of a plan that
/// has a duty.
fn goal_of(best: u64, plan: &GreedyPlan) -> u64
    ensures { result ≡ goal_of best plan.now }
{
    if plan.rows.is_empty() {
        best
    } else {
        best.min(plan.cost)
    }
}

impl Subgradient {
    /// The adviser of prices at a scale for every instance. It keeps no plan. It takes no memory.
    pub fn new(alloc: Global, q: u16) -> Subgradient
        requires { (1 ≤ q) × (q ≤ 10000) }
        ensures { result ≡ record { q = q; keeps = false; kept = None; heard = unheard } }
    {
        Subgradient {
            alloc,
            q,
            greedy: Greedy::new(alloc),
        }
    }

    /// The adviser of prices at a scale for the first instance that it advises for. It takes no memory.
    pub fn of_first(alloc: Global, q: u16) -> Subgradient
        requires { (1 ≤ q) × (q ≤ 10000) }
        ensures { result ≡ record { q = q; keeps = true; kept = None; heard = unheard } }
    {
        Subgradient {
            alloc,
            q,
            greedy: Greedy::of_first(alloc),
        }
    }

    /// The adviser of prices at a scale for the instance of this plan. It takes no memory.
    pub fn of(alloc: Global, plan: GreedyPlan, q: u16) -> Subgradient
        requires { (1 ≤ q) × (q ≤ 10000) }
        ensures { result ≡ record { q = q; keeps = true; kept = Some plan; heard = unheard } }
    {
        Subgradient {
            alloc,
            q,
            greedy: Greedy::of(alloc, plan),
        }
    }
}

impl Adviser for Subgradient {
    ghost told = { λ s. s.heard.told };

    ghost last = { λ s. s.heard.last };

    /// Advises the prices of greatest value of at most 40 rounds, the earliest among equals, and the adviser's plan where it
    /// has a duty. The first round's prices are the greedy adviser's, times the scale. Each further round's are those of
    /// the round before, changed by its step size: the price of a slot grows where the solution that the prices choose
    /// leaves too few employees and falls where it leaves too many, that of a cut grows where the solution doesn't keep to
    /// the cut and falls where it more than does, and each is brought into its range. No round is made after the first
    /// whose value reaches the cost of the best rota or of the plan. It advises no split.
    fn advise(&mut self, instance: &Instance, ask: &Ask) -> Result<Advice, NoMemory>
        requires { length ask.now.cuts ≤ 2 ^ 33 }
        ensures advice { IfOk result (λ advice. advice ≡ subgradient_advice_with (own_plan self.old.kept instance.now) instance.now self.old.q ask.now) }
        ensures own { IsOwn self.old.kept instance.now → IfOk result (λ advice. advice ≡ subgradient_advice instance.now self.old.q ask.now) }
        ensures kept { OnOk result (self.new ≡ record self.old { kept = kept_after self.old.keeps self.old.kept (plan_with_cost instance.now) }) }
        ensures wanting { IfErr result (λ _. self.new ≡ self.old) }
    {
        let plan = self.greedy.own_plan(instance)?;
        let goal = goal_of(ask.best, &plan);
        let prices = best_prices(self.alloc, instance, &ask.cuts, self.q, goal)?;
        self.greedy.keep(&plan)?;
        let GreedyPlan { rows, .. } = plan;
        Ok(Advice {
            prices,
            plan: plan_of(rows),
            split: None,
        })
    }

    /// Tells the adviser what became of a step.
    fn learn(&mut self, news: &Told)
        ensures { self.new ≡ record self.old { heard = after self.old.heard news.now } }
    {
        self.greedy.learn(news);
    }
}
