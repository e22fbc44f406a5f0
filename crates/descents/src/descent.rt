//! The adviser that descends from the greedy plan.
ghost use Rattle.std.specs.Prelude.{◌≡◌, ◌≤◌, ◌^◌, IfErr, IfOk, IsSomeAnd, None, false, length, true};
ghost use Rattle.advisers.specs.Advised.{greedy_prices, plan_of};
ghost use Rattle.advisers.specs.Hearing.{after, unheard};
ghost use Rattle.descents.specs.Descending.{IsDescent, IsOwnPlan, advised_rows, kept_after};

use crate::descending::descended;
use crate::evening::evened;
use advice::{Advice, Adviser, Ask, Told};
use advisers::{Heard, greedy_prices, plan_of};
use break_rules::NoMemory;
use greedy::greedy_plan;
use shift_instance::{Instance, Rows};
use std::alloc::Global;
use std::marker::Model;

/// The adviser of the greedy adviser's prices, and of the plan that a descent makes of the greedy plan, moves that make it more even,
/// and another descent, each of at most so many moves. Made by `new`, it makes the plan of each instance that it is asked about, at each
/// advice. Else it serves one instance, whose plan it keeps: the one that it was made of, or the first that it advises for.
///
/// Contracts see the most moves, whether it keeps the plan that it first makes, the rows of the plan, once it keeps one, and what the
/// adviser was told.
#[derive(Drop)]
pub struct Descent {
    alloc: Global,
    rounds: u16,
    keeps: bool,
    kept: Option<Rows>,
    heard: Heard,
}

impl Model for Descent {
    ghost use Rattle.descents.specs.Descending.{Descending};

    ghost Value = { Descending };

    ghost view = { λ d. record { rounds = d.rounds; keeps = d.keeps; kept = d.kept; heard = d.heard } };
}

/// The rows of the greedy plan after a descent, moves that make it more even, and another descent, each of at most `rounds`
/// moves.
fn descent_rows(alloc: Global, instance: &Instance, rounds: u16) -> Result<Rows, NoMemory>
    ensures { IfOk result (λ rows. IsDescent instance.now rounds rows) }
{
    let greedy = greedy_plan(alloc, instance)?;
    let low = descended(alloc, instance, greedy, rounds)?;
    let none = Rows::new(Vec::new(alloc));
    let even = evened(alloc, instance, low, rounds, &none)?;
    let rows = descended(alloc, instance, even, rounds)?;
    Ok(rows)
}

impl Descent {
    /// The adviser of descents of at most `rounds` moves each for every instance. It keeps no plan. It takes no memory.
    pub fn new(alloc: Global, rounds: u16) -> Descent
        ensures { result ≡ record { rounds = rounds; keeps = false; kept = None; heard = unheard } }
    {
        Descent {
            alloc,
            rounds,
            keeps: false,
            kept: None,
            heard: Heard::nothing(),
        }
    }

    /// The adviser of descents of at most `rounds` moves each for the first instance that it advises for. It takes no memory.
    pub fn of_first(alloc: Global, rounds: u16) -> Descent
        ensures { result ≡ record { rounds = rounds; keeps = true; kept = None; heard = unheard } }
    {
        let mut descent = Descent::new(alloc, rounds);
        descent.keeps = true;
        descent
    }

    /// The adviser of an instance, whose plan it makes by descents of at most `rounds` moves each.
    pub fn of(alloc: Global, instance: &Instance, rounds: u16) -> Result<Descent, NoMemory>
        ensures plan { IfOk result (λ d. IsSomeAnd d.kept (IsDescent instance.now rounds)) }
        ensures unheard { IfOk result (λ d. d ≡ record { rounds = rounds; keeps = true; kept = d.kept; heard = unheard }) }
    {
        let rows = descent_rows(alloc, instance, rounds)?;
        Ok(Descent {
            alloc,
            rounds,
            keeps: true,
            kept: Some(rows),
            heard: Heard::nothing(),
        })
    }

    /// The rows of the adviser's plan. Where it keeps none, they are made of this instance: a legal plan that costs no more than the
    /// greedy plan. Where a move that isn't refused still lowers its cost, it costs at least as much less than the greedy plan as moves
    /// may be taken.
    pub fn plan(&mut self, instance: &Instance) -> Result<Rows, NoMemory>
        ensures plan { IfOk result (IsOwnPlan instance.now self.old) }
        ensures kept { IfOk result (λ rows. self.new ≡ record self.old { kept = kept_after self.old rows }) }
        ensures wanting { IfErr result (λ _. self.new ≡ self.old) }
    {
        let made = match &self.kept {
            Some(kept) => {
                let rows = kept.clone()?;
                return Ok(rows);
            }
            None => descent_rows(self.alloc, instance, self.rounds)?,
        };
        if !self.keeps {
            return Ok(made);
        }
        let rows = made.clone()?;
        self.kept = Some(made);
        Ok(rows)
    }
}

impl Adviser for Descent {
    ghost told = { λ d. d.heard.told };

    ghost last = { λ d. d.heard.last };

    /// Advises the greedy adviser's prices, the adviser's plan where it has a duty, and no split.
    fn advise(&mut self, instance: &Instance, ask: &Ask) -> Result<Advice, NoMemory>
        requires { length ask.now.cuts ≤ 2 ^ 33 }
        ensures prices { IfOk result (λ advice. advice.prices ≡ greedy_prices instance.now ask.now.cuts) }
        ensures plan { IfOk result (λ advice. IsOwnPlan instance.now self.old (advised_rows advice)) }
        ensures duties { IfOk result (λ advice. advice.plan ≡ plan_of (advised_rows advice)) }
        ensures split { IfOk result (λ advice. advice.split ≡ None) }
        ensures kept { IfOk result (λ advice. self.new ≡ record self.old { kept = kept_after self.old (advised_rows advice) }) }
        ensures wanting { IfErr result (λ _. self.new ≡ self.old) }
    {
        let prices = greedy_prices(self.alloc, instance, &ask.cuts)?;
        let rows = self.plan(instance)?;
        Ok(Advice {
            prices,
            plan: plan_of(rows),
            split: None,
        })
    }

    /// Tells the adviser what became of a step.
    fn learn(&mut self, news: &Told)
        ensures { self.new ≡ record self.old { heard = after self.old.heard news.now } }
    {
        self.heard.hear(news);
    }
}
