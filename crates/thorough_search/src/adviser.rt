//! The adviser.
ghost use Rattle.std.specs.Prelude.{◌≡◌, ◌<◌, ◌≤◌, ◌+◌, ◌-◌, ◌^◌, IfOk, IfSome, IsTrue, None, Some, length, min};
ghost use Rattle.shift_instance.specs.Rota.{are_legal_rows, cost, rota_of};
ghost use Rattle.thorough_search.specs.HeadSplits.{IsHeadSplit};

use crate::kept::AdviserState;
use crate::pacing::Budget;
use crate::splits::HeadSplit;
use advice::{Advice, Adviser, Ask, Splitting, Stop, Told};
use break_rules::{Breaks, NoMemory};
use head_splits::{Class, Cuts, range};
use rota_cost::Costed;
use shift_instance::{Instance, Rows};
use std::alloc::Global;
use std::marker::Model;

/// The adviser that searches thoroughly for one instance: the one that it was made of or, where it was made of none, the one that
/// it first advises for. With the same seed it advises the same for the same questions, for as long as it isn't asked to stop. Once
/// it is, it advises what it has found by then.
///
/// Contracts see what the adviser was told.
#[derive(Drop)]
pub struct Thorough<S: Stop + Clone> {
    alloc: Global,
    seed: u64,
    stop: S,
    /// What its steps may take, where that is limited.
    budget: Option<Budget>,
    /// Whether it searches for plans.
    seeks_plans: bool,
    kept: Option<AdviserState<S>>,
    told: u64,
    last: Option<Told>,
}

impl<S: Stop + Clone> Model for Thorough<S> {
    ghost use Rattle.thorough_search.specs.Searching.{Searching};

    ghost Value = { Searching };

    ghost view = { λ t. record { told = t.told; last = t.last } };
}

/// The rows of a plan of this instance, where it is cheaper than `best`.
fn rows_below(instance: &Instance, plan: Costed, best: u64) -> Option<Rows>
    requires { plan.instance ≡ instance.now }
    ensures legal { IfSome result (λ rows. IsTrue (are_legal_rows instance.now rows)) }
    ensures cheaper { IfSome result (λ rows. cost instance.now (rota_of rows) < best) }
{
    let _ = instance;
    if plan.cost() < best {
        return Some(plan.into_rows());
    }
    None
}

/// The greedy plan where it was made in this advice and the search has none that is cheaper, and else the best plan of the search,
/// if it is legal and cheaper than `best`.
fn cheaper_plan<S: Stop + Drop>(
    kept: &mut AdviserState<S>,
    instance: &Instance,
    best: u64,
) -> Result<Option<Rows>, NoMemory>
    ensures legal { IfOk result (λ plan. IfSome plan (λ rows. IsTrue (are_legal_rows instance.now rows))) }
    ensures cheaper { IfOk result (λ plan. IfSome plan (λ rows. cost instance.now (rota_of rows) < best)) }
{
    let plan = match kept.take_greedy(instance) {
        Some(greedy) => Some(greedy),
        None => kept.best_plan_below(instance, best)?,
    };
    match plan {
        Some(plan) => Ok(rows_below(instance, plan, best)),
        None => Ok(None),
    }
}

/// A split that a search chose, where it is one under the cuts.
fn judged(alloc: Global, instance: &Instance, cuts: &Cuts, split: HeadSplit) -> Option<Splitting>
    ensures { IfSome result (IsHeadSplit instance.now cuts.now) }
{
    let day = u8::try_from(split.day).unwrap_or(u8::MAX);
    let class = Class {
        shift: split.shift,
        day,
        prefix: Breaks::new(Vec::new(alloc)),
    };
    if instance.shifts().len() <= usize::from(split.shift) || instance.days() <= day {
        return None;
    }
    let (low, high) = range(instance, cuts, &class);
    if low <= split.m && split.m < high {
        return Some(Splitting { class, m: split.m });
    }
    None
}

impl<S: Stop + Clone> Thorough<S> {
    /// An adviser that is made of no instance yet. It takes no memory.
    pub fn new(alloc: Global, seed: u64, stop: S) -> Thorough<S>
        ensures { result ≡ record { told = 0; last = None } }
    {
        Thorough {
            alloc,
            seed,
            stop,
            budget: None,
            seeks_plans: true,
            kept: None,
            told: 0,
            last: None,
        }
    }

    /// An adviser that is made of no instance yet and advises prices and splits alone: it searches for no plans. It takes no memory.
    pub fn for_prices(alloc: Global, stop: S) -> Thorough<S>
        ensures { result ≡ record { told = 0; last = None } }
    {
        let mut thorough = Thorough::new(alloc, 0, stop);
        thorough.seeks_plans = false;
        thorough
    }

    /// The adviser of an instance.
    pub fn of(
        alloc: Global,
        instance: &Instance,
        seed: u64,
        stop: S,
    ) -> Result<Thorough<S>, NoMemory>
        ensures { IfOk result (λ t. t ≡ record { told = 0; last = None }) }
    {
        Thorough::new(alloc, seed, stop).made_of(instance)
    }

    /// The adviser of an instance for a search within a budget: the more of the bytes it has taken beyond their part of the time, by counted
    /// work, the more work it gives to each step. A budget changes nothing else.
    pub fn within(
        alloc: Global,
        instance: &Instance,
        seed: u64,
        stop: S,
        budget: Budget,
    ) -> Result<Thorough<S>, NoMemory>
        ensures { IfOk result (λ t. t ≡ record { told = 0; last = None }) }
    {
        let mut thorough = Thorough::new(alloc, seed, stop);
        thorough.budget = Some(budget);
        thorough.made_of(instance)
    }

    /// The same adviser, which has all that it keeps of an instance.
    fn made_of(mut self, instance: &Instance) -> Result<Thorough<S>, NoMemory>
        ensures { IfOk result (λ t. t ≡ self) }
    {
        let kept = self.take_kept(instance)?;
        self.kept = Some(kept);
        Ok(self)
    }

    /// What is kept, taken out, or made of this instance now.
    fn take_kept(&mut self, instance: &Instance) -> Result<AdviserState<S>, NoMemory>
        ensures { self.new ≡ self.old }
    {
        match self.kept.take() {
            Some(kept) => Ok(kept),
            None => {
                let stop = self.stop.clone()?;
                let kept = AdviserState::new(self.alloc, instance, self.seed, stop, self.budget)?;
                Ok(kept.seeking(self.seeks_plans))
            }
        }
    }
}

impl<S: Stop + Clone> Adviser for Thorough<S> {
    ghost told = { λ t. t.told };

    ghost last = { λ t. t.last };

    /// Advises for a node: prices by a climb along rays from the hint's prices, the best plan so far where it is legal and cheaper
    /// than the best rota, and where the climb doesn't close the node the split of the duties of a shift on a day that promises
    /// most. At first, where the best rota has no duty, it tries the greedy plan too. Where it was out of memory, it begins anew at the
    /// next advice.
    fn advise(&mut self, instance: &Instance, ask: &Ask) -> Result<Advice, NoMemory>
        ensures legal { IfOk result (λ a. IfSome a.plan (λ rows. IsTrue (are_legal_rows instance.now rows))) }
        ensures cheaper { IfOk result (λ a. IfSome a.plan (λ rows. cost instance.now (rota_of rows) < ask.now.best)) }
        ensures split { IfOk result (λ a. IfSome a.split (IsHeadSplit instance.now ask.now.cuts)) }
        ensures same { self.new ≡ self.old }
    {
        let mut kept = self.take_kept(instance)?;
        let (prices, found) = kept.look(instance, ask)?;
        let plan = cheaper_plan(&mut kept, instance, ask.best)?;
        let split = match found {
            Some(split) => judged(self.alloc, instance, &ask.cuts, split),
            None => None,
        };
        self.kept = Some(kept);
        Ok(Advice {
            prices,
            plan,
            split,
        })
    }

    /// Tells the adviser what became of a step.
    fn learn(&mut self, news: &Told)
        ensures { self.new ≡ record { told = min (self.old.told + 1) (2 ^ 64 - 1); last = Some news.now } }
    {
        self.told = self.told.saturating_add(1);
        self.last = Some(*news);
    }
}
