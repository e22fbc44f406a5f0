//! The adviser whose plans have cheaper breaks.

ghost use Rattle.std.specs.Prelude.{◌≡◌, ◌≤◌, ◌^◌, IfOk, length};

use crate::breaking::BreakSearch;
use advice::{Advice, Adviser, Ask, Stop, Told};
use break_rules::NoMemory;
use shift_instance::{Instance, Rows};
use std::alloc::Global;
use std::num::nearest_u64_to_f64;

/// How often each duty gets other breaks, about, at the first advice.
const FIRST: u64 = 400;

/// How often each duty gets other breaks, about, at each further advice.
const FURTHER: u64 = 20;

/// An adviser that gives another's prices and splits. Its plans have the duties of some rows, with cheaper breaks, as far as it finds any.
#[derive(Drop)]
pub struct Rebreaking<A: Adviser, S: Stop + Drop> {
    adviser: A,
    /// The search for cheaper breaks; none where a duty has too many breaks for it.
    search: Option<BreakSearch<S>>,
    /// Whether no advice was given yet.
    is_fresh: bool,
}

/// The best plan of a search that went on for so many changes of each duty, where it is cheaper than `best`. It doesn't go on where its plan
/// costs no more than the floor.
fn searched<S: Stop + Drop>(
    search: &mut BreakSearch<S>,
    ask: &Ask,
    rounds: u64,
) -> Result<Option<Rows>, NoMemory> {
    if nearest_u64_to_f64(ask.floor) < search.best_cost() {
        search.run(search.round().saturating_mul(rounds))?;
    }
    if search.best_cost() < nearest_u64_to_f64(ask.best) {
        return Ok(Some(search.best_rows()?));
    }
    Ok(None)
}

impl<A: Adviser, S: Stop + Drop> Rebreaking<A, S> {
    /// The adviser that gives another's prices and splits for an instance, and plans with the duties of these rows.
    pub fn new(
        alloc: Global,
        instance: &Instance,
        rows: &Rows,
        seed: u64,
        adviser: A,
        stop: S,
    ) -> Result<Rebreaking<A, S>, NoMemory>
        ensures { IfOk result (λ r. ⟦<Rebreaking<A, S> as Adviser>⟧.told r ≡ A.told adviser) }
    {
        Ok(Rebreaking {
            adviser,
            search: BreakSearch::new(alloc, instance, rows, seed, stop)?,
            is_fresh: true,
        })
    }

    /// The best plan after a further search, where it is cheaper than what is asked about has.
    fn cheaper_plan(&mut self, ask: &Ask) -> Result<Option<Rows>, NoMemory>
        ensures adviser { self.new.adviser ≡ self.old.adviser }
    {
        let rounds = if self.is_fresh { FIRST } else { FURTHER };
        self.is_fresh = false;
        match &mut self.search {
            Some(search) => searched(search, ask, rounds),
            None => Ok(None),
        }
    }
}

impl<A: Adviser, S: Stop + Drop> Adviser for Rebreaking<A, S> {
    ghost told = { λ r. A.told r.adviser };

    ghost last = { λ r. A.last r.adviser };

    fn advise(&mut self, instance: &Instance, ask: &Ask) -> Result<Advice, NoMemory> {
        let plan = self.cheaper_plan(ask)?;
        let Advice {
            prices,
            plan: _,
            split,
        } = self.adviser.advise(instance, ask)?;
        Ok(Advice {
            prices,
            plan,
            split,
        })
    }

    fn learn(&mut self, news: &Told) {
        self.adviser.learn(news);
    }
}
