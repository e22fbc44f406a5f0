//! Legs of a search: each second one begins anew, and the others go on from the best plans so far.

use crate::search::PlanSearch;
use advice::Stop;
use break_rules::NoMemory;
use std::alloc::Global;
use working_plan::Placed;

/// The least work in which a leg need find no cheaper plan at first, for each kind of days.
const PATIENCE: u64 = 7_000_000;

/// A leg: its best plan, and when it was found.
#[derive(Drop)]
pub(crate) struct Leg {
    /// The duties of the best plan of the leg.
    pub(crate) best: Vec<Placed>,
    /// What that plan costs.
    pub(crate) cost: f64,
    /// Whether it goes on from the best plans of the legs before.
    pub(crate) is_united: bool,
    /// The work in which it need find no cheaper plan at first.
    patience: u64,
    /// The work at which it began.
    begun: u64,
    /// The work of the leg by which it found its best plan.
    gained: u64,
}

impl Leg {
    /// A leg that begins anew at some work, where there are so many kinds of days.
    pub(crate) fn begun(alloc: Global, work: u64, kinds: u32) -> Leg {
        Leg {
            best: Vec::new(alloc),
            cost: f64::INFINITY,
            is_united: false,
            patience: PATIENCE.saturating_mul(u64::from(kinds)),
            begun: work,
            gained: 0,
        }
    }

    /// The work of the leg, by all the work that was done.
    pub(crate) fn work(&self, work: u64) -> u64 {
        work.saturating_sub(self.begun)
    }

    /// Notes what its best plan costs, found by that work.
    pub(crate) fn note_gain(&mut self, cost: f64, work: u64) {
        self.cost = cost;
        self.gained = self.work(work);
    }

    /// Whether it found no cheaper plan for long: for one and a half times the work that it took to find its best one.
    pub(crate) fn is_over(&self, work: u64) -> bool {
        let gained = self.gained.saturating_add(self.gained / 2);
        !self.best.is_empty() && self.patience.saturating_add(gained) < self.work(work)
    }
}

impl<S: Stop + Drop> PlanSearch<S> {
    /// Keeps the plans of the running pool among the best of all legs.
    fn keep_pool(&mut self) -> Result<(), NoMemory> {
        for number in 0..self.pool.len() {
            let cost = self.pool.cost(number);
            self.elite.offer(self.pool.duties(number), cost)?;
        }
        Ok(())
    }

    /// Has the running leg go on from the best plans of all legs, for as much work as the leg before did, or more.
    fn unite_legs(&mut self, patience: u64) -> Result<(), NoMemory> {
        for number in 0..self.elite.len() {
            let cost = self.elite.cost(number);
            self.pool.offer(self.elite.duties(number), cost)?;
        }
        self.leg.best.extend_from_slice(self.best.as_slice())?;
        self.leg.cost = self.best_cost;
        self.leg.is_united = true;
        self.leg.patience = patience.max(self.leg.patience);
        Ok(())
    }

    /// Ends the running leg, and begins the next one: after the first leg, and after each that went on, one that begins anew.
    pub(crate) fn begin_leg(&mut self) -> Result<(), NoMemory> {
        let done = self.leg.work(self.work);
        self.elite.offer(&self.leg.best, self.leg.cost)?;
        if self.legs % 2 == 0 {
            self.keep_pool()?;
        }
        self.legs = self.legs.saturating_add(1);
        self.leg = Leg::begun(self.alloc, self.work, self.likeness.kinds());
        self.pool.clear();
        if self.legs % 2 == 0 {
            self.unite_legs(done)?;
        }
        Ok(())
    }
}
