//! Good plans of different sets of used shifts, which chains begin from.

use break_rules::NoMemory;
use std::alloc::Global;
use working_plan::Placed;

/// The most plans of a pool.
const ROOM: usize = 16;

/// A plan of a pool.
#[derive(Drop)]
struct Elite {
    /// Its shifts, in order.
    set: Vec<u16>,
    /// Its duties, shift by shift.
    duties: Vec<Placed>,
    /// What it costs.
    cost: f64,
}

/// Plans of different sets of used shifts.
#[derive(Drop)]
pub(crate) struct Pool {
    alloc: Global,
    plans: Vec<Elite>,
}

/// The shifts of some duties, in order, each once.
fn set_of(alloc: Global, duties: &[Placed]) -> Result<Vec<u16>, NoMemory> {
    let mut shifts = Vec::new(alloc);
    for placed in duties {
        if shifts.last().copied() != Some(placed.shift) {
            shifts.push(placed.shift)?;
        }
    }
    shifts.sort_unstable();
    Ok(shifts)
}

impl Pool {
    /// A pool without plans.
    pub(crate) fn new(alloc: Global) -> Pool {
        Pool {
            alloc,
            plans: Vec::new(alloc),
        }
    }

    /// How many plans there are.
    pub(crate) fn len(&self) -> usize {
        self.plans.len()
    }

    /// Forgets all plans.
    pub(crate) fn clear(&mut self) {
        self.plans.clear();
    }

    /// What the plan of a number costs.
    pub(crate) fn cost(&self, number: usize) -> f64 {
        match self.plans.get(number) {
            Some(plan) => plan.cost,
            None => f64::INFINITY,
        }
    }

    /// The duties of the plan of a number, shift by shift.
    pub(crate) fn duties(&self, number: usize) -> &[Placed] {
        match self.plans.get(number) {
            Some(plan) => plan.duties.as_slice(),
            None => &[],
        }
    }

    /// The shifts of the plan of a number, in order.
    pub(crate) fn set(&self, number: usize) -> &[u16] {
        match self.plans.get(number) {
            Some(plan) => plan.set.as_slice(),
            None => &[],
        }
    }

    /// The number of the plan of a set.
    fn number_of(&self, set: &[u16]) -> Option<usize> {
        for (number, plan) in self.plans.iter().enumerate() {
            if plan.set.as_slice() == set {
                return Some(number);
            }
        }
        None
    }

    /// The number of the dearest plan.
    fn dearest(&self) -> Option<usize> {
        let mut found = None;
        let mut most = f64::MIN;
        for (number, plan) in self.plans.iter().enumerate() {
            if most < plan.cost {
                most = plan.cost;
                found = Some(number);
            }
        }
        found
    }

    /// Puts a plan in the place of another one, where it is cheaper.
    fn replace(&mut self, number: usize, plan: Elite) {
        if let Some(place) = self.plans.get_mut(number) {
            if plan.cost < place.cost {
                *place = plan;
            }
        }
    }

    /// Offers a plan, whose duties stand shift by shift: of plans with one set of shifts the cheaper one stays, and where the pool
    /// is full the dearest one goes.
    pub(crate) fn offer(&mut self, duties: &[Placed], cost: f64) -> Result<(), NoMemory> {
        let set = set_of(self.alloc, duties)?;
        if set.is_empty() {
            return Ok(());
        }
        let same = self.number_of(&set);
        let plan = Elite {
            set,
            duties: Vec::from_slice(self.alloc, duties)?,
            cost,
        };
        match same {
            Some(number) => self.replace(number, plan),
            None if self.plans.len() < ROOM => self.plans.push(plan)?,
            None => {
                if let Some(number) = self.dearest() {
                    self.replace(number, plan);
                }
            }
        }
        Ok(())
    }
}
