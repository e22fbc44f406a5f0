//! A thorough adviser that gives each step so much work that a search of some seconds has no more steps than a report has room for.

use crate::deadline::Deadline;
use advice::{Advice, Adviser, Ask, Told};
use shift_instance::Instance;
use std::alloc::{AllocError, Global};
use thorough_search::{Budget, Thorough};

/// The seed of the thorough adviser.
const SEED: u64 = 1;

/// The bytes that the steps of a search with a time may have, about: a thousand such searches fill a report.
const BYTES: u64 = 262_144;

/// The thorough adviser of the instance for which it is asked first.
#[derive(Drop)]
pub(crate) struct Paced {
    alloc: Global,
    stop: Deadline,
    adviser: Option<Thorough<Deadline>>,
    told: u64,
    last: Option<Told>,
}

impl Paced {
    /// An adviser that was never asked.
    pub(crate) fn new(alloc: Global, stop: Deadline) -> Paced {
        Paced {
            alloc,
            stop,
            adviser: None,
            told: 0,
            last: None,
        }
    }

    /// The adviser of an instance, with a pace where the search has a time.
    fn made(&self, instance: &Instance) -> Result<Thorough<Deadline>, AllocError> {
        let stop = self.stop.clone()?;
        match self.stop.seconds() {
            Some(seconds) => {
                let budget = Budget {
                    bytes: BYTES,
                    seconds,
                };
                Thorough::within(self.alloc, instance, SEED, stop, budget)
            }
            None => Thorough::of(self.alloc, instance, SEED, stop),
        }
    }
}

impl Adviser for Paced {
    ghost told = { λ paced. paced.told };

    ghost last = { λ paced. paced.last };

    /// Advises as the thorough adviser does, which is made at the first advice.
    fn advise(&mut self, instance: &Instance, ask: &Ask) -> Result<Advice, AllocError> {
        let mut adviser = match self.adviser.take() {
            Some(adviser) => adviser,
            None => self.made(instance)?,
        };
        let advice = adviser.advise(instance, ask)?;
        self.adviser = Some(adviser);
        Ok(advice)
    }

    /// Counts what it is told, and keeps the last of it.
    fn learn(&mut self, news: &Told) {
        self.told = self.told.saturating_add(1);
        self.last = Some(*news);
    }
}
