//! How far a search has come, as its workers see it, and when it is to end.

use crate::line::Reached;
use advice::Ask;
use std::alloc::{AllocError, Global};
use std::sync::atomic::{AtomicBool, AtomicU64, Ordering};
use std::time::{Clock, Instant};

/// The cost and the floor that one worker has seen last.
#[derive(Drop)]
struct Mark {
    cost: AtomicU64,
    floor: AtomicU64,
}

impl Mark {
    fn new() -> Mark {
        Mark {
            cost: AtomicU64::new(u64::MAX),
            floor: AtomicU64::new(u64::MAX),
        }
    }
}

/// How far a search has come, and when it is to end. Its workers share it, and each writes what it has seen itself. Times are milliseconds
/// since the run began.
///
/// A worker takes the open node with the least floor that no other has in hand, and what is split of a node has no lesser floor. So no plan
/// costs less than the least floor of the nodes that the workers took last.
#[derive(Drop)]
pub struct Progress {
    began: Instant,
    limits: TimeLimits,
    asked: AtomicBool,
    steps: AtomicU64,
    marks: Vec<Mark>,
    said: AtomicU64,
    cheapest: AtomicU64,
    cheaper_at: AtomicU64,
}

/// How long a search may last, in milliseconds.
#[derive(Clone, Copy, PartialEq, Eq, Drop)]
pub struct TimeLimits {
    /// Its whole time.
    pub whole: u64,
    /// Its time without a cheaper plan, if that is limited.
    pub quiet: Option<u64>,
}

impl Progress {
    /// The progress of a run by so many workers that begins now and may last so long.
    pub fn new(
        alloc: Global,
        began: Instant,
        limits: TimeLimits,
        workers: u16,
    ) -> Result<Progress, AllocError> {
        let mut marks = Vec::with_capacity(alloc, usize::from(workers))?;
        for _ in 0..workers {
            marks.push(Mark::new())?;
        }
        Ok(Progress {
            began,
            limits,
            asked: AtomicBool::new(false),
            steps: AtomicU64::new(0),
            marks,
            said: AtomicU64::new(0),
            cheapest: AtomicU64::new(u64::MAX),
            cheaper_at: AtomicU64::new(0),
        })
    }

    /// The time now, and none where the clock gives none.
    pub fn now<C: Clock>(&self, clock: &C) -> Option<u64> {
        let passed = self.began.elapsed(clock).ok()?;
        Some(u64::try_from(passed.as_millis()).unwrap_or(u64::MAX))
    }

    /// Asks for the end of the search.
    pub fn ask_for_end(&self) {
        self.asked.store(true, Ordering::SeqCst);
    }

    /// Whether someone has asked for the end of the search.
    pub fn is_end_asked(&self) -> bool {
        self.asked.load(Ordering::SeqCst)
    }

    /// For how many milliseconds there was no cheaper plan.
    fn quiet_at(&self, now: u64) -> u64 {
        now.saturating_sub(self.cheaper_at.load(Ordering::SeqCst))
    }

    /// Whether there was no cheaper plan for as long as the search may last without one.
    fn is_quiet_at(&self, now: u64) -> bool {
        self.limits
            .quiet
            .is_some_and(|limit| limit <= self.quiet_at(now))
    }

    /// Whether the search is to end since there was no cheaper plan for too long.
    pub fn is_quiet<C: Clock>(&self, clock: &C) -> bool {
        self.now(clock).is_some_and(|now| self.is_quiet_at(now))
    }

    /// Whether the search is to end: its time is over, or that without a cheaper plan, someone has asked for its end, or the clock gives
    /// no time.
    pub fn is_over<C: Clock>(&self, clock: &C) -> bool {
        let Some(now) = self.now(clock) else {
            return true;
        };
        self.is_end_asked() || self.limits.whole <= now || self.is_quiet_at(now)
    }

    /// A worker knows of a plan of some cost, so many milliseconds after the run began, if the clock told it.
    fn know(&self, cost: u64, now: Option<u64>) {
        let before = self.cheapest.fetch_min(cost, Ordering::SeqCst);
        if cost < before {
            if let Some(now) = now {
                self.cheaper_at.fetch_max(now, Ordering::SeqCst);
            }
        }
    }

    /// Counts the steps that the journal held before this run.
    pub fn count_before(&self, steps: u64) {
        self.steps.fetch_add(steps, Ordering::SeqCst);
    }

    /// A worker asks for a node, so many milliseconds after the run began.
    pub(crate) fn see(&self, worker: u16, ask: &Ask, now: Option<u64>) {
        self.know(ask.best, now);
        if let Some(mark) = self.marks.get(usize::from(worker)) {
            mark.cost.store(ask.best, Ordering::SeqCst);
            mark.floor.store(ask.floor, Ordering::SeqCst);
        }
    }

    /// A worker was told, so many milliseconds after the run began, that a step of its was taken, after which the best plan has that cost.
    pub(crate) fn count(&self, worker: u16, cost: u64, now: Option<u64>) {
        self.know(cost, now);
        self.steps.fetch_add(1, Ordering::SeqCst);
        if let Some(mark) = self.marks.get(usize::from(worker)) {
            mark.cost.store(cost, Ordering::SeqCst);
        }
    }

    /// How far the search has come, so many milliseconds after the run began.
    pub fn reached(&self, now: u64) -> Reached {
        let mut cost = u64::MAX;
        let mut bound = u64::MAX;
        for mark in self.marks.as_slice() {
            cost = cost.min(mark.cost.load(Ordering::SeqCst));
            bound = bound.min(mark.floor.load(Ordering::SeqCst));
        }
        Reached {
            steps: self.steps.load(Ordering::SeqCst),
            cost,
            quiet: self.quiet_at(now) / 1_000,
            bound: bound.min(cost),
        }
    }

    /// Whether a line is due where there is to be one each so many milliseconds. Where it is, no other worker says it.
    pub(crate) fn takes_turn(&self, now: u64, each: u64) -> bool {
        let said = self.said.load(Ordering::SeqCst);
        if now < said.saturating_add(each) {
            return false;
        }
        self.said
            .compare_exchange(said, now, Ordering::SeqCst, Ordering::SeqCst)
            .is_ok()
    }
}
