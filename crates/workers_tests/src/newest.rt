//! A worker that reads, between its take and its advice, the best cost that another one's commit told.
ghost use Rattle.std.specs.Prelude.{◌≡◌, All, IfOk, vec_len};

use crate::seats::{add_seat, morning, parted, run_two};
use advice::{Advice, Adviser, Ask, Told};
use advisers::Fixed;
use break_rules::{Breaks, NoMemory};
use shift_instance::{Instance, Row, Rows};
use std::alloc::Global;
use std::sync::atomic::{AtomicU64, Ordering};
use std::sync::{Arc, Wait};
use std::test::Fail;
use std::thread::{Threads, yield_now};
use worker_gate::{Gate, RunEnd, Seat};

/// How often a worker that is held looks whether it may go on.
const TURNS: u32 = 20_000_000;

/// What the two workers and their gate tell each other.
#[derive(Drop)]
struct Signals {
    /// Whether worker 0 has entered the gate.
    entered: AtomicU64,
    /// Whether worker 1's adviser was told of a commit.
    learned: AtomicU64,
    /// The best cost with which worker 0 asked first, and 0 before.
    asked: AtomicU64,
    /// How many holds used up all their turns.
    missed: AtomicU64,
}

impl Signals {
    fn new() -> Signals {
        Signals {
            entered: AtomicU64::new(0),
            learned: AtomicU64::new(0),
            asked: AtomicU64::new(0),
            missed: AtomicU64::new(0),
        }
    }

    /// Holds a worker until the signal comes, or for all its turns.
    fn hold_until(&self, signal: &AtomicU64) {
        for _ in 0..TURNS {
            if signal.load(Ordering::SeqCst) > 0 {
                return;
            }
            yield_now();
        }
        self.missed.fetch_add(1, Ordering::SeqCst);
    }
}

// Worker 1 is held until worker 0 has taken its node, and worker 0 until worker 1's adviser was told of a commit.
impl Gate for Signals {
    fn enter(&self, worker: u32, step: u64) {
        if step > 1 {
            return;
        }
        if worker == 0 {
            self.entered.store(1, Ordering::SeqCst);
            self.hold_until(&self.learned);
        } else {
            self.hold_until(&self.entered);
        }
    }
}

/// Advises no lawful prices, and tells with which best cost it was asked first.
#[derive(Drop)]
struct Recorder {
    prices: Fixed,
    signals: Arc<Signals>,
}

impl Adviser for Recorder {
    ghost told = { λ a. a.prices.heard.told };

    ghost last = { λ a. a.prices.heard.last };

    fn advise(&mut self, instance: &Instance, ask: &Ask) -> Result<Advice, NoMemory> {
        let asked = &self.signals.asked;
        if asked.load(Ordering::SeqCst) == 0 {
            asked.store(ask.best, Ordering::SeqCst);
        }
        self.prices.advise(instance, ask)
    }

    fn learn(&mut self, news: &Told) {
        self.prices.learn(news);
    }
}

/// Advises the plan of one duty, and signals when it is told something.
#[derive(Drop)]
struct Planner {
    alloc: Global,
    prices: Fixed,
    signals: Arc<Signals>,
}

impl Adviser for Planner {
    ghost told = { λ a. a.prices.heard.told };

    ghost last = { λ a. a.prices.heard.last };

    fn advise(&mut self, instance: &Instance, ask: &Ask) -> Result<Advice, NoMemory> {
        let advice = self.prices.advise(instance, ask)?;
        let row = Row {
            shift: 0,
            day: 0,
            breaks: Breaks::new(Vec::new(self.alloc)),
            count: 1,
        };
        let rows = vec![in self.alloc; row]?;
        Ok(Advice {
            prices: advice.prices,
            plan: Some(Rows::new(rows)),
            split: None,
        })
    }

    fn learn(&mut self, news: &Told) {
        self.prices.learn(news);
        self.signals.learned.store(1, Ordering::SeqCst);
    }
}

/// An adviser whose prices are none.
fn priceless(alloc: Global) -> Fixed {
    Fixed::new(alloc, 0, Vec::new(alloc))
}

/// The seats of a worker that records what it is asked with and of one that plans.
fn two_seats(alloc: Global, signals: &Arc<Signals>) -> Result<Vec<Seat>, Fail>
    ensures new { IfOk result (λ seats. All (λ s. (s.told ≡ 0) × (s.share ≡ 0)) seats.items) }
    ensures two { IfOk result (λ seats. vec_len seats ≡ 2) }
{
    let recorder = Recorder {
        prices: priceless(alloc),
        signals: Arc::try_clone(signals)?,
    };
    let planner = Planner {
        alloc,
        prices: priceless(alloc),
        signals: Arc::try_clone(signals)?,
    };
    let mut seats = Vec::new(alloc);
    add_seat(&mut seats, Box::new(alloc, recorder)?)?;
    add_seat(&mut seats, Box::new(alloc, planner)?)?;
    Ok(seats)
}

/// How a run ends of these two workers who go on from a first step without a plan, with which best cost worker 0 asked first, and how many holds
/// used up their turns.
fn ask_late<R: Threads + Wait + Sync>(rt: &R, alloc: Global) -> Result<(RunEnd, u64, u64), Fail> {
    let instance = morning(alloc, "2")?;
    let bytes = parted(rt, alloc, &instance, Box::new(alloc, priceless(alloc))?)?;
    let signals = Arc::new(alloc, Signals::new())?;
    let seats = two_seats(alloc, &signals)?;
    let end = run_two(rt, alloc, &instance, bytes, seats, &*signals)?;
    let asked = signals.asked.load(Ordering::SeqCst);
    let missed = signals.missed.load(Ordering::SeqCst);
    Ok((end, asked, missed))
}

// Its take found the cost 8 of the empty plan.
#[test]
fn a_worker_asks_with_the_newest_cost(rt: HostRuntime) -> Result<(), Fail> {
    let (end, asked, missed) = ask_late(&rt, rt.alloc())?;
    assert!(rt; end == RunEnd::Finished);
    assert!(rt; asked == 3 && missed == 0);
    Ok(())
}
