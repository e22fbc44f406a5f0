//! An adviser that tells on standard error how far the search has come.

ghost use Rattle.std.specs.Prelude.{◌≡◌};

use crate::line::progress_line;
use crate::progress::Progress;
use advice::{Advice, Adviser, Ask, Told};
use break_rules::NoMemory;
use shift_instance::Instance;
use std::alloc::Global;
use std::sync::Arc;
use std::time::Clock;

/// Where and how often the line of a search is said.
#[derive(Clone, Copy, PartialEq, Eq)]
pub enum Shown {
    /// On a terminal: a line each second, in place of the one before, which says whether Enter ends the search.
    InPlace { enter_ends: bool },
    /// Elsewhere: a line each ten seconds, below the one before.
    Below,
}

impl Shown {
    /// The milliseconds from one line to the next.
    fn each(self) -> u64 {
        match self {
            Shown::InPlace { .. } => 1_000,
            Shown::Below => 10_000,
        }
    }
}

/// An adviser that gives another's advice as it is. It writes down what it is asked and told, and says a line on standard error where
/// one is due.
#[derive(Drop)]
pub struct Watched<A: Adviser, R: Clock + Eprint + Drop> {
    alloc: Global,
    adviser: A,
    worker: u16,
    progress: Arc<Progress>,
    rt: R,
    shown: Shown,
}

impl<A: Adviser, R: Clock + Eprint + Drop> Watched<A, R> {
    /// The adviser of the worker of that number, from 0 on, watched.
    pub fn new(
        alloc: Global,
        adviser: A,
        worker: u16,
        progress: Arc<Progress>,
        rt: R,
        shown: Shown,
    ) -> Watched<A, R>
        ensures { ⟦<Watched<A, R> as Adviser>⟧.told result ≡ A.told adviser }
    {
        Watched {
            alloc,
            adviser,
            worker,
            progress,
            rt,
            shown,
        }
    }

    /// Says a line where one is due. Where there is no memory for it, or standard error takes none, the search goes on without.
    fn say(&self) {
        let Some(now) = self.progress.now(&self.rt) else {
            return;
        };
        if !self.progress.takes_turn(now, self.shown.each()) {
            return;
        }
        let Ok(line) = progress_line(self.alloc, now / 1_000, self.progress.reached(now)) else {
            return;
        };
        let _ = match self.shown {
            Shown::InPlace { enter_ends: true } => {
                eprint!(self.rt; "\r{line}, press Enter to end\u{1b}[K")
            }
            Shown::InPlace { enter_ends: false } => eprint!(self.rt; "\r{line}\u{1b}[K"),
            Shown::Below => eprintln!(self.rt; "{line}"),
        };
    }
}

impl<A: Adviser, R: Clock + Eprint + Drop> Adviser for Watched<A, R> {
    ghost told = { λ w. A.told w.adviser };

    ghost last = { λ w. A.last w.adviser };

    fn advise(&mut self, instance: &Instance, ask: &Ask) -> Result<Advice, NoMemory> {
        self.progress
            .see(self.worker, ask, self.progress.now(&self.rt));
        self.say();
        self.adviser.advise(instance, ask)
    }

    fn learn(&mut self, news: &Told) {
        self.progress
            .count(self.worker, news.best, self.progress.now(&self.rt));
        self.adviser.learn(news);
    }
}
