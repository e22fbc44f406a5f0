//! Runs whose adviser advises nonsense.

use crate::runs_of_morning::{Ran, inputs_with, new_disk, run};
use advice::{Advice, Adviser, Ask, Told};
use advisers::Fixed;
use break_rules::{Break, Breaks, NoMemory};
use shift_instance::{Instance, Row, Rows};
use std::alloc::{AllocError, Global};
use std::sync::Wait;
use std::test::Fail;
use std::thread::Threads;

/// The report of the morning with room for one whose steps prove price 0 everywhere.
const UNPRICED_REPORT: &str =
    "shift-report 1\nstatus optimal\ncost 3\nbound 3\nrows 1\nrow 0 0 1 -\nproof 5\npriced 0 1 0,0,0,0,0,0,0,0,0,0,0,0,0,0,0,0,0,0,0,0,0,0,0,0 -\nsplit 0 0 0 - 0\npriced 1 1 0,0,0,0,0,0,0,0,0,0,0,0,0,0,0,0,0,0,0,0,0,0,0,0 0\nsettled 1\npriced 2 1 0,0,0,0,0,0,0,0,0,0,0,0,0,0,0,0,0,0,0,0,0,0,0,0 0\nend\n";

/// What is wrong with a plan.
#[derive(Clone, Copy, PartialEq, Eq, Drop)]
enum Wrong {
    /// A row stands for no duty.
    NoDuty,
    /// A shift isn't one of the instance.
    UnknownShift,
    /// A day isn't one of the instance.
    UnknownDay,
    /// The rows aren't sorted.
    Unsorted,
    /// More duties than there may be.
    TooMany,
    /// A break that the rule doesn't allow.
    Breaks,
}

/// An adviser whose prices are none, and whose plan is wrong.
#[derive(Drop)]
struct Nonsense {
    alloc: Global,
    prices: Fixed,
    wrong: Wrong,
}

/// A row of so many duties of a shift without breaks.
fn row(alloc: Global, shift: u16, day: u8, count: u16) -> Row {
    Row {
        shift,
        day,
        breaks: Breaks::new(Vec::new(alloc)),
        count,
    }
}

/// The rows of a plan that is wrong.
fn wrong_rows(alloc: Global, wrong: Wrong) -> Result<Rows, NoMemory> {
    let rows = match wrong {
        Wrong::NoDuty => vec![in alloc; row(alloc, 0, 0, 0)]?,
        Wrong::UnknownShift => vec![in alloc; row(alloc, 7, 0, 1)]?,
        Wrong::UnknownDay => vec![in alloc; row(alloc, 0, 7, 1)]?,
        Wrong::Unsorted => vec![in alloc; row(alloc, 0, 0, 1), row(alloc, 0, 0, 1)]?,
        Wrong::TooMany => vec![in alloc; row(alloc, 0, 0, 65_535)]?,
        Wrong::Breaks => {
            let breaks = vec![in alloc; Break { start: 1, len: 200 }]?;
            let row = Row {
                shift: 0,
                day: 0,
                breaks: Breaks::new(breaks),
                count: 1,
            };
            vec![in alloc; row]?
        }
    };
    Ok(Rows::new(rows))
}

impl Adviser for Nonsense {
    ghost told = { λ a. a.prices.heard.told };

    ghost last = { λ a. a.prices.heard.last };

    fn advise(&mut self, instance: &Instance, ask: &Ask) -> Result<Advice, NoMemory> {
        let advice = self.prices.advise(instance, ask)?;
        let rows = wrong_rows(self.alloc, self.wrong)?;
        Ok(Advice {
            prices: advice.prices,
            plan: Some(rows),
            split: None,
        })
    }

    fn learn(&mut self, news: &Told) {
        self.prices.learn(news);
    }
}

/// A run of three steps of the morning with room for one, with this adviser.
fn run_with<R: Threads + Wait + Sync>(
    rt: &R,
    alloc: Global,
    adviser: Box<dyn Adviser + Send>,
) -> Result<Ran, AllocError> {
    let inputs = inputs_with(alloc, "1", Some("3"), adviser)?;
    let disk = new_disk(alloc, &[])?;
    Ok(run(rt, alloc, inputs, disk))
}

#[test]
fn prices_that_are_none_are_passed_over(rt: HostRuntime) -> Result<(), Fail> {
    let alloc = rt.alloc();
    let adviser = Box::new(alloc, Fixed::new(alloc, 0, Vec::new(alloc)))?;
    let ran = run_with(&rt, alloc, adviser)?;
    assert_eq!(rt; ran.number, 0);
    assert_eq!(rt; ran.sink.bytes(), UNPRICED_REPORT.as_bytes());
    Ok(())
}

#[test]
fn plans_that_are_none_are_passed_over(rt: HostRuntime) -> Result<(), Fail> {
    let alloc = rt.alloc();
    for wrong in [
        Wrong::NoDuty,
        Wrong::UnknownShift,
        Wrong::UnknownDay,
        Wrong::Unsorted,
        Wrong::TooMany,
        Wrong::Breaks,
    ] {
        let adviser = Nonsense {
            alloc,
            prices: Fixed::new(alloc, 0, Vec::new(alloc)),
            wrong,
        };
        let ran = run_with(&rt, alloc, Box::new(alloc, adviser)?)?;
        assert_eq!(rt; ran.number, 0);
        assert_eq!(rt; ran.sink.bytes(), UNPRICED_REPORT.as_bytes());
    }
    Ok(())
}
