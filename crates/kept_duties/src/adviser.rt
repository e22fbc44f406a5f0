//! The adviser whose plans keep what they can of another plan.
ghost use Rattle.std.specs.Prelude.{◌≡◌, ◌≤◌, ◌^◌, IfOk, length};

use crate::keeping::with_more_kept;
use advice::{Advice, Adviser, Ask, Told};
use break_rules::NoMemory;
use head_splits::{Cuts, Hint};
use rota_cost::{cost_rows, legal_rows};
use shift_instance::{Instance, Rows};
use shift_tables::ShiftTables;
use std::alloc::Global;

/// An adviser that gives another's advice, where each legal plan has more of the wanted duties and costs no more. The first that it
/// advises, and that the other adviser goes on from, are the rows to begin with, where they are a plan that is cheaper than the best so far.
#[derive(Drop)]
pub struct Keeping<A: Adviser> {
    alloc: Global,
    adviser: A,
    wanted: Rows,
    begin: Rows,
    /// Tables of the instance; none where no row is wanted.
    tables: Option<ShiftTables>,
    /// Whether the rows to begin with weren't advised yet.
    is_fresh: bool,
}

/// The tables of an instance; none where there are no rows.
fn tables_for(
    alloc: Global,
    instance: &Instance,
    wanted: &Rows,
) -> Result<Option<ShiftTables>, NoMemory> {
    if wanted.is_empty() {
        return Ok(None);
    }
    Ok(Some(ShiftTables::new(alloc, instance)?))
}

/// Rows where they are a plan that is cheaper than `best`, with what they cost.
fn cheaper(instance: &Instance, rows: Rows, best: u64) -> Option<(Rows, u64)> {
    let plan = cost_rows(instance, rows).ok()?;
    let cost = plan.cost();
    if best <= cost {
        return None;
    }
    Some((plan.into_rows(), cost))
}

/// The cuts once more.
fn copy_of(cuts: &Cuts) -> Result<Cuts, NoMemory>
    ensures { IfOk result (λ copy. copy ≡ cuts.now) }
{
    let copy = cuts.clone()?;
    Ok(copy)
}

/// What is asked once a plan of that cost is known.
fn asked_with(ask: &Ask, rows: Rows, cost: u64) -> Result<Ask, NoMemory>
    ensures { IfOk result (λ other. other.cuts ≡ ask.now.cuts) }
{
    let prices = match &ask.hint.prices {
        Some(prices) => Some(prices.clone()?),
        None => None,
    };
    Ok(Ask {
        cuts: copy_of(&ask.cuts)?,
        floor: ask.floor,
        best: cost,
        hint: Hint { prices, rows },
    })
}

impl<A: Adviser> Keeping<A> {
    /// The adviser that gives another's advice for an instance, keeps what it can of the wanted rows and begins with others. Where there are
    /// neither, it gives the other's advice as it is.
    pub fn new(
        alloc: Global,
        instance: &Instance,
        adviser: A,
        wanted: Rows,
        begin: Rows,
    ) -> Result<Keeping<A>, NoMemory>
        ensures { IfOk result (λ k. ⟦<Keeping<A> as Adviser>⟧.told k ≡ A.told adviser) }
    {
        let tables = tables_for(alloc, instance, &wanted)?;
        Ok(Keeping {
            alloc,
            adviser,
            wanted,
            begin,
            tables,
            is_fresh: true,
        })
    }

    /// The rows to begin with, where they weren't advised yet and are a plan that is cheaper than `best`, with what they cost.
    fn first(&self, instance: &Instance, best: u64) -> Result<Option<(Rows, u64)>, NoMemory> {
        let has_none = self.wanted.is_empty() && self.begin.is_empty();
        if !self.is_fresh || has_none {
            return Ok(None);
        }
        Ok(cheaper(instance, self.begin.clone()?, best))
    }

    /// The other adviser's advice; where there are rows to be advised first, it goes on from them.
    fn advice_of(
        &mut self,
        instance: &Instance,
        ask: &Ask,
        first: Option<(Rows, u64)>,
    ) -> Result<Advice, NoMemory>
        requires few { length ask.now.cuts ≤ 2 ^ 33 }
        ensures told { A.told self.new.adviser ≡ A.told self.old.adviser }
        ensures last { A.last self.new.adviser ≡ A.last self.old.adviser }
    {
        let Some((rows, cost)) = first else {
            return self.adviser.advise(instance, ask);
        };
        let asked = asked_with(ask, rows.clone()?, cost)?;
        let Advice {
            prices,
            plan,
            split,
        } = self.adviser.advise(instance, &asked)?;
        Ok(Advice {
            prices,
            plan: Some(plan.unwrap_or(rows)),
            split,
        })
    }

    /// A plan with more of the wanted duties, where it is legal and there are any, and else the plan as it is.
    fn with_wanted(&self, instance: &Instance, rows: Rows) -> Result<Rows, NoMemory> {
        let Some(tables) = &self.tables else {
            return Ok(rows);
        };
        if legal_rows(instance, &rows).is_err() {
            return Ok(rows);
        }
        with_more_kept(self.alloc, instance, tables, rows, &self.wanted, 0)
    }
}

impl<A: Adviser> Adviser for Keeping<A> {
    ghost told = { λ k. A.told k.adviser };

    ghost last = { λ k. A.last k.adviser };

    fn advise(&mut self, instance: &Instance, ask: &Ask) -> Result<Advice, NoMemory> {
        let first = self.first(instance, ask.best)?;
        self.is_fresh = false;
        let Advice {
            prices,
            plan,
            split,
        } = self.advice_of(instance, ask, first)?;
        let plan = match plan {
            Some(rows) => Some(self.with_wanted(instance, rows)?),
            None => None,
        };
        Ok(Advice {
            prices,
            plan,
            split,
        })
    }

    fn learn(&mut self, news: &Told) {
        self.adviser.learn(news);
    }
}
