//! Break rules, as a table has them.

use crate::cells::{Cell, Grid};
use crate::columns::{Column, Table};
use crate::refusal::ImportRefusal;
use crate::rule_lists::{lunches_in, totals_in};
use crate::sheet::{Sheet, SheetRow};
use crate::why::Why;
use break_rules::{Rule, RuleFault};
use std::alloc::Global;
use table_records::unguarded;

/// The greatest length of a part of a rule, in slots.
const LENGTH_MOST: u16 = 288;

/// The greatest length of a break, in slots.
const BREAK_MOST: u16 = 48;

/// The most break rules of a table.
const RULES_MOST: usize = 256;

/// The break rules that a table states.
#[derive(Drop)]
pub(crate) struct RuleTable {
    sheet: Sheet,
    grid: Grid,
}

/// A part of a rule, from a least to a greatest length, and what it is where its cell is empty.
#[derive(Clone, Copy, Drop)]
struct Part {
    column: Column,
    least: u16,
    most: u16,
    unsaid: u16,
}

/// What a part of a rule limits where it is left out, which is nothing.
fn part_of(column: Column) -> Part {
    let (least, most, unsaid) = match column {
        Column::WorkMin => (1, LENGTH_MOST, 1),
        Column::WorkMax => (1, LENGTH_MOST, LENGTH_MOST),
        Column::LongWork => (0, LENGTH_MOST, LENGTH_MOST),
        Column::LongRest => (0, BREAK_MOST, 1),
        Column::SizeMin => (1, BREAK_MOST, 1),
        Column::SizeMax => (1, BREAK_MOST, BREAK_MOST),
        Column::Resettle => (0, 1, 0),
        _ => (0, LENGTH_MOST, 0),
    };
    Part {
        column,
        least,
        most,
        unsaid,
    }
}

/// The column of a rule in which a fault of it stands, and why it is refused.
fn place_of(fault: RuleFault) -> (Column, Why) {
    match fault {
        RuleFault::WorkRange => (
            Column::WorkMin,
            Why::Above {
                other: Column::WorkMax,
            },
        ),
        RuleFault::SizeRange => (
            Column::SizeMin,
            Why::Above {
                other: Column::SizeMax,
            },
        ),
        RuleFault::TotalsOrder => (Column::Totals, Why::TotalsOrder),
        RuleFault::LunchOrder => (Column::Lunches, Why::LunchOrder),
        RuleFault::Resettle => (Column::Resettle, Why::Resettle),
        RuleFault::TooLarge => (Column::Rule, Why::TooLarge),
    }
}

impl RuleTable {
    /// The break rules that a table states, each of another name and well formed.
    pub(crate) fn read(
        alloc: Global,
        grid: Grid,
        bytes: &[u8],
    ) -> Result<RuleTable, ImportRefusal> {
        let table = RuleTable {
            sheet: Sheet::read(alloc, Table::Rules, bytes)?,
            grid,
        };
        table.sheet.see_most(RULES_MOST)?;
        for row in table.sheet.every_row() {
            table.see_name(alloc, row)?;
            let _rule = table.rule(alloc, row)?;
        }
        Ok(table)
    }

    /// Refuses a row without a name, or with that of a row before it.
    fn see_name(&self, alloc: Global, row: &SheetRow) -> Result<(), ImportRefusal> {
        let cell = self.sheet.cell(row, Column::Rule);
        let name = cell.name(alloc)?;
        match self.row_named(name) {
            Some(first) if first.number != row.number => {
                let why = Why::Twice { row: first.number };
                Err(cell.refused(alloc, why))
            }
            _ => Ok(()),
        }
    }

    /// The first row of a name.
    fn row_named(&self, name: &[u8]) -> Option<&SheetRow> {
        for row in self.sheet.every_row() {
            let cell = self.sheet.cell(row, Column::Rule);
            if unguarded(cell.text.as_bytes()) == name {
                return Some(row);
            }
        }
        None
    }

    /// The slots of a part of the rule of a row.
    fn part(&self, alloc: Global, row: &SheetRow, column: Column) -> Result<u16, ImportRefusal> {
        let part = part_of(column);
        let cell = self.sheet.cell(row, part.column);
        if cell.text.is_empty() {
            return Ok(part.unsaid);
        }
        let minutes = cell.break_minutes(alloc)?;
        cell.slots(alloc, self.grid, minutes, part.least, part.most)
    }

    /// Refuses a row that says behind how much work a longer break comes, and not how long it is.
    fn see_rest(&self, alloc: Global, row: &SheetRow) -> Result<(), ImportRefusal> {
        let work = self.sheet.cell(row, Column::LongWork);
        let rest = self.sheet.cell(row, Column::LongRest);
        if rest.text.is_empty() && !work.text.is_empty() {
            let why = Why::NeededBy {
                other: Column::LongWork,
            };
            return Err(rest.refused(alloc, why));
        }
        Ok(())
    }

    /// The rule of a row, before it is judged as a whole.
    fn stated(&self, alloc: Global, row: &SheetRow) -> Result<Rule, ImportRefusal> {
        self.see_rest(alloc, row)?;
        Ok(Rule {
            lead: self.part(alloc, row, Column::Lead)?,
            tail: self.part(alloc, row, Column::Tail)?,
            work_min: self.part(alloc, row, Column::WorkMin)?,
            work_max: self.part(alloc, row, Column::WorkMax)?,
            long_work: self.part(alloc, row, Column::LongWork)?,
            long_rest: self.part(alloc, row, Column::LongRest)?,
            size_min: self.part(alloc, row, Column::SizeMin)?,
            size_max: self.part(alloc, row, Column::SizeMax)?,
            totals: totals_in(alloc, self.sheet.cell(row, Column::Totals), self.grid)?,
            lunches: lunches_in(alloc, self.sheet.cell(row, Column::Lunches), self.grid)?,
            resettle: self.part(alloc, row, Column::Resettle)?,
        })
    }

    /// The rule of a row, well formed.
    fn rule(&self, alloc: Global, row: &SheetRow) -> Result<Rule, ImportRefusal> {
        let rule = self.stated(alloc, row)?;
        match rule.check() {
            Ok(()) => Ok(rule),
            Err(fault) => {
                let (column, why) = place_of(fault);
                Err(self.sheet.cell(row, column).refused(alloc, why))
            }
        }
    }

    /// The rule of a name, if a row has it.
    pub(crate) fn named(&self, alloc: Global, name: &[u8]) -> Result<Option<Rule>, ImportRefusal> {
        match self.row_named(name) {
            Some(row) => Ok(Some(self.rule(alloc, row)?)),
            None => Ok(None),
        }
    }
}

/// The rule that a cell of a type names: the plain rule where it is empty.
pub(crate) fn rule_in(
    alloc: Global,
    rules: Option<&RuleTable>,
    cell: Cell,
) -> Result<Rule, ImportRefusal> {
    if cell.text.is_empty() {
        return Ok(Rule::plain(alloc)?);
    }
    let name = unguarded(cell.text.as_bytes());
    let found = match rules {
        Some(rules) => rules.named(alloc, name)?,
        None => None,
    };
    match found {
        Some(rule) => Ok(rule),
        None => Err(cell.refused(alloc, Why::NoSuchRule)),
    }
}
