//! The tables of an instance, and their columns.

use std::fmt;

/// A table of an instance.
#[derive(Clone, Copy, Debug, PartialEq, Drop)]
pub enum Table {
    /// The length of a slot, the days, the weights and the most duties of a shift on a day: one row.
    Settings,
    /// The wanted employees: a row for each time of each day.
    Need,
    /// The shift types: a row for each.
    Types,
    /// The break rules that types name: a row for each.
    Rules,
}

/// A column of a table.
#[derive(Clone, Copy, Debug, PartialEq, Drop)]
pub enum Column {
    /// The minutes of a slot.
    SlotMinutes,
    /// The days of the planning period.
    Days,
    /// What an employee too many in a slot costs.
    Excess,
    /// What an employee too few in a slot costs.
    Shortage,
    /// What a shift that is used costs.
    Shift,
    /// The most duties of one shift on one day.
    MaxHeads,
    /// A day, counted from 1.
    Day,
    /// The time of day from which on a need holds.
    Time,
    /// The least wanted employees.
    Need,
    /// The most wanted employees.
    NeedMax,
    /// The name of a type.
    Name,
    /// The earliest time at which its shifts start.
    FirstStart,
    /// The latest time at which they start.
    LastStart,
    /// How long its shortest shift is.
    Shortest,
    /// How long its longest shift is.
    Longest,
    /// The name of a break rule.
    Rule,
    /// How long a shift lasts before its first break, at least.
    Lead,
    /// How long it lasts behind its last break, at least.
    Tail,
    /// How long work without a break lasts, at least.
    WorkMin,
    /// How long work without a break lasts, at most.
    WorkMax,
    /// Behind how much work at most any break may come.
    LongWork,
    /// How long a break behind more work is, at least.
    LongRest,
    /// How long a break is, at least.
    SizeMin,
    /// How long a break is, at most.
    SizeMax,
    /// How long all breaks of a shift are together, by the length of the shift.
    Totals,
    /// The lunches that shifts have, by the length of the shift.
    Lunches,
    /// How long whoever comes back from a break doesn't count yet.
    Resettle,
}

const OF_SETTINGS: &[Column] = &[
    Column::SlotMinutes,
    Column::Days,
    Column::Excess,
    Column::Shortage,
    Column::Shift,
    Column::MaxHeads,
];

const OF_NEED: &[Column] = &[Column::Day, Column::Time, Column::Need, Column::NeedMax];

const OF_TYPES: &[Column] = &[
    Column::Name,
    Column::FirstStart,
    Column::LastStart,
    Column::Shortest,
    Column::Longest,
    Column::Rule,
];

const OF_RULES: &[Column] = &[
    Column::Rule,
    Column::Lead,
    Column::Tail,
    Column::WorkMin,
    Column::WorkMax,
    Column::LongWork,
    Column::LongRest,
    Column::SizeMin,
    Column::SizeMax,
    Column::Totals,
    Column::Lunches,
    Column::Resettle,
];

impl Table {
    /// The name of its file.
    pub fn file_name(self) -> &'static str {
        match self {
            Table::Settings => "settings.csv",
            Table::Need => "need.csv",
            Table::Types => "types.csv",
            Table::Rules => "rules.csv",
        }
    }

    /// Its columns.
    pub fn columns(self) -> &'static [Column] {
        match self {
            Table::Settings => OF_SETTINGS,
            Table::Need => OF_NEED,
            Table::Types => OF_TYPES,
            Table::Rules => OF_RULES,
        }
    }

    /// Whether it must have a column: a break rule may leave out all parts that limit nothing, and needs the most wanted employees.
    pub(crate) fn must_have(self, column: Column) -> bool {
        match self {
            Table::Rules => column == Column::Rule,
            _ => column != Column::NeedMax,
        }
    }

    /// The column of it that has a name, if one has.
    pub(crate) fn column_named(self, name: &str) -> Option<Column> {
        for column in self.columns() {
            if column.is_named(name) {
                return Some(*column);
            }
        }
        None
    }
}

impl fmt::Display for Table {
    fn fmt<W: fmt::Write>(&self, f: &mut fmt::Formatter<W>) -> fmt::Result {
        f.write_str(self.file_name())
    }
}

impl Column {
    /// Its name.
    pub fn name(self) -> &'static str {
        match self {
            Column::Excess | Column::Shortage | Column::Shift => self.weight_name(),
            Column::SlotMinutes => "slot_minutes",
            Column::Days => "days",
            Column::MaxHeads => "max_heads",
            Column::Day => "day",
            Column::Time => "time",
            Column::Need => "need",
            Column::NeedMax => "need_max",
            Column::Name => "name",
            Column::FirstStart => "first_start",
            Column::LastStart => "last_start",
            Column::Shortest => "shortest",
            Column::Longest => "longest",
            _ => self.rule_name(),
        }
    }

    /// The name of a weight.
    fn weight_name(self) -> &'static str {
        match self {
            Column::Excess => "excess",
            Column::Shortage => "shortage",
            _ => "shift",
        }
    }

    /// The name of a part of a break rule, or of the rule.
    fn rule_name(self) -> &'static str {
        match self {
            Column::Lead => "lead",
            Column::Tail => "tail",
            Column::WorkMin => "work_min",
            Column::WorkMax => "work_max",
            Column::LongWork => "long_work",
            Column::LongRest => "long_rest",
            Column::SizeMin => "size_min",
            Column::SizeMax => "size_max",
            Column::Totals => "totals",
            Column::Lunches => "lunches",
            Column::Resettle => "resettle",
            _ => "rule",
        }
    }

    /// Whether a text is its name, in small or capital letters, with `_`, a space or `-` between two words.
    fn is_named(self, text: &str) -> bool {
        let name = self.name();
        name.len() == text.len()
            && name
                .bytes()
                .zip(text.bytes())
                .all(|(wanted, found)| is_letter_of_name(wanted, found))
    }
}

/// Whether a byte may stand for one of a name.
fn is_letter_of_name(wanted: u8, found: u8) -> bool {
    wanted == found.to_ascii_lowercase() || wanted == b'_' && (found == b' ' || found == b'-')
}

impl fmt::Display for Column {
    fn fmt<W: fmt::Write>(&self, f: &mut fmt::Formatter<W>) -> fmt::Result {
        f.write_str(self.name())
    }
}
