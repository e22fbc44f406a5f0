//! Break rules of shift types: which breaks a shift of some length may have, and which rules are well formed.
//!
//! All times are whole numbers of slots, counted from the start of the shift.
#![tactic(auto)]

mod judging;
pub mod laws;
mod legality;
mod living;
mod order;
mod places;
mod sequence;
mod walking;

ghost use Rattle.std.specs.Prelude.{◌≡◌, ℕ, ◌≤◌, [], ◌∷◌, length, OnOk, IfOk, IsOk, IsTrue, ◌↔◌, MatchResult, Some, None};
ghost use Rattle.break_rules.specs.Causes.{first_cause};
ghost use Rattle.break_rules.specs.RuleFaults.{rule_causes};
ghost use Rattle.break_rules.specs.Ranges.{IsRule};
ghost use Rattle.break_rules.specs.Breaks.{legal_lists};
ghost use Rattle.break_rules.specs.Plain.{plain_rule, IsPlainTimes};
ghost use Rattle.break_rules.specs.Walk.{spot_of};

pub use legality::{legal, total_among};
pub use living::{LiveSpots, least, live};
pub use order::is_less_list;
pub use places::{place, spot_at};
pub use sequence::{Breaks, Sequence};
use std::alloc::{AllocError, Global};
use std::error::Error;
use std::fmt;
pub use walking::{NextBreaks, after, ends, lunches_met, nexts};

/// The refusal of a call that found no memory.
pub type NoMemory = AllocError;

/// A break inside a shift: its first slot and its length, in slots from the shift's start.
#[derive(Clone, Copy, Debug, PartialEq, Eq, PartialOrd, Ord, Hash, Drop)]
pub struct Break {
    /// Its first slot.
    pub start: u16,
    /// Its length.
    pub len: u16,
}

/// A lunch entry: a shift of at least `from_len` slots needs a break of exactly `size` slots that begins at `first`
/// or later and ends at `last` or earlier.
#[derive(Clone, Copy, PartialEq, Eq, Drop)]
pub struct Lunch {
    /// The least length of a shift that needs it.
    pub from_len: u16,
    /// The length of the break.
    pub size: u16,
    /// The earliest slot at which the break begins.
    pub first: u16,
    /// The latest slot at which it ends.
    pub last: u16,
}

/// The table from shift lengths to total break times: pairs of the length from which an entry counts and its total,
/// both in slots.
pub type Totals = Sequence<(u16, u16)>;

/// The lunch entries of a rule.
pub type Lunches = Sequence<Lunch>;

/// The break rule of a shift type. All numbers are slots.
#[derive(Drop)]
pub struct Rule {
    /// The slots before the first break, at least.
    pub lead: u16,
    /// The slots after the last break, at least.
    pub tail: u16,
    /// The least length of a work period.
    pub work_min: u16,
    /// The greatest length of a work period.
    pub work_max: u16,
    /// The greatest length of a work period that any break may follow.
    pub long_work: u16,
    /// The least length of a break after a longer work period.
    pub long_rest: u16,
    /// The least length of a break.
    pub size_min: u16,
    /// The greatest length of a break.
    pub size_max: u16,
    /// The total break time by shift length.
    pub totals: Totals,
    /// The lunch breaks that shifts need.
    pub lunches: Lunches,
    /// The slots directly after a break that belong to the work period and don't count as cover.
    pub resettle: u16,
}

/// Where a walk from break to break stands.
#[derive(Clone, Copy, PartialEq, Eq, Drop)]
pub struct Spot {
    /// The end of the last break, and 0 at the start of the shift.
    pub offset: u16,
    /// The break time so far.
    pub used: u16,
    /// A bit for each lunch entry of the rule, the lowest for the first: whether a break so far meets it.
    pub lunches: u8,
}

/// Why a break rule isn't well formed.
#[derive(Clone, Copy, Debug, PartialEq, Eq, Drop)]
pub enum RuleFault {
    /// Not `1 <= work_min <= work_max <= 288`.
    WorkRange,
    /// Not `1 <= size_min <= size_max <= 48`.
    SizeRange,
    /// The lengths of the totals don't rise strictly.
    TotalsOrder,
    /// A lunch entry has size 0, has no room between `first` and `last`, or begins before the one before it ends.
    LunchOrder,
    /// `resettle` is above 1 or above `work_min`.
    Resettle,
    /// A number or a list is larger than a rule may have.
    TooLarge,
}

impl fmt::Display for RuleFault {
    ghost use Rattle.std.specs.Prelude.{Some};
    ghost use Rattle.break_rules.specs.RuleFaults.{rule_fault_text};

    ghost output = { λ e. Some (rule_fault_text e) };

    /// Writes the fault's number.
    fn fmt<W: fmt::Write>(&self, f: &mut fmt::Formatter<W>) -> fmt::Result {
        match self {
            RuleFault::WorkRange => f.write_str("1"),
            RuleFault::SizeRange => f.write_str("2"),
            RuleFault::TotalsOrder => f.write_str("3"),
            RuleFault::LunchOrder => f.write_str("4"),
            RuleFault::Resettle => f.write_str("5"),
            RuleFault::TooLarge => f.write_str("6"),
        }
    }
}

impl Error for RuleFault {}

/// Whether a rule has the plain rule's distances from both ends and lengths of work.
fn has_plain_times(rule: &Rule) -> bool
    ensures { IsTrue result ↔ IsPlainTimes rule.now }
{
    (rule.lead, rule.tail) == (0, 0)
        && (rule.work_min, rule.work_max) == (1, 288)
        && (rule.long_work, rule.long_rest) == (288, 1)
}

impl Spot {
    /// The spot at the start of a shift, before any break.
    pub fn opening() -> Spot
        ensures { (rule : Rule) → result ≡ spot_of rule [] }
    {
        Spot {
            offset: 0,
            used: 0,
            lunches: 0,
        }
    }
}

impl Rule {
    /// The plain rule, by which only the empty list of breaks is legal. It takes no memory.
    pub fn plain(alloc: Global) -> Result<Rule, NoMemory>
        ensures made { IsOk result }
        ensures plain { IfOk result (λ r. r ≡ plain_rule) }
        ensures empty { (len : ℕ) → 1 ≤ len → len ≤ 288 → legal_lists plain_rule len ≡ [] ∷ [] }
    {
        Ok(Rule {
            lead: 0,
            tail: 0,
            work_min: 1,
            work_max: 288,
            long_work: 288,
            long_rest: 1,
            size_min: 1,
            size_max: 48,
            totals: Totals::new(Vec::new(alloc)),
            lunches: Lunches::new(Vec::new(alloc)),
            resettle: 0,
        })
    }

    /// Whether the rule is the plain one: all its fields are those of [`Rule::plain`]. It takes no memory.
    pub fn is_plain(&self) -> bool
        ensures { IsTrue result ↔ (self.now ≡ plain_rule) }
    {
        has_plain_times(self)
            && (self.size_min, self.size_max, self.resettle) == (1, 48, 0)
            && self.totals.as_slice().is_empty()
            && self.lunches.as_slice().is_empty()
    }

    /// Whether the rule is well formed, or the first fault in the order of [`RuleFault`]. It takes no memory.
    pub fn check(&self) -> Result<(), RuleFault>
        ensures first { MatchResult result (λ _. first_cause (rule_causes self.now) ≡ None) (λ e. first_cause (rule_causes self.now) ≡ Some e) }
        ensures within { OnOk result (IsRule self.now) }
    {
        match judging::first_fault(self) {
            Some(fault) => Err(fault),
            None => Ok(()),
        }
    }
}
