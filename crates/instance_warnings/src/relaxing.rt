//! The parts of a break rule, and the rule without one of them.
ghost use Rattle.std.specs.Prelude.{◌≡◌, ◌≤◌, IfOk};
ghost use Rattle.break_rules.specs.Ranges.{IsRule};
ghost use Rattle.instance_warnings.specs.Breaks.{relaxed, with_total};

use break_rules::{Lunch, Lunches, NoMemory, Rule, Totals};
use std::alloc::Global;

/// A part of a break rule that may forbid all breaks by itself.
#[derive(Clone, Copy, PartialEq, Eq, Drop)]
pub enum Part {
    /// The distances from both ends of a shift, `lead` and `tail`.
    Ends,
    /// The breaks that lie in a window, `lunches`.
    Lunches,
    /// The lengths of work periods, `work_min` and `work_max`.
    Work,
    /// The break behind long work, `long_work` and `long_rest`.
    Rest,
    /// The lengths of breaks, `size_min` and `size_max`.
    Sizes,
    /// The total break time, `totals`.
    Totals,
}

/// The totals of a rule.
fn copied_totals(alloc: Global, rule: &Rule) -> Result<Totals, NoMemory>
    ensures { IfOk result (λ totals. totals ≡ rule.now.totals) }
{
    let list: Vec<(u16, u16)> = rule.totals.as_slice().iter().copied().collect(alloc)?;
    Ok(Totals::new(list))
}

/// The lunches of a rule.
fn copied_lunches(alloc: Global, rule: &Rule) -> Result<Lunches, NoMemory>
    ensures { IfOk result (λ lunches. lunches ≡ rule.now.lunches) }
{
    let list: Vec<Lunch> = rule.lunches.as_slice().iter().copied().collect(alloc)?;
    Ok(Lunches::new(list))
}

/// A rule with other totals and lunches.
fn with_lists(rule: &Rule, totals: Totals, lunches: Lunches) -> Rule
    ensures { result ≡ record rule.now { totals = totals; lunches = lunches } }
{
    Rule {
        lead: rule.lead,
        tail: rule.tail,
        work_min: rule.work_min,
        work_max: rule.work_max,
        long_work: rule.long_work,
        long_rest: rule.long_rest,
        size_min: rule.size_min,
        size_max: rule.size_max,
        totals,
        lunches,
        resettle: rule.resettle,
    }
}

/// A copy of a rule.
fn copy_of(alloc: Global, rule: &Rule) -> Result<Rule, NoMemory>
    ensures { IfOk result (λ copy. copy ≡ rule.now) }
{
    let totals = copied_totals(alloc, rule)?;
    let lunches = copied_lunches(alloc, rule)?;
    Ok(with_lists(rule, totals, lunches))
}

/// A rule without one of its parts: its numbers are those of the plain rule. Without its totals it has no break time; other
/// break times are [`with_total`].
pub(crate) fn relaxed(alloc: Global, rule: &Rule, part: Part) -> Result<Rule, NoMemory>
    requires { IsRule rule.now }
    ensures rule { IfOk result (λ r. r ≡ relaxed rule.now part) }
    ensures within { IfOk result IsRule }
{
    let mut rule = copy_of(alloc, rule)?;
    match part {
        Part::Ends => {
            rule.lead = 0;
            rule.tail = 0;
        }
        Part::Lunches => rule.lunches = Lunches::new(Vec::new(alloc)),
        Part::Work => {
            rule.work_min = 1;
            rule.work_max = 288;
        }
        Part::Rest => rule.long_work = 288,
        Part::Sizes => {
            rule.size_min = 1;
            rule.size_max = 48;
        }
        Part::Totals => rule.totals = Totals::new(Vec::new(alloc)),
    }
    Ok(rule)
}

/// A rule by which shifts of every length have the same total break time.
pub(crate) fn with_total(alloc: Global, rule: &Rule, total: u16) -> Result<Rule, NoMemory>
    requires rule { IsRule rule.now }
    requires few { total ≤ 48 }
    ensures rule { IfOk result (λ r. r ≡ with_total rule.now total) }
    ensures within { IfOk result IsRule }
{
    let mut list = Vec::new(alloc);
    list.push((0, total))?;
    let lunches = copied_lunches(alloc, rule)?;
    Ok(with_lists(rule, Totals::new(list), lunches))
}
