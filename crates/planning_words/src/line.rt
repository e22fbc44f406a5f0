//! The line that is said of a search while it runs.

ghost use Rattle.std.specs.Prelude.{◌≡◌, ◌++◌, IfOk, OnOk, string_bytes};
ghost use Rattle.planning_words.specs.Progress.{cost_text, gap_of, gap_text, progress_text, steps_text};

use std::alloc::{AllocError, Global};
use std::fmt::Write;

/// How far a search has come.
#[derive(Clone, Copy, PartialEq, Eq)]
pub struct Reached {
    /// The steps so far.
    pub steps: u64,
    /// What the best plan costs.
    pub cost: u64,
    /// For how many seconds there was no cheaper plan.
    pub quiet: u64,
    /// What every plan is known to cost at least.
    pub bound: u64,
}

/// The gap between a cost and a bound in thousandths of the cost.
pub fn gap_of(cost: u64, bound: u64) -> u64
    ensures { result ≡ gap_of cost bound }
{
    let apart = u128::from(cost.saturating_sub(bound));
    (apart * 1_000 / u128::from(cost.max(1))) as u64
}

/// Adds for how many seconds a search has run, and how many steps it has taken.
#[tactic(auto, unfolding(crate::specs::Progress::steps_text))]
fn add_steps(line: &mut String, seconds: u64, steps: u64) -> Result<(), AllocError>
    ensures { OnOk result (string_bytes line.new ≡ string_bytes line.old ++ steps_text seconds steps) }
{
    write!(line, "{seconds} s, {steps} steps, ")
}

/// Adds what the best plan costs and how many seconds ago it was found, and what every plan is known to cost at least.
#[tactic(auto, unfolding(crate::specs::Progress::cost_text))]
fn add_cost(line: &mut String, cost: u64, quiet: u64, bound: u64) -> Result<(), AllocError>
    ensures { OnOk result (string_bytes line.new ≡ string_bytes line.old ++ cost_text cost quiet bound) }
{
    write!(line, "cost {cost} for {quiet} s, bound {bound}")
}

/// Adds a gap in thousandths, as hundredths with tenths of them.
#[tactic(auto, unfolding(crate::specs::Progress::gap_text))]
fn add_gap(line: &mut String, gap: u64) -> Result<(), AllocError>
    ensures { OnOk result (string_bytes line.new ≡ string_bytes line.old ++ gap_text gap) }
{
    let whole = gap / 10;
    let tenths = gap % 10;
    write!(line, ", gap {whole}.{tenths} %")
}

/// The line of a search that has run for so many seconds, without its line feed.
#[tactic(auto, unfolding(crate::specs::Progress::progress_text))]
pub fn progress_line(alloc: Global, seconds: u64, reached: Reached) -> Result<String, AllocError>
    ensures { IfOk result (λ line. string_bytes line ≡ progress_text seconds reached.steps reached.cost reached.quiet reached.bound) }
{
    let mut line = String::new(alloc);
    add_steps(&mut line, seconds, reached.steps)?;
    add_cost(&mut line, reached.cost, reached.quiet, reached.bound)?;
    add_gap(&mut line, gap_of(reached.cost, reached.bound))?;
    Ok(line)
}
