//! Columns of a text that people read.
ghost use Rattle.std.specs.Prelude.{◌≡◌, ◌++◌, OnOk, replicate, string_bytes};
ghost use Rattle.std.specs.Fmt.{decimal};
ghost use Rattle.plan_tables.specs.Columns.{at_left, at_right};

use break_rules::NoMemory;
use std::fmt::Write;

/// Adds spaces.
fn add_spaces(text: &mut String, count: usize) -> Result<(), NoMemory>
    ensures { OnOk result (string_bytes text.new ≡ string_bytes text.old ++ replicate count 32) }
{
    for _ in 0..count {
        text.push_str(" ")?;
    }
    Ok(())
}

/// Adds a text at the left end of a column of so many bytes.
#[tactic(auto, unfolding(crate::specs::Columns::at_left))]
pub(crate) fn add_left(text: &mut String, field: &str, width: usize) -> Result<(), NoMemory>
    ensures { OnOk result (string_bytes text.new ≡ string_bytes text.old ++ at_left width field.now) }
{
    text.push_str(field)?;
    add_spaces(text, width.saturating_sub(field.len()))
}

/// Adds a text at the right end of a column of so many bytes.
#[tactic(auto, unfolding(crate::specs::Columns::at_right))]
pub(crate) fn add_right(text: &mut String, field: &str, width: usize) -> Result<(), NoMemory>
    ensures { OnOk result (string_bytes text.new ≡ string_bytes text.old ++ at_right width field.now) }
{
    add_spaces(text, width.saturating_sub(field.len()))?;
    text.push_str(field)
}

/// Adds a number at the right end of a column of so many bytes.
pub(crate) fn add_number(text: &mut String, number: u64, width: usize) -> Result<(), NoMemory>
    ensures { OnOk result (string_bytes text.new ≡ string_bytes text.old ++ at_right width (decimal number)) }
{
    write!(text, "{number:>width$}")
}
