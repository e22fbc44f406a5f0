//! Classes as text.
ghost use Rattle.std.specs.Fmt.{WritesOnOk};
ghost use Rattle.search_core.specs.FaultText.{breaks_text, class_text, more_breaks_text};

use break_rules::Break;
use head_splits::Class;
use std::fmt;

/// Writes a class: its shift, its day and its breaks, separated by spaces.
pub(crate) fn write_class<W: fmt::Write>(class: &Class, f: &mut fmt::Formatter<W>) -> fmt::Result
    ensures { WritesOnOk W.write_str_gives f.old result (class_text class.now) f.new }
{
    write!(f, "{} {} ", class.shift, class.day)?;
    write_breaks(class.prefix.as_slice(), f)
}

/// Writes breaks as `start+length` with commas between them, and `-` where there are none.
fn write_breaks<W: fmt::Write>(breaks: &[Break], f: &mut fmt::Formatter<W>) -> fmt::Result
    ensures { WritesOnOk W.write_str_gives f.old result (breaks_text breaks.now) f.new }
{
    match breaks.split_first() {
        None => f.write_str("-"),
        Some((first, rest)) => {
            write!(f, "{}+{}", first.start, first.len)?;
            write_more_breaks(rest, f)
        }
    }
}

/// Writes breaks as `start+length`, each after a comma.
fn write_more_breaks<W: fmt::Write>(breaks: &[Break], f: &mut fmt::Formatter<W>) -> fmt::Result
    ensures { WritesOnOk W.write_str_gives f.old result (more_breaks_text breaks.now) f.new }
{
    for next in breaks {
        write!(f, ",{}+{}", next.start, next.len)?;
    }
    Ok(())
}
