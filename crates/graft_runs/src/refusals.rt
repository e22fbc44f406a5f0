//! The lines of refusals.
ghost use Rattle.std.specs.Prelude.{◌≡◌, ◌++◌, IfOk, OnOk, string_bytes};
ghost use Rattle.certificate.specs.LineText.{line_text};
ghost use Rattle.graft_runs.specs.Texts.{fault_text, refused_numbers, IsNamed};

use break_rules::NoMemory;
use cert_check::Refused;
use report_grafts::GraftFault;
use std::alloc::{AllocError, Global};
use std::fmt::Write;

/// Adds the numbers of the cause why the checker refuses a report.
fn add_cause(line: &mut String, why: Refused) -> Result<(), NoMemory>
    ensures { OnOk result (string_bytes line.new ≡ string_bytes line.old ++ refused_numbers why) }
{
    match why {
        Refused::BadSplit { line: at } => write!(line, "1 {at}"),
        Refused::BadPrice { line: at } => write!(line, "2 {at}"),
        Refused::NotSettled { line: at } => write!(line, "3 {at}"),
        Refused::BoundTooHigh { claimed, found } => write!(line, "4 {claimed} {found}"),
        Refused::BadPlan { row } => write!(line, "5 {row}"),
        Refused::WrongCost { claimed, found } => write!(line, "6 {claimed} {found}"),
        Refused::NoMemory => Err(AllocError),
    }
}

/// What is said of a fault: `graft refused`, its number, and its own numbers. A refusal of the checker follows with its own. Nothing is
/// said where it was out of memory.
fn fault_text(alloc: Global, fault: GraftFault) -> Result<String, NoMemory>
    ensures said { IfOk result (λ line. string_bytes line ≡ fault_text fault) }
    ensures named { IfOk result (λ _. IsNamed fault) }
{
    match fault {
        GraftFault::Refused(why) => {
            let mut line = String::from_str(alloc, "graft refused 1 ")?;
            add_cause(&mut line, why)?;
            Ok(line)
        }
        GraftFault::NoNode { node } => format!(in alloc; "graft refused 2 {node}"),
        GraftFault::IsSplit { node } => format!(in alloc; "graft refused 3 {node}"),
        GraftFault::OtherCuts { at } => format!(in alloc; "graft refused 4 {at}"),
        GraftFault::NoRows => String::from_str(alloc, "graft refused 5"),
        GraftFault::NoMemory => Err(AllocError),
    }
}

/// The line of a fault with its line feed: what is said of it. There is none where it was out of memory.
pub(crate) fn refusal_line(alloc: Global, fault: GraftFault) -> Result<String, NoMemory>
    ensures said { IfOk result (λ line. string_bytes line ≡ line_text (fault_text fault)) }
    ensures named { IfOk result (λ _. IsNamed fault) }
{
    let mut line = fault_text(alloc, fault)?;
    line.push_str("\n")?;
    Ok(line)
}
