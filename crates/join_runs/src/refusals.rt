//! The lines of refusals.
ghost use Rattle.std.specs.Prelude.{◌≡◌, ◌++◌, IfOk, OnOk, string_bytes};
ghost use Rattle.certificate.specs.LineText.{line_text};
ghost use Rattle.join_runs.specs.Texts.{cause_numbers, fault_numbers, part_text, refused_numbers, refused_text, HasPlace, HasPlaces, IsNamed, IsNamedFault, IsNamedRefusal};

use crate::status::PartCause;
use break_rules::NoMemory;
use cert_check::Refused;
use check_runs::BundleFault;
use report_joins::PartFault;
use std::alloc::{AllocError, Global};
use std::fmt::Write;

/// Adds the numbers of the cause why the checker refuses a report.
fn add_refusal(line: &mut String, why: Refused) -> Result<(), NoMemory>
    ensures said { OnOk result (string_bytes line.new ≡ string_bytes line.old ++ refused_numbers why) }
    ensures named { OnOk result (IsNamedRefusal why) }
{
    match why {
        Refused::BadSplit { line: at } => write!(line, "1 {at}"),
        Refused::BadPrice { line: at } => write!(line, "2 {at}"),
        Refused::NotSettled { line: at } => write!(line, "3 {at}"),
        Refused::BoundTooHigh { claimed, found } => write!(line, "4 {claimed} {found}"),
        Refused::BadPlan { row } => write!(line, "5 {row}"),
        Refused::WrongCost { claimed, found } => write!(line, "6 {claimed} {found}"),
        Refused::NoMemory => Err(AllocError),
    }
}

/// Adds the numbers of the cause why a report isn't a part.
fn add_fault(line: &mut String, fault: PartFault) -> Result<(), NoMemory>
    requires { HasPlace fault }
    ensures said { OnOk result (string_bytes line.new ≡ string_bytes line.old ++ fault_numbers fault) }
    ensures named { OnOk result (IsNamedFault fault) }
{
    match fault {
        PartFault::Refused(why) => {
            line.push_str("2 ")?;
            add_refusal(line, why)
        }
        PartFault::OtherLines { at } => {
            let at = at + 1;
            write!(line, "3 {at}")
        }
        PartFault::NothingFurther => line.push_str("4"),
        PartFault::NoEnd { node } => write!(line, "5 {node}"),
        PartFault::OtherNode { at } => {
            let at = at + 1;
            write!(line, "6 {at}")
        }
        PartFault::OtherPlan => line.push_str("7"),
        PartFault::SameNode { node } => write!(line, "8 {node}"),
        PartFault::TooMany => line.push_str("9"),
        PartFault::NoMemory => Err(AllocError),
    }
}

/// Adds the numbers of the cause why a file isn't a part.
fn add_cause(line: &mut String, cause: PartCause) -> Result<(), NoMemory>
    requires { HasPlaces cause }
    ensures said { OnOk result (string_bytes line.new ≡ string_bytes line.old ++ cause_numbers cause) }
    ensures named { OnOk result (IsNamed cause) }
{
    match cause {
        PartCause::NoReport(BundleFault::TooLong) => line.push_str("1 0"),
        PartCause::NoReport(BundleFault::Text { line: at }) => write!(line, "1 {at}"),
        PartCause::Fault(fault) => add_fault(line, fault),
    }
}

/// The line of a file that isn't a part, by its number among the parts: `join refused`, that number, and the cause's. There is none where
/// it was out of memory.
pub(crate) fn part_line(alloc: Global, part: u64, cause: PartCause) -> Result<String, NoMemory>
    requires { HasPlaces cause }
    ensures said { IfOk result (λ line. string_bytes line ≡ line_text (part_text part cause)) }
    ensures named { IfOk result (λ _. IsNamed cause) }
{
    let mut line = format!(in alloc; "join refused {part} ")?;
    add_cause(&mut line, cause)?;
    line.push_str("\n")?;
    Ok(line)
}

/// The line of a report that the checker refuses: `graft refused 1` and the checker's numbers. There is none where it was out of memory.
pub(crate) fn refused_line(alloc: Global, why: Refused) -> Result<String, NoMemory>
    ensures said { IfOk result (λ line. string_bytes line ≡ line_text (refused_text why)) }
    ensures named { IfOk result (λ _. IsNamedRefusal why) }
{
    let mut line = String::from_str(alloc, "graft refused 1 ")?;
    add_refusal(&mut line, why)?;
    line.push_str("\n")?;
    Ok(line)
}
