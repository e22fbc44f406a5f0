//! The lines of the open nodes of a report.
ghost use Rattle.std.specs.Prelude.{◌≡◌, ◌≤◌, ◌^◌, ◌++◌, IfErr, IfOk, OnOk, length, map, string_bytes};
ghost use Rattle.certificate.specs.LineText.{line_text, lines_text};
ghost use Rattle.report_nodes.specs.Listed.{IsRefusal};
ghost use Rattle.graft_runs.specs.Runs.{AreListed};
ghost use Rattle.graft_runs.specs.Texts.{open_line};

use break_rules::NoMemory;
use certificate::Cert;
use report_grafts::GraftFault;
use report_nodes::{OpenNode, open_nodes};
use shift_instance::Instance;
use std::alloc::Global;
use std::fmt::Write;

/// Adds the line of an open node.
fn add_node(text: &mut String, listed: &OpenNode) -> Result<(), NoMemory>
    ensures { OnOk result (string_bytes text.new ≡ string_bytes text.old ++ line_text (open_line listed.now)) }
{
    let (node, floor, cuts) = (listed.node, listed.floor, listed.cuts);
    write!(text, "node {node} floor {floor} cuts {cuts}\n")
}

/// Adds the lines of open nodes.
fn add_nodes(text: &mut String, list: &[OpenNode]) -> Result<(), NoMemory>
    ensures { OnOk result (string_bytes text.new ≡ string_bytes text.old ++ lines_text (map open_line list.now)) }
{
    for next in list {
        add_node(text, next)?;
    }
    Ok(())
}

/// The lines of the open nodes of a report, those of least floor first, no more than so many.
pub(crate) fn nodes_text(
    alloc: Global,
    instance: &Instance,
    whole: &Cert,
    most: u64,
) -> Result<Vec<u8>, GraftFault>
    requires { length whole.now.lines ≤ 2 ^ 28 }
    ensures text { IfOk result (λ text. AreListed instance.now whole.now most text.items) }
    ensures fault { IfErr result (IsRefusal instance.now whole.now) }
{
    let list = open_nodes(alloc, instance, whole, most as usize)?;
    let mut text = String::new(alloc);
    add_nodes(&mut text, list.as_slice())?;
    Ok(text.into_bytes())
}
