//! The text of a certificate, written by hand, and proof lines.

ghost use Rattle.std.specs.Prelude.{◌<◌, length, IfOk};

use break_rules::NoMemory;
use certificate::{Line, LineReader, Lines, read, write};
use head_splits::{CutPrices, Prices, SlotPrices};
use std::alloc::Global;
use std::test::Fail;

/// A report with a plan and each kind of proof line.
const REPORT: &str =
    "shift-report 1\nstatus stopped\ncost 9\nbound 7\nrows 1\nrow 2 1 3 3+1,8+2\nproof 3\npriced 0 100 -200,0,50 5,0\nsplit 0 2 1 3+1,8+2 4\nsettled 2\nend\n";

/// Prices of three slots and two cuts at the scale 100.
fn prices(alloc: Global) -> Result<Prices, NoMemory>
    ensures { IfOk result (λ prices. 0 < length prices.slots) }
{
    Ok(Prices {
        q: 100,
        slots: SlotPrices::new(Vec::from_slice(alloc, &[-200, 0, 50])?),
        cuts: CutPrices::new(Vec::from_slice(alloc, &[5, 0])?),
    })
}

#[test]
fn a_report_is_read_and_written_again(rt: HostRuntime) -> Result<(), Fail> {
    let cert = read(rt.alloc(), REPORT.as_bytes())?;
    let found = write(rt.alloc(), &cert)?;
    assert_eq!(rt; found.as_slice(), REPORT.as_bytes());
    Ok(())
}

/// Two proof lines: a node that is settled, and prices.
fn two_lines(alloc: Global) -> Result<Lines, NoMemory> {
    let mut list = Vec::new(alloc);
    list.push(Line::Settled { node: 7 })?;
    list.push(Line::Priced {
        node: 0,
        prices: prices(alloc)?,
    })?;
    Lines::from_slice(alloc, &list)
}

/// What a proof line is.
#[derive(Clone, Copy, PartialEq, Eq)]
enum Kind {
    /// It settles this node.
    Settled(u32),
    Other,
}

/// What the next proof line is; nothing where none is left.
fn next_kind(alloc: Global, reader: &mut LineReader<'_>) -> Result<Option<Kind>, NoMemory> {
    let line = reader.next_line(alloc)?;
    Ok(line.map(|line| match line {
        Line::Settled { node } => Kind::Settled(node),
        _ => Kind::Other,
    }))
}

#[test]
fn proof_lines_are_read_one_after_another(rt: HostRuntime) -> Result<(), Fail> {
    let alloc = rt.alloc();
    let lines = two_lines(alloc)?;
    let mut reader = lines.reader();
    assert!(rt; next_kind(alloc, &mut reader)? == Some(Kind::Settled(7)));
    assert!(rt; (lines.len(), reader.len()) == (2, 1));
    assert!(rt; next_kind(alloc, &mut reader)?.is_some());
    assert!(rt; next_kind(alloc, &mut reader)?.is_none());
    Ok(())
}

#[test]
fn new_proof_lines_are_none(rt: HostRuntime) {
    assert_eq!(rt; Lines::new(rt.alloc()).len(), 0);
}
