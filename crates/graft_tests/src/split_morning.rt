//! A report of a search of the morning with two employees at most, and runs of one step.
ghost use Rattle.std.specs.Prelude.{◌≡◌, ◌≤◌, ◌^◌, ◌∷◌, [], length, IfOk};
ghost use Rattle.certificate.specs.declared.proof_lines.Line.TheVariants.{Priced as PricedLine};

use break_rules::NoMemory;
use certificate::{Cert, Line, Lines};
use dual_bound::prove;
use head_splits::{CutPrices, Cuts, Prices, SlotPrices};
use report_grafts::SubRun;
use shift_instance::Instance;
use std::alloc::Global;
use std::test::Fail;

/// A search that priced the root and split it: node 1 has at most one duty, and node 2 at least two.
const REPORT: &str =
    "shift-report 1\nstatus stopped\ncost 3\nbound 0\nrows 1\nrow 0 0 1 -\nproof 2\npriced 0 1 0,0,0,0,0,0,0,0,2,2,2,2,0,0,0,0,0,0,0,0,0,0,0,0 -\nsplit 0 0 0 - 1\nend\n";

/// The certificate of the report.
pub fn report(alloc: Global) -> Result<Cert, Fail>
    ensures { IfOk result (λ cert. length cert.lines ≤ 2 ^ 28) }
{
    let cert = certificate::read(alloc, REPORT.as_bytes())?;
    if cert.lines.len() > 1 << 28 {
        return Err("it has many lines".into());
    }
    Ok(cert)
}

/// Prices at scale 1 below one cut: this for each hour from 8 to 12, and 0 for all others and for the cut.
pub fn prices(alloc: Global, hour: i64) -> Result<Prices, NoMemory> {
    let mut hours = [0i64; 24];
    hours[8..12].fill(hour);
    Ok(Prices {
        q: 1,
        slots: SlotPrices::new(Vec::from_slice(alloc, &hours)?),
        cuts: CutPrices::new(Vec::from_slice(alloc, &[0u64])?),
    })
}

/// The one proof line of a run that priced its node once.
fn one_line(alloc: Global, prices: Prices) -> Result<Lines, NoMemory>
    ensures { IfOk result (λ lines. lines ≡ PricedLine 0 prices ∷ []) }
{
    let lines = vec![in alloc; Line::Priced { node: 0, prices }]?;
    Lines::from_slice(alloc, &lines)
}

/// A run below some cuts that priced its node once, and found no rota cheaper than the limit.
pub fn one_step(
    alloc: Global,
    instance: &Instance,
    base: Cuts,
    prices: Prices,
    limit: u64,
) -> Result<SubRun, Fail>
    ensures { IfOk result (λ run. run.instance ≡ instance.now) }
{
    if base.len() > 1 {
        return Err("there are more cuts".into());
    }
    let proved = prove(alloc, instance, base, prices)?;
    let floor = limit.min(proved.bound());
    let (base, prices) = proved.into_parts();
    let lines = one_line(alloc, prices)?;
    Ok(SubRun::new(instance, base, limit, None, lines, 1, floor))
}
