//! A run of one step that is grafted into the report.
ghost use Rattle.std.specs.Prelude.{◌≡◌, ◌≤◌, ◌^◌, length, IfOk};

use crate::split_morning::{one_step, prices, report};
use certificate::Cert;
use fixtures::morning_of;
use report_grafts::{SubRun, export, graft};
use shift_instance::Instance;
use std::alloc::Global;
use std::test::Fail;

/// A run of one step below node 2 of a report, at the price -1 for each hour of the morning, which looks for rotas cheaper than 3.
fn run_below(alloc: Global, instance: &Instance, whole: &Cert) -> Result<SubRun, Fail>
    ensures { IfOk result (λ run. run.instance ≡ instance.now) }
{
    match export(alloc, instance, whole, 2) {
        Ok(cuts) => one_step(alloc, instance, cuts, prices(alloc, -1)?, 3),
        Err(_) => Err("it isn't exported".into()),
    }
}

/// The cost, the bound and the number of lines of the report with a run grafted at node 2.
fn grafted(
    alloc: Global,
    instance: &Instance,
    whole: &Cert,
    run: &SubRun,
) -> Result<(Option<u64>, u64, usize), Fail>
    requires same { run.now.instance ≡ instance.now }
    requires few { length whole.now.lines ≤ 2 ^ 28 }
{
    match graft(alloc, instance, whole, 2, run) {
        Ok(cert) => {
            let cost = cert.plan.as_ref().map(|plan| plan.0);
            Ok((cost, cert.bound, cert.lines.len()))
        }
        Err(_) => Err("it isn't grafted".into()),
    }
}

// Below at least two duties the prices -1 of the four hours show 7: 3 for the shift, and 8 - 4 for the hours. Below at most one nothing is shown
// yet.
#[test]
fn a_run_is_grafted(rt: HostRuntime) -> Result<(), Fail> {
    let alloc = rt.alloc();
    let (instance, whole) = (morning_of(alloc, "2")?, report(alloc)?);
    let run = run_below(alloc, &instance, &whole)?;
    assert!(rt; grafted(alloc, &instance, &whole, &run)? == (Some(3), 0, 3));
    Ok(())
}
