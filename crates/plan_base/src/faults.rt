// Failed calls, and the count of them that each object of the outside keeps.
ghost use Rattle.std.specs.Prelude.{◌≡◌, ◌≤◌, ◌↔◌, IsErr, Contains};
ghost use Rattle.plan_base.specs.Causes.{CountsFaults, Rose, next_count};

use thiserror::Error;

/// A call on the outside has failed.
#[derive(Clone, Copy, Debug, PartialEq, Eq, Error)]
#[error("a call on the outside failed")]
pub struct Failed;

// Counts one fault more.
pub(crate) fn count_fault(faults: &mut u64) -> Failed
    ensures counted { faults.new ≡ next_count faults.old }
    ensures grows { faults.old ≤ faults.new }
    ensures rose { Rose faults.old faults.new }
{
    *faults = faults.saturating_add(1);
    Failed
}

// What a call with this number answers: it fails exactly where its number is listed.
pub(crate) fn answer(fails: &[u64], call: u64, faults: &mut u64) -> Result<(), Failed>
    ensures cause { CountsFaults faults.old faults.new result }
    ensures listed { IsErr result ↔ Contains fails.now call }
{
    if fails.contains(&call) {
        return Err(count_fault(faults));
    }
    Ok(())
}
