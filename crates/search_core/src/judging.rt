//! Why plans aren't allowed.
ghost use Rattle.std.specs.Prelude.{◌≡◌};
ghost use Rattle.search_core.specs.Faults.{plan_fault};

use crate::fault::StepFault;
use rota_cost::{legal_rows, recount};
use shift_instance::{Instance, Rows};

/// Why rows with that cost aren't better than a best rota, if they aren't.
pub(crate) fn plan_fault(
    instance: &Instance,
    rows: &Rows,
    cost: u64,
    best: u64,
) -> Option<StepFault>
    ensures { result ≡ plan_fault instance.now best rows.now cost }
{
    if let Err(fault) = legal_rows(instance, rows) {
        return Some(StepFault::NotLegal(fault));
    }
    let found = recount(instance, rows);
    if found != cost {
        return Some(StepFault::WrongCost { kept: cost, found });
    }
    if best <= cost {
        return Some(StepFault::NotBetter { best });
    }
    None
}
