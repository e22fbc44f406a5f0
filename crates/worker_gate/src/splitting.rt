//! Advised splits.
ghost use Rattle.std.specs.Prelude.{◌≡◌, IfOk};
ghost use Rattle.worker_gate.specs.Decision.{is_split, lawful_split};

use advice::Splitting;
use break_rules::NoMemory;
use head_splits::{Cuts, is_live_class, range};
use shift_instance::Instance;
use std::alloc::Global;

/// Whether a split is one of a node with these cuts: its class is live, and they leave its number open there.
fn is_split(
    alloc: Global,
    instance: &Instance,
    cuts: &Cuts,
    split: &Splitting,
) -> Result<bool, NoMemory>
    ensures { IfOk result (λ answer. answer ≡ is_split instance.now cuts.now split.now) }
{
    let (low, high) = range(instance, cuts, &split.class);
    Ok(is_live_class(alloc, instance, &split.class)? && low <= split.m && split.m < high)
}

/// The advised split, where there is one and it is one of a node with these cuts.
pub(crate) fn lawful_split(
    alloc: Global,
    instance: &Instance,
    cuts: &Cuts,
    advised: Option<Splitting>,
) -> Result<Option<Splitting>, NoMemory>
    ensures { IfOk result (λ split. split ≡ lawful_split instance.now cuts.now advised) }
{
    let Some(split) = advised else {
        return Ok(None);
    };
    if is_split(alloc, instance, cuts, &split)? {
        Ok(Some(split))
    } else {
        Ok(None)
    }
}
