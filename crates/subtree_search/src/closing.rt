//! How a node is closed that its bound leaves open.
ghost use Rattle.std.specs.Prelude.{◌≡◌, IfOk};
ghost use Rattle.subtree_search.specs.Stepping.{is_lawful, lawful_split, IsClosing};

use advice::Splitting;
use break_rules::NoMemory;
use dual_bound::{Fixing, settle};
use head_splits::{Cuts, is_live_class, range};
use shift_instance::Instance;
use std::alloc::Global;

/// Whether a split is one of a node with these cuts: its class is live, and they leave its number open there.
fn is_lawful(
    alloc: Global,
    instance: &Instance,
    cuts: &Cuts,
    split: &Splitting,
) -> Result<bool, NoMemory>
    ensures { IfOk result (λ answer. answer ≡ is_lawful instance.now cuts.now split.now) }
{
    let (low, high) = range(instance, cuts, &split.class);
    Ok(is_live_class(alloc, instance, &split.class)? && low <= split.m && split.m < high)
}

/// The advised split, where there is one and it is one of a node with these cuts.
fn lawful_split(
    alloc: Global,
    instance: &Instance,
    cuts: &Cuts,
    advised: Option<Splitting>,
) -> Result<Option<Splitting>, NoMemory>
    ensures { IfOk result (λ split. split ≡ lawful_split instance.now cuts.now advised) }
{
    let Some(split) = advised else {
        return Ok(None);
    };
    if is_lawful(alloc, instance, cuts, &split)? {
        Ok(Some(split))
    } else {
        Ok(None)
    }
}

/// The settled node with these cuts, or else a split: the advised one where it is lawful, and else the one that settling the cuts
/// gives.
pub(crate) fn closing_of(
    alloc: Global,
    instance: &Instance,
    cuts: Cuts,
    advised: Option<Splitting>,
) -> Result<Fixing, NoMemory>
    ensures { IfOk result (IsClosing instance.now cuts advised) }
{
    let split = lawful_split(alloc, instance, &cuts, advised)?;
    match settle(alloc, instance, cuts)? {
        Fixing::Done(node) => Ok(Fixing::Done(node)),
        Fixing::Open { class, m } => match split {
            Some(Splitting { class, m }) => Ok(Fixing::Open { class, m }),
            None => Ok(Fixing::Open { class, m }),
        },
    }
}
