//! Which classes have duties.
ghost use Rattle.std.specs.Prelude.{◌≡◌, IfOk};
ghost use Rattle.head_splits.specs.Settled.{is_live_class};

use crate::Class;
use break_rules::NoMemory;
use shift_instance::Instance;
use std::alloc::Global;

/// Whether some legal duty is of a class: its shift and its day are those of the instance, and some legal break list of the
/// shift begins with its prefix.
pub fn is_live_class(alloc: Global, instance: &Instance, class: &Class) -> Result<bool, NoMemory>
    ensures live { IfOk result (λ answer. answer ≡ is_live_class instance.now class.now) }
{
    if instance.days() <= class.day || instance.shifts().len() <= usize::from(class.shift) {
        return Ok(false);
    }
    instance.is_live(alloc, class.shift, class.prefix.as_slice())
}
