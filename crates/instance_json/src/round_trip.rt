//! From an instance to its canonical text, and back.
ghost use Rattle.std.specs.Prelude.{◌≡◌, IfOk};

use crate::laws::canonical_text_reads_back;
use crate::{ReadRefusal, canonical, read};
use shift_instance::Instance;
use std::alloc::{AllocError, Global};

/// Writes the canonical text of an instance and reads it: the same instance again. Running out of memory is the one refusal.
pub fn read_back(alloc: Global, instance: &Instance) -> Result<Instance, AllocError>
    ensures { IfOk result (λ i. i ≡ instance.now) }
{
    canonical_text_reads_back(instance);
    let text = canonical(alloc, instance)?;
    match read(alloc, text.as_slice()) {
        Ok(again) => Ok(again),
        Err(ReadRefusal::NoMemory) => Err(AllocError),
        Err(_) => unreachable!(),
    }
}
