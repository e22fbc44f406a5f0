//! Laws of the canonical text. Each function's contract is the law; the functions change nothing.
ghost use Rattle.std.specs.Prelude.{◌≡◌, ◌≤◌, ◌^◌, length, Ok};
ghost use Rattle.instance_json.specs.Canonical.{canonical_text};
ghost use Rattle.instance_json.specs.Reading.{reading_of};

use shift_instance::Instance;

/// The canonical text of an instance has at most 2^20 bytes, so that it isn't too long to be read again.
pub fn canonical_text_is_short(instance: &Instance)
    ensures short { length (canonical_text instance.now) ≤ 2 ^ 20 }
{
    let _parts = instance.parts();
}

/// The canonical text of an instance is read as that instance.
pub fn canonical_text_reads_back(instance: &Instance)
    ensures reads_back { reading_of (canonical_text instance.now) ≡ Ok instance.now }
{
    let _parts = instance.parts();
}
