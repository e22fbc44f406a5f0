// A write, and the sync that makes sure of it.
ghost use Rattle.std.specs.Prelude.{◌≡◌, ◌+◌, ◌-◌, ◌^◌, ◌<◌, ◌≤◌, length, OnOk, IfSome};
ghost use Rattle.std.specs.Option.{option_map};
ghost use Rattle.plan_base.specs.Causes.{CountsFaults};
ghost use Rattle.plan_base.specs.Disk.{overwritten, WritesPart, IsOnlyImage, IsSynced, TellsAlike, HoldsThroughout};

use plan_base::{Disk, Failed};

/// Writes and syncs. On a synced disk each image during the call is the file, with any bytes in the range.
pub(crate) fn write_synced<D: Disk>(disk: &mut D, at: u64, bytes: &[u8]) -> Result<(), Failed>
    requires count { D.calls disk.old < 2 ^ 63 - 1 }
    requires place { IfSome (D.reads disk.old) (λ file. at ≤ length file) }
    ensures written { OnOk result (D.reads disk.new ≡ option_map (overwritten at bytes.now) (D.reads disk.old)) }
    ensures durable { OnOk result (IsSynced (D.reads disk.new) (D.images disk.new)) }
    ensures any_moment { IsSynced (D.reads disk.old) (D.images disk.old) → IfSome (D.reads disk.old) (λ file. HoldsThroughout D.calls D.images_since disk.old disk.new (WritesPart at (length bytes.now) file)) }
    ensures telling { TellsAlike (D.reads disk.old) (D.reads disk.new) }
    ensures count { OnOk result (D.calls disk.new ≡ D.calls disk.old + 2) }
    ensures least { D.calls disk.old < D.calls disk.new }
    ensures most { D.calls disk.new ≤ D.calls disk.old + 2 }
    ensures cause { CountsFaults (D.faults disk.old) (D.faults disk.new) result }
{
    disk.write_at(at, bytes)?;
    disk.sync()?;
    Ok(())
}
