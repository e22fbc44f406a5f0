// A disk as it is, made sure of.
ghost use Rattle.std.specs.Prelude.{◌≡◌, ◌+◌, ◌-◌, ◌^◌, ◌<◌, ◌≤◌, length, OnOk, IfOk, IfSome};
ghost use Rattle.plan_base.specs.Causes.{CountsFaults};
ghost use Rattle.plan_base.specs.Disk.{IsSynced, OnlyLooks};

use plan_base::{Disk, Failed};

// A sync, as a call that only looks.
fn sync_first<D: Disk>(disk: &mut D) -> Result<(), Failed>
    requires { D.calls disk.old < 2 ^ 63 }
    ensures synced { OnOk result (IsSynced (D.reads disk.new) (D.images disk.new)) }
    ensures looks { OnlyLooks D.reads D.images D.images_since D.calls disk.old disk.new }
    ensures count { D.calls disk.new ≡ D.calls disk.old + 1 }
    ensures cause { CountsFaults (D.faults disk.old) (D.faults disk.new) result }
{
    disk.sync()?;
    Ok(())
}

// The length, asked by a call that only looks.
fn length_of<D: Disk>(disk: &mut D) -> Result<u64, Failed>
    requires { D.calls disk.old < 2 ^ 63 }
    ensures length { IfOk result (λ n. IfSome (D.reads disk.old) (λ file. n ≡ length file)) }
    ensures looks { OnlyLooks D.reads D.images D.images_since D.calls disk.old disk.new }
    ensures count { D.calls disk.new ≡ D.calls disk.old + 1 }
    ensures cause { CountsFaults (D.faults disk.old) (D.faults disk.new) result }
{
    disk.len()
}

/// Syncs, so that what the disk reads is its only image, and answers the file's length in bytes. It changes nothing.
pub fn settle<D: Disk>(disk: &mut D) -> Result<u64, Failed>
    requires { D.calls disk.old < 2 ^ 63 - 1 }
    ensures length { IfOk result (λ n. IfSome (D.reads disk.old) (λ file. n ≡ length file)) }
    ensures synced { OnOk result (IsSynced (D.reads disk.new) (D.images disk.new)) }
    ensures looks { OnlyLooks D.reads D.images D.images_since D.calls disk.old disk.new }
    ensures two { OnOk result (D.calls disk.new ≡ D.calls disk.old + 2) }
    ensures most { D.calls disk.new ≤ D.calls disk.old + 2 }
    ensures cause { CountsFaults (D.faults disk.old) (D.faults disk.new) result }
{
    sync_first(disk)?;
    length_of(disk)
}
