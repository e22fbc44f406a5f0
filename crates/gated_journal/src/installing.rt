// A whole journal, written to an empty file.
ghost use Rattle.std.specs.Prelude.{◌≡◌, ◌+◌, ◌-◌, ◌^◌, ◌<◌, ◌≤◌, List, ℕ, [], ◌∷◌, ◌++◌, length, map, take, OnOk, IfErr, IfSome, OnSome, IsErrOf};
ghost use Rattle.plan_base.specs.Causes.{CountsFaults};
ghost use Rattle.plan_base.specs.Disk.{HoldsThroughout, IsSynced, TellsAlike};
ghost use Rattle.gated_journal.specs.Faults.{CreateFails};
ghost use Rattle.gated_journal.specs.Format.{spelled, IsUnfinishedOr};
ghost use Rattle.gated_journal.specs.Install.{IsUnfinishedOrThis};
ghost use Rattle.gated_journal.specs.View.{IsSettled};

use crate::fault::JournalFault;
use crate::file_bytes::whole_file;
use crate::stored::write_synced;
use plan_base::{Disk, Failed};
use std::alloc::Global;

// Writes a byte 0 in place of the first one, then the rest, and then the first one.
fn write_first_byte_last<D: Disk>(disk: &mut D, bytes: &[u8]) -> Result<(), Failed>
    requires count { D.calls disk.old < 2 ^ 62 + 2 ^ 40 }
    requires empty { IfSome (D.reads disk.old) (λ file. file ≡ []) }
    requires synced { IsSynced (D.reads disk.old) (D.images disk.old) }
    requires marked { take 1 bytes.now ≡ 83 ∷ [] }
    ensures done { OnOk result (IfSome (D.reads disk.new) (λ file. file ≡ bytes.now)) }
    ensures durable { OnOk result (IsSynced (D.reads disk.new) (D.images disk.new)) }
    ensures any_moment { OnSome (D.reads disk.old) (HoldsThroughout D.calls D.images_since disk.old disk.new (IsUnfinishedOrThis bytes.now)) }
    ensures six { OnOk result (D.calls disk.new ≡ D.calls disk.old + 6) }
    ensures least { D.calls disk.old < D.calls disk.new }
    ensures most { D.calls disk.new ≤ D.calls disk.old + 6 }
    ensures telling { TellsAlike (D.reads disk.old) (D.reads disk.new) }
    ensures cause { CountsFaults (D.faults disk.old) (D.faults disk.new) result }
{
    write_synced(disk, 0, &[0])?;
    write_synced(disk, 1, &bytes[1..])?;
    write_synced(disk, 0, &bytes[..1])
}

/// Writes a journal with all its records to an empty file that was synced: a byte 0 in place of the first one, then the
/// rest, and then the first one, with a sync after each. So whatever the moment of a crash, the file is refused or
/// whole. The limit is for clauses alone.
///
/// `DiskFault` comes only where the disk failed, and `NoMemory` before the first call on the disk.
pub fn install<D: Disk>(
    alloc: Global,
    disk: &mut D,
    head: &[u8],
    records: &[Vec<u8>],
    _limit: u32,
) -> Result<(), JournalFault>
    requires count { D.calls disk.old < 2 ^ 62 + 2 ^ 40 }
    requires empty { IfSome (D.reads disk.old) (λ file. file ≡ []) }
    requires synced { IsSynced (D.reads disk.old) (D.images disk.old) }
    requires room { length (spelled head.now (map (λ v. v.items) records.now)) + 1 ≤ _limit }
    requires most { _limit ≤ 2 ^ 26 }
    ensures settled { OnOk result (IsSettled (record { head = head.now; records = map (λ v. v.items) records.now; limit = _limit; spare = 0 }) (D.reads disk.new) (D.images disk.new)) }
    ensures file { OnOk result (IfSome (D.reads disk.new) (λ file. file ≡ spelled head.now (map (λ v. v.items) records.now) ++ 0 ∷ [])) }

    // Each image during the call is unfinished, or stands for the header and the records.
    ensures any_moment { OnSome (D.reads disk.old) (HoldsThroughout D.calls D.images_since disk.old disk.new (IsUnfinishedOr _limit head.now (map (λ v. v.items) records.now))) }
    ensures six { OnOk result (D.calls disk.new ≡ D.calls disk.old + 6) }
    ensures least { D.calls disk.old ≤ D.calls disk.new }
    ensures most { D.calls disk.new ≤ D.calls disk.old + 6 }
    ensures called { IsErrOf result JournalFault.DiskFault → D.calls disk.old < D.calls disk.new }
    ensures telling { TellsAlike (D.reads disk.old) (D.reads disk.new) }
    ensures cause { IfErr result (CreateFails (D.faults disk.old) (D.faults disk.new)) }
    ensures faults { D.faults disk.old ≤ D.faults disk.new }
    ensures no_memory { IsErrOf result JournalFault.NoMemory → disk.new ≡ disk.old }
{
    let bytes = whole_file(alloc, head, records)?;
    write_first_byte_last(disk, &bytes)?;
    Ok(())
}
