// The bytes of a disk from its start, in pieces.
ghost use Rattle.std.specs.Prelude.{◌≡◌, ◌+◌, ◌-◌, ◌^◌, ◌<◌, ◌≤◌, List, ℕ, length, take, false, true, IfOk, IfErr, IfSome};
ghost use Rattle.plan_base.specs.Disk.{OnlyLooks};
ghost use Rattle.gated_journal.specs.Faults.{CreateFails};

use crate::fault::JournalFault;
use plan_base::Disk;
use std::alloc::{AllocError, Global};

// How many bytes one read asks for.
const PIECE: usize = 65536;

// A buffer of this many bytes.
fn buffer(alloc: Global, count: usize) -> Result<Vec<u8>, AllocError>
    ensures { IfOk result (λ bytes. length bytes.items ≡ count) }
{
    vec![in alloc; 0u8; count]
}

// Reads more of the first `len` bytes, and tells whether there were any.
fn read_more<D: Disk>(
    disk: &mut D,
    bytes: &mut Vec<u8>,
    len: usize,
    chunk: &mut [u8],
) -> Result<bool, JournalFault>
    requires count { D.calls disk.old < 2 ^ 63 }
    requires room { 0 < length chunk.old }
    requires place { length bytes.old.items < len }
    ensures bytes { IfOk result (λ more. IfSome (D.reads disk.old) (λ file. bytes.old.items ≡ take (length bytes.old.items) file → bytes.new.items ≡ take (length bytes.new.items) file)) }
    ensures end { IfOk result (λ more. more ≡ false → IfSome (D.reads disk.old) (λ file. length file ≤ length bytes.old.items)) }
    ensures same { IfOk result (λ more. more ≡ false → bytes.new.items ≡ bytes.old.items) }
    ensures grows { IfOk result (λ more. more ≡ true → length bytes.old.items < length bytes.new.items) }
    ensures bound { IfOk result (λ more. length bytes.new.items ≤ len) }
    ensures looks { OnlyLooks D.reads D.images D.images_since D.calls disk.old disk.new }
    ensures count { D.calls disk.new ≡ D.calls disk.old + 1 }
    ensures cause { IfErr result (CreateFails (D.faults disk.old) (D.faults disk.new)) }
    ensures faults { D.faults disk.old ≤ D.faults disk.new }
{
    let got = disk.read_at(bytes.len() as u64, chunk)?;
    let count = got.min(len - bytes.len());
    bytes.extend_from_slice(&chunk[..count])?;
    Ok(count > 0)
}

/// The first `len` bytes, or those up to a read that gives none.
pub(crate) fn read_front<D: Disk>(
    alloc: Global,
    disk: &mut D,
    len: usize,
) -> Result<Vec<u8>, JournalFault>
    requires { D.calls disk.old + len + 1 < 2 ^ 63 }
    ensures bytes { IfOk result (λ bytes. IfSome (D.reads disk.old) (λ file. bytes.items ≡ take len file)) }
    ensures short { IfOk result (λ bytes. length bytes.items ≤ len) }
    ensures looks { OnlyLooks D.reads D.images D.images_since D.calls disk.old disk.new }
    ensures most { D.calls disk.new ≤ D.calls disk.old + len + 1 }
    ensures cause { IfErr result (CreateFails (D.faults disk.old) (D.faults disk.new)) }
    ensures faults { D.faults disk.old ≤ D.faults disk.new }
{
    let mut room = buffer(alloc, PIECE)?;
    let chunk: &mut [u8] = &mut room;
    let mut bytes = Vec::new(alloc);
    'pieces: while bytes.len() < len {
        if !read_more(disk, &mut bytes, len, chunk)? {
            return Ok(bytes);
        }
    }
    Ok(bytes)
}
