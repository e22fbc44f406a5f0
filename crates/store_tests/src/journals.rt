//! A journal on a disk in memory, which is put on and opened again.
ghost use Rattle.std.specs.Prelude.{◌≡◌, [], ◌∷◌, map, IfOk};

use gated_journal::{Journal, JournalFault, install};
use plan_base::{Disk, MemDisk};
use std::alloc::{AllocError, Global};
use std::test::Fail;

// The header 7 8 9 and the record 4 5.
const WHOLE: [u8; 23] = [
    b'S', b'H', b'I', b'F', b'T', b'J', b'2', b'\n', 3, 0, 0, 0, 7, 8, 9, 1, 2, 0, 0, 0, 4, 5, 0,
];

// The same journal in the first version.
const OLD: [u8; 23] = [
    b'S', b'H', b'I', b'F', b'T', b'J', b'1', b'\n', 3, 0, 0, 0, 7, 8, 9, 1, 2, 0, 0, 0, 4, 5, 0,
];

/// A disk with a journal of one record.
fn written_disk(alloc: Global) -> Result<MemDisk, JournalFault>
    ensures { IfOk result (λ disk. ⟦<MemDisk as Disk>⟧.calls disk ≡ 6) }
{
    let mut disk = MemDisk::new(alloc, Vec::new(alloc), Vec::new(alloc));
    let mut journal = Journal::create(alloc, &mut disk, &[7, 8, 9], 23)?;
    journal.reserve(2)?;
    journal.put(&mut disk, &[4, 5])?;
    Ok(disk)
}

/// Where the journal of a disk ends, its header and its records.
type Found = (u64, Vec<u8>, Vec<Vec<u8>>);

/// What is found in the journal of a disk.
fn found(alloc: Global, disk: &mut MemDisk) -> Result<Found, JournalFault>
    requires { ⟦<MemDisk as Disk>⟧.calls disk.old ≡ 6 }
{
    let (journal, head, records) = Journal::open(alloc, disk, 23)?;
    Ok((journal.end(), head, records))
}

#[test]
fn a_record_is_put_and_found_again(rt: HostRuntime) -> Result<(), Fail> {
    let alloc = rt.alloc();
    let mut disk = written_disk(alloc)?;
    assert_eq!(rt; disk.bytes(), WHOLE.as_slice());
    let (end, head, records) = found(alloc, &mut disk)?;
    assert_eq!(rt; end, 23);
    assert_eq!(rt; head.as_slice(), [7, 8, 9].as_slice());
    assert!(rt; records.len() == 1 && records[0].as_slice() == [4, 5].as_slice());
    Ok(())
}

/// The records of that journal.
fn records_of(alloc: Global) -> Result<Vec<Vec<u8>>, AllocError>
    ensures { IfOk result (λ records. map (λ r. r.items) records.items ≡ (4 ∷ 5 ∷ []) ∷ []) }
{
    let mut records = Vec::new(alloc);
    records.push(Vec::from_slice(alloc, &[4, 5])?)?;
    Ok(records)
}

/// An empty disk whose call of this number fails, after the journal was written to it or that failed; and whether it was.
fn installed(alloc: Global, call: u64) -> Result<(MemDisk, bool), Fail> {
    let records = records_of(alloc)?;
    let fails = vec![in alloc; call; 1]?;
    let mut disk = MemDisk::new(alloc, Vec::new(alloc), fails);
    match install(alloc, &mut disk, &[7, 8, 9], &records, 23) {
        Ok(()) => Ok((disk, true)),
        Err(JournalFault::DiskFault) => Ok((disk, false)),
        Err(_) => Err("no memory")?,
    }
}

/// Whether a disk opens to the journal; where it doesn't, it is no journal, nor one of the first version.
fn is_whole(alloc: Global, mut disk: MemDisk) -> Result<bool, Fail>
    requires { ⟦<MemDisk as Disk>⟧.calls disk ≡ 0 }
{
    match Journal::open(alloc, &mut disk, 23) {
        Ok((_journal, _head, records)) => Ok(records.len() == 1),
        Err(JournalFault::NotAJournal) => Ok(false),
        Err(_fault) => Err("it is refused for another fault")?,
    }
}

/// Whether the images after an installation whose call of this number failed open to the journal: that with all that was written, and
/// those with the first byte of the mark or another one in place of each byte since the last sync.
fn opened_after(alloc: Global, call: u64) -> Result<[bool; 3], Fail> {
    let (disk, _) = installed(alloc, call)?;
    Ok([
        is_whole(alloc, disk.image(None)?)?,
        is_whole(alloc, disk.image(Some(b'S'))?)?,
        is_whole(alloc, disk.image(Some(255))?)?,
    ])
}

#[test]
fn a_journal_is_installed_whole_or_refused(rt: HostRuntime) -> Result<(), Fail> {
    let alloc = rt.alloc();
    let (disk, whole) = installed(alloc, 7)?;
    assert!(rt; whole && disk.calls() == 6);
    assert_eq!(rt; disk.bytes(), WHOLE.as_slice());
    for call in 1..5 {
        assert!(rt; opened_after(alloc, call)? == [false, false, false]);
    }
    for call in 5..7 {
        assert!(rt; opened_after(alloc, call)? == [true, true, false]);
    }
    Ok(())
}

#[test]
fn a_journal_of_the_first_version_is_read_by_its_own_call_alone(
    rt: HostRuntime,
) -> Result<(), Fail> {
    let alloc = rt.alloc();
    let mut disk = MemDisk::new(alloc, Vec::from_slice(alloc, &OLD)?, Vec::new(alloc));
    assert!(rt;
        matches!(
            Journal::open(alloc, &mut disk, 23),
            Err(JournalFault::OldVersion)
        )
    );
    let (head, records) = Journal::open_v1(alloc, &mut disk, 23)?;
    assert_eq!(rt; head.as_slice(), [7, 8, 9].as_slice());
    assert!(rt; records.len() == 1 && records[0].as_slice() == [4, 5].as_slice());
    let mut new = MemDisk::new(alloc, Vec::from_slice(alloc, &WHOLE)?, Vec::new(alloc));
    assert!(rt;
        matches!(
            Journal::open_v1(alloc, &mut new, 23),
            Err(JournalFault::NotAJournal)
        )
    );
    Ok(())
}
