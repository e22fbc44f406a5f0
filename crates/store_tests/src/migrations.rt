//! Runs of a migration. Whole programs are tried by the cases beside the crates.

ghost use Rattle.std.specs.Prelude.{◌≡◌};

use gated_journal::{JOURNAL_MAX, Journal, JournalFault};
use migrate_runs::{MigrateStatus, migrate_run};
use plan_base::{Disk, MemDisk, MemSink};
use std::alloc::Global;
use std::test::Fail;
use std::thread::Threads;

/// The canonical text of the morning.
const HEAD: &str =
    "{\"days\":1,\"max_heads\":1,\"need\":[0,0,0,0,0,0,0,0,1,1,1,1,0,0,0,0,0,0,0,0,0,0,0,0],\"slot_minutes\":60,\"types\":[{\"breaks\":{\"lead\":0,\"long_rest\":1,\"long_work\":288,\"lunches\":[],\"resettle\":0,\"size_max\":48,\"size_min\":1,\"tail\":0,\"totals\":[],\"work_max\":288,\"work_min\":1},\"len_max\":4,\"len_min\":4,\"name\":\"M\",\"start_max\":8,\"start_min\":8}],\"weights\":{\"excess\":1,\"shift\":3,\"shortage\":2}}";

/// Two posts by worker 0: the plan of one duty of shift 0 on day 0 without breaks, at cost 3, and prices of scale 1 for node 0, up to
/// their number of 24 slots.
const PLAN_AND_PRICES: [u8; 36] = [
    2, 0, // two posts
    1, 0, 0, 3, 0, 0, 0, 0, 0, 0, 0, 1, 0, 0, 0, // the plan
    0, 0, 0, 1, 0, 0, // its row
    2, 0, 0, 0, 0, 0, 0, 1, 0, 24, 0, 0, 0, // the prices
];

/// A version of journals: the digit in its mark, how many bytes a price takes, and how long the record of those posts is.
#[derive(Clone, Copy)]
struct Version {
    digit: u8,
    width: usize,
    record: u8,
}

const FIRST: Version = Version {
    digit: b'1',
    width: 8,
    record: 232,
};

const PRESENT: Version = Version {
    digit: b'2',
    width: 5,
    record: 160,
};

/// The journal of the morning with the record of those posts: its prices are 2 in the slots with a need and else 0, and it has none of
/// cuts.
fn journal(alloc: Global, version: Version) -> Result<Vec<u8>, Fail> {
    let mut bytes = Vec::from_slice(alloc, b"SHIFTJ".as_slice())?;
    bytes.extend_from_slice(&[version.digit, b'\n', 116, 1, 0, 0])?;
    bytes.extend_from_slice(HEAD.as_bytes())?;
    bytes.extend_from_slice(&[1, version.record, 0, 0, 0])?;
    bytes.extend_from_slice(&PLAN_AND_PRICES)?;
    for slot in 0u8..24 {
        let price = if slot >= 8 && slot < 12 { 2 } else { 0 };
        bytes.push(price)?;
        for _ in 1..version.width {
            bytes.push(0)?;
        }
    }
    bytes.extend_from_slice(&[0, 0, 0, 0, 0])?;
    Ok(bytes)
}

/// The calls that fail in a run, by their numbers from 1 on: one on the old file's disk, one on the new file's, and one on the sink; 0 for
/// none.
#[derive(Clone, Copy)]
struct Faults {
    old: u64,
    new: u64,
    write: u64,
}

/// No call fails.
const NONE: Faults = Faults {
    old: 0,
    new: 0,
    write: 0,
};

/// How a run ended, and what it left.
#[derive(Drop)]
struct Ran {
    status: MigrateStatus,
    old: MemDisk,
    new: MemDisk,
    sink: MemSink,
}

/// A run over the journal of the first version and an empty file. A write of the line takes at most 5 bytes.
fn run<R: Threads + Sync>(rt: &R, alloc: Global, faults: Faults) -> Result<Ran, Fail> {
    let words = vec![in alloc;
        String::from_str(alloc, "OLD")?,
        String::from_str(alloc, "NEW")?,
    ]?;
    let mut old = MemDisk::new(alloc, journal(alloc, FIRST)?, vec![in alloc; faults.old]?);
    let mut new = MemDisk::new(alloc, Vec::new(alloc), vec![in alloc; faults.new]?);
    let mut sink = MemSink::new(alloc, vec![in alloc; faults.write]?, 5);
    let status = migrate_run(rt, alloc, words.as_slice(), &mut old, &mut new, &mut sink);
    Ok(Ran {
        status,
        old,
        new,
        sink,
    })
}

#[test]
fn a_journal_is_carried_over(rt: HostRuntime) -> Result<(), Fail> {
    let alloc = rt.alloc();
    let ran = run(&rt, alloc, NONE)?;
    assert!(rt; matches!(ran.status, MigrateStatus::Migrated));
    assert_eq!(rt;
        ran.sink.bytes(),
        b"migrated records 1 posts 2\n".as_slice()
    );
    assert_eq!(rt; ran.new.bytes(), journal(alloc, PRESENT)?.as_slice());
    assert_eq!(rt; ran.new.bytes().len(), 550);
    assert_eq!(rt; ran.new.calls(), 8);
    assert_eq!(rt; ran.old.bytes(), journal(alloc, FIRST)?.as_slice());
    assert_eq!(rt; ran.old.bytes().len(), 622);
    Ok(())
}

/// Whether a disk opens to the journal; where it doesn't, it is no journal.
fn is_whole(alloc: Global, mut disk: MemDisk) -> Result<bool, Fail>
    requires { ⟦<MemDisk as Disk>⟧.calls disk ≡ 0 }
{
    match Journal::open(alloc, &mut disk, JOURNAL_MAX) {
        Ok((_journal, _head, records)) => Ok(records.len() == 1),
        Err(JournalFault::NotAJournal) => Ok(false),
        Err(_fault) => Err("it is refused for another fault")?,
    }
}

/// Whether the images of the new file open to the journal after a run in which its call of this number failed: that with all that was
/// written, and those with the first byte of the mark or another one in place of each byte since the last sync.
fn opened_after<R: Threads + Sync>(rt: &R, alloc: Global, call: u64) -> Result<[bool; 3], Fail> {
    let ran = run(
        rt,
        alloc,
        Faults {
            old: 0,
            new: call,
            write: 0,
        },
    )?;
    if !matches!(ran.status, MigrateStatus::DiskFault) || !ran.sink.bytes().is_empty() {
        return Err("the fault isn't told")?;
    }
    Ok([
        is_whole(alloc, ran.new.image(None)?)?,
        is_whole(alloc, ran.new.image(Some(b'S'))?)?,
        is_whole(alloc, ran.new.image(Some(255))?)?,
    ])
}

#[test]
fn a_failing_new_file_is_refused_or_whole(rt: HostRuntime) -> Result<(), Fail> {
    let alloc = rt.alloc();
    for call in 1..7 {
        assert!(rt; opened_after(&rt, alloc, call)? == [false, false, false]);
    }
    for call in 7..9 {
        assert!(rt; opened_after(&rt, alloc, call)? == [true, true, false]);
    }
    Ok(())
}

#[test]
fn a_failing_old_file_leaves_the_new_one_alone(rt: HostRuntime) -> Result<(), Fail> {
    let alloc = rt.alloc();
    for call in 1..4 {
        let faults = Faults { old: call, ..NONE };
        let ran = run(&rt, alloc, faults)?;
        assert!(rt; matches!(ran.status, MigrateStatus::DiskFault));
        assert_eq!(rt; ran.new.calls(), 0);
        assert_eq!(rt; ran.old.bytes(), journal(alloc, FIRST)?.as_slice());
    }
    Ok(())
}

#[test]
fn a_failing_write_leaves_the_beginning_of_the_line(rt: HostRuntime) -> Result<(), Fail> {
    let alloc = rt.alloc();
    let ran = run(&rt, alloc, Faults { write: 3, ..NONE })?;
    assert!(rt; matches!(ran.status, MigrateStatus::WriteFault));
    assert_eq!(rt; ran.sink.bytes(), b"migrated r".as_slice());
    assert_eq!(rt; ran.new.bytes(), journal(alloc, PRESENT)?.as_slice());
    Ok(())
}
