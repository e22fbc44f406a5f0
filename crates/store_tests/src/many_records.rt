//! The state of many records, which one worker and several make again.
ghost use Rattle.std.specs.Prelude.{◌≤◌};

use fixtures::morning;
use recovery::{RebuildFault, rebuild};
use shift_instance::Instance;
use std::alloc::Global;
use std::process::Abort;
use std::test::Fail;
use std::thread::Threads;

/// How many records there are: more than a worker takes at once, and more than twice as many.
const RECORDS: usize = 150;

/// How many records are more than are read and judged before the posts of the first ones are added.
const RECORDS_OF_TWO_PARTS: usize = 16_500;

/// A record of no posts.
const NO_POSTS: [u8; 2] = [0, 0];

/// A record whose bytes spell no posts.
const NO_RECORD: [u8; 3] = [1, 0, 9];

/// A record of the plan of one duty of shift 0 on day 0 without breaks, at cost 3, by worker 0. A book takes it once.
const PLAN: [u8; 23] = [
    1, 0, // one post
    1, 0, 0, 3, 0, 0, 0, 0, 0, 0, 0, 1, 0, 0, 0, // the plan
    0, 0, 0, 1, 0, 0, // its row
];

/// So many records of no posts.
fn no_posts(alloc: Global, count: usize) -> Result<Vec<Vec<u8>>, Fail> {
    let mut records = Vec::new(alloc);
    for _ in 0..count {
        records.push(Vec::from_slice(alloc, &NO_POSTS)?)?;
    }
    Ok(records)
}

/// Puts the bytes of a record in the place of another.
fn put(
    alloc: Global,
    records: &mut Vec<Vec<u8>>,
    at_record: usize,
    bytes: &[u8],
) -> Result<(), Fail> {
    if at_record < records.len() {
        records[at_record] = Vec::from_slice(alloc, bytes)?;
    }
    Ok(())
}

/// A record of the split of the root into no duty of shift 0 on day 0 and at least one, by worker 0. A book takes it once.
const SPLIT: [u8; 15] = [1, 0, 3, 0, 0, 0, 0, 0, 0, 0, 0, 0, 0, 0, 0];

/// A record that settles the first part of that split, by worker 0.
const SETTLED: [u8; 9] = [1, 0, 4, 0, 0, 1, 0, 0, 0];

/// How many posts are in the state of the records, or else the number of the record that is rejected.
fn told<R: Threads + Sync>(
    rt: &R,
    alloc: Global,
    instance: &Instance,
    records: &[Vec<u8>],
    workers: u32,
) -> Result<Result<usize, u64>, Fail>
    requires some { 1 ≤ workers }
    requires sixteen { workers ≤ 16 }
{
    match rebuild(rt, alloc, instance, records, workers) {
        Ok(state) => Ok(Ok(state.history().len())),
        Err(RebuildFault::Rejected { at_record, why: _ }) => Ok(Err(at_record)),
        Err(RebuildFault::NoMemory) => Err("no memory")?,
    }
}

/// Whether up to sixteen workers are all told that of the records.
fn all_are_told<R: Threads + Sync>(
    rt: &R,
    alloc: Global,
    records: &[Vec<u8>],
    wanted: Result<usize, u64>,
) -> Result<bool, Fail> {
    let instance = morning(alloc)?;
    for workers in 1..17 {
        if told(rt, alloc, &instance, records, workers)? != wanted {
            return Ok(false);
        }
    }
    Ok(true)
}

#[test]
fn every_number_of_workers_makes_the_state_of_one(rt: HostRuntime) -> Result<(), Fail> {
    let alloc = rt.alloc();
    let mut records = no_posts(alloc, RECORDS)?;
    put(alloc, &mut records, 10, &SPLIT)?;
    put(alloc, &mut records, 80, &SETTLED)?;
    put(alloc, &mut records, 149, &PLAN)?;
    assert!(rt; all_are_told(&rt, alloc, &records, Ok(3))?);
    Ok(())
}

// A part isn't there before the split that makes it, and a node is split once.
#[test]
fn every_number_of_workers_judges_splits_in_their_order(rt: HostRuntime) -> Result<(), Fail> {
    let alloc = rt.alloc();
    let mut records = no_posts(alloc, RECORDS)?;
    put(alloc, &mut records, 70, &SETTLED)?;
    put(alloc, &mut records, 90, &SPLIT)?;
    assert!(rt; all_are_told(&rt, alloc, &records, Err(70))?);
    put(alloc, &mut records, 70, &SPLIT)?;
    assert!(rt; all_are_told(&rt, alloc, &records, Err(90))?);
    Ok(())
}

// The second plan is the first that isn't allowed; behind it a record spells no posts, which is found without the book.
#[test]
fn every_number_of_workers_tells_the_first_refusal(rt: HostRuntime) -> Result<(), Fail> {
    let alloc = rt.alloc();
    let mut records = no_posts(alloc, RECORDS)?;
    put(alloc, &mut records, 10, &PLAN)?;
    put(alloc, &mut records, 80, &PLAN)?;
    put(alloc, &mut records, 140, &NO_RECORD)?;
    assert!(rt; all_are_told(&rt, alloc, &records, Err(80))?);
    put(alloc, &mut records, 80, &NO_POSTS)?;
    assert!(rt; all_are_told(&rt, alloc, &records, Err(140))?);
    Ok(())
}

// What records of the first part make is there for those of the second, and their numbers go on.
#[test]
fn records_of_a_second_part_go_on_from_the_first(rt: HostRuntime) -> Result<(), Fail> {
    let alloc = rt.alloc();
    let instance = morning(alloc)?;
    let mut records = no_posts(alloc, RECORDS_OF_TWO_PARTS)?;
    put(alloc, &mut records, 10, &SPLIT)?;
    put(alloc, &mut records, 16_450, &SETTLED)?;
    put(alloc, &mut records, 16_460, &PLAN)?;
    assert!(rt; told(&rt, alloc, &instance, &records, 1)? == Ok(3));
    assert!(rt; told(&rt, alloc, &instance, &records, 5)? == Ok(3));
    put(alloc, &mut records, 16_470, &SPLIT)?;
    assert!(rt; told(&rt, alloc, &instance, &records, 5)? == Err(16_470));
    Ok(())
}
