//! Records of the first version, spelled anew.
use fixtures::morning;
use recovery::{migrate_records, rebuild};
use std::alloc::Global;
use std::test::Fail;

/// Two posts by worker 0: the plan of one duty of shift 0 on day 0 without breaks, at cost 3, and prices of scale 1 for node 0, up to
/// their number of 24 slots.
const PLAN_AND_PRICES: [u8; 36] = [
    2, 0, // two posts
    1, 0, 0, 3, 0, 0, 0, 0, 0, 0, 0, 1, 0, 0, 0, // the plan
    0, 0, 0, 1, 0, 0, // its row
    2, 0, 0, 0, 0, 0, 0, 1, 0, 24, 0, 0, 0, // the prices
];

/// The record of these posts, with prices of so many bytes: 2 for the slots with a need, and else 0, and none of cuts.
fn record(alloc: Global, width: usize) -> Result<Vec<u8>, Fail> {
    let mut bytes = Vec::from_slice(alloc, &PLAN_AND_PRICES)?;
    for slot in 0u8..24 {
        let price = if slot >= 8 && slot < 12 { 2 } else { 0 };
        bytes.push(price)?;
        for _ in 1..width {
            bytes.push(0)?;
        }
    }
    bytes.extend_from_slice(&[0, 0, 0, 0])?;
    Ok(bytes)
}

#[test]
fn a_record_of_the_first_version_is_spelled_anew(rt: HostRuntime) -> Result<(), Fail> {
    let alloc = rt.alloc();
    let instance = morning(alloc)?;
    let mut old = Vec::new(alloc);
    old.push(record(alloc, 8)?)?;
    let new = migrate_records(&rt, alloc, &instance, &old, 2)
        .ok()
        .ok_or("they aren't taken")?;
    assert_eq!(rt; new.len(), 1);
    assert_eq!(rt; new[0].as_slice(), record(alloc, 5)?.as_slice());
    let state = rebuild(&rt, alloc, &instance, &new, 2)
        .ok()
        .ok_or("they aren't taken")?;
    assert_eq!(rt; state.history().len(), 2);
    Ok(())
}
