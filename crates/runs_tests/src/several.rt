//! Reports that several workers judge, beside their judgement by one.

use cert_check::{Accepted, Refused, check, check_by};
use fixtures::morning;
use std::alloc::{AllocError, Global};
use std::test::Fail;
use std::thread::Threads;

/// The lines before the proof lines, of which there are 303.
const HEAD: &str =
    "shift-report 1\nstatus optimal\ncost 3\nbound 3\nrows 1\nrow 0 0 1 -\nproof 303\n";

/// Node 0 with price 0 everywhere, and its split at no duty.
const FIRST: &str =
    "priced 0 1 0,0,0,0,0,0,0,0,0,0,0,0,0,0,0,0,0,0,0,0,0,0,0,0 -\nsplit 0 0 0 - 0\n";

/// Node 2 with price 0 everywhere: its duty costs 3.
const PRICED: &str = "priced 2 1 0,0,0,0,0,0,0,0,0,0,0,0,0,0,0,0,0,0,0,0,0,0,0,0 0\n";

/// The same with a price that no slot can have.
const OVERPRICED: &str = "priced 2 1 0,0,0,0,0,0,0,0,9,0,0,0,0,0,0,0,0,0,0,0,0,0,0,0 0\n";

/// The text of a report of 303 proof lines, of which those with these numbers, between 3 and 303, have a price that none can have.
fn report(alloc: Global, bad: &[u64]) -> Result<String, AllocError> {
    let mut text = String::from_str(alloc, HEAD)?;
    text.push_str(FIRST)?;
    for line in 3u64..303 {
        let priced = if bad.contains(&line) {
            OVERPRICED
        } else {
            PRICED
        };
        text.push_str(priced)?;
    }
    text.push_str("settled 1\nend\n")?;
    Ok(text)
}

/// Whether one worker, several ones and the function for one alone judge a report of these bad lines so.
fn are_judged<R: Threads + Sync>(
    rt: &R,
    alloc: Global,
    bad: &[u64],
    wanted: Result<Accepted, Refused>,
) -> Result<bool, Fail> {
    let instance = morning(alloc)?;
    let text = report(alloc, bad)?;
    let cert = certificate::read(alloc, text.as_bytes())?;
    for workers in [1, 2, 4, 16u32] {
        if check_by(rt, alloc, &instance, &cert, workers) != wanted {
            return Ok(false);
        }
    }
    Ok(check(alloc, &instance, &cert) == wanted)
}

#[test]
fn a_good_report_is_accepted(rt: HostRuntime) -> Result<(), Fail> {
    let accepted = Accepted {
        cost: Some(3),
        bound: 3,
    };
    assert!(rt; are_judged(&rt, rt.alloc(), &[], Ok(accepted))?);
    Ok(())
}

#[test]
fn the_first_bad_line_is_told(rt: HostRuntime) -> Result<(), Fail> {
    let alloc = rt.alloc();
    // workers take 64 lines at a time
    assert!(rt; are_judged(&rt, alloc, &[3], Err(Refused::BadPrice { line: 3 }))?);
    assert!(rt; are_judged(&rt, alloc, &[70, 150], Err(Refused::BadPrice { line: 70 }))?);
    assert!(rt;
        are_judged(
            &rt,
            alloc,
            &[130, 131, 290],
            Err(Refused::BadPrice { line: 130 })
        )?
    );
    assert!(rt; are_judged(&rt, alloc, &[302], Err(Refused::BadPrice { line: 302 }))?);
    Ok(())
}
