// What no clause says: that memory is found. The cases are worked out by hand.

use crate::{Verdict, check, of_set};
use ss_base::{CallNo, Lane, LaneLog, ObjectId, Run, SetId};
use std::alloc::{AllocError, Global};
use std::test::Fail;

// The run of a call of epoch 1 on the object whose number is that of the set.
fn run(call: u64, set: u32) -> Run {
    Run {
        call: CallNo(call),
        epoch: 1,
        set: SetId(u64::from(set)),
        object: ObjectId(set),
    }
}

fn log(alloc: Global, runs: &[Run]) -> Result<LaneLog, AllocError> {
    let mut copied = Vec::with_capacity(alloc, runs.len())?;
    for run in runs {
        copied.push(*run)?;
    }
    Ok(LaneLog { runs: copied })
}

#[test]
fn logs_that_are_what_was_sent_are_good(rt: HostRuntime) -> Result<(), Fail> {
    let sent = [run(3, 0), run(4, 1), run(5, 0)];
    let logs = [
        log(rt.alloc(), &[run(3, 0), run(5, 0)])?,
        log(rt.alloc(), &[run(4, 1)])?,
    ];
    assert_eq!(rt; check(&sent, 2, &logs), Verdict::Good);
    Ok(())
}

#[test]
fn two_runs_exchanged_are_bad(rt: HostRuntime) -> Result<(), Fail> {
    let sent = [run(3, 0), run(4, 1), run(5, 0)];
    let logs = [
        log(rt.alloc(), &[run(5, 0), run(3, 0)])?,
        log(rt.alloc(), &[run(4, 1)])?,
    ];
    let bad = Verdict::Bad {
        lane: Lane(0),
        place: 0,
        wanted: Some(run(3, 0)),
        found: Some(run(5, 0)),
    };
    assert_eq!(rt; check(&sent, 2, &logs), bad);
    Ok(())
}

#[test]
fn a_log_that_ends_too_soon_is_bad(rt: HostRuntime) -> Result<(), Fail> {
    let sent = [run(3, 0), run(4, 1)];
    let logs = [log(rt.alloc(), &[run(3, 0)])?, log(rt.alloc(), &[])?];
    let bad = Verdict::Bad {
        lane: Lane(1),
        place: 0,
        wanted: Some(run(4, 1)),
        found: None,
    };
    assert_eq!(rt; check(&sent, 2, &logs), bad);
    Ok(())
}

#[test]
fn the_calls_of_a_set_stand_in_the_order_of_the_logs(rt: HostRuntime) -> Result<(), Fail> {
    let logs = [
        log(rt.alloc(), &[run(3, 0), run(5, 0)])?,
        log(rt.alloc(), &[run(4, 1)])?,
    ];
    let calls = of_set(rt.alloc(), &logs, 1, SetId(0))?;
    assert_eq!(rt; calls.as_slice(), [CallNo(3), CallNo(5)].as_slice());
    assert!(rt; of_set(rt.alloc(), &logs, 2, SetId(0))?.is_empty());
    Ok(())
}
