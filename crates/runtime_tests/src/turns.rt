// Seven objects in turns, in three lanes with room for one message each.

use crate::cases::{Answer, Step};
use crate::tests::answer;
use delegates::OpenGate;
use delegation::Delegation;
use execution_definitions::By;
use lane_rt::Lanes;
use script_lang::{Act, Word32};
use ss_base::OutOfMemory;
use std::alloc::Global;
use std::sync::{Arc, Wait};
use std::test::Fail;
use std::thread::Threads;

// The sums of the numbers below 1,000 that leave 0 to 6, divided by 7.
const VALUES: [u32; 7] = [71_071, 71_214, 71_357, 71_500, 71_643, 71_786, 70_929];
// How many runs each lane logs: those of the objects 0, 3 and 6, of 1 and 4, and of 2 and 5.
const RUNS: [usize; 3] = [428, 286, 286];

fn narrow_lanes(alloc: Global) -> Result<Lanes<Word32, OpenGate>, OutOfMemory> {
    let gate = Arc::new(alloc, OpenGate)?;
    Lanes::new(alloc, 3, 1, gate)
}

// Adds the numbers below 1,000 to the objects in turns. Each object is got at once where this is wanted.
fn adds_in_turns<D: Delegation<Word32>, R: Threads + Wait + Copy + Send + Sync + 'static>(
    rt: &R,
    alloc: Global,
    d: &mut D,
    are_got: bool,
) {
    for _ in VALUES {
        let _ = answer(rt, alloc, d, Step::Make(0, By::Object));
    }
    let _ = answer(rt, alloc, d, Step::Begin);
    for number in 0..1_000 {
        let object = number % 7;
        let add = Step::Delegate(object, Act::Add(number), 0, None);
        let _ = answer(rt, alloc, d, add);
        if are_got {
            let _ = answer(rt, alloc, d, Step::Get(object));
        }
    }
}

#[test]
fn lanes_take_turns_with_the_program(rt: HostRuntime) -> Result<(), Fail> {
    let mut d = narrow_lanes(rt.alloc())?;
    adds_in_turns(&rt, rt.alloc(), &mut d, true);
    assert_eq!(rt; answer(&rt, rt.alloc(), &mut d, Step::End), Answer::Done);
    for (object, wanted) in VALUES.iter().enumerate() {
        let got = answer(&rt, rt.alloc(), &mut d, Step::Get(object as u32));
        assert_eq!(rt; got, Answer::Value(*wanted), "object {object}");
    }
    d.finish(&rt)?;
    Ok(())
}

#[test]
fn lanes_finish_what_is_in_turns(rt: HostRuntime) -> Result<(), Fail> {
    let mut d = narrow_lanes(rt.alloc())?;
    adds_in_turns(&rt, rt.alloc(), &mut d, false);
    let end = d.finish(&rt)?;
    assert_eq!(rt; end.values.len(), VALUES.len());
    for (object, (value, wanted)) in end.values.iter().zip(VALUES).enumerate() {
        assert_eq!(rt; value.0, wanted, "object {object}");
    }
    assert_eq!(rt; end.total.0, 0);
    assert_eq!(rt; end.logs.len(), RUNS.len());
    for (lane, (log, wanted)) in end.logs.iter().zip(RUNS).enumerate() {
        assert_eq!(rt; log.runs.len(), wanted, "lane {lane}");
    }
    Ok(())
}
