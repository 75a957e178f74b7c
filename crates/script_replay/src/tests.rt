// That memory is found, and the orders of scripts worked out by hand. No clause says the first.
use crate::{replay_script, shown_of};
use schedule_core::{Outcome, replay};
use script_lang::{ParseFault, ScheduleStop, Script, parse, parse_schedule};
use ss_base::{CallNo, Event, limits};
use std::alloc::Global;
use std::test::Fail;

const SCRIPT: &str = "object x 5\nisolate\ndo x add 3\ndo x mul 2\njoin\nshow x\n";

// A script on so many lanes, a schedule, what is shown, and the order.
const REPLAYS: [(&str, u32, &str, &str, &[u64]); 8] = [
    (SCRIPT, 4, "p 0 p 0", "x 16\n", &[0, 1, 2, 3, 4, 5]),
    (SCRIPT, 4, "", "x 16\n", &[0, 1, 2, 3, 4, 5]),
    (SCRIPT, 4, "p p p p p p", "x 16\n", &[0, 1, 2, 3, 4, 5]),
    (SCRIPT, 4, "p p p 0 p 0", "x 16\n", &[0, 1, 2, 3, 4, 5]),
    // Two objects on two lanes: the second lane goes first, or the first does by the rule.
    (
        "object x 5\nobject y 6\nisolate\ndo x add 1\ndo y add 1\njoin\nshow y\n",
        2,
        "p p p p p 1 0",
        "y 7\n",
        &[0, 1, 2, 4, 3, 5, 6],
    ),
    (
        "object x 5\nobject y 6\nisolate\ndo x add 1\ndo y add 1\njoin\nshow y\n",
        2,
        "p p p p p",
        "y 7\n",
        &[0, 1, 2, 3, 4, 5, 6],
    ),
    (
        "object x 5\nobject y 6\nisolate\ndo x add 1\ndo y add 1\njoin\nshow y\n",
        1,
        "p p p p p 1 1",
        "y 7\n",
        &[0, 1, 2, 3, 4, 5, 6],
    ),
    // The end that the script lacks is call 4.
    (
        "object x 5\nisolate\ndo x add 1\nshow x\n",
        1,
        "p p p 0",
        "x 6\n",
        &[0, 1, 2, 3, 4],
    ),
];

fn are_numbers(order: &[CallNo], numbers: &[u64]) -> bool {
    order.iter().map(|call| call.0).eq(numbers.iter().copied())
}

// The script of a text that is short enough.
fn parsed(alloc: Global, text: &[u8]) -> Result<Script, ParseFault> {
    if text.len() > limits::SCRIPT_BYTES {
        return Err(ParseFault::OutOfMemory);
    }
    parse(alloc, text)
}

// The events of a schedule that is short enough.
fn scheduled(alloc: Global, text: &[u8]) -> Result<Vec<Event>, ScheduleStop> {
    if text.len() > limits::SCHEDULE_BYTES {
        return Err(ScheduleStop::OutOfMemory);
    }
    parse_schedule(alloc, text)
}

#[test]
fn a_schedule_orders_the_calls_and_shows_the_same(rt: HostRuntime) -> Result<(), Fail> {
    let alloc = rt.alloc();
    for &(text, lanes, schedule, shown, order) in &REPLAYS {
        let script = parsed(alloc, text.as_bytes())?;
        let events = scheduled(alloc, schedule.as_bytes())?;
        let given = replay_script(alloc, &script, lanes, &events)?;
        assert_eq!(rt;
            given.shown.text.as_slice(),
            shown.as_bytes(),
            "at {schedule}"
        );
        assert!(rt; given.shown.stopped.is_none(), "at {schedule}");
        assert!(rt; are_numbers(&given.order, order), "at {schedule}");
    }
    Ok(())
}

#[test]
fn a_script_stops_where_it_breaks(rt: HostRuntime) -> Result<(), Fail> {
    let alloc = rt.alloc();
    let script = parsed(alloc, b"object x 5\nshow x\njoin\nshow x\n")?;
    let calls = script.calls(alloc)?;
    let outcome: Outcome<_> = replay(alloc, calls, 2, &[])?;
    let shown = shown_of(alloc, &script, &outcome)?;
    assert_eq!(rt; shown.text.as_slice(), b"x 5\n".as_slice());
    let line = shown.stopped.map(|stop| stop.0);
    assert_eq!(rt; line, Some(3));
    Ok(())
}
