// The table gone through with each runtime, and what doesn't fit a table.
ghost use Rattle.std.specs.Prelude.{[]};
ghost use Rattle.delegation.specs.Runtimes.{IsAfter};
ghost use Rattle.script_lang.specs.Acts.{script_meaning};

use crate::cases::{Answer, CASES, Case, LISTS, Listed, Step, refused};
use crate::scarce::{Need, Scarce};
use batch_rt::Batch;
use delegates::OpenGate;
use delegation::{Call, Delegation, Fault, Plain, Reply, make_call, run_calls};
use execution_definitions::By;
use lane_rt::Lanes;
use lane_rt::laws::{cut_drain, cut_event};
use script_lang::{Act, Deed, Word32};
use serializer::lane_of;
use ss_base::limits::RING;
use ss_base::{CallNo, LaneLog, ObjectId, Run, SetId};
use std::alloc::Global;
use std::process::Abort;
use std::sync::{Arc, Wait};
use std::test::Fail;
use std::thread::Threads;

fn deed(act: Act, set: u64) -> Deed {
    Deed { act, set }
}

fn call_of(step: Step) -> Call<Word32> {
    match step {
        Step::Make(value, by) => Call::Make {
            value: Word32(value),
            by,
        },
        Step::MakeFixed(value) => Call::MakeFixed {
            value: Word32(value),
        },
        Step::Begin => Call::Begin,
        Step::Delegate(object, act, set, reading) => Call::Delegate {
            object: ObjectId(object),
            op: deed(act, set),
            reading: reading.map(ObjectId),
        },
        Step::Write(object, act) => Call::Write {
            object: ObjectId(object),
            op: deed(act, 0),
        },
        Step::Get(object) => Call::Get {
            object: ObjectId(object),
        },
        Step::End => Call::End,
        Step::Total => Call::Total,
    }
}

fn told(reply: &Reply<Word32>) -> Answer {
    match reply {
        Reply::Made(object) => Answer::Made(object.0),
        Reply::Sent(call) => Answer::Sent(call.0),
        Reply::Value(word) => Answer::Value(word.0),
        Reply::Total(total) => Answer::Sum(total.0),
        Reply::Done => Answer::Done,
    }
}

fn why(fault: Fault) -> Answer {
    match fault {
        Fault::Refused(refusal) => refused(refusal),
        Fault::OutOfMemory => Answer::OutOfMemory,
    }
}

/// Makes the call and gives its answer.
pub fn answer<D: Delegation<Word32>, R: Threads + Wait + Copy + Send + Sync + 'static>(
    rt: &R,
    alloc: Global,
    d: &mut D,
    step: Step,
) -> Answer {
    match make_call(rt, alloc, d, call_of(step)) {
        Ok(reply) => told(&reply),
        Err(fault) => why(fault),
    }
}

// The log is that of this lane among the delegates: the case's runs whose sets have the lane.
fn is_log_of(log: &LaneLog, case: &Case, lane: usize, delegates: u32) -> bool {
    let mut runs = log.runs.iter();
    for (call, epoch, set, object) in case.runs {
        let set = SetId(*set);
        if delegates > 0 && delegates <= 64 && usize::from(lane_of(set, delegates).0) != lane {
            continue;
        }
        let run = Run {
            call: CallNo(*call),
            epoch: *epoch,
            set,
            object: ObjectId(*object),
        };
        if runs.next() != Some(&run) {
            return false;
        }
    }
    runs.next().is_none()
}

// How many logs so many delegates keep.
fn log_count(delegates: u32) -> usize {
    if delegates == 0 {
        1
    } else {
        delegates as usize
    }
}

// Goes through a case with a new runtime.
fn passes<D: Delegation<Word32>, R: Threads + Wait + Abort + Copy + Send + Sync + 'static>(
    rt: &R,
    alloc: Global,
    mut d: D,
    delegates: u32,
    case: &Case,
) {
    for (place, (step, wanted)) in case.calls.iter().enumerate() {
        assert_eq!(rt;
            answer(rt, alloc, &mut d, *step),
            *wanted,
            "{}, call {place}",
            case.name
        );
    }
    let Ok(end) = d.finish(rt) else {
        panic!(rt; "{}: no memory", case.name);
    };
    assert_eq!(rt; end.values.len(), case.values.len(), "{}", case.name);
    for (object, (value, wanted)) in end.values.iter().zip(case.values).enumerate() {
        assert_eq!(rt; value.0, *wanted, "{}, object {object}", case.name);
    }
    assert_eq!(rt; end.total.0, case.total, "{}", case.name);
    assert_eq!(rt; end.logs.len(), log_count(delegates), "{}", case.name);
    for (lane, log) in end.logs.iter().enumerate() {
        assert!(rt;
            is_log_of(log, case, lane, delegates),
            "{}, lane {lane}",
            case.name
        );
    }
}

// A list of calls is made up to the first that is refused.
fn runs_a_list<D: Delegation<Word32>, R: Threads + Wait + Abort + Copy + Send + Sync + 'static>(
    rt: &R,
    alloc: Global,
    d: &mut D,
    list: &Listed,
) -> Result<(), Fail>
    requires { IsAfter script_meaning (D.seen d.old) [] }
{
    let mut calls = Vec::new(alloc);
    for step in list.calls {
        calls.push(call_of(*step))?;
    }
    let ran = run_calls(rt, alloc, d, calls)?;
    assert_eq!(rt; ran.replies.len(), list.replies.len(), "{}", list.name);
    for (place, (reply, wanted)) in ran.replies.iter().zip(list.replies).enumerate() {
        assert_eq!(rt; told(reply), *wanted, "{}, call {place}", list.name);
    }
    assert_eq!(rt; ran.stopped.map(refused), list.stopped, "{}", list.name);
    Ok(())
}

fn outcome<T: Drop>(answered: Result<T, Fault>) -> Answer {
    match answered {
        Ok(_) => Answer::Done,
        Err(fault) => why(fault),
    }
}

// Every call of a runtime that found no memory is answered so, also one that else is refused.
fn has_failed<D: Delegation<Scarce>, R: Threads + Wait + Abort + Copy + Send + Sync + 'static>(
    rt: &R,
    d: &mut D,
) {
    for answered in [
        outcome(d.end(rt)),
        outcome(d.get(rt, ObjectId(0))),
        outcome(d.get(rt, ObjectId(9))),
        outcome(d.make(Scarce(5), By::Object)),
        outcome(d.make_fixed(Scarce(5))),
        outcome(d.begin()),
        outcome(d.delegate(rt, ObjectId(0), Need::Nothing, None)),
        outcome(d.call(rt, ObjectId(0), Need::Nothing)),
        outcome(d.total()),
    ] {
        assert_eq!(rt; answered, Answer::OutOfMemory);
    }
}

// An operation finds no memory: by the epoch's end the runtime says so, and from then on. `at_once`
// is what the delegation itself is answered.
fn fails_for_good<D: Delegation<Scarce>, R: Threads + Wait + Abort + Copy + Send + Sync + 'static>(
    rt: &R,
    mut d: D,
    at_once: Answer,
) {
    assert_eq!(rt; outcome(d.make(Scarce(5), By::Object)), Answer::Done);
    assert_eq!(rt; outcome(d.begin()), Answer::Done);
    let enough = d.delegate(rt, ObjectId(0), Need::Nothing, None);
    assert_eq!(rt; outcome(enough), Answer::Done);
    let too_much = d.delegate(rt, ObjectId(0), Need::TooMuch, None);
    assert_eq!(rt; outcome(too_much), at_once);
    has_failed(rt, &mut d);
    assert!(rt; d.finish(rt).is_err());
}

#[test]
fn plain_passes_all_cases(rt: HostRuntime) -> Result<(), Fail> {
    for case in CASES {
        passes(&rt, rt.alloc(), Plain::new(rt.alloc())?, 0, case);
    }
    Ok(())
}

#[test]
fn plain_runs_lists(rt: HostRuntime) -> Result<(), Fail> {
    for list in LISTS {
        let mut d = Plain::new(rt.alloc())?;
        runs_a_list(&rt, rt.alloc(), &mut d, list)?;
    }
    Ok(())
}

#[test]
fn plain_fails_for_good(rt: HostRuntime) -> Result<(), Fail> {
    fails_for_good(&rt, Plain::new(rt.alloc())?, Answer::OutOfMemory);
    Ok(())
}

#[test]
fn plain_shows_what_ran(rt: HostRuntime) -> Result<(), Fail> {
    let mut d = Plain::new(rt.alloc())?;
    assert_eq!(rt; d.runs().len(), 1);
    for step in [
        Step::Make(5, By::Object),
        Step::Begin,
        Step::Delegate(0, Act::Add(1), 0, None),
    ] {
        let _ = answer(&rt, rt.alloc(), &mut d, step);
    }
    let log = &d.runs()[0];
    assert_eq!(rt; log.runs.len(), 1);
    Ok(())
}

// The numbers of delegates that the tables are gone through with.
const DELEGATES: [u32; 4] = [1, 2, 3, 64];

#[test]
fn batch_passes_all_cases(rt: HostRuntime) -> Result<(), Fail> {
    for delegates in DELEGATES {
        assert!(rt; 1 <= delegates && delegates <= 64);
        for case in CASES {
            let d = Batch::new(rt.alloc(), delegates)?;
            passes(&rt, rt.alloc(), d, delegates, case);
        }
    }
    Ok(())
}

#[test]
fn batch_runs_lists(rt: HostRuntime) -> Result<(), Fail> {
    for delegates in DELEGATES {
        assert!(rt; 1 <= delegates && delegates <= 64);
        for list in LISTS {
            let mut d = Batch::new(rt.alloc(), delegates)?;
            runs_a_list(&rt, rt.alloc(), &mut d, list)?;
        }
    }
    Ok(())
}

#[test]
fn batch_fails_for_good(rt: HostRuntime) -> Result<(), Fail> {
    for delegates in DELEGATES {
        assert!(rt; 1 <= delegates && delegates <= 64);
        fails_for_good(&rt, Batch::new(rt.alloc(), delegates)?, Answer::Done);
    }
    Ok(())
}

// The room of lanes that the tables are gone through with.
const RINGS: [usize; 3] = [1, 2, 256];

#[test]
fn lanes_pass_all_cases(rt: HostRuntime) -> Result<(), Fail> {
    for delegates in DELEGATES {
        assert!(rt; 1 <= delegates && delegates <= 64);
        for ring in RINGS {
            assert!(rt; 1 <= ring && ring <= RING as usize);
            for case in CASES {
                let gate = Arc::new(rt.alloc(), OpenGate)?;
                let d = Lanes::new(rt.alloc(), delegates, ring, gate)?;
                passes(&rt, rt.alloc(), d, delegates, case);
            }
        }
    }
    Ok(())
}

#[test]
fn lanes_run_lists(rt: HostRuntime) -> Result<(), Fail> {
    for delegates in DELEGATES {
        assert!(rt; 1 <= delegates && delegates <= 64);
        for ring in RINGS {
            assert!(rt; 1 <= ring && ring <= RING as usize);
            for list in LISTS {
                let gate = Arc::new(rt.alloc(), OpenGate)?;
                let mut d = Lanes::new(rt.alloc(), delegates, ring, gate)?;
                runs_a_list(&rt, rt.alloc(), &mut d, list)?;
            }
        }
    }
    Ok(())
}

#[test]
fn lanes_fail_for_good(rt: HostRuntime) -> Result<(), Fail> {
    for delegates in DELEGATES {
        assert!(rt; 1 <= delegates && delegates <= 64);
        let gate = Arc::new(rt.alloc(), OpenGate)?;
        fails_for_good(
            &rt,
            Lanes::new(rt.alloc(), delegates, 2, gate)?,
            Answer::Done,
        );
    }
    Ok(())
}

// An object that was delegated to is away at its delegate until the epoch ends or it is wanted.
#[test]
fn lanes_tell_what_is_away(rt: HostRuntime) -> Result<(), Fail> {
    let gate = Arc::new(rt.alloc(), OpenGate)?;
    let mut d = Lanes::new(rt.alloc(), 1, 4, gate)?;
    let object = ObjectId(0);
    let add = Step::Delegate(0, Act::Add(1), 0, None);
    assert!(rt; !d.away(object));
    for step in [Step::Make(5, By::Object), Step::Begin] {
        let _ = answer(&rt, rt.alloc(), &mut d, step);
    }
    assert!(rt; !d.away(object));
    assert_eq!(rt; answer(&rt, rt.alloc(), &mut d, add), Answer::Sent(2));
    assert!(rt; d.away(object));
    assert!(rt; !d.away(ObjectId(1)));
    cut_event(&d);
    cut_drain(&d);
    let end = d.finish(&rt)?;
    assert_eq!(rt; end.values.len(), 1);
    assert_eq!(rt; end.values[0].0, 6);
    assert_eq!(rt; end.total.0, 0);
    assert_eq!(rt; end.logs.len(), 1);
    assert_eq!(rt; end.logs[0].runs.len(), 1);
    Ok(())
}

// An object that is got is at home again.
#[test]
fn lanes_bring_home_what_is_got(rt: HostRuntime) -> Result<(), Fail> {
    let gate = Arc::new(rt.alloc(), OpenGate)?;
    let mut d = Lanes::new(rt.alloc(), 2, 4, gate)?;
    for step in [
        Step::Make(5, By::Object),
        Step::Begin,
        Step::Delegate(0, Act::Add(1), 0, None),
    ] {
        let _ = answer(&rt, rt.alloc(), &mut d, step);
    }
    assert!(rt; d.away(ObjectId(0)));
    assert_eq!(rt;
        answer(&rt, rt.alloc(), &mut d, Step::Get(0)),
        Answer::Value(6)
    );
    assert!(rt; !d.away(ObjectId(0)));
    d.finish(&rt)?;
    Ok(())
}
