// What no clause says: that a machine and a replay succeed where there is memory, and what the
// definitions come to at programs worked out by hand.
ghost use Rattle.std.specs.Prelude.{◌≡◌, ◌+◌, ◌*◌, ◌%◌, ◌^◌};
ghost use Rattle.std.specs.Option.{option_map, unwrap_or};

use class_laws::{Class, Reducible, WrapSum};
use delegation::{Call, Reply};
use execution_definitions::{By, Refusal};
use schedule_core::{Machine, Outcome, Step, replay};
use ss_base::{Event, Lane, ObjectId, OutOfMemory, SetId};
use std::alloc::Global;
use std::test::Fail;

// A number. An operation multiplies it and adds to it, adds what it reads, and contributes that.
#[derive(Debug, PartialEq, Drop)]
struct Word(u32);

// An operation, with the set that it names.
#[derive(Clone, Copy)]
struct Op {
    times: u32,
    plus: u32,
    own: u64,
}

impl Class for Word {
    type Op = Op;

    type Red = WrapSum;

    ghost use Rattle.std.specs.Prelude.{refl};
    ghost use Rattle.class_laws.specs.Numbers.{wrap_sum_unit, wrap_sum_join};

    ghost meaning = { record {
      step = λ word op read. let other = unwrap_or (option_map (λ (w : _). w.0) read) 0 in (
        record { 0 = (((word.0 * op.times) % 2 ^ 32 + op.plus) % 2 ^ 32 + other) % 2 ^ 32 },
        record { 0 = other },
      );
      own = λ op. op.own;
      unit = wrap_sum_unit;
      join = wrap_sum_join;
    } };

    ghost same_unit = { refl };

    ghost same_join = { refl };

    fn apply(
        &mut self,
        _alloc: Global,
        op: &Op,
        reading: Option<&Word>,
        red: &mut WrapSum,
    ) -> Result<(), OutOfMemory> {
        let read = match reading {
            Some(word) => word.0,
            None => 0,
        };
        self.0 = self
            .0
            .wrapping_mul(op.times)
            .wrapping_add(op.plus)
            .wrapping_add(read);
        red.join(WrapSum(u64::from(read)))
    }

    fn own_set(op: &Op) -> u64 {
        op.own
    }

    fn copy(&self, _alloc: Global) -> Result<Word, OutOfMemory> {
        Ok(Word(self.0))
    }
}

const P: Event = Event::Program;

const D0: Event = Event::Delegate(Lane(0));

const D1: Event = Event::Delegate(Lane(1));

fn object(value: u32, by: By) -> Call<Word> {
    Call::Make {
        value: Word(value),
        by,
    }
}

fn add(object: u32, plus: u32, own: u64) -> Call<Word> {
    operation(object, 1, plus, own, None)
}

fn mul(object: u32, times: u32) -> Call<Word> {
    operation(object, times, 0, 0, None)
}

fn operation(object: u32, times: u32, plus: u32, own: u64, reading: Option<u32>) -> Call<Word> {
    Call::Delegate {
        object: ObjectId(object),
        op: Op { times, plus, own },
        reading: match reading {
            None => None,
            Some(read) => Some(ObjectId(read)),
        },
    }
}

fn get(object: u32) -> Call<Word> {
    Call::Get {
        object: ObjectId(object),
    }
}

// One object, to which an addition and a multiplication are delegated.
fn one_object(alloc: Global) -> Result<Vec<Call<Word>>, OutOfMemory> {
    Ok(vec![in alloc;
        object(5, By::Object),
        Call::Begin,
        add(0, 3, 0),
        mul(0, 2),
        Call::End,
        get(0),
    ]?)
}

// Two objects, to which operations are delegated by turns.
fn two_objects(alloc: Global) -> Result<Vec<Call<Word>>, OutOfMemory> {
    Ok(vec![in alloc;
        object(5, By::Object),
        object(6, By::Object),
        Call::Begin,
        add(0, 1, 0),
        add(1, 1, 0),
        mul(0, 2),
        Call::End,
        get(0),
    ]?)
}

fn values_are(outcome: &Outcome<Word>, values: &[u32]) -> bool {
    outcome.values.len() == values.len()
        && outcome
            .values
            .iter()
            .zip(values.iter())
            .all(|(value, wanted)| value.0 == *wanted)
}

fn order_is(outcome: &Outcome<Word>, order: &[u64]) -> bool {
    outcome.order.len() == order.len()
        && outcome
            .order
            .iter()
            .zip(order.iter())
            .all(|(call, wanted)| call.0 == *wanted)
}

#[test]
fn no_schedule_changes_what_is_shown(rt: HostRuntime) -> Result<(), Fail> {
    let schedules: [&[Event]; 4] = [
        &[P, D0, P, D0],
        &[],
        &[P, P, P, P, P, P],
        &[P, P, P, D0, P, D0],
    ];
    for schedule in schedules {
        let outcome = replay(rt.alloc(), one_object(rt.alloc())?, 1, schedule)?;
        assert!(rt; values_are(&outcome, &[16]));
        assert!(rt; order_is(&outcome, &[0, 1, 2, 3, 4, 5]));
        assert!(rt; outcome.replies.len() == 6);
        assert!(rt; matches!(&outcome.replies[5], Reply::Value(Word(16))));
        assert!(rt; outcome.stopped.is_none());
        assert!(rt; outcome.total == WrapSum(0));
    }
    Ok(())
}

#[test]
fn the_order_tells_the_schedule(rt: HostRuntime) -> Result<(), Fail> {
    let calls = two_objects(rt.alloc())?;
    let outcome = replay(rt.alloc(), calls, 2, &[P, P, P, P, P, D1])?;
    assert!(rt; values_are(&outcome, &[12, 7]));
    assert!(rt; order_is(&outcome, &[0, 1, 2, 4, 3, 5, 6, 7]));
    let outcome = replay(rt.alloc(), two_objects(rt.alloc())?, 2, &[])?;
    assert!(rt; values_are(&outcome, &[12, 7]));
    assert!(rt; order_is(&outcome, &[0, 1, 2, 3, 5, 4, 6, 7]));
    Ok(())
}

#[test]
fn a_refused_call_stops_the_program(rt: HostRuntime) -> Result<(), Fail> {
    let calls = vec![in rt.alloc(); object(5, By::Own), Call::Begin, add(0, 1, 1), add(0, 1, 2)]?;
    let outcome = replay(rt.alloc(), calls, 2, &[])?;
    let refusal = Refusal::TwoSets {
        object: ObjectId(0),
        first: SetId(1),
        second: SetId(2),
    };
    assert!(rt; outcome.stopped == Some(refusal));
    assert!(rt; values_are(&outcome, &[6]));
    assert!(rt; order_is(&outcome, &[0, 1, 2]));
    Ok(())
}

fn steps_are(steps: &[Step], wanted: &[Step]) -> bool {
    steps.len() == wanted.len()
        && steps
            .iter()
            .zip(wanted.iter())
            .all(|(step, want)| step == want)
}

// What a machine answers to events.
fn answers(
    alloc: Global,
    calls: Vec<Call<Word>>,
    events: &[Event],
) -> Result<Vec<Step>, OutOfMemory> {
    let mut machine = Machine::new(alloc, calls, 2)?;
    let mut steps = Vec::new(alloc);
    for e in events {
        steps.push(machine.step(*e)?)?;
    }
    Ok(steps)
}

#[test]
fn events_that_are_not_enabled_are_passed_over(rt: HostRuntime) -> Result<(), Fail> {
    let events = [P, P, P, P, D1, P, D0, P, D0, P, P, P, D0];
    let wanted = [
        Step::Taken,
        Step::Taken,
        Step::Taken,
        Step::Taken,
        // Nothing waits in the other lane.
        Step::NotEnabled,
        // The end waits for the lane.
        Step::NotEnabled,
        Step::Taken,
        Step::NotEnabled,
        Step::Taken,
        Step::Taken,
        Step::Taken,
        Step::Finished,
        Step::Finished,
    ];
    let steps = answers(rt.alloc(), one_object(rt.alloc())?, &events)?;
    assert!(rt; steps_are(&steps, &wanted));
    Ok(())
}

#[test]
fn a_refused_call_is_answered_once(rt: HostRuntime) -> Result<(), Fail> {
    let calls = vec![in rt.alloc();
        object(5, By::Object),
        Call::Begin,
        add(0, 1, 0),
        add(1, 1, 0),
    ]?;
    let refused = Step::Refused(Refusal::UnknownObject(ObjectId(1)));
    let wanted = [
        Step::Taken,
        Step::Taken,
        Step::Taken,
        refused,
        Step::NotEnabled,
        Step::Taken,
        Step::Finished,
    ];
    let steps = answers(rt.alloc(), calls, &[P, P, P, P, P, D0, P])?;
    assert!(rt; steps_are(&steps, &wanted));
    Ok(())
}

// A lane that the machine doesn't have is never enabled.
#[test]
fn a_lane_beyond_the_last_has_no_events(rt: HostRuntime) -> Result<(), Fail> {
    let events = [P, P, P, Event::Delegate(Lane(2)), D0];
    let wanted = [
        Step::Taken,
        Step::Taken,
        Step::Taken,
        Step::NotEnabled,
        Step::Taken,
    ];
    let steps = answers(rt.alloc(), one_object(rt.alloc())?, &events)?;
    assert!(rt; steps_are(&steps, &wanted));
    Ok(())
}

// An operation on one object reads another, and then one is delegated to that.
fn calls_of_reading(alloc: Global) -> Result<Vec<Call<Word>>, OutOfMemory> {
    Ok(vec![in alloc;
        object(2, By::Object),
        object(3, By::Object),
        Call::Begin,
        operation(0, 1, 0, 0, Some(1)),
        Call::End,
        Call::Begin,
        add(1, 4, 0),
        Call::End,
    ]?)
}

// A delegation reads the value as it stood at the call: what comes later in the program doesn't
// change it.
#[test]
fn a_delegation_reads_the_value_at_its_call(rt: HostRuntime) -> Result<(), Fail> {
    let schedules: [&[Event]; 2] = [&[], &[P, P, P, P, P, D0]];
    for schedule in schedules {
        let outcome = replay(rt.alloc(), calls_of_reading(rt.alloc())?, 2, schedule)?;
        assert!(rt; values_are(&outcome, &[5, 7]));
        assert!(rt; outcome.total == WrapSum(3));
    }
    Ok(())
}

// Two objects, to which one operation each is delegated, on two lanes.
fn five_calls(alloc: Global) -> Result<Vec<Call<Word>>, OutOfMemory> {
    Ok(vec![in alloc;
        object(5, By::Object),
        object(6, By::Object),
        Call::Begin,
        add(0, 1, 0),
        add(1, 1, 0),
    ]?)
}

fn schedule_of(alloc: Global, count: u32, number: u32) -> Result<Vec<Event>, OutOfMemory> {
    let mut schedule = Vec::new(alloc);
    let mut rest = number;
    for _ in 0..count {
        schedule.push(match rest % 3 {
            0 => P,
            1 => D0,
            _ => D1,
        })?;
        rest /= 3;
    }
    Ok(schedule)
}

fn is_five_calls_done(outcome: &Outcome<Word>) -> bool {
    values_are(outcome, &[6, 7])
        && outcome.replies.len() == 5
        && outcome.stopped.is_none()
        && (order_is(outcome, &[0, 1, 2, 3, 4]) || order_is(outcome, &[0, 1, 2, 4, 3]))
}

#[test]
fn every_short_schedule_gives_the_same(rt: HostRuntime) -> Result<(), Fail> {
    // How many schedules of 0, 1, 2 .. events there are.
    let counts = [1, 3, 9, 27, 81, 243, 729, 2187];
    for (length, count) in counts.iter().enumerate() {
        for number in 0..*count {
            let schedule = schedule_of(rt.alloc(), length as u32, number)?;
            let outcome = replay(rt.alloc(), five_calls(rt.alloc())?, 2, &schedule)?;
            assert!(rt; is_five_calls_done(&outcome));
        }
    }
    Ok(())
}
