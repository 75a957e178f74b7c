// What no clause says of delegates: that threads are started, that they run at once, that they take a
// message that comes while they sleep, and that they come home, also where no thread could be started.

use crate::messages::{carry, run};
use crate::{Number, Step};
use delegates::{
    DelegateJob, Home, OpenGate, PairGate, Started, Store, home_in, make_bell, start, take_home,
    work,
};
use jobs::Returned;
use set_queue::{Message, Sender, lane};
use ss_base::{OutOfMemory, SetId};
use std::alloc::Global;
use std::sync::Arc;
use std::test::Fail;
use std::thread;
use std::thread::Threads;

// How long a thread that has nothing to do is left alone, in turns of this thread.
const TURNS: u32 = 10_000;

// How often a call of a gate looks for the other set.
const LOOKS: u64 = 10_000_000;

// A lane with a home, and what was sent to it.
fn lane_with(
    alloc: Global,
    messages: Vec<Message<Number>>,
) -> Result<(Sender<Number>, Home<Number>), OutOfMemory> {
    let (mut sender, receiver) = lane::<Number>(alloc, 4)?;
    for m in messages {
        let _ = sender.try_send(m);
    }
    let store = Store::new(alloc);
    Ok((sender, Home { store, receiver }))
}

fn runs_of(home: Home<Number>, alloc: Global) -> usize {
    let Home { mut store, .. } = home;
    store.take_runs(alloc).len()
}

// What ran in a thread; nothing where none was started.
fn runs_at_home<R: Threads>(rt: &R, alloc: Global, started: Started<Number, PairGate>) -> usize {
    match started {
        Started::Running(worker) => runs_of(take_home(rt, worker), alloc),
        Started::AtHome(_) => 0,
    }
}

#[test]
fn work_ends_with_the_first_stop(rt: HostRuntime) -> Result<(), Fail> {
    let alloc = rt.alloc();
    let messages = vec![in alloc;
        carry(0, 0, 0, 5, Step::Add(3)),
        run(1, 0, 0, Step::Mul(2)),
        Message::Stop,
        run(2, 0, 0, Step::Add(1)),
    ]?;
    let (_sender, home) = lane_with(alloc, messages)?;
    let (sleeper, _bell) = make_bell(alloc)?;
    let mut home = work(&rt, home, &OpenGate, &sleeper);
    assert!(rt; home.receiver.try_next().is_some());
    assert!(rt; home.receiver.try_next().is_none());
    let value = home.store.pop_value().map(|(_, value)| value);
    assert_eq!(rt; value, Some(Number(16)));
    assert_eq!(rt; runs_of(home, alloc), 2);
    Ok(())
}

#[test]
fn a_delegate_that_sleeps_takes_what_comes(rt: HostRuntime) -> Result<(), Fail> {
    let alloc = rt.alloc();
    let (mut sender, home) = lane_with(alloc, Vec::new(alloc))?;
    let gate = Arc::new(alloc, OpenGate)?;
    let Started::Running(worker) = start(&rt, alloc, home, gate) else {
        assert!(rt; false, "no thread was started");
        return Ok(());
    };
    for m in vec![in alloc; carry(0, 0, 0, 1, Step::Add(1)), Message::Stop]? {
        for _ in 0..TURNS {
            thread::yield_now();
        }
        let _ = sender.try_send(m);
        worker.wake();
    }
    assert_eq!(rt; runs_of(take_home(&rt, worker), alloc), 1);
    Ok(())
}

#[test]
fn two_sets_in_two_lanes_run_at_once(rt: HostRuntime) -> Result<(), Fail> {
    let alloc = rt.alloc();
    let gate = Arc::new(alloc, PairGate::new(SetId(0), SetId(1), LOOKS))?;
    let one = vec![in alloc; carry(0, 0, 0, 1, Step::Add(1)), Message::Stop]?;
    let other = vec![in alloc; carry(1, 1, 1, 1, Step::Add(1)), Message::Stop]?;
    let (_sender, one) = lane_with(alloc, one)?;
    let (_sender_2, other) = lane_with(alloc, other)?;
    let one = start(&rt, alloc, one, Arc::try_clone(&gate)?);
    let other = start(&rt, alloc, other, Arc::try_clone(&gate)?);
    assert_eq!(rt; runs_at_home(&rt, alloc, one), 1);
    assert_eq!(rt; runs_at_home(&rt, alloc, other), 1);
    assert!(rt; gate.both_passed());
    Ok(())
}

#[test]
fn two_sets_in_one_lane_do_not(rt: HostRuntime) -> Result<(), Fail> {
    let alloc = rt.alloc();
    let gate = Arc::new(alloc, PairGate::new(SetId(0), SetId(1), LOOKS))?;
    let messages = vec![in alloc;
        carry(0, 0, 0, 1, Step::Add(1)),
        carry(1, 1, 1, 1, Step::Add(1)),
        Message::Stop,
    ]?;
    let (_sender, home) = lane_with(alloc, messages)?;
    let started = start(&rt, alloc, home, Arc::try_clone(&gate)?);
    assert_eq!(rt; runs_at_home(&rt, alloc, started), 2);
    assert!(rt; !gate.both_passed());
    Ok(())
}

#[test]
fn a_home_that_was_called_off_has_what_was_sent(rt: HostRuntime) -> Result<(), Fail> {
    let alloc = rt.alloc();
    let messages = vec![in alloc; carry(0, 0, 0, 1, Step::Add(1)), Message::Stop]?;
    let (_sender, home) = lane_with(alloc, messages)?;
    let (sleeper, _bell) = make_bell(alloc)?;
    let job = DelegateJob {
        home,
        gate: Arc::new(alloc, OpenGate)?,
        sleeper,
    };
    let mut home = home_in(Returned::CalledOff(job));
    assert_eq!(rt; home.store.take_runs(alloc).len(), 0);
    assert!(rt; matches!(home.receiver.try_next(), Some(Message::Carry { .. })));
    assert!(rt; matches!(home.receiver.try_next(), Some(Message::Stop)));
    Ok(())
}
