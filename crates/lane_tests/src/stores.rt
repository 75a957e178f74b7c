// What no clause says of stores: that memory is found, and that the definitions mean what was meant,
// by values worked out by hand.

use crate::messages::{carry, run};
use crate::{Number, Step};
use class_laws::WrapSum;
use delegates::Store;
use set_queue::Message;
use ss_base::{CallNo, ObjectId};
use std::alloc::Global;
use std::test::Fail;

// The next object of a store, its number and its value.
fn popped(store: &mut Store<Number>) -> Option<(u32, u32)> {
    let (object, value) = store.pop_value()?;
    Some((object.0, value.0))
}

fn logged(store: &mut Store<Number>, alloc: Global) -> usize {
    store.take_runs(alloc).len()
}

#[test]
fn a_store_runs_what_it_takes(rt: HostRuntime) -> Result<(), Fail> {
    let alloc = rt.alloc();
    let mut store = Store::new(alloc);
    store.take(carry(0, 0, 7, 5, Step::Add(3)));
    store.take(run(1, 0, 7, Step::Mul(2)));
    assert!(rt; !store.broken());
    assert_eq!(rt; popped(&mut store), Some((7, 16)));
    assert_eq!(rt; popped(&mut store), None);
    assert_eq!(rt; store.take_red(alloc), WrapSum(2));
    assert_eq!(rt; store.take_red(alloc), WrapSum(0));
    let runs = store.take_runs(alloc);
    assert_eq!(rt; runs.len(), 2);
    assert_eq!(rt; runs.last().map(|run| run.call), Some(CallNo(1)));
    assert_eq!(rt; runs.last().map(|run| run.object), Some(ObjectId(7)));
    assert_eq!(rt; logged(&mut store, alloc), 0);
    Ok(())
}

#[test]
fn a_run_without_its_object_and_a_stop_change_nothing(rt: HostRuntime) -> Result<(), Fail> {
    let alloc = rt.alloc();
    let mut store = Store::new(alloc);
    store.take(run(0, 0, 7, Step::Add(1)));
    store.take(Message::Stop);
    assert!(rt; !store.broken());
    assert_eq!(rt; popped(&mut store), None);
    assert_eq!(rt; store.take_red(alloc), WrapSum(0));
    assert_eq!(rt; logged(&mut store, alloc), 0);
    Ok(())
}

#[test]
fn the_least_number_comes_first(rt: HostRuntime) -> Result<(), Fail> {
    let mut store = Store::new(rt.alloc());
    for (object, value) in [(2, 20), (0, 0), (1, 10)] {
        store.take(carry(0, 0, object, value, Step::Add(1)));
    }
    assert_eq!(rt; popped(&mut store), Some((0, 1)));
    assert_eq!(rt; popped(&mut store), Some((1, 11)));
    assert_eq!(rt; popped(&mut store), Some((2, 21)));
    Ok(())
}

#[test]
fn a_broken_store_drops_every_message(rt: HostRuntime) -> Result<(), Fail> {
    let alloc = rt.alloc();
    let mut store = Store::new(alloc);
    store.take(carry(0, 0, 0, 5, Step::Add(3)));
    store.take(run(1, 0, 0, Step::TooMuch));
    assert!(rt; store.broken());
    store.take(run(2, 0, 0, Step::Add(1)));
    store.take(carry(3, 0, 1, 5, Step::Add(1)));
    assert!(rt; store.broken());
    assert_eq!(rt; logged(&mut store, alloc), 1);
    assert_eq!(rt; popped(&mut store), Some((0, 8)));
    assert_eq!(rt; popped(&mut store), None);
    Ok(())
}
