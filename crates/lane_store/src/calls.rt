// What the runtime's calls do to a store.
ghost use Rattle.std.specs.Prelude.{◌≡◌, ◌≤◌, ◌<◌, ◌&&◌, map, false, None, Some, Option, OnOk, IfOk, length, slice_get, is_some};
ghost use Rattle.ss_base.specs.declared.limits.TheConstants.{RING};
ghost use Rattle.partition_check.specs.Answers.{AnswersMake, making};
ghost use Rattle.partition_check.specs.Judged.{judged};
ghost use Rattle.partition_check.specs.MarkedAfter.{marked_after};
ghost use Rattle.partition_check.specs.Marked.{set_delegated};
ghost use Rattle.execution_definitions.specs.Sequential.{operated};
ghost use Rattle.lane_objects.specs.Objects.{value_at_home, found_at, NoneSent};
ghost use Rattle.class_laws.specs.Laws.{ReducibleLaws};
ghost use Rattle.lane_store.specs.Running.{TakesEffect};
ghost use Rattle.lane_store.specs.LaneStores.{store_state, IsWholeStore, AreIdle, Continues, IsAdded, IsUnchanged, IsIdleFor, IsCaughtUp, IsNewStore, has_worker_at};

use crate::home::bring_home;
use crate::store::LaneStore;
use class_laws::{LocalClass, LocalReducible, no_reading};
use execution_definitions::By;
use lane_ends::{LaneWorker, Taker, new_end};
use lane_objects::{Object, own_value, send_object, value_here, whereabouts};
use partition_check::{MarkFault, Marks};
use serializer::lane_of;
use ss_base::{LaneLog, ObjectId, OutOfMemory, SetId};
use std::alloc::Global;
use std::sync::Wait;
use std::thread::Threads;

/// A store without objects, with so many lanes, each with room for `capacity` messages.
pub fn new_store<C: LocalClass, W: LaneWorker<C>>(
    alloc: Global,
    lane_count: u32,
    capacity: usize,
) -> Result<LaneStore<C, W>, OutOfMemory>
    requires least { 1 ≤ capacity }
    requires most { capacity ≤ RING }
    ensures { IfOk result (λ store. IsNewStore C.local_meaning W.home_of store lane_count) }
{
    let mut ends = Vec::new(alloc);
    let mut logs = Vec::new(alloc);
    for _ in 0..lane_count {
        ends.push(new_end(alloc, capacity)?)?;
        logs.push(LaneLog {
            runs: Vec::new(alloc),
        })?;
    }
    Ok(LaneStore {
        alloc,
        objects: Vec::new(alloc),
        total: C::LocalRed::local_unit(alloc),
        ends,
        logs,
    })
}

/// Makes an object with this value; a read-only one where no serializer is asked for.
pub fn add<C: LocalClass, W: LaneWorker<C>>(
    store: &mut LaneStore<C, W>,
    marks: &mut Marks,
    value: C,
    by: Option<By>,
) -> Result<ObjectId, MarkFault>
    ensures judged { AnswersMake result (judged marks.old (making by)) }
    ensures number { IfOk result (λ object. object.0 ≡ length marks.old.objects) }
    ensures marks { OnOk result (marks.new ≡ marked_after marks.old (making by)) }
    ensures added { OnOk result (IsAdded C.local_meaning W.home_of store.old store.new value) }
    ensures unchanged { IsUnchanged result marks.old marks.new store.old store.new }
{
    let object = marks.new_object(by)?;
    let Ok(()) = store.objects.push(Object::Here(value)) else {
        return Err(MarkFault::OutOfMemory);
    };
    Ok(object)
}

/// Brings an object home, with all of its lane, where it is in one.
pub fn bring_object_home<C: LocalClass, W: LaneWorker<C>, R: Threads + Wait>(
    rt: &R,
    store: &mut LaneStore<C, W>,
    o: ObjectId,
) -> Result<(), OutOfMemory>
    requires whole { IsWholeStore C.local_meaning W.home_of store.old }
    requires logged { length store.old.logs.items ≡ length store.old.ends.items }
    requires known { o.0 < length store.old.objects.items }
    ensures continues { OnOk result
        (Continues C.local_meaning W.home_of store.old store.new) }
    ensures home { OnOk result (found_at store.new.objects.items o.0 ≡ None) }
{
    match whereabouts(&store.objects[o.0 as usize]) {
        None => Ok(()),
        Some((lane, _)) => bring_home(rt, store, lane),
    }
}

// Brings the lane of a set home, where there is a set.
fn catch_up<C: LocalClass, W: LaneWorker<C>, R: Threads + Wait>(
    rt: &R,
    store: &mut LaneStore<C, W>,
    delegates: u32,
    set: Option<SetId>,
) -> Result<(), OutOfMemory>
    requires whole { IsWholeStore C.local_meaning W.home_of store.old }
    requires some { 1 ≤ delegates }
    requires at_most_64 { delegates ≤ 64 }
    requires lanes { length store.old.ends.items ≡ delegates }
    requires logs { length store.old.logs.items ≡ delegates }
    ensures continues { OnOk result
        (Continues C.local_meaning W.home_of store.old store.new) }
    ensures caught_up { OnOk result
        (IsCaughtUp C.local_meaning W.home_of store.new delegates set) }
    ensures idle_for { OnOk result
        (IsIdleFor C.local_meaning W.home_of store.new delegates set) }
    ensures found { OnOk result (NoneSent store.old.objects.items store.new.objects.items) }
{
    match set {
        None => Ok(()),
        Some(set) => bring_home(rt, store, usize::from(lane_of(set, delegates).0)),
    }
}

/// Brings an object home, and the lane of its last delegation in this epoch.
pub fn reclaim<C: LocalClass, W: LaneWorker<C>, R: Threads + Wait>(
    rt: &R,
    store: &mut LaneStore<C, W>,
    marks: &Marks,
    delegates: u32,
    o: ObjectId,
) -> Result<(), OutOfMemory>
    requires whole { IsWholeStore C.local_meaning W.home_of store.old }
    requires some { 1 ≤ delegates }
    requires at_most_64 { delegates ≤ 64 }
    requires lanes { length store.old.ends.items ≡ delegates }
    requires logs { length store.old.logs.items ≡ delegates }
    requires known { o.0 < length store.old.objects.items }
    requires idle { marks.now.is_open ≡ false → AreIdle C.local_meaning W.home_of store.old }
    ensures continues { OnOk result
        (Continues C.local_meaning W.home_of store.old store.new) }
    ensures idle { OnOk result
        (marks.now.is_open ≡ false → AreIdle C.local_meaning W.home_of store.new) }
    ensures home { OnOk result (found_at store.new.objects.items o.0 ≡ None) }
    ensures caught_up { OnOk result (IsCaughtUp C.local_meaning W.home_of store.new delegates
        (set_delegated marks.now o.0)) }
    ensures idle_for { OnOk result (IsIdleFor C.local_meaning W.home_of store.new delegates
        (set_delegated marks.now o.0)) }
{
    // In aggregation all objects are at home.
    if !marks.isolating() {
        return Ok(());
    }
    bring_object_home(rt, store, o)?;
    catch_up(rt, store, delegates, marks.delegated_to(o))
}

/// The value of an object at home.
pub fn value_of<C: LocalClass, W: LaneWorker<C>>(store: &LaneStore<C, W>, o: ObjectId) -> &C
    requires known { o.0 < length store.now.objects.items }
    requires home { found_at store.now.objects.items o.0 ≡ None }
    ensures { slice_get (store_state C.local_meaning W.home_of store.now).values o.0
        ≡ Some result.now }
{
    value_here(&store.objects[o.0 as usize])
}

// Whether there is an object of this number whose value isn't at home.
fn is_out<C: LocalClass, W: LaneWorker<C>>(store: &LaneStore<C, W>, o: ObjectId) -> bool
    ensures { result ≡ is_some (found_at store.now.objects.items o.0) }
{
    match store.objects.get(o.0 as usize) {
        Some(object) => whereabouts(object).is_some(),
        None => false,
    }
}

// Whether a delegate in a thread of its own takes from the lane of this number.
fn has_delegate<C: LocalClass, W: LaneWorker<C>>(store: &LaneStore<C, W>, lane: usize) -> bool
    ensures { result ≡ has_worker_at store.now.ends.items lane }
{
    match store.ends.get(lane) {
        Some(end) => matches!(end.taker, Some(Taker::Delegate { .. })),
        None => false,
    }
}

/// Whether there is an object of this number whose value isn't at home, and a delegate in a thread
/// of its own takes from the lane of this number.
pub fn is_away<C: LocalClass, W: LaneWorker<C>>(
    store: &LaneStore<C, W>,
    o: ObjectId,
    lane: usize,
) -> bool
    ensures { result ≡ (is_some (found_at store.now.objects.items o.0)
        && has_worker_at store.now.ends.items lane) }
{
    is_out(store, o) && has_delegate(store, lane)
}

/// The values of objects that are all at home.
pub fn into_values<C: LocalClass>(
    alloc: Global,
    objects: Vec<Object<C>>,
) -> Result<Vec<C>, OutOfMemory>
    requires { (n : _) → found_at objects.items n ≡ None }
    ensures { IfOk result (λ values.
        map Some values.items ≡ map value_at_home objects.items) }
{
    let mut values = Vec::with_capacity(alloc, objects.len())?;
    for object in objects {
        values.push(own_value(alloc, object)?)?;
    }
    Ok(values)
}

/// Runs an operation on an object at home. What it contributed is joined to the total at home, and
/// joins keep the laws of a reducible.
pub fn operate<C: LocalClass, W: LaneWorker<C>>(
    store: &mut LaneStore<C, W>,
    o: ObjectId,
    op: &C::LocalOp,
) -> Result<(), OutOfMemory>
    requires whole { IsWholeStore C.local_meaning W.home_of store.old }
    requires known { o.0 < length store.old.objects.items }
    requires home { found_at store.old.objects.items o.0 ≡ None }
    ensures state { OnOk result (store_state C.local_meaning W.home_of store.new
        ≡ operated C.local_meaning (store_state C.local_meaning W.home_of store.old) o.0 op.now
        None) }
    ensures lawful { OnOk result
        (ReducibleLaws C.local_meaning.unit C.local_meaning.join) }
    ensures effect { OnOk result (TakesEffect C.local_meaning store.old.objects.items
        store.new.objects.items store.old.total store.new.total o.0 op.now) }
    ensures whole { OnOk result (IsWholeStore C.local_meaning W.home_of store.new) }
    ensures objects { length store.new.objects.items ≡ length store.old.objects.items }
    ensures lanes { store.new.ends.items ≡ store.old.ends.items }
    ensures logs { store.new.logs.items ≡ store.old.logs.items }
    ensures found { OnOk result (NoneSent store.old.objects.items store.new.objects.items) }
{
    let at = o.0 as usize;
    let mut value = send_object(store.alloc, &mut store.objects[at], 0, o)?;
    value.local_apply(store.alloc, op, no_reading(), &mut store.total)?;
    store.objects[at] = Object::Here(value);
    Ok(())
}
