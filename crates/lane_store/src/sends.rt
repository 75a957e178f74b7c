// An operation is sent to a lane, and its object with it where it is at home.
ghost use Rattle.std.specs.Prelude.{◌≡◌, ℕ, ◌<◌, true, None, Some, OnOk, IfOk, IsOk, length, slice_get};
ghost use Rattle.std.specs.Option.{option_map};
ghost use Rattle.std.specs.Arc.{arc_value};
ghost use Rattle.execution_definitions.specs.Sequential.{value_read};
ghost use Rattle.lane_ends.specs.Workers.{HasHired};
ghost use Rattle.lane_objects.specs.Objects.{found_at, lane_and_number};
ghost use Rattle.ss_base.specs.declared.ids.ObjectId.{ObjectId};
ghost use Rattle.lane_store.specs.Running.{ReadsAtHome};
ghost use Rattle.lane_store.specs.LaneStores.{store_state, IsWholeStore, Continues, Sends, HasAll, has_worker_at};

use crate::calls::bring_object_home;
use crate::store::LaneStore;
use class_laws::LocalClass;
use delegates::Home;
use jobs::Starter;
use lane_ends::{LaneWorker, Taker, post};
use lane_objects::{Object, send_object, share_object, whereabouts};
use set_queue::Message;
use ss_base::{ObjectId, OutOfMemory, Run};
use std::sync::{Arc, Wait};
use std::thread::Threads;

// A share of the value of an object at home.
fn share_one<C: LocalClass, W: LaneWorker<C>>(
    store: &mut LaneStore<C, W>,
    o: ObjectId,
) -> Result<Arc<C>, OutOfMemory>
    requires whole { IsWholeStore C.local_meaning W.home_of store.old }
    requires known { o.0 < length store.old.objects.items }
    requires home { found_at store.old.objects.items o.0 ≡ None }
    ensures continues { OnOk result
        (Continues C.local_meaning W.home_of store.old store.new) }
    ensures value { IfOk result (λ shared.
        slice_get (store_state C.local_meaning W.home_of store.old).values o.0
        ≡ Some (arc_value shared)) }
    ensures home { OnOk result (found_at store.new.objects.items o.0 ≡ None) }
{
    share_object(store.alloc, &mut store.objects[o.0 as usize])
}

// A share of the value that an operation reads, where it reads one.
fn share<C: LocalClass, W: LaneWorker<C>, R: Threads + Wait>(
    rt: &R,
    store: &mut LaneStore<C, W>,
    reading: Option<ObjectId>,
) -> Result<Option<Arc<C>>, OutOfMemory>
    requires whole { IsWholeStore C.local_meaning W.home_of store.old }
    requires logged { length store.old.logs.items ≡ length store.old.ends.items }
    requires known { HasAll (length store.old.objects.items) reading }
    ensures continues { OnOk result
        (Continues C.local_meaning W.home_of store.old store.new) }
    ensures value { IfOk result (λ shared. option_map arc_value shared
        ≡ value_read (store_state C.local_meaning W.home_of store.old).values reading) }
    ensures none { reading ≡ None → IsOk result × (store.new ≡ store.old) }
    ensures home { OnOk result ((read : ObjectId) → reading ≡ Some read →
        found_at store.new.objects.items read.0 ≡ None) }
{
    let Some(read) = reading else {
        return Ok(None);
    };
    bring_object_home(rt, store, read)?;
    Ok(Some(share_one(store, read)?))
}

// Sends an operation with its object, which is at home.
fn carry<C: LocalClass, W: LaneWorker<C>, H: Starter<Home<C>, Taker<C, W>>, R: Wait>(
    rt: &R,
    store: &mut LaneStore<C, W>,
    hirer: &H,
    lane: usize,
    run: Run,
    op: C::LocalOp,
    reading: Option<Arc<C>>,
) -> Result<(), OutOfMemory>
    requires can { (home : _) → H.can hirer.now home }
    requires means { (home : _) (taker : _) → H.gives hirer.now home taker →
        HasHired C.local_meaning W.home_of home taker }
    requires whole { IsWholeStore C.local_meaning W.home_of store.old }
    requires lane { lane < length store.old.ends.items }
    requires logged { length store.old.logs.items ≡ length store.old.ends.items }
    requires known { run.object.0 < length store.old.objects.items }
    requires home { found_at store.old.objects.items run.object.0 ≡ None }
    ensures { OnOk result (Sends C.local_meaning W.home_of store.old store.new lane run op
        (option_map arc_value reading)) }
{
    let Run {
        call,
        epoch,
        set,
        object,
    } = run;
    let value = send_object(
        store.alloc,
        &mut store.objects[object.0 as usize],
        lane,
        object,
    )?;
    let message = Message::Carry {
        call,
        epoch,
        set,
        object,
        value,
        op,
        reading,
    };
    post(rt, &mut store.ends[lane], hirer, message)
}

// Sends an operation to the lane where its object is.
fn follow<C: LocalClass, W: LaneWorker<C>, H: Starter<Home<C>, Taker<C, W>>, R: Wait>(
    rt: &R,
    store: &mut LaneStore<C, W>,
    hirer: &H,
    lane: usize,
    run: Run,
    op: C::LocalOp,
    reading: Option<Arc<C>>,
) -> Result<(), OutOfMemory>
    requires can { (home : _) → H.can hirer.now home }
    requires means { (home : _) (taker : _) → H.gives hirer.now home taker →
        HasHired C.local_meaning W.home_of home taker }
    requires whole { IsWholeStore C.local_meaning W.home_of store.old }
    requires lane { lane < length store.old.ends.items }
    requires logged { length store.old.logs.items ≡ length store.old.ends.items }
    requires there { found_at store.old.objects.items run.object.0
        ≡ Some (lane, run.object.0) }
    ensures sends { OnOk result (Sends C.local_meaning W.home_of store.old store.new lane run op
        (option_map arc_value reading)) }
    ensures succeeds { has_worker_at store.old.ends.items lane ≡ true → IsOk result }
{
    let Run {
        call,
        epoch,
        set,
        object,
    } = run;
    let message = Message::Run {
        call,
        epoch,
        set,
        object,
        op,
        reading,
    };
    post(rt, &mut store.ends[lane], hirer, message)
}

// The object is away in this lane.
fn is_there<C>(object: &Object<C>, lane: usize) -> bool
    ensures there { result ≡ true →
        (number : ℕ) × (lane_and_number object.now ≡ Some (lane, number)) }
    ensures seen { (number : ℕ) → lane_and_number object.now ≡ Some (lane, number) →
        result ≡ true }
{
    match whereabouts(object) {
        Some((there, _)) => there == lane,
        None => false,
    }
}

/// Sends an operation to a lane. Its object goes with it, unless it is there already, and what the
/// operation reads is the value that this other object comes to now. Where nothing is read, the
/// object is there already and a delegate takes from the lane, this succeeds.
pub fn delegate<
    C: LocalClass,
    W: LaneWorker<C>,
    H: Starter<Home<C>, Taker<C, W>>,
    R: Threads + Wait,
>(
    rt: &R,
    store: &mut LaneStore<C, W>,
    hirer: &H,
    lane: usize,
    run: Run,
    op: C::LocalOp,
    reading: Option<ObjectId>,
) -> Result<(), OutOfMemory>
    requires can { (home : _) → H.can hirer.now home }
    requires means { (home : _) (taker : _) → H.gives hirer.now home taker →
        HasHired C.local_meaning W.home_of home taker }
    requires whole { IsWholeStore C.local_meaning W.home_of store.old }
    requires lane { lane < length store.old.ends.items }
    requires logged { length store.old.logs.items ≡ length store.old.ends.items }
    requires known { run.object.0 < length store.old.objects.items }
    requires read_known { HasAll (length store.old.objects.items) reading }
    ensures sends { OnOk result (Sends C.local_meaning W.home_of store.old store.new lane run op
        (value_read (store_state C.local_meaning W.home_of store.old).values reading)) }
    ensures reads { OnOk result (ReadsAtHome store.new.objects.items run.object.0 reading
        (value_read (store_state C.local_meaning W.home_of store.old).values reading)) }
    ensures succeeds { reading ≡ None →
        found_at store.old.objects.items run.object.0 ≡ Some (lane, run.object.0) →
        has_worker_at store.old.ends.items lane ≡ true → IsOk result }
{
    let reading = share(rt, store, reading)?;
    if is_there(&store.objects[run.object.0 as usize], lane) {
        return follow(rt, store, hirer, lane, run, op, reading);
    }
    bring_object_home(rt, store, run.object)?;
    carry(rt, store, hirer, lane, run, op, reading)
}
