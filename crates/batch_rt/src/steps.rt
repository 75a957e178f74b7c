// Steps on a store. A method of an impl may call these: their bounds have no `Send`.
ghost use Rattle.std.specs.Prelude.{◌≡◌, ◌<◌, ◌≤◌, [], ◌∷◌, ◌++◌, false, Some, None, OnOk, IfOk, length, slice_get};
ghost use Rattle.std.specs.Prelude.{not};
ghost use Rattle.std.specs.List.{list_all};
ghost use Rattle.std.specs.Option.{option_map};
ghost use Rattle.std.specs.Arc.{arc_value};
ghost use Rattle.execution_definitions.specs.Sequential.{operated, value_read};
ghost use Rattle.partition_check.specs.Answers.{AnswersMake, making};
ghost use Rattle.partition_check.specs.Judged.{judged};
ghost use Rattle.partition_check.specs.MarkedAfter.{marked_after};
ghost use Rattle.partition_check.specs.Marked.{set_delegated};
ghost use Rattle.jobs.specs.Jobs.{EachGives};
ghost use Rattle.delegation.specs.Runtimes.{AreFronts};
ghost use Rattle.delegation.specs.Answers.{with_run};
ghost use Rattle.batch_rt.specs.Objects.{lane_and_place, IsHome, value_at_home};
ghost use Rattle.batch_rt.specs.Lanes.{Works, IsIdle};
ghost use Rattle.batch_rt.specs.Stores.{store_state, store_sent, value_after, with_part, lane_numbers, found_at, Each, IsWholeStore, IsIdleAt, Continues, ComesHome, IsDoneAt, NoneSent, HasAll};

use crate::entries::{empty_lane, run_entries};
use crate::lane::{Entry, Lane};
use crate::object::Object;
use crate::objects::{bring_values, own_value, send_object, share_object, value_here, whereabouts};
use crate::store::Store;
use class_laws::{LocalClass, LocalReducible, no_reading};
use execution_definitions::By;
use jobs::Starter;
use partition_check::{MarkFault, Marks};
use serializer::lane_of;
use ss_base::{ObjectId, OutOfMemory, Run};
use std::alloc::{AllocError, Global};
use std::mem;
use std::sync::Arc;

// Runs one lane, which stays where it is.
fn run_lane<C: LocalClass>(store: &mut Store<C>, lane: usize) -> Result<(), OutOfMemory>
    requires whole { IsWholeStore store.old }
    requires known { lane < length store.old.lanes.items }
    ensures continues { OnOk result (Continues C.local_meaning store.old store.new) }
    ensures done { OnOk result (IsDoneAt lane store.new.lanes.items) }
    ensures logs { store.new.logs.items ≡ store.old.logs.items }
    ensures objects { store.new.objects.items ≡ store.old.objects.items }
{
    let alloc = store.alloc;
    let before = mem::replace(&mut store.lanes[lane], empty_lane(alloc));
    let after = run_entries(before);
    if after.is_broken {
        return Err(OutOfMemory);
    }
    store.lanes[lane] = after;
    Ok(())
}

fn join_part<C: LocalClass>(
    total: &mut C::LocalRed,
    part: Option<C::LocalRed>,
) -> Result<(), OutOfMemory>
    ensures { OnOk result (total.new ≡ with_part C.local_meaning total.old part) }
{
    match part {
        None => Ok(()),
        Some(part) => total.local_join(part),
    }
}

// Brings a lane home that has nothing pending: its objects, what it contributed, and what it ran.
fn come_home<C: LocalClass>(store: &mut Store<C>, lane: usize) -> Result<(), OutOfMemory>
    requires whole { IsWholeStore store.old }
    requires known { lane < length store.old.lanes.items }
    requires logged { lane < length store.old.logs.items }
    requires done { IsDoneAt lane store.old.lanes.items }
    ensures { OnOk result (ComesHome C.local_meaning store.old store.new lane) }
{
    let alloc = store.alloc;
    let Lane {
        numbers,
        values,
        ran,
        part,
        ..
    } = mem::replace(&mut store.lanes[lane], empty_lane(alloc));
    bring_values(&mut store.objects, numbers, values);
    join_part::<C>(&mut store.total, part)?;
    store.logs[lane].append(ran)
}

/// Runs a lane and brings it home.
pub fn bring_home<C: LocalClass>(store: &mut Store<C>, lane: usize) -> Result<(), OutOfMemory>
    requires whole { IsWholeStore store.old }
    requires known { lane < length store.old.lanes.items }
    requires logged { lane < length store.old.logs.items }
    ensures continues { OnOk result (Continues C.local_meaning store.old store.new) }
    ensures idle { OnOk result (IsIdleAt lane store.new.lanes.items) }
    ensures found { OnOk result (NoneSent store.old.objects.items store.new.objects.items) }
{
    run_lane(store, lane)?;
    come_home(store, lane)
}

// No lane is broken.
fn are_whole<C: LocalClass>(lanes: &[Lane<C>]) -> bool
    ensures { result ≡ list_all (λ lane. not lane.is_broken) lanes.now }
{
    lanes.iter().all(|lane| !lane.is_broken)
}

// Runs all lanes at once, which stay where they are.
fn run_lanes<C: LocalClass, S: Starter<Vec<Lane<C>>, Result<Vec<Lane<C>>, AllocError>>>(
    store: &mut Store<C>,
    starter: &S,
) -> Result<(), OutOfMemory>
    requires can { (tasks : _) → S.can starter.now tasks }
    requires means { (tasks : _) (answer : _) → S.gives starter.now tasks answer →
        IfOk answer (λ done. EachGives (Works C.local_meaning) tasks.items done.items) }
    requires whole { IsWholeStore store.old }
    ensures continues { OnOk result (Continues C.local_meaning store.old store.new) }
    ensures done { OnOk result (Each (λ lane. lane.pending.items ≡ []) store.new.lanes.items) }
{
    let lanes = mem::replace(&mut store.lanes, Vec::new(store.alloc));
    store.lanes = starter.start(lanes)?;
    if !are_whole(&store.lanes) {
        return Err(OutOfMemory);
    }
    Ok(())
}

/// Runs all lanes at once and brings them home.
pub fn bring_all_home<C: LocalClass, S: Starter<Vec<Lane<C>>, Result<Vec<Lane<C>>, AllocError>>>(
    store: &mut Store<C>,
    starter: &S,
) -> Result<(), OutOfMemory>
    requires can { (tasks : _) → S.can starter.now tasks }
    requires means { (tasks : _) (answer : _) → S.gives starter.now tasks answer →
        IfOk answer (λ done. EachGives (Works C.local_meaning) tasks.items done.items) }
    requires whole { IsWholeStore store.old }
    requires logged { length store.old.logs.items ≡ length store.old.lanes.items }
    ensures continues { OnOk result (Continues C.local_meaning store.old store.new) }
    ensures idle { OnOk result (Each IsIdle store.new.lanes.items) }
{
    run_lanes(store, starter)?;
    for lane in 0..store.lanes.len() {
        come_home(store, lane)?;
    }
    Ok(())
}

/// Brings an object home, with all of its lane, where it is in one.
pub fn bring_object_home<C: LocalClass>(
    store: &mut Store<C>,
    o: ObjectId,
) -> Result<(), OutOfMemory>
    requires whole { IsWholeStore store.old }
    requires logged { length store.old.logs.items ≡ length store.old.lanes.items }
    requires known { o.0 < length store.old.objects.items }
    ensures continues { OnOk result (Continues C.local_meaning store.old store.new) }
    ensures home { OnOk result (found_at store.new.objects.items o.0 ≡ None) }
{
    match whereabouts(&store.objects[o.0 as usize]) {
        None => Ok(()),
        Some((lane, _)) => bring_home(store, lane),
    }
}

/// Runs an operation on an object at home.
pub fn operate<C: LocalClass>(
    store: &mut Store<C>,
    o: ObjectId,
    op: &C::LocalOp,
) -> Result<(), OutOfMemory>
    requires whole { IsWholeStore store.old }
    requires known { o.0 < length store.old.objects.items }
    requires home { found_at store.old.objects.items o.0 ≡ None }
    ensures state { OnOk result (store_state C.local_meaning store.new
        ≡ operated C.local_meaning (store_state C.local_meaning store.old) o.0 op.now None) }
    ensures whole { OnOk result (IsWholeStore store.new) }
    ensures objects { length store.new.objects.items ≡ length store.old.objects.items }
    ensures lanes { store.new.lanes.items ≡ store.old.lanes.items }
    ensures logs { store.new.logs.items ≡ store.old.logs.items }
{
    let at = o.0 as usize;
    let mut value = send_object(store.alloc, &mut store.objects[at], 0, 0)?;
    value.local_apply(store.alloc, op, no_reading(), &mut store.total)?;
    store.objects[at] = Object::Here(value);
    Ok(())
}

// Puts an object and its value behind those of a lane.
fn take_in<C: LocalClass>(lane: &mut Lane<C>, o: ObjectId, value: C) -> Result<(), OutOfMemory>
    ensures numbers { OnOk result (lane.new.numbers.items ≡ lane.old.numbers.items ++ o ∷ []) }
    ensures values { OnOk result (lane.new.values.items ≡ lane.old.values.items ++ value ∷ []) }
    ensures pending { lane.new.pending.items ≡ lane.old.pending.items }
    ensures part { lane.new.part ≡ lane.old.part }
    ensures ran { lane.new.ran.items ≡ lane.old.ran.items }
{
    lane.numbers.push(o)?;
    lane.values.push(value)?;
    Ok(())
}

// Sends an object at home to a lane, and gives its place there.
fn send_to<C: LocalClass>(
    store: &mut Store<C>,
    o: ObjectId,
    lane: usize,
) -> Result<usize, OutOfMemory>
    requires whole { IsWholeStore store.old }
    requires known { o.0 < length store.old.objects.items }
    requires home { found_at store.old.objects.items o.0 ≡ None }
    requires lane { lane < length store.old.lanes.items }
    ensures continues { OnOk result (Continues C.local_meaning store.old store.new) }
    ensures place { IfOk result (λ place.
        found_at store.new.objects.items o.0 ≡ Some (lane, place)) }
{
    let place = store.lanes[lane].values.len();
    let value = send_object(store.alloc, &mut store.objects[o.0 as usize], lane, place)?;
    take_in(&mut store.lanes[lane], o, value)?;
    Ok(place)
}

// The place of an object in a lane, to which it goes if it isn't there.
fn place_in<C: LocalClass>(
    store: &mut Store<C>,
    o: ObjectId,
    lane: usize,
) -> Result<usize, OutOfMemory>
    requires whole { IsWholeStore store.old }
    requires logged { length store.old.logs.items ≡ length store.old.lanes.items }
    requires known { o.0 < length store.old.objects.items }
    requires lane { lane < length store.old.lanes.items }
    ensures continues { OnOk result (Continues C.local_meaning store.old store.new) }
    ensures place { IfOk result (λ place.
        found_at store.new.objects.items o.0 ≡ Some (lane, place)) }
{
    if let Some((there, place)) = whereabouts(&store.objects[o.0 as usize])
        && there == lane
    {
        return Ok(place);
    }
    bring_object_home(store, o)?;
    send_to(store, o, lane)
}

// A share of the value of an object at home.
fn share_one<C: LocalClass>(store: &mut Store<C>, o: ObjectId) -> Result<Arc<C>, OutOfMemory>
    requires whole { IsWholeStore store.old }
    requires known { o.0 < length store.old.objects.items }
    requires home { found_at store.old.objects.items o.0 ≡ None }
    ensures continues { OnOk result (Continues C.local_meaning store.old store.new) }
    ensures value { IfOk result (λ shared.
        slice_get (store_state C.local_meaning store.old).values o.0 ≡ Some (arc_value shared)) }
{
    share_object(store.alloc, &mut store.objects[o.0 as usize])
}

// A share of the value that an operation reads, where it reads one.
fn share<C: LocalClass>(
    store: &mut Store<C>,
    reading: Option<ObjectId>,
) -> Result<Option<Arc<C>>, OutOfMemory>
    requires whole { IsWholeStore store.old }
    requires logged { length store.old.logs.items ≡ length store.old.lanes.items }
    requires known { HasAll (length store.old.objects.items) reading }
    ensures continues { OnOk result (Continues C.local_meaning store.old store.new) }
    ensures value { IfOk result (λ shared. option_map arc_value shared
        ≡ value_read (store_state C.local_meaning store.old).values reading) }
{
    let Some(read) = reading else {
        return Ok(None);
    };
    bring_object_home(store, read)?;
    Ok(Some(share_one(store, read)?))
}

// Puts an operation at the end of the list of its object's lane.
fn push_entry<C: LocalClass>(
    store: &mut Store<C>,
    lane: usize,
    entry: Entry<C>,
) -> Result<(), OutOfMemory>
    requires whole { IsWholeStore store.old }
    requires logged { length store.old.logs.items ≡ length store.old.lanes.items }
    requires lane { lane < length store.old.lanes.items }
    requires there { found_at store.old.objects.items entry.run.object.0
        ≡ Some (lane, entry.place) }
    ensures state { OnOk result (store_state C.local_meaning store.new
        ≡ operated C.local_meaning (store_state C.local_meaning store.old) entry.run.object.0
        entry.op (option_map arc_value entry.reading)) }
    ensures sent { OnOk result (store_sent store.new
        ≡ with_run lane entry.run (store_sent store.old)) }
    ensures whole { OnOk result (IsWholeStore store.new) }
    ensures objects { store.new.objects.items ≡ store.old.objects.items }
    ensures lanes { length store.new.lanes.items ≡ length store.old.lanes.items }
    ensures logs { store.new.logs.items ≡ store.old.logs.items }
{
    store.lanes[lane].pending.push(entry)?;
    Ok(())
}

/// Puts an operation at the end of a lane's list, and its object with it.
pub fn send<C: LocalClass>(
    store: &mut Store<C>,
    lane: usize,
    run: Run,
    op: C::LocalOp,
    reading: Option<ObjectId>,
) -> Result<(), OutOfMemory>
    requires whole { IsWholeStore store.old }
    requires logged { length store.old.logs.items ≡ length store.old.lanes.items }
    requires lane { lane < length store.old.lanes.items }
    requires known { run.object.0 < length store.old.objects.items }
    requires read_known { HasAll (length store.old.objects.items) reading }
    ensures state { OnOk result (store_state C.local_meaning store.new
        ≡ operated C.local_meaning (store_state C.local_meaning store.old) run.object.0 op
        (value_read (store_state C.local_meaning store.old).values reading)) }
    ensures sent { OnOk result (store_sent store.new ≡ with_run lane run (store_sent store.old)) }
    ensures whole { OnOk result (IsWholeStore store.new) }
    ensures objects { OnOk result
        (length store.new.objects.items ≡ length store.old.objects.items) }
    ensures lanes { OnOk result (length store.new.lanes.items ≡ length store.old.lanes.items) }
    ensures logs { OnOk result (AreFronts store.old.logs.items store.new.logs.items) }
{
    let reading = share(store, reading)?;
    let place = place_in(store, run.object, lane)?;
    let entry = Entry {
        run,
        place,
        op,
        reading,
    };
    push_entry(store, lane, entry)
}
