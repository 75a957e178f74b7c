// What the runtime's calls do to a store.
ghost use Rattle.std.specs.Prelude.{◌≡◌, ◌≤◌, ◌<◌, [], ◌∷◌, ◌++◌, map, false, None, Some, Option, OnOk, IfOk, length, slice_get};
ghost use Rattle.partition_check.specs.Answers.{AnswersMake, making};
ghost use Rattle.partition_check.specs.Judged.{judged};
ghost use Rattle.partition_check.specs.MarkedAfter.{marked_after};
ghost use Rattle.partition_check.specs.Marked.{set_delegated};
ghost use Rattle.execution_definitions.specs.Sets.{lane_of_set};
ghost use Rattle.batch_rt.specs.Objects.{value_at_home};
ghost use Rattle.batch_rt.specs.Lanes.{IsIdle};
ghost use Rattle.batch_rt.specs.Stores.{store_state, store_sent, total_after, found_at, Each, IsWholeStore, Continues, IsAdded, IsUnchanged, IsCaughtUp, NoneSent, IsNewStore};

use crate::entries::empty_lane;
use crate::object::Object;
use crate::objects::{own_value, value_here};
use crate::steps::{bring_home, bring_object_home};
use crate::store::Store;
use class_laws::{LocalClass, LocalReducible};
use execution_definitions::By;
use partition_check::{MarkFault, Marks};
use serializer::lane_of;
use ss_base::{LaneLog, ObjectId, OutOfMemory, SetId};
use std::alloc::Global;

/// A store without objects, with so many lanes.
pub fn new_store<C: LocalClass>(alloc: Global, lane_count: u32) -> Result<Store<C>, OutOfMemory>
    ensures { IfOk result (λ store. IsNewStore C.local_meaning store lane_count) }
{
    let mut lanes = Vec::new(alloc);
    let mut logs = Vec::new(alloc);
    for _ in 0..lane_count {
        lanes.push(empty_lane(alloc))?;
        logs.push(LaneLog {
            runs: Vec::new(alloc),
        })?;
    }
    Ok(Store {
        alloc,
        objects: Vec::new(alloc),
        total: C::LocalRed::local_unit(alloc),
        lanes,
        logs,
    })
}

/// Makes an object with this value; a read-only one where no serializer is asked for.
pub fn add<C: LocalClass>(
    store: &mut Store<C>,
    marks: &mut Marks,
    value: C,
    by: Option<By>,
) -> Result<ObjectId, MarkFault>
    ensures judged { AnswersMake result (judged marks.old (making by)) }
    ensures number { IfOk result (λ object. object.0 ≡ length marks.old.objects) }
    ensures marks { OnOk result (marks.new ≡ marked_after marks.old (making by)) }
    ensures added { OnOk result (IsAdded C.local_meaning store.old store.new value) }
    ensures unchanged { IsUnchanged result marks.old marks.new store.old store.new }
{
    let object = marks.new_object(by)?;
    let Ok(()) = store.objects.push(Object::Here(value)) else {
        return Err(MarkFault::OutOfMemory);
    };
    Ok(object)
}

// Brings the lane of a set home, where there is a set.
fn catch_up<C: LocalClass>(
    store: &mut Store<C>,
    delegates: u32,
    set: Option<SetId>,
) -> Result<(), OutOfMemory>
    requires whole { IsWholeStore store.old }
    requires some { 1 ≤ delegates }
    requires at_most_64 { delegates ≤ 64 }
    requires lanes { length store.old.lanes.items ≡ delegates }
    requires logs { length store.old.logs.items ≡ delegates }
    ensures continues { OnOk result (Continues C.local_meaning store.old store.new) }
    ensures caught_up { OnOk result (IsCaughtUp store.new delegates set) }
    ensures found { OnOk result (NoneSent store.old.objects.items store.new.objects.items) }
{
    match set {
        None => Ok(()),
        Some(set) => bring_home(store, usize::from(lane_of(set, delegates).0)),
    }
}

/// Brings an object home, and the lane of its last delegation in this epoch.
pub fn reclaim<C: LocalClass>(
    store: &mut Store<C>,
    marks: &Marks,
    delegates: u32,
    o: ObjectId,
) -> Result<(), OutOfMemory>
    requires whole { IsWholeStore store.old }
    requires some { 1 ≤ delegates }
    requires at_most_64 { delegates ≤ 64 }
    requires lanes { length store.old.lanes.items ≡ delegates }
    requires logs { length store.old.logs.items ≡ delegates }
    requires known { o.0 < length store.old.objects.items }
    requires idle { marks.now.is_open ≡ false → Each IsIdle store.old.lanes.items }
    ensures continues { OnOk result (Continues C.local_meaning store.old store.new) }
    ensures idle { OnOk result (marks.now.is_open ≡ false → Each IsIdle store.new.lanes.items) }
    ensures home { OnOk result (found_at store.new.objects.items o.0 ≡ None) }
    ensures caught_up { OnOk result
        (IsCaughtUp store.new delegates (set_delegated marks.now o.0)) }
{
    // In aggregation all objects are at home.
    if !marks.isolating() {
        return Ok(());
    }
    bring_object_home(store, o)?;
    catch_up(store, delegates, marks.delegated_to(o))
}

/// The value of an object at home.
pub fn value_of<C: LocalClass>(store: &Store<C>, o: ObjectId) -> &C
    requires known { o.0 < length store.now.objects.items }
    requires home { found_at store.now.objects.items o.0 ≡ None }
    ensures { slice_get (store_state C.local_meaning store.now).values o.0 ≡ Some result.now }
{
    value_here(&store.objects[o.0 as usize])
}

/// The values of objects that are all at home.
pub fn into_values<C: LocalClass>(
    alloc: Global,
    objects: Vec<Object<C>>,
) -> Result<Vec<C>, OutOfMemory>
    requires { (n : _) → found_at objects.items n ≡ None }
    ensures { IfOk result (λ values.
        map Some values.items ≡ map value_at_home objects.items) }
{
    let mut values = Vec::with_capacity(alloc, objects.len())?;
    for object in objects {
        values.push(own_value(alloc, object)?)?;
    }
    Ok(values)
}
