// Steps on what the program context has of an object.
ghost use Rattle.std.specs.Prelude.{◌≡◌, ℕ, Some, IfOk, OnOk, length, slice_get, slice_set};
ghost use Rattle.std.specs.Option.{option_map};
ghost use Rattle.std.specs.Arc.{arc_value};
ghost use Rattle.delegates.specs.Stores.{stored};
ghost use Rattle.lane_objects.specs.declared.object.Object.TheVariants.{Here};
ghost use Rattle.lane_objects.specs.Objects.{value_at_home, lane_and_number, IsHome, come_back, without_values};

use crate::object::Object;
use class_laws::LocalClass;
use delegates::Store;
use ss_base::{ObjectId, OutOfMemory};
use std::alloc::Global;
use std::mem;
use std::snapshot::Snapshot;
use std::sync::Arc;

/// The lane to which an object went, and its number there. None where it is at home.
pub fn whereabouts<C>(object: &Object<C>) -> Option<(usize, ObjectId)>
    ensures { option_map (λ place. (place.0, place.1.0)) result ≡ lane_and_number object.now }
{
    match object {
        Object::Here(_) => None,
        Object::Shared(_) => None,
        Object::Away { lane, number, .. } => Some((*lane, *number)),
    }
}

/// The value of an object at home.
pub fn value_here<C>(object: &Object<C>) -> &C
    requires { IsHome object.now }
    ensures { value_at_home object.now ≡ Some result.now }
{
    match object {
        Object::Here(value) => value,
        Object::Shared(shared) => &**shared,
        Object::Away { .. } => unreachable!(),
    }
}

/// The value of an object at home, for one owner. One that is still read is copied.
pub fn own_value<C: LocalClass>(alloc: Global, object: Object<C>) -> Result<C, OutOfMemory>
    requires { IsHome object }
    ensures { IfOk result (λ value. value_at_home object ≡ Some value) }
{
    match object {
        Object::Here(value) => Ok(value),
        Object::Shared(shared) => match Arc::try_unwrap(shared) {
            Ok(value) => Ok(value),
            Err(read) => read.local_copy(alloc),
        },
        Object::Away { .. } => unreachable!(),
    }
}

/// Sends an object at home to a lane, and gives its value for one owner.
pub fn send_object<C: LocalClass>(
    alloc: Global,
    object: &mut Object<C>,
    lane: usize,
    number: ObjectId,
) -> Result<C, OutOfMemory>
    requires { IsHome object.old }
    ensures value { IfOk result (λ value. value_at_home object.old ≡ Some value) }
    ensures sent { lane_and_number object.new ≡ Some (lane, number.0) }
{
    let was = Snapshot::of(value_here(object));
    let here = mem::replace(object, Object::Away { lane, number, was });
    own_value(alloc, here)
}

fn share_value<C: Drop>(alloc: Global, object: Object<C>) -> Result<Arc<C>, OutOfMemory>
    requires { IsHome object }
    ensures { IfOk result (λ shared. value_at_home object ≡ Some (arc_value shared)) }
{
    match object {
        Object::Here(value) => Ok(Arc::new(alloc, value)?),
        Object::Shared(shared) => Ok(shared),
        Object::Away { .. } => unreachable!(),
    }
}

/// A share of the value of an object at home, which stays there.
pub fn share_object<C: Drop>(alloc: Global, object: &mut Object<C>) -> Result<Arc<C>, OutOfMemory>
    requires { IsHome object.old }
    ensures value { IfOk result (λ shared. value_at_home object.old ≡ Some (arc_value shared)) }
    ensures same { OnOk result (value_at_home object.new ≡ value_at_home object.old) }
    ensures home { OnOk result (IsHome object.new) }
{
    let nowhere = Object::Away {
        lane: 0,
        number: ObjectId(0),
        was: Snapshot::of(value_here(object)),
    };
    let shared = share_value(alloc, mem::replace(object, nowhere))?;
    let second = Arc::try_clone(&shared)?;
    *object = Object::Shared(shared);
    Ok(second)
}

// A value comes home to its object, where there is one.
fn put_home<C: Drop>(objects: &mut Vec<Object<C>>, o: ObjectId, value: C)
    ensures { objects.new.items ≡ slice_set objects.old.items o.0 (Here value) }
{
    if let Some(object) = objects.get_mut(o.0 as usize) {
        *object = Object::Here(value);
    }
}

/// Brings the values of a lane's store home, to the objects of their numbers.
pub fn bring_values<C: LocalClass>(objects: &mut Vec<Object<C>>, store: &mut Store<C>)
    ensures home { (n : ℕ) → slice_get objects.new.items n
        ≡ option_map (come_back (stored store.old) n) (slice_get objects.old.items n) }
    ensures count { length objects.new.items ≡ length objects.old.items }
    ensures left { stored store.new ≡ without_values (stored store.old) }
{
    while let Some((o, value)) = store.pop_value() {
        put_home(objects, o, value);
    }
}
