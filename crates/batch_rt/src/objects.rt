// Steps on what the program context has of an object.
ghost use Rattle.std.specs.Prelude.{◌≡◌, Some, IfOk, OnOk};
ghost use Rattle.std.specs.Arc.{arc_value};
ghost use Rattle.batch_rt.specs.Objects.{value_at_home, lane_and_place, IsHome, brought};

use crate::object::Object;
use class_laws::LocalClass;
use ss_base::{ObjectId, OutOfMemory};
use std::alloc::Global;
use std::mem;
use std::snapshot::Snapshot;
use std::sync::Arc;

/// Where an object went: a lane, and a place there. None where it is at home.
pub fn whereabouts<C>(object: &Object<C>) -> Option<(usize, usize)>
    ensures { result ≡ lane_and_place object.now }
{
    match object {
        Object::Here(_) => None,
        Object::Shared(_) => None,
        Object::Sent { lane, place, .. } => Some((*lane, *place)),
    }
}

/// The value of an object at home.
pub fn value_here<C>(object: &Object<C>) -> &C
    requires { IsHome object.now }
    ensures { value_at_home object.now ≡ Some result.now }
{
    match object {
        Object::Here(value) => value,
        Object::Shared(shared) => &**shared,
        Object::Sent { .. } => unreachable!(),
    }
}

/// The value of an object at home, for one owner. One that is still read is copied.
pub fn own_value<C: LocalClass>(alloc: Global, object: Object<C>) -> Result<C, OutOfMemory>
    requires { IsHome object }
    ensures { IfOk result (λ value. value_at_home object ≡ Some value) }
{
    match object {
        Object::Here(value) => Ok(value),
        Object::Shared(shared) => match Arc::try_unwrap(shared) {
            Ok(value) => Ok(value),
            Err(read) => read.local_copy(alloc),
        },
        Object::Sent { .. } => unreachable!(),
    }
}

/// Sends an object at home to a place of a lane, and gives its value for one owner.
pub fn send_object<C: LocalClass>(
    alloc: Global,
    object: &mut Object<C>,
    lane: usize,
    place: usize,
) -> Result<C, OutOfMemory>
    requires { IsHome object.old }
    ensures value { IfOk result (λ value. value_at_home object.old ≡ Some value) }
    ensures sent { lane_and_place object.new ≡ Some (lane, place) }
{
    let was = Snapshot::of(value_here(object));
    let here = mem::replace(object, Object::Sent { lane, place, was });
    own_value(alloc, here)
}

fn share_value<C: Drop>(alloc: Global, object: Object<C>) -> Result<Arc<C>, OutOfMemory>
    requires { IsHome object }
    ensures { IfOk result (λ shared. value_at_home object ≡ Some (arc_value shared)) }
{
    match object {
        Object::Here(value) => Ok(Arc::new(alloc, value)?),
        Object::Shared(shared) => Ok(shared),
        Object::Sent { .. } => unreachable!(),
    }
}

/// A share of the value of an object at home, which stays there.
pub fn share_object<C: Drop>(alloc: Global, object: &mut Object<C>) -> Result<Arc<C>, OutOfMemory>
    requires { IsHome object.old }
    ensures value { IfOk result (λ shared. value_at_home object.old ≡ Some (arc_value shared)) }
    ensures same { OnOk result (value_at_home object.new ≡ value_at_home object.old) }
    ensures home { OnOk result (IsHome object.new) }
{
    let nowhere = Object::Sent {
        lane: 0,
        place: 0,
        was: Snapshot::of(value_here(object)),
    };
    let shared = share_value(alloc, mem::replace(object, nowhere))?;
    let second = Arc::try_clone(&shared)?;
    *object = Object::Shared(shared);
    Ok(second)
}

/// Brings values home to the objects of these numbers.
pub fn bring_values<C: Drop>(objects: &mut Vec<Object<C>>, numbers: Vec<ObjectId>, values: Vec<C>)
    ensures { objects.new.items ≡ brought objects.old.items numbers.items values.items }
{
    let mut values = values.into_iter();
    for o in numbers {
        let Some(value) = values.next() else {
            return;
        };
        if let Some(object) = objects.get_mut(o.0 as usize) {
            *object = Object::Here(value);
        }
    }
}
