// What the program context sends to a delegate.

use class_laws::LocalClass;
use ss_base::{CallNo, ObjectId, SetId};
use std::sync::Arc;

/// A message to a delegate.
#[derive(Drop)]
pub enum Message<C: LocalClass> {
    /// An object, and an operation on it. The message owns the value, so that it is in one place.
    Carry {
        call: CallNo,
        epoch: u64,
        set: SetId,
        object: ObjectId,
        value: C,
        op: C::LocalOp,
        reading: Option<Arc<C>>,
    },
    /// An operation on an object that an earlier message carried.
    Run {
        call: CallNo,
        epoch: u64,
        set: SetId,
        object: ObjectId,
        op: C::LocalOp,
        reading: Option<Arc<C>>,
    },
    /// The delegate is to bring home what it has. To a lane this is a message like any other.
    Stop,
}
