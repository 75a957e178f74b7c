// The calls of a program, and what they are answered. A runtime takes them, and so do a machine or a
// merge that no runtime stands behind: values `V`, operations `O` and totals `R` may be of any type.

use crate::serializer::By;
use ss_base::{CallNo, ObjectId};

/// A call of the program context, with its values.
#[derive(Drop)]
pub enum Call<V, O> {
    /// Makes a writable object with this value. Its operations are mapped to sets as `by` says.
    Make {
        value: V,
        by: By,
    },
    /// Makes an object that can only be read.
    MakeFixed {
        value: V,
    },
    /// Begins an epoch of isolation.
    Begin,
    /// Delegates an operation on an object, which may read one other object.
    Delegate {
        object: ObjectId,
        op: O,
        reading: Option<ObjectId>,
    },
    /// Runs an operation on an object in the program context.
    Write {
        object: ObjectId,
        op: O,
    },
    /// Looks at the value of an object.
    Get {
        object: ObjectId,
    },
    /// Ends the epoch of isolation.
    End,
    /// Looks at the total.
    Total,
}

/// What an accepted call is answered.
#[derive(Drop)]
pub enum Reply<V, R> {
    /// The number of the object that was made.
    Made(ObjectId),
    /// The number of the delegated call.
    Sent(CallNo),
    /// An object's value.
    Value(V),
    /// The total.
    Total(R),
    /// Nothing but that the call is done.
    Done,
}
