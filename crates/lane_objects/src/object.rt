// What the program context has of an object.

use ss_base::ObjectId;
use std::snapshot::Snapshot;
use std::sync::Arc;

/// What the program context has of an object.
#[derive(Drop)]
pub enum Object<C> {
    /// Its value.
    Here(C),
    /// Its value, which delegated operations may be reading.
    Shared(Arc<C>),
    /// Nothing. The value went to this lane, under the object's number. What it was then takes no
    /// memory, and is for contracts alone.
    Away {
        lane: usize,
        number: ObjectId,
        was: Snapshot<C>,
    },
}
