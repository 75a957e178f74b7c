// What the program context has of an object.

use std::snapshot::Snapshot;
use std::sync::Arc;

/// What the program context has of an object.
#[derive(Drop)]
pub enum Object<C> {
    /// Its value.
    Here(C),
    /// Its value, which delegated operations read.
    Shared(Arc<C>),
    /// Nothing. The value went with this lane, where it has this place among the lane's values. What
    /// it was then takes no memory, and is for contracts alone.
    Sent {
        lane: usize,
        place: usize,
        was: Snapshot<C>,
    },
}
