// Why a call is refused.

use ss_base::{ObjectId, SetId};
use thiserror::Error;

/// Why a call is refused. Each call has a row of these, which are tried in order; the first that
/// holds is the answer. "This epoch" is the epoch of isolation that is open.
#[derive(Clone, Copy, Debug, PartialEq, Eq, Error)]
pub enum Refusal {
    /// No object has this number.
    #[error("no object has the number {}", .0.0)]
    UnknownObject(ObjectId),
    /// No epoch of isolation is open.
    #[error("no epoch of isolation is open")]
    NotIsolating,
    /// An epoch of isolation is open.
    #[error("an epoch of isolation is open")]
    Isolating,
    /// The object was made to be read alone.
    #[error("object {} is read-only", .0.0)]
    ReadOnly(ObjectId),
    /// In this epoch the object is held to another set: that of its last delegation, after which
    /// the program context neither wrote it nor got it.
    #[error("object {} is in set {}, not in set {}", .object.0, .first.0, .second.0)]
    TwoSets {
        /// The object that is held.
        object: ObjectId,
        /// The set that it is held to.
        first: SetId,
        /// The set of the call that is refused.
        second: SetId,
    },
    /// In this epoch a delegated operation reads the object, which is writable.
    #[error("object {} is read-shared", .0.0)]
    Shared(ObjectId),
    /// The operation would read the object that it is delegated to.
    #[error("object {} reads itself", .0.0)]
    SelfRead(ObjectId),
    /// In this epoch the object to be read is held to a set, and it is writable.
    #[error("object {} is private to set {}", .object.0, .set.0)]
    Private {
        /// The object to be read.
        object: ObjectId,
        /// The set that it is held to.
        set: SetId,
    },
    /// As many objects were made as a runtime may have: `ss_base::limits::OBJECTS`.
    #[error("too many objects")]
    TooManyObjects,
    /// As many calls were accepted as a runtime may have: `ss_base::limits::CALLS`.
    #[error("too many calls")]
    TooManyCalls,
}
