// What is known of one object.

use execution_definitions::Serializer;
use ss_base::SetId;

/// What is known of one object. Contracts see a list of these.
#[derive(Clone, Copy, Debug, PartialEq, Eq)]
pub struct Mark {
    /// What maps the object's operations to sets. None of a read-only object.
    pub serializer: Option<Serializer>,
    /// The set of the object's last delegation in the open epoch, if there was one.
    pub set: Option<SetId>,
    /// The object is held to that set: the program context neither wrote nor got it since.
    pub is_held: bool,
    /// In the open epoch a delegated operation reads the object, which is writable.
    pub shared: bool,
}
