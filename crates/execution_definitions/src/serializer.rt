// The three ways in which a writable object's operations are mapped to serialization sets.

/// What the maker of an object asks for: how the object's operations are mapped to sets.
#[derive(Clone, Copy, Debug, PartialEq, Eq)]
pub enum By {
    /// By the object: its operations are one set, which has the object's number.
    Object,
    /// By sequence: its operations are one set, which has the number of objects by sequence that
    /// were made before it.
    Sequence,
    /// By the operation: each operation names its own set.
    Own,
}

/// The serializer of one object: `By`, with what is known once the object is made.
///
/// The rule is that of Allen, Sridharan and Sohi (PPoPP 2009): a serializer maps an operation to
/// its serialization set when the operation is delegated.
#[derive(Clone, Copy, Debug, PartialEq, Eq)]
pub enum Serializer {
    /// The set of the object's number.
    Object,
    /// The set of this number: how many objects by sequence were made before this object.
    Sequence(u64),
    /// The set that the operation names.
    Own,
}
