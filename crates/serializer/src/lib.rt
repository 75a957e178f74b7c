//! Serializers: from a delegated operation to its serialization set, and from a set to its lane.
//!
//! An operation is mapped to its set when it is delegated, by the serializer of its object (Allen,
//! Sridharan and Sohi, "Serialization Sets", PPoPP 2009). Nothing here takes memory.
#![tactic(auto)]

ghost use Rattle.std.specs.Prelude.{◌≡◌, ◌≤◌, Some, List, [], ◌∷◌, ◌++◌, count_by};
ghost use Rattle.ss_base.specs.declared.limits.TheConstants.{DELEGATES};
ghost use Rattle.execution_definitions.specs.Shapes.{Shape, make, makes_by_sequence};
ghost use Rattle.execution_definitions.specs.Sets.{serializer_by, serializer_in, set_by, lane_of_set};
ghost use Rattle.execution_definitions.specs.Sets.{object_count, set_of as set_in};

pub use execution_definitions::{By, Serializer};
use ss_base::{Lane, ObjectId, SetId};

#[cfg(test)]
mod tests;

/// The serializer of an object that is made after `sequence_objects` objects by sequence.
///
/// The second clause says the same of every program: whatever its calls were, if they made so many
/// objects by sequence then this is the serializer of the object that it makes next.
pub fn serializer_of(by: By, sequence_objects: u64) -> Serializer
    ensures value { result ≡ serializer_by by sequence_objects }
    ensures of_calls { (calls : List Shape) → count_by makes_by_sequence calls ≡ sequence_objects →
        serializer_in (calls ++ make by ∷ []) (object_count calls) ≡ Some result }
{
    match by {
        By::Object => Serializer::Object,
        By::Sequence => Serializer::Sequence(sequence_objects),
        By::Own => Serializer::Own,
    }
}

/// The set of an operation on `object`, where the operation itself names the number `own`.
///
/// Equal numbers are one set, whichever serializer named them. The second clause says the same of
/// every program in which the object has this serializer.
pub fn set_of(serializer: Serializer, object: ObjectId, own: u64) -> SetId
    ensures value { result.0 ≡ set_by serializer object.0 own }
    ensures of_calls { (calls : List Shape) → serializer_in calls object.0 ≡ Some serializer →
        result.0 ≡ set_in calls object.0 own }
{
    match serializer {
        Serializer::Object => SetId(u64::from(object.0)),
        Serializer::Sequence(number) => SetId(number),
        Serializer::Own => SetId(own),
    }
}

/// The lane of a set among `n` delegates: the set's number modulo `n`.
pub fn lane_of(set: SetId, n: u32) -> Lane
    requires some_delegate { 1 ≤ n }
    requires few { n ≤ DELEGATES }
    ensures { result.0 ≡ lane_of_set set.0 n }
{
    Lane((set.0 % u64::from(n)) as u8)
}
