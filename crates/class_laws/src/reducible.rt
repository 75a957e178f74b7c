// What operations contribute to.
ghost use Rattle.std.specs.Prelude.{◌≡◌, IfOk, OnOk};
ghost use Rattle.class_laws.specs.Laws.{ReducibleLaws};

use ss_base::OutOfMemory;
use std::alloc::Global;

/// A value that many operations contribute to. The order of the contributions changes nothing, so
/// each delegate joins those of its own operations, and the results are joined at the end.
pub trait Reducible: Sized + Send + Drop {
    /// What no operation has contributed to.
    ghost unit_value: { Self };

    /// What two values come to together.
    ghost join_of: { Self → Self → Self };

    /// The unit, which takes no memory. What is joined later is kept in memory of `alloc`.
    fn unit(alloc: Global) -> Self
        ensures { result ≡ unit_value };

    /// Joins `other` into this value. After an `OutOfMemory` nothing is said of this value.
    fn join(&mut self, other: Self) -> Result<(), OutOfMemory>
        ensures { OnOk result (self.new ≡ join_of self.old other) };

    /// A second value, equal to this one.
    fn copy(&self) -> Result<Self, OutOfMemory>
        ensures { IfOk result (λ copy. copy ≡ self.now) };

    /// Neither the order nor the grouping of joins matters, and the unit adds nothing.
    ghost laws: { ReducibleLaws unit_value join_of };
}

/// The laws of any reducible, as a fact for the proof of its caller. Nothing runs.
pub fn reducible_laws<R: Reducible>()
    ensures { ReducibleLaws R.unit_value R.join_of }
{}
