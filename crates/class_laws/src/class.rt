// What is operated on.
ghost use Rattle.std.specs.Prelude.{◌≡◌, None, IfOk, OnOk};
ghost use Rattle.std.specs.Option.{option_copied};
ghost use Rattle.execution_definitions.specs.Meanings.{Meaning};

use crate::reducible::{Reducible, reducible_laws};
use ss_base::OutOfMemory;
use std::alloc::Global;

/// Values with operations. An operation on one value may read another value of the class.
pub trait Class: Sized + Send + Sync + Drop {
    /// An operation.
    type Op: Send + Drop + 'static;

    /// What operations contribute to.
    type Red: Reducible + 'static;

    /// What operations do to values, which sets they name, and what their contributions come to.
    /// Its `step` is total, so an operation that does not fit a value says what it does there too.
    ghost meaning: { Meaning Self Self.Op Self.Red };

    /// Applies `op` to this value, and joins its contribution into `red`. After an `OutOfMemory`
    /// nothing is said of either.
    fn apply(
        &mut self,
        alloc: Global,
        op: &Self::Op,
        reading: Option<&Self>,
        red: &mut Self::Red,
    ) -> Result<(), OutOfMemory>
        ensures value { let after = meaning.step self.old op.now (option_copied reading.entry) in
            OnOk result (self.new ≡ after.0) }
        ensures contribution { let after = meaning.step self.old op.now (option_copied reading.entry) in
            OnOk result (red.new ≡ meaning.join red.old after.1) };

    /// The serialization set that `op` names for itself. It takes no memory.
    fn own_set(op: &Self::Op) -> u64
        ensures { result ≡ meaning.own op.now };

    /// A second value, equal to this one.
    fn copy(&self, alloc: Global) -> Result<Self, OutOfMemory>
        ensures { IfOk result (λ copy. copy ≡ self.now) };

    /// The total before the first contribution is the unit.
    ghost same_unit: { meaning.unit ≡ Self.Red.unit_value };

    /// Contributions are joined as the reducible joins.
    ghost same_join: { meaning.join ≡ Self.Red.join_of };
}

/// That an operation reads no value. A literal `None` in its place would leave a call of
/// `Class::apply` without a proof.
pub fn no_reading<'a, C>() -> Option<&'a C>
    ensures { result ≡ None }
{
    None
}

/// Contributions may be joined in any order, as a fact for the proof of a caller. Nothing runs.
pub fn joins_in_any_order<C: Class>()
    ensures { (total a b : C.Red) → C.meaning.join (C.meaning.join total a) b
        ≡ C.meaning.join (C.meaning.join total b) a }
{
    joins_as_its_reducible::<C>();
    reducible_laws::<C::Red>();
}

// A class joins contributions as its reducible does.
fn joins_as_its_reducible<C: Class>()
    ensures { C.meaning.join ≡ C.Red.join_of }
{}
