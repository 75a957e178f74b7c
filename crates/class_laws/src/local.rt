//! Twins of `Reducible` and `Class` without `Send` and `Sync`, for code that an impl calls.
//!
//! The checker proves a method of an impl for one thread, and knows nothing there of what may go to
//! another. Such a method may call the methods of its own bounds, but no function whose bound holds
//! `Send` or `Sync`, as `C: Class` does: that call is left without a proof, whatever the impl's
//! bounds are. It may call a function whose bound is a twin.
//!
//! - A helper that a method of an impl calls takes `R: LocalReducible` or `C: LocalClass`. The impl
//!   itself may have `R: Reducible` or `C: Class`.
//! - What starts a thread is a free function or a `final fn` of a trait, and takes `C: Class`.
//! - A type implements `Reducible` or `Class`. Each of these is its own twin, with the same meaning
//!   under the same names behind `local_`, so nobody implements a twin.
ghost use Rattle.std.specs.Prelude.{◌≡◌, IfOk, OnOk};
ghost use Rattle.std.specs.Option.{option_copied};
ghost use Rattle.execution_definitions.specs.Meanings.{Meaning};
ghost use Rattle.class_laws.specs.Laws.{ReducibleLaws};

use crate::class::Class;
use crate::reducible::Reducible;
use ss_base::OutOfMemory;
use std::alloc::Global;

/// `Reducible` for a helper that a method of an impl calls, where a bound may not hold `Send`.
/// Everywhere else, and to implement, take `Reducible`.
pub trait LocalReducible: Sized + Drop {
    /// `Reducible`'s `unit_value`.
    ghost local_unit_value: { Self };

    /// `Reducible`'s `join_of`.
    ghost local_join_of: { Self → Self → Self };

    /// `Reducible::unit`.
    fn local_unit(alloc: Global) -> Self
        ensures { result ≡ local_unit_value };

    /// `Reducible::join`.
    fn local_join(&mut self, other: Self) -> Result<(), OutOfMemory>
        ensures { OnOk result (self.new ≡ local_join_of self.old other) };

    /// `Reducible::copy`.
    fn local_copy(&self) -> Result<Self, OutOfMemory>
        ensures { IfOk result (λ copy. copy ≡ self.now) };

    /// `Reducible`'s `laws`.
    ghost local_laws: { ReducibleLaws local_unit_value local_join_of };
}

impl<R: Reducible> LocalReducible for R {
    ghost local_unit_value = { R.unit_value };

    ghost local_join_of = { R.join_of };

    ghost local_laws = { R.laws };

    fn local_unit(alloc: Global) -> R {
        R::unit(alloc)
    }

    fn local_join(&mut self, other: R) -> Result<(), OutOfMemory> {
        self.join(other)
    }

    fn local_copy(&self) -> Result<R, OutOfMemory> {
        self.copy()
    }
}

/// The laws of any reducible, as a fact for the proof of a caller that a method of an impl calls.
/// Nothing runs.
pub fn local_reducible_laws<R: LocalReducible>()
    ensures { ReducibleLaws R.local_unit_value R.local_join_of }
{}

/// `Class` for a helper that a method of an impl calls, where a bound may not hold `Send` or
/// `Sync`. Everywhere else, and to implement, take `Class`.
pub trait LocalClass: Sized + Drop {
    /// `Class::Op`.
    type LocalOp: Drop;

    /// `Class::Red`.
    type LocalRed: LocalReducible;

    /// `Class`'s `meaning`.
    ghost local_meaning: { Meaning Self Self.LocalOp Self.LocalRed };

    /// `Class::apply`.
    fn local_apply(
        &mut self,
        alloc: Global,
        op: &Self::LocalOp,
        reading: Option<&Self>,
        red: &mut Self::LocalRed,
    ) -> Result<(), OutOfMemory>
        ensures value { let after = local_meaning.step self.old op.now (option_copied reading.entry) in
            OnOk result (self.new ≡ after.0) }
        ensures contribution { let after = local_meaning.step self.old op.now (option_copied reading.entry) in
            OnOk result (red.new ≡ local_meaning.join red.old after.1) };

    /// `Class::own_set`.
    fn local_own_set(op: &Self::LocalOp) -> u64
        ensures { result ≡ local_meaning.own op.now };

    /// `Class::copy`.
    fn local_copy(&self, alloc: Global) -> Result<Self, OutOfMemory>
        ensures { IfOk result (λ copy. copy ≡ self.now) };

    /// `Class`'s `same_unit`.
    ghost local_same_unit: { local_meaning.unit ≡ Self.LocalRed.local_unit_value };

    /// `Class`'s `same_join`.
    ghost local_same_join: { local_meaning.join ≡ Self.LocalRed.local_join_of };
}

impl<C: Class> LocalClass for C {
    type LocalOp = C::Op;

    type LocalRed = C::Red;

    ghost local_meaning = { C.meaning };

    ghost local_same_unit = { C.same_unit };

    ghost local_same_join = { C.same_join };

    fn local_apply(
        &mut self,
        alloc: Global,
        op: &C::Op,
        reading: Option<&C>,
        red: &mut C::Red,
    ) -> Result<(), OutOfMemory> {
        self.apply(alloc, op, reading, red)
    }

    fn local_own_set(op: &C::Op) -> u64 {
        C::own_set(op)
    }

    fn local_copy(&self, alloc: Global) -> Result<C, OutOfMemory> {
        self.copy(alloc)
    }
}
