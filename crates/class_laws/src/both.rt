// Two reducibles as one.
ghost use Rattle.std.specs.Prelude.{◌≡◌, IfOk, OnOk};

use crate::reducible::Reducible;
use ss_base::OutOfMemory;
use std::alloc::Global;

/// A pair of reducibles, each joined with its like. It takes memory where one of the two does.
#[derive(Drop, Debug, PartialEq)]
pub struct Both<A, B>(pub A, pub B);

impl<A: Reducible, B: Reducible> Reducible for Both<A, B> {
    ghost use Rattle.class_laws.specs.Pairs.{both_of, both_join};
    ghost use Rattle.class_laws.specs.Laws.Pairs.{both_laws};

    ghost unit_value = { both_of A.unit_value B.unit_value };

    ghost join_of = { both_join A.join_of B.join_of };

    ghost laws = { both_laws A.laws B.laws };

    fn unit(alloc: Global) -> Both<A, B> {
        Both(A::unit(alloc), B::unit(alloc))
    }

    fn join(&mut self, other: Both<A, B>) -> Result<(), OutOfMemory>
        ensures first { OnOk result (self.new.0 ≡ A.join_of self.old.0 other.0) }
        ensures second { OnOk result (self.new.1 ≡ B.join_of self.old.1 other.1) }
    {
        let Both(first, second) = other;
        self.0.join(first)?;
        self.1.join(second)
    }

    fn copy(&self) -> Result<Both<A, B>, OutOfMemory> {
        let first = self.0.copy()?;
        let second = self.1.copy()?;
        Ok(Both(first, second))
    }
}
