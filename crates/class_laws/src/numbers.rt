// Reducibles that are one number. Their calls take no memory.
ghost use Rattle.std.specs.Prelude.{◌≡◌, ◌+◌, ◌%◌, ◌^◌, max, IsOk, IfOk};

use crate::reducible::Reducible;
use ss_base::OutOfMemory;
use std::alloc::Global;

/// A sum modulo 2^64, from 0.
#[derive(Clone, Copy, Debug, PartialEq, Eq)]
pub struct WrapSum(pub u64);

/// The greatest of the numbers joined, from 0.
#[derive(Clone, Copy, Debug, PartialEq, Eq)]
pub struct Max(pub u64);

impl Reducible for WrapSum {
    ghost use Rattle.class_laws.specs.Numbers.{wrap_sum_unit, wrap_sum_join};
    ghost use Rattle.class_laws.specs.Laws.Numbers.{wrap_sum_laws};

    ghost unit_value = { wrap_sum_unit };

    ghost join_of = { wrap_sum_join };

    ghost laws = { wrap_sum_laws };

    fn unit(_alloc: Global) -> WrapSum
        ensures { result.0 ≡ 0 }
    {
        WrapSum(0)
    }

    fn join(&mut self, other: WrapSum) -> Result<(), OutOfMemory>
        ensures ok { IsOk result }
        ensures sum { self.new.0 ≡ (self.old.0 + other.0) % 2 ^ 64 }
    {
        self.0 = self.0.wrapping_add(other.0);
        Ok(())
    }

    fn copy(&self) -> Result<WrapSum, OutOfMemory>
        ensures ok { IsOk result }
        ensures same { IfOk result (λ copy. copy ≡ self.now) }
    {
        Ok(*self)
    }
}

impl Reducible for Max {
    ghost use Rattle.class_laws.specs.Numbers.{max_unit, max_join};
    ghost use Rattle.class_laws.specs.Laws.Numbers.{max_laws};

    ghost unit_value = { max_unit };

    ghost join_of = { max_join };

    ghost laws = { max_laws };

    fn unit(_alloc: Global) -> Max
        ensures { result.0 ≡ 0 }
    {
        Max(0)
    }

    fn join(&mut self, other: Max) -> Result<(), OutOfMemory>
        ensures ok { IsOk result }
        ensures greatest { self.new.0 ≡ max self.old.0 other.0 }
    {
        if other.0 > self.0 {
            self.0 = other.0;
        }
        Ok(())
    }

    fn copy(&self) -> Result<Max, OutOfMemory>
        ensures ok { IsOk result }
        ensures same { IfOk result (λ copy. copy ≡ self.now) }
    {
        Ok(*self)
    }
}
