// A small class, one of whose operations finds no memory.
ghost use Rattle.std.specs.Prelude.{◌≡◌};
ghost use Rattle.lane_tests.specs.Numbers.{value_after};

use class_laws::{Class, Reducible, WrapSum};
use ss_base::OutOfMemory;
use std::alloc::Global;

/// A number. Each operation contributes 1.
#[derive(Clone, Copy, Debug, PartialEq, Eq)]
pub struct Number(pub u32);

#[derive(Clone, Copy, Debug, PartialEq, Eq)]
pub enum Step {
    /// Adds, modulo 2^32.
    Add(u32),
    /// Multiplies, modulo 2^32.
    Mul(u32),
    /// Wants more memory than is ever found.
    TooMuch,
}

fn value_after(step: Step, value: u32) -> u32
    ensures { result ≡ value_after step value }
{
    match step {
        Step::Add(number) => value.wrapping_add(number),
        Step::Mul(number) => value.wrapping_mul(number),
        Step::TooMuch => value,
    }
}

impl Class for Number {
    ghost use Rattle.std.specs.Prelude.{refl};
    ghost use Rattle.lane_tests.specs.Numbers.{number_meaning};

    type Op = Step;

    type Red = WrapSum;

    ghost meaning = { number_meaning };

    ghost same_unit = { refl };

    ghost same_join = { refl };

    fn apply(
        &mut self,
        _alloc: Global,
        step: &Step,
        _reading: Option<&Number>,
        red: &mut WrapSum,
    ) -> Result<(), OutOfMemory> {
        if *step == Step::TooMuch {
            return Err(OutOfMemory);
        }
        self.0 = value_after(*step, self.0);
        red.join(WrapSum(1))
    }

    fn own_set(_step: &Step) -> u64 {
        0
    }

    fn copy(&self, _alloc: Global) -> Result<Number, OutOfMemory> {
        Ok(*self)
    }
}
