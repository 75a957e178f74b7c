// A small class that finds no memory for one of its operations.
ghost use Rattle.std.specs.Prelude.{◌≡◌};

use class_laws::{Class, Reducible, WrapSum};
use ss_base::OutOfMemory;
use std::alloc::Global;

/// A number that stays as it is.
#[derive(Clone, Copy, Debug, PartialEq, Eq)]
pub struct Scarce(pub u32);

#[derive(Clone, Copy, Debug, PartialEq, Eq)]
pub enum Need {
    Nothing,
    /// More memory than is ever found.
    TooMuch,
}

impl Class for Scarce {
    ghost use Rattle.std.specs.Prelude.{refl};
    ghost use Rattle.runtime_tests.specs.Scarce.{scarce_meaning};

    type Op = Need;

    type Red = WrapSum;

    ghost meaning = { scarce_meaning };

    ghost same_unit = { refl };

    ghost same_join = { refl };

    fn apply(
        &mut self,
        alloc: Global,
        need: &Need,
        _reading: Option<&Scarce>,
        red: &mut WrapSum,
    ) -> Result<(), OutOfMemory> {
        match need {
            Need::Nothing => red.join(WrapSum::unit(alloc)),
            Need::TooMuch => Err(OutOfMemory),
        }
    }

    fn own_set(_need: &Need) -> u64 {
        0
    }

    fn copy(&self, _alloc: Global) -> Result<Scarce, OutOfMemory> {
        Ok(*self)
    }
}
