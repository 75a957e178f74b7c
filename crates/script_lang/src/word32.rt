// The values of scripts.
ghost use Rattle.std.specs.Prelude.{◌≡◌, IsOk, Ok};
ghost use Rattle.std.specs.Option.{option_copied};
ghost use Rattle.script_lang.specs.Acts.{value_after, contribution_of, read_value};

use class_laws::{Class, Reducible, WrapSum};
use ss_base::OutOfMemory;
use std::alloc::Global;

/// A value of a script's objects.
#[derive(Clone, Copy, Debug, PartialEq, Eq)]
pub struct Word32(pub u32);

/// What is done to a value. Sums and products are modulo 2^32.
#[derive(Clone, Copy, Debug, PartialEq, Eq)]
pub enum Act {
    /// Adds the number.
    Add(u32),
    /// Multiplies by the number.
    Mul(u32),
    /// Puts the number in place of the value.
    Set(u32),
    /// Leaves the value, and contributes it.
    Give,
    /// Multiplies by 31 and adds the value read, or 0 where none is.
    Mix,
}

/// An act, and the serialization set that it names for itself.
#[derive(Clone, Copy, Debug, PartialEq, Eq)]
pub struct Deed {
    pub act: Act,
    pub set: u64,
}

// The value after an act on `value`, where `read` was read.
fn value_after(act: Act, value: u32, read: u32) -> u32
    ensures { result ≡ value_after act value read }
{
    match act {
        Act::Add(number) => value.wrapping_add(number),
        Act::Mul(number) => value.wrapping_mul(number),
        Act::Set(number) => number,
        Act::Give => value,
        Act::Mix => value.wrapping_mul(31).wrapping_add(read),
    }
}

// What an act on `value` contributes.
fn contribution_of(act: Act, value: u32) -> u64
    ensures { result ≡ contribution_of act value }
{
    match act {
        Act::Give => u64::from(value),
        _ => 0,
    }
}

// The value read, or 0.
fn read_value(reading: Option<&Word32>) -> u32
    ensures { result ≡ read_value (option_copied reading.entry) }
{
    match reading {
        Some(word) => word.0,
        None => 0,
    }
}

impl Class for Word32 {
    type Op = Deed;

    type Red = WrapSum;

    ghost use Rattle.std.specs.Prelude.{refl};
    ghost use Rattle.class_laws.specs.Numbers.{wrap_sum_join};
    ghost use Rattle.script_lang.specs.Acts.{step, script_meaning};

    ghost meaning = { script_meaning };

    ghost same_unit = { refl };

    ghost same_join = { refl };

    fn apply(
        &mut self,
        _alloc: Global,
        deed: &Deed,
        reading: Option<&Word32>,
        red: &mut WrapSum,
    ) -> Result<(), OutOfMemory>
        ensures ok { IsOk result }
        ensures value { self.new ≡ (step self.old deed.now (option_copied reading.entry)).0 }
        ensures contribution { red.new ≡ wrap_sum_join red.old
            (step self.old deed.now (option_copied reading.entry)).1 }
    {
        let before = self.0;
        self.0 = value_after(deed.act, before, read_value(reading));
        red.join(WrapSum(contribution_of(deed.act, before)))
    }

    fn own_set(deed: &Deed) -> u64 {
        deed.set
    }

    fn copy(&self, _alloc: Global) -> Result<Word32, OutOfMemory>
        ensures { result ≡ Ok self.now }
    {
        Ok(*self)
    }
}
