// What no clause says: that the calls succeed where there is memory, and that the definitions mean
// what they are meant to, by values worked out by hand. Each bound is taken once at a type.
ghost use Rattle.std.specs.Prelude.{◌≡◌, ◌+◌, ◌%◌, ◌^◌};
ghost use Rattle.std.specs.Option.{option_map, unwrap_or};

use crate::{
    Both, Class, CountMap, LocalClass, LocalReducible, Max, Reducible, WrapSum,
    local_reducible_laws, no_reading, reducible_laws,
};
use ss_base::OutOfMemory;
use std::alloc::Global;
use std::test::Fail;

// A number. An operation adds to it, names the set of what it adds, and contributes what it reads.
#[derive(Debug, PartialEq, Drop)]
struct Word(u32);

#[derive(Drop)]
struct Add(u32);

impl Class for Word {
    type Op = Add;

    type Red = WrapSum;

    ghost use Rattle.std.specs.Prelude.{refl};
    ghost use Rattle.class_laws.specs.Numbers.{wrap_sum_unit, wrap_sum_join};

    ghost meaning = { record {
      step = λ word op read. (
        record { 0 = (word.0 + op.0) % 2 ^ 32 },
        record { 0 = unwrap_or (option_map (λ (other : _). other.0) read) 0 },
      );
      own = λ op. op.0;
      unit = wrap_sum_unit;
      join = wrap_sum_join;
    } };

    ghost same_unit = { refl };

    ghost same_join = { refl };

    fn apply(
        &mut self,
        _alloc: Global,
        op: &Add,
        reading: Option<&Word>,
        red: &mut WrapSum,
    ) -> Result<(), OutOfMemory> {
        self.0 = self.0.wrapping_add(op.0);
        match reading {
            Some(word) => red.join(WrapSum(u64::from(word.0))),
            None => red.join(WrapSum(0)),
        }
    }

    fn own_set(op: &Add) -> u64 {
        u64::from(op.0)
    }

    fn copy(&self, _alloc: Global) -> Result<Word, OutOfMemory> {
        Ok(Word(self.0))
    }
}

fn join_of<R: Reducible>(alloc: Global, first: R, second: R) -> Result<R, OutOfMemory> {
    let mut both = R::unit(alloc);
    both.join(first)?;
    both.join(second)?;
    both.copy()
}

fn local_join_of<R: LocalReducible>(alloc: Global, first: R, second: R) -> Result<R, OutOfMemory> {
    let mut both = R::local_unit(alloc);
    both.local_join(first)?;
    both.local_join(second)?;
    both.local_copy()
}

// Two parts that are joined by a method of an impl, which has to call the local twin.
struct Parts<R>(R, R);

trait Gather<R> {
    fn gather(self, alloc: Global) -> Result<R, OutOfMemory>;
}

impl<R: Reducible> Gather<R> for Parts<R> {
    fn gather(self, alloc: Global) -> Result<R, OutOfMemory> {
        let Parts(first, second) = self;
        local_join_of(alloc, first, second)
    }
}

// The value after two operations, of which the second reads the value before it, and the sum of
// what they contributed and the sets that they named.
fn after_two<C: Class>(alloc: Global, from: &C, op: &C::Op) -> Result<(C, C::Red), OutOfMemory> {
    let mut value = from.copy(alloc)?;
    let mut red = C::Red::unit(alloc);
    value.apply(alloc, op, no_reading(), &mut red)?;
    value.apply(alloc, op, Some(from), &mut red)?;
    Ok((value, red))
}

fn local_after_two<C: LocalClass>(
    alloc: Global,
    from: &C,
    op: &C::LocalOp,
) -> Result<(C, C::LocalRed), OutOfMemory> {
    let mut value = from.local_copy(alloc)?;
    let mut red = C::LocalRed::local_unit(alloc);
    value.local_apply(alloc, op, no_reading(), &mut red)?;
    value.local_apply(alloc, op, Some(from), &mut red)?;
    Ok((value, red))
}

#[test]
fn a_join_adds_the_counts_of_a_key(rt: HostRuntime) -> Result<(), Fail> {
    let alloc = rt.alloc();
    let mut smaller = CountMap::unit(alloc);
    smaller.add("a", 1)?;
    let mut larger = CountMap::unit(alloc);
    larger.add("a", 2)?;
    larger.add("b", 1)?;
    larger.add("b", 2)?;
    smaller.join(larger)?;
    let copy = smaller.copy()?;
    assert_eq!(rt; smaller.count("a"), 3);
    assert_eq!(rt; smaller.count("b"), 3);
    assert_eq!(rt; smaller.count("c"), 0);
    let twice = join_of(alloc, smaller, copy)?;
    assert_eq!(rt; twice.count("a"), 6);
    assert_eq!(rt; twice.count("b"), 6);
    Ok(())
}

#[test]
fn a_pair_joins_each_part_with_its_like(rt: HostRuntime) -> Result<(), Fail> {
    let alloc = rt.alloc();
    reducible_laws::<Both<WrapSum, Max>>();
    local_reducible_laws::<Both<WrapSum, Max>>();
    let both = join_of(alloc, Both(WrapSum(1), Max(2)), Both(WrapSum(3), Max(1)))?;
    assert_eq!(rt; both, Both(WrapSum(4), Max(2)));
    let both = Parts(Both(WrapSum(u64::MAX), Max(7)), both).gather(alloc)?;
    assert_eq!(rt; both, Both(WrapSum(3), Max(7)));
    Ok(())
}

#[test]
fn an_operation_adds_and_contributes_what_it_reads(rt: HostRuntime) -> Result<(), Fail> {
    let alloc = rt.alloc();
    let (word, red) = after_two(alloc, &Word(5), &Add(2))?;
    assert_eq!(rt; word, Word(9));
    assert_eq!(rt; red, WrapSum(5));
    let (word, red) = local_after_two(alloc, &Word(5), &Add(2))?;
    assert_eq!(rt; word, Word(9));
    assert_eq!(rt; red, WrapSum(5));
    assert_eq!(rt; Word::own_set(&Add(2)), 2);
    assert_eq!(rt; Word::local_own_set(&Add(2)), 2);
    Ok(())
}
