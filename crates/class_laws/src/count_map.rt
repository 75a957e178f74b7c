// Counts by text.
ghost use Rattle.std.specs.Prelude.{◌≡◌, ℕ, List, ◌+◌, ◌%◌, ◌^◌, ◌||◌, OnOk, OnErr};
ghost use Rattle.std.specs.FinMap as finite;
ghost use Rattle.class_laws.specs.Counts.{count_of, counts_after_add, counts_join};

use crate::count_table::CountTable;
use crate::reducible::Reducible;
use ss_base::OutOfMemory;
use std::alloc::Global;
use std::marker::Model;
use std::mem;

/// Counts by text, modulo 2^64. Contracts see the finite map from texts to counts. The empty map is
/// `CountMap::unit`.
#[derive(Drop)]
pub struct CountMap {
    counts: CountTable,
}

impl Model for CountMap {
    ghost use Rattle.std.specs.Prelude.{ℕ};
    ghost use Rattle.std.specs.FinMap as finite;
    ghost use Rattle.std.specs.Coded.{coded_ℕ, coded_list};
    ghost use Rattle.class_laws.specs.Counts.{Counts};

    ghost Value = { Counts };

    ghost coded = { finite.code (coded_list coded_ℕ) coded_ℕ };

    ghost view = { λ map. map.counts };
}

impl CountMap {
    /// Adds `by` to the count of a key, modulo 2^64. Memory is taken for a new key alone. An
    /// `OutOfMemory` changes nothing. It comes too where the keys would pass `u32::MAX` bytes
    /// together or in number.
    pub fn add(&mut self, key: &str, by: u64) -> Result<(), OutOfMemory>
        ensures ok { OnOk result (self.new ≡ counts_after_add self.old key.now by) }
        ensures err { OnErr result (self.new ≡ self.old) }
        ensures new_key { OnErr result (finite.get self.old key.now ≡ None) }
    {
        self.counts.add(key, by)
    }

    /// The count of a key, which is 0 for an absent key. It takes no memory.
    pub fn count(&self, key: &str) -> u64
        ensures { result ≡ count_of self.now key.now }
    {
        self.counts.count(key)
    }
}

impl Reducible for CountMap {
    ghost use Rattle.class_laws.specs.Laws.Counts.{counts_laws};

    ghost unit_value = { finite.empty };

    ghost join_of = { counts_join };

    ghost laws = { counts_laws };

    fn unit(alloc: Global) -> CountMap {
        CountMap {
            counts: CountTable::new(alloc),
        }
    }

    /// Keeps the keys of both. The smaller map is poured into the larger, since the order of the
    /// two doesn't matter.
    fn join(&mut self, other: CountMap) -> Result<(), OutOfMemory>
        ensures value { OnOk result (self.new ≡ counts_join self.old other) }
        ensures counts { OnOk result ((key : List ℕ)
            → count_of self.new key ≡ (count_of self.old key + count_of other key) % 2 ^ 64) }
        ensures keys { OnOk result ((key : List ℕ)
            → finite.contains_key self.new key
            ≡ (finite.contains_key self.old key || finite.contains_key other key)) }
    {
        let CountMap { counts } = other;
        let mut smaller = counts;
        if self.counts.len() < smaller.len() {
            mem::swap(&mut self.counts, &mut smaller);
        }
        self.counts.pour(&smaller)
    }

    fn copy(&self) -> Result<CountMap, OutOfMemory> {
        Ok(CountMap {
            counts: self.counts.copy()?,
        })
    }
}
