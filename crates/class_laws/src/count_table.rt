// A table of counts by text, behind a contract that says nothing of how it is kept.
ghost use Rattle.std.specs.Prelude.{◌≡◌, None, IfOk, OnOk, OnErr};
ghost use Rattle.std.specs.FinMap as finite;
ghost use Rattle.class_laws.specs.Counts.{count_of, counts_after_add, counts_join};

use ss_base::OutOfMemory;
use std::alloc::Global;
use std::marker::Model;
use text_table::TextMap;

/// A finite map from texts to counts.
#[derive(Drop)]
pub(crate) struct CountTable {
    counts: TextMap<u64>,
}

impl Model for CountTable {
    ghost use Rattle.std.specs.Prelude.{ℕ};
    ghost use Rattle.std.specs.FinMap as finite;
    ghost use Rattle.std.specs.Coded.{coded_ℕ, coded_list};
    ghost use Rattle.text_table.specs.TextMaps.{map_of};
    ghost use Rattle.class_laws.specs.Counts.{Counts};
    ghost use Rattle.class_laws.specs.CountTables.{AreCounts};

    ghost Value = { Counts };

    ghost coded = { finite.code (coded_list coded_ℕ) coded_ℕ };

    ghost view = { λ table. map_of table.counts };

    ghost invariant = { λ table. AreCounts table.counts };
}

impl CountTable {
    /// The empty table, which takes no memory.
    pub(crate) fn new(alloc: Global) -> CountTable
        ensures { result ≡ finite.empty }
    {
        CountTable {
            counts: TextMap::new(alloc),
        }
    }

    /// How many keys there are.
    pub(crate) fn len(&self) -> usize
        ensures { result ≡ finite.len self.now }
    {
        self.counts.len() as usize
    }

    /// The count of a key, which is 0 for an absent key.
    pub(crate) fn count(&self, key: &str) -> u64
        ensures { result ≡ count_of self.now key.now }
    {
        match self.counts.get(key) {
            Some(count) => *count,
            None => 0,
        }
    }

    /// Adds to the count of a key, modulo 2^64, and keeps the key if it is new. An `OutOfMemory`
    /// comes for a new key alone, and changes nothing.
    pub(crate) fn add(&mut self, key: &str, by: u64) -> Result<(), OutOfMemory>
        ensures ok { OnOk result (self.new ≡ counts_after_add self.old key.now by) }
        ensures err { OnErr result (self.new ≡ self.old) }
        ensures new_key { OnErr result (finite.get self.old key.now ≡ None) }
    {
        match self.counts.look_up(key) {
            Ok(number) => {
                let count = self.counts.value_mut(number);
                *count = count.wrapping_add(by);
                Ok(())
            }
            Err(absent) => {
                self.counts.insert_absent(absent, key, by)?;
                Ok(())
            }
        }
    }

    /// Joins the counts of `other` into this table. After an `OutOfMemory` nothing is said of this
    /// table.
    pub(crate) fn pour(&mut self, other: &CountTable) -> Result<(), OutOfMemory>
        ensures { OnOk result (self.new ≡ counts_join self.old other.now) }
    {
        for number in 0..other.counts.len() {
            let (key, count) = other.counts.entry(number);
            self.add(key, *count)?;
        }
        // What is kept is below 2^64, and a proof knows so once it sees what is kept.
        let _ = &self.counts;
        Ok(())
    }

    /// A second table, equal to this one.
    pub(crate) fn copy(&self) -> Result<CountTable, OutOfMemory>
        ensures { IfOk result (λ copy. copy ≡ self.now) }
    {
        Ok(CountTable {
            counts: self.counts.copy()?,
        })
    }
}
