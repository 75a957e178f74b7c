// Numbers under tags.
ghost use Rattle.std.specs.Prelude.{◌≡◌, ◌↔◌, [], false, length, IsTrue, IfOk};
ghost use Rattle.std.specs.List.{All, Contains};
ghost use Rattle.text_table.specs.Buckets.{place_of, bucket_of, Holds, AreHeldBy, IsHeldBy};
ghost use Rattle.text_table.specs.Buckets.{IsFull, StayFull, KeepsTaken};

use ss_base::OutOfMemory;
use std::alloc::Global;
use std::marker::Model;

/// How many places a bucket has: they fill 64 bytes.
pub(crate) const PLACES: usize = 8;

// No text has this number: it marks a free place.
const NO_NUMBER: u32 = u32::MAX;

/// A number with the tag of its text.
#[derive(Clone, Copy)]
pub(crate) struct Slot {
    pub(crate) tag: u32,
    pub(crate) number: u32,
}

const FREE: Slot = Slot {
    tag: 0,
    number: NO_NUMBER,
};

/// Buckets of eight places each. A number stands in the bucket that its tag picks, if that had a
/// free place. Contracts see the list of the buckets.
#[derive(Drop)]
pub(crate) struct Buckets {
    buckets: Vec<[Slot; PLACES]>,
}

impl Model for Buckets {
    ghost use Rattle.std.specs.Prelude.{List};
    ghost use Rattle.text_table.specs.declared.buckets.Slot.{Slot};

    ghost Value = { List (List Slot) };

    ghost view = { λ buckets. buckets.buckets.items };
}

/// Whether a bucket has no free place. Places are filled from the first on, so the last one mostly
/// tells at once.
pub(crate) fn is_full(bucket: &[Slot]) -> bool
    ensures { IsTrue result ↔ IsFull bucket.now }
{
    bucket.iter().rev().all(|place| place.number != NO_NUMBER)
}

// Puts a slot at the first free place of a bucket, and says whether there is one.
fn put_into(bucket: &mut [Slot], slot: Slot) -> bool
    ensures put { IsTrue result → Contains bucket.new slot }
    ensures full { result ≡ false → IsFull bucket.old }
    ensures others { KeepsTaken bucket.old bucket.new }
    ensures still_full { IsFull bucket.old → IsFull bucket.new }
{
    let Some(free) = bucket.iter().position(|place| place.number == NO_NUMBER) else {
        return false;
    };
    bucket[free] = slot;
    true
}

impl Buckets {
    /// No bucket, which takes no memory.
    pub(crate) fn new(alloc: Global) -> Buckets
        ensures { result ≡ [] }
    {
        Buckets {
            buckets: Vec::new(alloc),
        }
    }

    /// So many buckets, in which nothing stands.
    pub(crate) fn with_len(alloc: Global, len: usize) -> Result<Buckets, OutOfMemory>
        ensures { IfOk result (λ buckets. length buckets ≡ len) }
    {
        Ok(Buckets {
            buckets: vec![in alloc; [FREE; PLACES]; len]?,
        })
    }

    /// How many buckets there are.
    pub(crate) fn len(&self) -> usize
        ensures { result ≡ length self.now }
    {
        self.buckets.len()
    }

    // Which bucket a tag picks. All are used alike where their count is a power of two.
    fn place_of_tag(&self, tag: u32) -> usize
        ensures { result ≡ place_of (length self.now) tag }
    {
        tag as usize & self.buckets.len().saturating_sub(1)
    }

    /// The bucket that a tag picks, which is empty where there is none.
    pub(crate) fn bucket_of_tag(&self, tag: u32) -> &[Slot]
        ensures { result.now ≡ bucket_of self.now tag }
    {
        match self.buckets.get(self.place_of_tag(tag)) {
            Some(bucket) => bucket,
            None => &[],
        }
    }

    /// Puts a number under a tag, and says whether the tag's bucket had a free place for it.
    pub(crate) fn put(&mut self, tag: u32, number: u32) -> bool
        ensures put { IsTrue result → Holds self.new tag number }
        ensures full { result ≡ false → IsFull (bucket_of self.old tag) }
        ensures others { AreHeldBy self.old self.new }
        ensures still_full { StayFull self.old self.new }
        ensures len { length self.new ≡ length self.old }
    {
        let place = self.place_of_tag(tag);
        let Some(bucket) = self.buckets.get_mut(place) else {
            return false;
        };
        put_into(bucket, Slot { tag, number })
    }

    // Puts what stands in a bucket, and says whether all of it found a place.
    fn put_all(&mut self, bucket: &[Slot]) -> bool
        ensures put { IsTrue result → All (IsHeldBy self.new) bucket.now }
        ensures others { AreHeldBy self.old self.new }
        ensures len { length self.new ≡ length self.old }
    {
        for slot in bucket {
            if slot.number == NO_NUMBER {
                continue;
            }
            if !self.put(slot.tag, slot.number) {
                return false;
            }
        }
        true
    }

    /// Puts what stands here into `others`, and says whether all of it found a place there.
    pub(crate) fn pour(&self, others: &mut Buckets) -> bool
        ensures put { IsTrue result → AreHeldBy self.now others.new }
        ensures others { AreHeldBy others.old others.new }
        ensures len { length others.new ≡ length others.old }
    {
        for bucket in &self.buckets {
            if !others.put_all(bucket) {
                return false;
            }
        }
        true
    }

    /// Buckets equal to these.
    pub(crate) fn copy(&self) -> Result<Buckets, OutOfMemory>
        ensures { IfOk result (λ copy. copy ≡ self.now) }
    {
        Ok(Buckets {
            buckets: self.buckets.clone()?,
        })
    }
}
