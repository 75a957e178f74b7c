// The table of texts.
ghost use Rattle.std.specs.Prelude.{◌≡◌, ◌↔◌, ℕ, [], ◌<◌, length, Some, None, IfOk, OnOk, OnErr};
ghost use Rattle.std.specs.Prelude.{MatchOption, IfErr, unwrap_or, List, ◌++◌, ◌∷◌, ◌≢◌};
ghost use Rattle.std.specs.Prelude.{if◌then◌else◌};
ghost use Rattle.std.specs.BTreeMap.{get_by_text, IsUnchanged};
ghost use Rattle.std.specs.Str.{bytes_eq};
ghost use Rattle.std.specs.List.{slice_get, All};
ghost use Rattle.text_table.specs.TextTables.{number_of, with_text, AreDistinct};

use crate::buckets::{Buckets, PLACES, Slot, is_full};
use crate::tag::tag_of_text;
use crate::text_list::TextList;
use ss_base::OutOfMemory;
use std::alloc::Global;
use std::collections::BTreeMap;
use std::marker::Model;

/// What a look-up gives for a text that has no number: the text's tag. Contracts see the tag.
#[derive(Drop)]
pub struct Absent {
    tag: u32,
}

impl Model for Absent {
    ghost use Rattle.std.specs.Prelude.{ℕ};

    ghost Value = { ℕ };

    ghost view = { λ absent. absent.tag };
}

/// Distinct texts with the numbers 0, 1, 2, .. in the order in which they first came. Contracts see
/// the list of the texts.
///
/// A text is looked up by its tag, in a bucket of eight places, and where the bucket is full in an
/// ordered map. So texts that are chosen to have one tag cost what the ordered map costs.
#[derive(Drop)]
pub struct TextTable {
    alloc: Global,
    texts: TextList,
    buckets: Buckets,
    overflow: BTreeMap<String, u32>,
}

impl Model for TextTable {
    ghost use Rattle.std.specs.Prelude.{ℕ, List};

    ghost Value = { List (List ℕ) };

    ghost use Rattle.text_table.specs.Lookups.{FindsTexts};

    ghost view = { λ table. table.texts };

    ghost invariant = { λ table. FindsTexts table.texts table.buckets table.overflow };
}

// The number of a text, if it stands in the text's bucket.
fn find_among(slots: &[Slot], texts: &TextList, tag: u32, text: &str) -> Option<u32>
    ensures { MatchOption result
        (All (λ slot. slot.tag ≡ tag → slice_get texts.now slot.number ≢ Some text.now) slots.now)
        (λ number. slice_get texts.now number ≡ Some text.now) }
{
    for slot in slots {
        if slot.tag == tag && texts.is(slot.number, text) {
            return Some(slot.number);
        }
    }
    None
}

// Puts the number of a text into the overflow, unless there is no memory.
fn put_over(
    alloc: Global,
    overflow: &mut BTreeMap<String, u32>,
    text: &str,
    number: u32,
) -> Result<(), OutOfMemory>
    ensures put { OnOk result ((key : List ℕ)
        → get_by_text overflow.new key
        ≡ (if bytes_eq text.now key then Some number else get_by_text overflow.old key)) }
    ensures err { OnErr result (IsUnchanged overflow.old overflow.new) }
{
    let key = String::from_str(alloc, text)?;
    overflow.insert(key, number)?;
    Ok(())
}

impl TextTable {
    ghost use Rattle.text_table.specs.Tags.{tag_of};

    /// No text, which takes no memory.
    pub fn new(alloc: Global) -> TextTable
        ensures { result ≡ [] }
    {
        TextTable {
            alloc,
            texts: TextList::new(alloc),
            buckets: Buckets::new(alloc),
            overflow: BTreeMap::new(alloc),
        }
    }

    /// How many texts there are.
    pub fn len(&self) -> u32
        ensures len { result ≡ length self.now }
        ensures distinct { AreDistinct self.now }
    {
        self.texts.len()
    }

    /// The text of a number.
    pub fn text(&self, number: u32) -> &str
        requires { number < length self.now }
        ensures { slice_get self.now number ≡ Some result.now }
    {
        self.texts.text(number)
    }

    /// The number of a text, if it has one. It takes no memory.
    pub fn number_of(&self, text: &str) -> Option<u32>
        ensures { result ≡ number_of self.now text.now }
    {
        self.find(tag_of_text(text), text)
    }

    /// The number of a text, or else what `insert_absent` needs to add it without hashing it again.
    /// It takes no memory.
    pub fn look_up(&self, text: &str) -> Result<u32, Absent>
        ensures number { IfOk result (λ number. number_of self.now text.now ≡ Some number) }
        ensures absent { IfErr result (λ absent. absent ≡ tag_of text.now) }
        ensures new_text { OnErr result (number_of self.now text.now ≡ None) }
    {
        let tag = tag_of_text(text);
        match self.find(tag, text) {
            Some(number) => Ok(number),
            None => Err(Absent { tag }),
        }
    }

    fn find(&self, tag: u32, text: &str) -> Option<u32>
        requires { tag ≡ tag_of text.now }
        ensures { result ≡ number_of self.now text.now }
    {
        let bucket = self.buckets.bucket_of_tag(tag);
        match find_among(bucket, &self.texts, tag, text) {
            Some(number) => Some(number),
            None if is_full(bucket) => self.overflow.get(text).copied(),
            None => None,
        }
    }

    /// The number of a text: that it has, or else the next one, and the list has the text at its
    /// end from then on. An `OutOfMemory` comes for a new text alone, and changes nothing. It comes
    /// too where the texts would pass `u32::MAX` bytes together or in number.
    pub fn insert(&mut self, text: &str) -> Result<u32, OutOfMemory>
        ensures number { IfOk result (λ number.
            number ≡ unwrap_or (number_of self.old text.now) (length self.old)) }
        ensures ok { OnOk result (self.new ≡ with_text self.old text.now) }
        ensures err { OnErr result (self.new ≡ self.old) }
        ensures new_text { OnErr result (number_of self.old text.now ≡ None) }
    {
        match self.look_up(text) {
            Ok(number) => Ok(number),
            Err(absent) => self.insert_absent(absent, text),
        }
    }

    /// Adds a text that `look_up` didn't find, and gives its number, which is the next one. An
    /// `OutOfMemory` changes nothing, and comes as from `insert`.
    pub fn insert_absent(&mut self, absent: Absent, text: &str) -> Result<u32, OutOfMemory>
        requires absent { absent ≡ tag_of text.now }
        requires new_text { number_of self.old text.now ≡ None }
        ensures number { IfOk result (λ number. number ≡ length self.old) }
        ensures ok { OnOk result (self.new ≡ self.old ++ text.now ∷ []) }
        ensures err { OnErr result (self.new ≡ self.old) }
    {
        self.make_room()?;
        let number = self.texts.len();
        self.texts.push(text)?;
        if !self.buckets.put(absent.tag, number) {
            if let Err(error) = put_over(self.alloc, &mut self.overflow, text, number) {
                self.texts.drop_last();
                return Err(error);
            }
        }
        Ok(number)
    }

    // Doubles the buckets where there are as many texts as half of their places. What stood in one
    // bucket is then for two alone, and finds a place there. This isn't proved: the old buckets
    // would stay, and the table be right and slower.
    fn make_room(&mut self) -> Result<(), OutOfMemory>
        ensures { self.new ≡ self.old }
    {
        let len = self.buckets.len();
        if (self.texts.len() as usize) < len.saturating_mul(PLACES / 2) {
            return Ok(());
        }
        let mut buckets = Buckets::with_len(self.alloc, len.saturating_mul(2).max(1))?;
        if self.buckets.pour(&mut buckets) {
            // A look-up asks the overflow only where a bucket is full. So what overflowed must
            // stand in its new bucket, unless that is full again.
            for (text, number) in self.overflow.iter() {
                buckets.put(tag_of_text(text.as_str()), *number);
            }
            self.buckets = buckets;
        }
        Ok(())
    }

    /// The texts alone, without what finds them and without spare room.
    pub fn into_texts(self) -> TextList
        ensures texts { result ≡ self }
        ensures distinct { AreDistinct self }
    {
        let TextTable { texts, .. } = self;
        let mut list = texts;
        list.shrink_to_fit();
        list
    }

    /// A second table, equal to this one.
    pub fn copy(&self) -> Result<TextTable, OutOfMemory>
        ensures { IfOk result (λ copy. copy ≡ self.now) }
    {
        Ok(TextTable {
            alloc: self.alloc,
            texts: self.texts.copy()?,
            buckets: self.buckets.copy()?,
            overflow: self.overflow.clone()?,
        })
    }
}
