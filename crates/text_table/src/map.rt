// A map from texts to values.
ghost use Rattle.std.specs.Prelude.{◌≡◌, ℕ, List, [], ◌∷◌, ◌++◌, ◌<◌, length, zip, slice_get};
ghost use Rattle.std.specs.Prelude.{Some, None, IfOk, IfErr, OnOk, OnErr};
ghost use Rattle.std.specs.Borrow.{sem};
ghost use Rattle.std.specs.FinMap as finite;
ghost use Rattle.std.specs.Map.{keys_of, values_of};
ghost use Rattle.std.specs.Option.{option_copied};
ghost use Rattle.text_table.specs.Tags.{tag_of};
ghost use Rattle.text_table.specs.TextTables.{number_of, AreDistinct};
ghost use Rattle.text_table.specs.TextMaps.{map_of};
ghost use Rattle.text_table.specs.Lending.{LendsValue};

use crate::table::{Absent, TextTable};
use ss_base::OutOfMemory;
use std::alloc::Global;
use std::marker::Model;

/// A map from texts to values. Contracts see its entries, which are its texts in the order in which
/// they first came, each with its value: they are numbered 0, 1, 2, ..
#[derive(Drop)]
pub struct TextMap<V> {
    texts: TextTable,
    values: Vec<V>,
}

impl<V> Model for TextMap<V> {
    ghost use Rattle.std.specs.Prelude.{◌≡◌, ℕ, List, length, zip};

    ghost Value = { List (List ℕ × V) };

    ghost view = { λ map. zip map.texts map.values.items };

    ghost invariant = { λ map. length map.texts ≡ length map.values.items };
}

impl<V> TextMap<V> {
    /// The empty map, which takes no memory.
    pub fn new(alloc: Global) -> TextMap<V>
        ensures { result ≡ [] }
    {
        TextMap {
            texts: TextTable::new(alloc),
            values: Vec::new(alloc),
        }
    }

    /// These texts, each with the value that stands at its number.
    pub fn of(texts: TextTable, values: Vec<V>) -> TextMap<V>
        requires { length texts ≡ length values.items }
        ensures { result ≡ zip texts values.items }
    {
        TextMap { texts, values }
    }

    /// How many texts there are.
    pub fn len(&self) -> u32
        ensures len { result ≡ length self.now }
        ensures distinct { AreDistinct (keys_of self.now) }
    {
        self.texts.len()
    }

    /// The number of a text, or else what `insert_absent` needs to add it without hashing it again.
    /// It takes no memory.
    pub fn look_up(&self, text: &str) -> Result<u32, Absent>
        ensures number { IfOk result
            (λ number. number_of (keys_of self.now) text.now ≡ Some number) }
        ensures within { IfOk result (λ number. number < length self.now) }
        ensures absent { IfErr result (λ absent. absent ≡ tag_of text.now) }
        ensures new_text { OnErr result (number_of (keys_of self.now) text.now ≡ None) }
    {
        self.texts.look_up(text)
    }

    /// The value of a text, if it has one. It takes no memory.
    pub fn get(&self, text: &str) -> Option<&V>
        ensures { option_copied result ≡ finite.get (map_of self.now) text.now }
    {
        let number = self.texts.number_of(text)?;
        Some(&self.values[number as usize])
    }

    /// The texts.
    pub fn texts(&self) -> &TextTable
        ensures { result.now ≡ keys_of self.now }
    {
        &self.texts
    }

    /// The values, each at its text's number.
    pub fn values(&self) -> &[V]
        ensures { result.now ≡ values_of self.now }
    {
        &self.values
    }

    /// The text of a number, and its value.
    pub fn entry(&self, number: u32) -> (&str, &V)
        requires { number < length self.now }
        ensures { slice_get self.now number ≡ Some (result.0.now, result.1.now) }
    {
        (self.texts.text(number), &self.values[number as usize])
    }

    /// The value of a number, for writing.
    pub fn value_mut(&mut self, number: u32) -> &mut V
        requires { number < length self.old }
        ensures* writes_back { sem 𝓛 (LendsValue V.row self.entry number result) }
        ensures value { slice_get (values_of self.old) number ≡ Some result.now }
    {
        &mut self.values[number as usize]
    }

    /// Adds a text that `look_up` didn't find, with its value, and gives its number, which is the
    /// next one. An `OutOfMemory` changes nothing. It comes too where the texts would pass
    /// `u32::MAX` bytes together or in number.
    pub fn insert_absent(
        &mut self,
        absent: Absent,
        text: &str,
        value: V,
    ) -> Result<u32, OutOfMemory>
    where
        V: Drop,
        requires absent { absent ≡ tag_of text.now }
        requires new_text { number_of (keys_of self.old) text.now ≡ None }
        ensures number { IfOk result (λ number. number ≡ length self.old) }
        ensures ok { OnOk result (self.new ≡ self.old ++ (text.now, value) ∷ []) }
        ensures err { OnErr result (self.new ≡ self.old) }
    {
        self.values.push(value)?;
        match self.texts.insert_absent(absent, text) {
            Ok(number) => Ok(number),
            Err(error) => {
                self.values.pop();
                Err(error)
            }
        }
    }

    /// The texts, and the values in the order of their numbers.
    pub fn into_parts(self) -> (TextTable, Vec<V>)
        ensures texts { result.0 ≡ keys_of self }
        ensures values { result.1.items ≡ values_of self }
    {
        let TextMap { texts, values } = self;
        (texts, values)
    }
}

impl<V: Copy> TextMap<V> {
    /// A second map, equal to this one.
    pub fn copy(&self) -> Result<TextMap<V>, OutOfMemory>
        ensures { IfOk result (λ copy. copy ≡ self.now) }
    {
        Ok(TextMap {
            texts: self.texts.copy()?,
            values: Vec::from_slice(*self.values.allocator(), &self.values)?,
        })
    }
}
