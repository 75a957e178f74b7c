// Texts and lists of texts, and the answer of a call that found no memory.
ghost use Rattle.std.specs.Prelude.{◌≡◌, [], ◌∷◌, ◌++◌, IfOk, OnOk, OnErr};

use std::alloc::{AllocError, AllocFailed, Global};
use std::marker::Model;
use thiserror::Error;

/// There was no memory.
#[derive(Clone, Copy, Debug, PartialEq, Eq, Error)]
#[error("out of memory")]
pub struct OutOfMemory;

impl From<AllocError> for OutOfMemory {
    fn from(_: AllocError) -> Self {
        OutOfMemory
    }
}

impl<T: Drop> From<AllocFailed<T>> for OutOfMemory {
    fn from(_: AllocFailed<T>) -> Self {
        OutOfMemory
    }
}

/// A text that doesn't change. Contracts see its list of bytes.
#[derive(Drop, Debug)]
pub struct Text(String);

impl Model for Text {
    ghost use Rattle.std.specs.Prelude.{ℕ, List, string_bytes};

    ghost Value = { List ℕ };

    ghost view = { λ text. string_bytes text.0 };
}

impl Text {
    /// The bytes of `text`.
    pub fn of(alloc: Global, text: &str) -> Result<Text, OutOfMemory>
        ensures { IfOk result (λ copy. copy ≡ text.now) }
    {
        Ok(Text(String::from_str(alloc, text)?))
    }

    /// The text, which takes no memory.
    pub fn as_str(&self) -> &str
        ensures { result.now ≡ self.now }
    {
        self.0.as_str()
    }
}

impl From<String> for Text {
    ghost use Rattle.std.specs.Prelude.{◌≡◌, string_bytes};

    ghost from_gives = { λ text made. made ≡ string_bytes text };

    /// The same text, which takes no memory.
    fn from(text: String) -> Text {
        Text(text)
    }
}

impl From<Text> for String {
    ghost use Rattle.std.specs.Prelude.{◌≡◌, string_bytes};

    ghost from_gives = { λ text made. string_bytes made ≡ text };

    /// The same text, which takes no memory.
    fn from(text: Text) -> String {
        let Text(text) = text;
        text
    }
}

/// A list of texts that grows at its end. Contracts see the list.
#[derive(Drop, Debug)]
pub struct Texts(Vec<Text>);

impl Model for Texts {
    ghost use Rattle.std.specs.Prelude.{ℕ, List};

    ghost Value = { List (List ℕ) };

    ghost view = { λ texts. texts.0.items };
}

impl Texts {
    /// The empty list, which takes no memory.
    pub fn new(alloc: Global) -> Texts
        ensures { result ≡ [] }
    {
        Texts(Vec::new(alloc))
    }

    /// Appends a text. An `OutOfMemory` changes nothing.
    pub fn push(&mut self, text: Text) -> Result<(), OutOfMemory>
        ensures ok { OnOk result (self.new ≡ self.old ++ text ∷ []) }
        ensures err { OnErr result (self.new ≡ self.old) }
    {
        self.0.push(text)?;
        Ok(())
    }

    /// The texts in their order, which takes no memory.
    pub fn as_slice(&self) -> &[Text]
        ensures { result.now ≡ self.now }
    {
        self.0.as_slice()
    }
}
