// The names that a script has made.
ghost use Rattle.std.specs.Prelude.{◌≡◌, [], ◌∷◌, ◌++◌, true, false, None, MatchOption, OnOk, OnErr};
ghost use Rattle.text_table.specs.TextTables.{number_of};
ghost use Rattle.script_lang.specs.Tokens.{is_name};

use crate::tokens::is_name;
use ss_base::OutOfMemory;
use std::alloc::Global;
use std::marker::Model;
use text_table::{TextList, TextTable};

/// The names that a script has made, in order, each with its number. Contracts see their list.
#[derive(Drop)]
pub(crate) struct Names {
    texts: TextTable,
}

impl Model for Names {
    ghost use Rattle.std.specs.Prelude.{◌≡◌, ℕ, List, true};
    ghost use Rattle.std.specs.List.{All};
    ghost use Rattle.script_lang.specs.Tokens.{is_name};

    ghost Value = { List (List ℕ) };

    ghost view = { λ names. names.texts };

    ghost invariant = { λ names. All (λ name. is_name name ≡ true) names.texts };
}

// A name as a text.
fn text_of_name(word: &[u8]) -> Option<&str>
    ensures { MatchOption result (is_name word.now ≡ false)
        (λ text. (text.now ≡ word.now) × (is_name word.now ≡ true)) }
{
    if !is_name(word) {
        return None;
    }
    // A name is ASCII.
    Some(str::from_utf8(word).unwrap())
}

impl Names {
    /// No names, which takes no memory.
    pub(crate) fn new(alloc: Global) -> Names
        ensures { result ≡ [] }
    {
        Names {
            texts: TextTable::new(alloc),
        }
    }

    /// The number of a name, where it was made. It takes no memory.
    pub(crate) fn number_of(&self, word: &[u8]) -> Option<u32>
        ensures { result ≡ number_of self.now word.now }
    {
        let texts = &self.texts;
        let name = text_of_name(word)?;
        texts.number_of(name)
    }

    /// Makes a name that wasn't made. An `OutOfMemory` changes nothing.
    pub(crate) fn push(&mut self, word: &[u8]) -> Result<(), OutOfMemory>
        requires name { is_name word.now ≡ true }
        requires new { number_of self.old word.now ≡ None }
        ensures ok { OnOk result (self.new ≡ self.old ++ word.now ∷ []) }
        ensures err { OnErr result (self.new ≡ self.old) }
    {
        if let Some(name) = text_of_name(word) {
            self.texts.insert(name)?;
        }
        Ok(())
    }

    /// The names in their order.
    pub(crate) fn into_texts(self) -> TextList
        ensures { result ≡ self }
    {
        let Names { texts } = self;
        texts.into_texts()
    }
}
