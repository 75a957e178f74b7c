// The terms of a text, one at a time.
ghost use Rattle.std.specs.Prelude.{◌≡◌, ◌≤◌, ◌*◌, [], ◌∷◌, length, string_bytes, IfOk, MatchBool};
ghost use Rattle.std.specs.Cow.{cow_str_bytes};
ghost use Rattle.std.specs.Str.Lossy.{utf8_lossy};
ghost use Rattle.index_definitions.specs.Words.{terms_of_text};

use crate::fold::fold_into;
use crate::lines::TextWords;
use ss_base::OutOfMemory;
use std::alloc::Global;
use std::borrow::CowStr;
use std::marker::Model;

/// The text that a document's bytes are read as: UTF-8, with U+FFFD for what is malformed. Bytes that
/// are well formed aren't copied, and take no memory.
pub fn text_of<'a>(alloc: Global, bytes: &'a [u8]) -> Result<CowStr<'a>, OutOfMemory>
    ensures text { IfOk result (λ text. cow_str_bytes text ≡ utf8_lossy bytes.now) }
    ensures len { IfOk result (λ text. length (cow_str_bytes text) ≤ 3 * length bytes.now) }
{
    if let Ok(text) = std::str::from_utf8(bytes) {
        return Ok(CowStr::Borrowed(text));
    }
    Ok(CowStr::Owned(String::from_utf8_lossy(alloc, bytes)?))
}

/// The terms of a text's words, in order. Contracts see the list of those that are left.
///
/// They are read into a buffer that is used again, so that a word by itself takes no memory.
#[derive(Drop)]
pub struct Terms<'a> {
    words: TextWords<'a>,
}

impl<'a> Model for Terms<'a> {
    ghost use Rattle.std.specs.Prelude.{ℕ, List, map};
    ghost use Rattle.index_definitions.specs.Words.{term_of};

    ghost Value = { List (List ℕ) };

    ghost view = { λ terms. map term_of terms.words };
}

impl<'a> Terms<'a> {
    /// All terms of a text. Its words are the segments between the boundaries of Unicode Standard
    /// Annex 29 that hold an alphanumeric character.
    pub fn new(text: &'a str) -> Terms<'a>
        ensures terms { result ≡ terms_of_text text.now }
        ensures len { length result ≤ length text.now }
    {
        Terms {
            words: TextWords::new(text),
        }
    }

    /// Puts the next term in place of what `term` holds, or answers that none is left. A want of
    /// memory loses that term: a reader that answered it is of no more use.
    pub fn next_into(&mut self, alloc: Global, term: &mut String) -> Result<bool, OutOfMemory>
        ensures { IfOk result (λ more. MatchBool more
            (self.old ≡ string_bytes term.new ∷ self.new) (self.old ≡ [])) }
    {
        let Some(word) = self.words.next() else {
            return Ok(false);
        };
        fold_into(alloc, term, word)?;
        Ok(true)
    }
}
