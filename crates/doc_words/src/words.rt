// The words of a document.
ghost use Rattle.std.specs.Prelude.{◌≡◌, ◌≤◌, map, length, IfOk};
ghost use Rattle.ss_base.specs.declared.limits.TheConstants.{DOCUMENT_BYTES};
ghost use Rattle.index_definitions.specs.Words.{words_in};

use crate::{Terms, text_of};
use ss_base::{OutOfMemory, Text};
use std::alloc::Global;

/// A word of a document.
#[derive(Drop, Debug)]
pub struct Word {
    /// Its place among all words of the document, counted from 1.
    pub position: u32,
    /// The word, folded.
    pub term: Text,
}

/// The words of a document of at most 8 MiB.
///
/// The bytes are read as UTF-8, with U+FFFD for what is malformed, and cut at the word boundaries of
/// Unicode Standard Annex 29. The words are the segments that hold an alphanumeric character.
pub fn words_of(alloc: Global, bytes: &[u8]) -> Result<Vec<Word>, OutOfMemory>
    requires { length bytes.now ≤ DOCUMENT_BYTES }
    ensures { IfOk result (λ words.
        map (λ word. (word.position, word.term)) words.items ≡ words_in bytes.now) }
{
    let text = text_of(alloc, bytes)?;
    let mut terms = Terms::new(text.as_str());
    let mut words = Vec::new(alloc);
    let mut term = String::new(alloc);
    let mut position = 0;
    while terms.next_into(alloc, &mut term)? {
        position += 1;
        let term = Text::of(alloc, term.as_str())?;
        words.push(Word { position, term })?;
    }
    Ok(words)
}
