// The folding of a word to its term.
ghost use Rattle.std.specs.Prelude.{◌≡◌, OnOk, string_bytes};
ghost use Rattle.index_definitions.specs.Words.{term_of};

use caseless::default_case_fold_str;
use ss_base::OutOfMemory;
use std::alloc::Global;

/// Puts the term of a word in place of what `term` holds: the word's default full case folding
/// (Unicode Standard, section 3.13). An ASCII word takes no memory where `term` has the room.
#[tactic(auto, using(crate::proofs::FoldLemmas::term_of_ascii))]
pub(crate) fn fold_into(alloc: Global, term: &mut String, word: &str) -> Result<(), OutOfMemory>
    ensures { OnOk result (string_bytes term.new ≡ term_of word.now) }
{
    term.clear();
    // Of ASCII, folding only lowers letters. Most words are ASCII, and the tables cost more.
    if word.is_ascii() {
        term.push_str(word)?;
        term.make_ascii_lowercase();
        return Ok(());
    }
    let folded = default_case_fold_str(alloc, word)?;
    term.push_str(folded.as_str())?;
    Ok(())
}
