// From a document's bytes to numbers: its distinct counted terms, and one number for each word.
ghost use Rattle.std.specs.Prelude.{◌≡◌, ℕ, ◌≤◌, ◌<◌, ◌-◌, false, Some, length, IfOk, MatchBool};
ghost use Rattle.std.specs.List.{All, slice_get};
ghost use Rattle.ss_base.specs.declared.limits.TheConstants.{DOCUMENT_BYTES};
ghost use Rattle.text_table.specs.TextTables.{with_text};
ghost use Rattle.index_definitions.specs.Terms.{has_term};
ghost use Rattle.index_definitions.specs.Postings.{counted_words};
ghost use Rattle.document_terms.specs.Counted.{AreTermsOf};
ghost use Rattle.document_terms.specs.kept.Numbers.{most_words, words_from};

use doc_words::{StopSet, Terms, text_of};
use ss_base::OutOfMemory;
use std::alloc::Global;
use text_table::{TextList, TextTable};

// The number of a word: 0 for a stopped one, else 1 more than that of its term, which is kept. The
// stop list isn't asked about a term that is known.
fn number_of_word(stop: &StopSet, terms: &mut TextTable, term: &str) -> Result<u32, OutOfMemory>
    requires few { length terms.old ≤ most_words }
    requires counted { All (λ t. has_term stop.now t ≡ false) terms.old }
    ensures { IfOk result (λ number. MatchBool (has_term stop.now term.now)
        ((number ≡ 0) × (terms.new ≡ terms.old))
        ((0 < number) × (slice_get terms.new (number - 1) ≡ Some term.now)
        × (terms.new ≡ with_text terms.old term.now))) }
{
    match terms.look_up(term) {
        Ok(number) => Ok(number + 1),
        Err(_) if stop.contains(term) => Ok(0),
        Err(absent) => Ok(terms.insert_absent(absent, term)? + 1),
    }
}

// The distinct counted terms of a document, and the numbers of its words. Neither the text that the
// bytes are read as is kept, nor what finds the number of a term.
pub(crate) fn number_words(
    alloc: Global,
    stop: &StopSet,
    bytes: &[u8],
) -> Result<(TextList, Vec<u32>), OutOfMemory>
    requires { length bytes.now ≤ DOCUMENT_BYTES }
    ensures words { IfOk result (λ r. words_from r.0 r.1.items ≡ counted_words stop.now bytes.now) }
    ensures terms { IfOk result (λ r. AreTermsOf r.0 (words_from r.0 r.1.items)) }
    ensures within { IfOk result (λ r. All (λ number. number ≤ length r.0) r.1.items) }
    ensures few { IfOk result (λ r. length r.1.items ≤ most_words) }
{
    let text = text_of(alloc, bytes)?;
    let mut left = Terms::new(text.as_str());
    let mut term = String::new(alloc);
    let mut terms = TextTable::new(alloc);
    let mut numbers = Vec::new(alloc);
    while left.next_into(alloc, &mut term)? {
        numbers.push(number_of_word(stop, &mut terms, term.as_str())?)?;
    }
    numbers.shrink_to_fit();
    Ok((terms.into_texts(), numbers))
}
