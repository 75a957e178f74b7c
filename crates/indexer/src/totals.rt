// What the words of a document contribute.
ghost use Rattle.std.specs.Prelude.{◌≡◌, OnOk};
ghost use Rattle.class_laws.specs.Counts.{counts_join};
ghost use Rattle.indexer.specs.Totals.{counts_in, totals_of, totals_join};

use class_laws::{Both, CountMap, Max, Reducible, WrapSum};
use document_terms::CountedWords;
use ss_base::OutOfMemory;
use std::alloc::Global;

/// How many words are counted, modulo 2^64, the most characters of a term, and how often each term
/// is counted.
pub type Totals = Both<Both<WrapSum, Max>, CountMap>;

// Adds the counts of the terms, each once.
fn add_counts(alloc: Global, words: &CountedWords, counts: &mut CountMap) -> Result<(), OutOfMemory>
    ensures { OnOk result (counts.new ≡ counts_join counts.old (counts_in words.now.words)) }
{
    for number in 0..words.terms() {
        counts.add(words.term(number), words.positions(number).len() as u64)?;
    }
    // A join with nothing, so that the sum is a join where there is no term too.
    counts.join(CountMap::unit(alloc))
}

/// Joins what the words come to into `totals`.
pub(crate) fn add_totals(
    alloc: Global,
    words: &CountedWords,
    totals: &mut Totals,
) -> Result<(), OutOfMemory>
    ensures { OnOk result (totals.new ≡ totals_join totals.old (totals_of words.now.words)) }
{
    totals.0.0.join(WrapSum(words.words()))?;
    totals.0.1.join(Max(words.longest()))?;
    add_counts(alloc, words, &mut totals.1)
}
