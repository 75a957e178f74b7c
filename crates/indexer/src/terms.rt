// What makes the terms of all shards those of the index: they are sorted, and get their totals.
ghost use Rattle.std.specs.Prelude.{◌≡◌, map};
ghost use Rattle.std.specs.List.Sorted.{IsPermutation, IsStrictlySortedBy};
ghost use Rattle.index_definitions.specs.Indexes.{texts_of};
ghost use Rattle.text_table.specs.TextTables.{AreDistinct};
ghost use Rattle.class_laws.specs.Counts.{text_order};
ghost use Rattle.indexer.specs.Collected.{with_count};

use class_laws::CountMap;
use inverted_index::Term;

/// Sorts terms by the order of their bytes.
pub(crate) fn sort_terms(terms: &mut Vec<Term>)
    ensures permutation { IsPermutation terms.old.items terms.new.items }
    ensures sorted { AreDistinct (texts_of terms.old.items)
        → IsStrictlySortedBy text_order (texts_of terms.new.items) }
{
    terms.sort_unstable_by(|a, b| a.text.as_str().cmp(b.text.as_str()));
}

/// Puts in each term's total what is counted of it.
pub(crate) fn fill_totals(terms: &mut Vec<Term>, counts: &CountMap)
    ensures { terms.new.items ≡ map (with_count counts.now) terms.old.items }
{
    for term in terms.iter_mut() {
        term.total = counts.count(term.text.as_str());
    }
}
