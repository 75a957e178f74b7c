// The summary of an index.
ghost use Rattle.std.specs.Prelude.{◌≡◌, ◌+◌, ◌%◌, ◌^◌, IfOk};
ghost use Rattle.std.specs.List.{sum_by};
ghost use Rattle.index_definitions.specs.IndexText.{sum_of_positions, position_sum, summary_of_index};
ghost use Rattle.index_definitions.specs.PostingLists.{pairs_of};

use crate::print::push_count;
use inverted_index::{Index, Term};
use postings::Postings;
use ss_base::OutOfMemory;
use std::alloc::Global;

// A sum and the positions of a term in all documents, modulo 2^32.
fn add_positions(sum: u32, postings: &Postings) -> u32
    ensures { result ≡ (sum + sum_by (λ pair. pair.1) (pairs_of postings.now)) % (2 ^ 32) }
{
    let mut sum = sum;
    for (_, position) in postings.iter() {
        sum = sum.wrapping_add(position);
    }
    sum
}

// The sum of the positions of all terms in all documents, modulo 2^32.
fn sum_positions(terms: &[Term]) -> u32
    ensures { result ≡ sum_by sum_of_positions terms.now % (2 ^ 32) }
{
    let mut sum = 0;
    for term in terms {
        sum = add_positions(sum, &term.postings);
    }
    sum
}

/// The summary of an index: how many documents, counted words and terms it has, and the sum of all
/// positions of all terms in all documents, modulo 2^32.
pub fn print_summary(alloc: Global, index: &Index) -> Result<Vec<u8>, OutOfMemory>
    ensures { IfOk result (λ text. text.items ≡ summary_of_index index.now) }
{
    let mut text = Vec::new(alloc);
    push_count(&mut text, b"documents", u64::from(index.documents))?;
    push_count(&mut text, b"words", index.words)?;
    push_count(&mut text, b"terms", index.terms.len() as u64)?;
    push_count(
        &mut text,
        b"positions",
        u64::from(sum_positions(&index.terms)),
    )?;
    Ok(text)
}
