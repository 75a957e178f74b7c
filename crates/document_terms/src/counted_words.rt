// The counted words of a document that was split.
ghost use Rattle.std.specs.Prelude.{◌≡◌, ◌≤◌, ◌<◌, [], length, map, max, chars, IfOk};
ghost use Rattle.std.specs.List.{slice_index_or};
ghost use Rattle.ss_base.specs.declared.limits.TheConstants.{DOCUMENT_BYTES};
ghost use Rattle.index_definitions.specs.Words.{word_terms, positions_of};
ghost use Rattle.index_definitions.specs.Terms.{longest_of};
ghost use Rattle.index_definitions.specs.Postings.{counted_words};
ghost use Rattle.index_definitions.specs.PostingLists.{ArePositions};
ghost use Rattle.document_terms.specs.Shards.{shard_of};
ghost use Rattle.document_terms.specs.Counted.{AreTermsOf};

use crate::groups::{group_of, group_positions};
use crate::numbering::number_words;
use crate::shard_of::shard_of;
use doc_words::StopSet;
use ss_base::OutOfMemory;
use std::alloc::Global;
use std::marker::Model;
use text_table::TextList;

/// The counted words of a document, by number, and the positions of each distinct term in one
/// piece. No word has memory of its own.
#[derive(Drop)]
pub struct CountedWords {
    terms: TextList,
    // one for each word: 0 where it was stopped, else its term's number and 1
    numbers: Vec<u32>,
    // the positions of each term, one term after the other, and where each term's end
    positions: Vec<u32>,
    ends: Vec<u32>,
    // the shard of each term
    shards: Vec<u8>,
    // the most characters of a term
    longest: u64,
}

impl Model for CountedWords {
    ghost use Rattle.document_terms.specs.Counted.{Counted};
    ghost use Rattle.document_terms.specs.kept.Numbers.{counted_from, IsCounted};

    ghost Value = { Counted };

    ghost view = { λ counted. counted_from counted.terms counted.numbers.items };

    ghost invariant = { λ counted.
        IsCounted counted.terms counted.numbers.items counted.positions.items counted.ends.items
        counted.shards.items counted.longest };
}

// The shard of each term.
fn shards_of(alloc: Global, terms: &TextList) -> Result<Vec<u8>, OutOfMemory>
    ensures { IfOk result (λ shards. shards.items ≡ map shard_of terms.now) }
{
    let mut shards = Vec::with_capacity(alloc, terms.len() as usize)?;
    for number in 0..terms.len() {
        shards.push(shard_of(terms.text(number)))?;
    }
    Ok(shards)
}

// How many characters a text has.
fn characters(text: &str) -> u64
    ensures { result ≡ length (chars text.now) }
{
    text.chars().count() as u64
}

// The greater of a number and the characters of a text.
fn longer(longest: u64, text: &str) -> u64
    ensures { result ≡ max longest (length (chars text.now)) }
{
    let count = characters(text);
    if count > longest { count } else { longest }
}

// The most characters of a term, or 0.
fn longest_of(terms: &TextList) -> u64
    ensures { result ≡ longest_of terms.now }
{
    let mut longest = 0;
    for number in 0..terms.len() {
        longest = longer(longest, terms.text(number));
    }
    longest
}

impl CountedWords {
    /// The counted words of a document of at most 8 MiB.
    pub fn split(alloc: Global, stop: &StopSet, bytes: &[u8]) -> Result<CountedWords, OutOfMemory>
        requires { length bytes.now ≤ DOCUMENT_BYTES }
        ensures { IfOk result (λ counted. counted.words ≡ counted_words stop.now bytes.now) }
    {
        let (terms, numbers) = number_words(alloc, stop, bytes)?;
        let (positions, ends) = group_positions(alloc, &numbers, terms.len())?;
        let shards = shards_of(alloc, &terms)?;
        let longest = longest_of(&terms);
        Ok(CountedWords {
            terms,
            numbers,
            positions,
            ends,
            shards,
            longest,
        })
    }

    /// How many distinct terms there are.
    pub fn terms(&self) -> u32
        ensures len { result ≡ length self.now.terms }
        ensures terms { AreTermsOf self.now.terms self.now.words }
    {
        self.terms.len()
    }

    /// How many words are counted.
    pub fn words(&self) -> u64
        ensures { result ≡ length self.now.words }
    {
        self.positions.len() as u64
    }

    /// The most characters of a term, or 0.
    pub fn longest(&self) -> u64
        ensures { result ≡ longest_of (word_terms self.now.words) }
    {
        self.longest
    }

    /// A term.
    pub fn term(&self, number: u32) -> &str
        requires { number < length self.now.terms }
        ensures { result.now ≡ slice_index_or self.now.terms number [] }
    {
        self.terms.text(number)
    }

    /// The shard of a term.
    pub fn shard(&self, number: u32) -> u8
        requires { number < length self.now.terms }
        ensures { result ≡ shard_of (slice_index_or self.now.terms number []) }
    {
        self.shards[number as usize]
    }

    /// The positions of a term.
    pub fn positions(&self, number: u32) -> &[u32]
        requires { number < length self.now.terms }
        ensures positions { result.now
            ≡ positions_of (slice_index_or self.now.terms number []) self.now.words }
        ensures are { ArePositions result.now }
    {
        group_of(
            self.positions.as_slice(),
            self.ends.as_slice(),
            number as usize,
        )
    }

    /// Second words, equal to these.
    // A vector keeps its allocator, and the copy's is a copy of it.
    pub fn copy(&self) -> Result<CountedWords, OutOfMemory>
        ensures { IfOk result (λ copy. copy ≡ self.now) }
    {
        Ok(CountedWords {
            terms: self.terms.copy()?,
            numbers: self.numbers.clone()?,
            positions: self.positions.clone()?,
            ends: self.ends.clone()?,
            shards: self.shards.clone()?,
            longest: self.longest,
        })
    }
}
