// A shard: the postings of the terms that belong to it.
ghost use Rattle.std.specs.Prelude.{◌≡◌, ℕ, ◌<◌, [], ◌∷◌, ◌++◌, max, IfOk, OnOk, OnErr};
ghost use Rattle.std.specs.FinMap as finite;
ghost use Rattle.std.specs.Option.{option_copied};
ghost use Rattle.index_definitions.specs.PostingLists.{ArePositions, last_document};
ghost use Rattle.text_table.specs.TextMaps.{map_of};
ghost use Rattle.shard.specs.Shards.{empty_shard, last_in, list_of};
ghost use Rattle.shard.specs.Shards.{with_positions, gathered, gathered_last};
ghost use Rattle.shard.specs.ShardTerms.{AppendsTermsOfShard};

use document_terms::CountedWords;
use inverted_index::Term;
use postings::Postings;
use ss_base::{OutOfMemory, Text};
use std::alloc::Global;
use std::marker::Model;
use text_table::TextMap;

/// A shard. Contracts see its number, and the finite map from its terms to their documents, each
/// with the term's positions.
#[derive(Drop)]
pub struct Shard {
    alloc: Global,
    number: u8,
    // the postings of each term
    lists: TextMap<Postings>,
    // the last document, or 0
    last: u32,
}

impl Model for Shard {
    ghost use Rattle.std.specs.Prelude.{◌≡◌};
    ghost use Rattle.text_table.specs.TextMaps.{map_of};
    ghost use Rattle.shard.specs.Shards.{ShardParts, shard_code, last_in};

    ghost Value = { ShardParts };

    ghost coded = { shard_code };

    ghost view = { λ shard. record { number = shard.number; lists = map_of shard.lists } };

    ghost invariant = { λ shard. shard.last ≡ last_in (map_of shard.lists) };
}

// Appends a document to a term, which is added if it is new.
fn append_document(
    alloc: Global,
    lists: &mut TextMap<Postings>,
    term: &str,
    doc: u32,
    positions: &[u32],
) -> Result<(), OutOfMemory>
    requires rises { last_document (list_of (map_of lists.old) term.now) < doc }
    requires positions { ArePositions positions.now }
    ensures ok { OnOk result
        (map_of lists.new ≡ with_positions (map_of lists.old) term.now doc positions.now) }
    ensures err { OnErr result (map_of lists.new ≡ map_of lists.old) }
{
    match lists.look_up(term) {
        Ok(number) => lists.value_mut(number).append(doc, positions),
        Err(absent) => {
            let mut list = Postings::new(alloc);
            list.append(doc, positions)?;
            lists.insert_absent(absent, term, list)?;
            Ok(())
        }
    }
}

// The greater of two documents.
fn later(first: u32, second: u32) -> u32
    ensures { result ≡ max first second }
{
    if first < second { second } else { first }
}

impl Shard {
    /// The empty shard of this number, which is below 16. It takes no memory.
    pub fn new(alloc: Global, number: u32) -> Shard
        requires { number < 16 }
        ensures { result ≡ empty_shard number }
    {
        Shard {
            alloc,
            number: number as u8,
            lists: TextMap::new(alloc),
            last: 0,
        }
    }

    /// Appends the document with these words to each term of this shard that it has, unless its number
    /// isn't above those of the shard's documents. After an `OutOfMemory` nothing is said of the
    /// shard.
    pub fn gather(&mut self, doc: u32, words: &CountedWords) -> Result<(), OutOfMemory>
        ensures { OnOk result (self.new ≡ gathered_last self.old doc words.now.words) }
    {
        if doc <= self.last {
            return Ok(());
        }
        self.gather_words(doc, words)
    }

    fn gather_words(&mut self, doc: u32, words: &CountedWords) -> Result<(), OutOfMemory>
        requires { last_in self.old.lists < doc }
        ensures { OnOk result (self.new ≡ gathered self.old doc words.now.words) }
    {
        for number in 0..words.terms() {
            if words.shard(number) == self.number {
                self.append(words.term(number), doc, words.positions(number))?;
            }
        }
        Ok(())
    }

    // Appends a document to a term.
    fn append(&mut self, term: &str, doc: u32, positions: &[u32]) -> Result<(), OutOfMemory>
        requires rises { last_document (list_of self.old.lists term.now) < doc }
        requires positions { ArePositions positions.now }
        ensures number { OnOk result (self.new.number ≡ self.old.number) }
        ensures lists { OnOk result
            (self.new.lists ≡ with_positions self.old.lists term.now doc positions.now) }
    {
        append_document(self.alloc, &mut self.lists, term, doc, positions)?;
        self.last = later(self.last, doc);
        Ok(())
    }

    /// The postings of a term. It takes no memory.
    pub fn postings(&self, term: &str) -> Option<&Postings>
        ensures { option_copied result ≡ finite.get self.now.lists term.now }
    {
        self.lists.get(term)
    }

    /// Appends its terms, each with its postings and a total of 0, in no stated order. After an
    /// `OutOfMemory` nothing is said of `terms`.
    pub fn push_terms(&self, alloc: Global, terms: &mut Vec<Term>) -> Result<(), OutOfMemory>
        ensures { OnOk result
            (AppendsTermsOfShard self.now.lists terms.old.items terms.new.items) }
    {
        terms.reserve(self.lists.len() as usize)?;
        for number in 0..self.lists.len() {
            let (text, postings) = self.lists.entry(number);
            terms.push(Term {
                text: Text::of(alloc, text)?,
                total: 0,
                postings: postings.copy()?,
            })?;
        }
        Ok(())
    }

    /// A second shard, equal to this one.
    pub fn copy(&self, alloc: Global) -> Result<Shard, OutOfMemory>
        ensures { IfOk result (λ copy. copy ≡ self.now) }
    {
        let lists = self.lists.values();
        let mut copies = Vec::with_capacity(alloc, lists.len())?;
        for list in lists {
            copies.push(list.copy()?)?;
        }
        Ok(Shard {
            alloc,
            number: self.number,
            lists: TextMap::of(self.lists.texts().copy()?, copies),
            last: self.last,
        })
    }
}
