// An index as a list of terms, each with its postings.

use postings::Postings;
use ss_base::Text;
use std::marker::Model;

/// A term, how often it is counted in all documents, and where it stands.
#[derive(Drop, Debug)]
pub struct Term {
    pub text: Text,
    pub total: u64,
    pub postings: Postings,
}

impl Model for Term {
    ghost use Rattle.index_definitions.specs.Index.{TermRecord};

    ghost Value = { TermRecord };

    ghost view = { λ term. record {
      text = term.text;
      total = term.total;
      postings = term.postings;
    } };
}

/// The index of documents: its counts, and its terms in the order of their bytes.
#[derive(Drop, Debug)]
pub struct Index {
    /// How many documents there are.
    pub documents: u32,
    /// How many words are counted.
    pub words: u64,
    /// The most characters of a term, or 0.
    pub longest: u64,
    pub terms: Vec<Term>,
}

impl Model for Index {
    ghost use Rattle.index_definitions.specs.Index.{IndexRecord};

    ghost Value = { IndexRecord };

    ghost view = { λ index. record {
      documents = index.documents;
      words = index.words;
      longest = index.longest;
      terms = index.terms.items;
    } };
}
