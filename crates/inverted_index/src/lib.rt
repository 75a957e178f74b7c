//! The inverted index of documents, in memory: its terms, each with its postings.
#![tactic(auto)]

mod index;

pub use index::{Index, Term};
