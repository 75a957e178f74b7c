//! The postings of one term: documents that rise, each with its positions.
#![tactic(auto)]

mod decoding;
mod encoding;
mod laws;
mod postings;

pub use decoding::{PostingsFault, decode};
pub use laws::{no_bytes_spell_two_lists, no_list_has_two_spellings};
pub use postings::{Postings, PostingsIter};

#[cfg(test)]
mod tests;
