//! The words of a document by number: its distinct counted terms, and the positions of each.
#![tactic(auto)]

mod counted_words;
mod groups;
mod numbering;
mod shard_of;

pub use counted_words::CountedWords;
