//! From a document's bytes to its words.
#![tactic(auto)]

mod fold;
mod lines;
mod stop_set;
mod terms;
mod words;

pub use stop_set::StopSet;
pub use terms::{Terms, text_of};
pub use words::{Word, words_of};

#[cfg(test)]
mod tests;
