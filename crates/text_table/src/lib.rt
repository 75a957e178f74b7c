//! Numbers for texts. A `TextTable` numbers distinct texts 0, 1, 2, .. in the order in which they
//! first come. It keeps them in one string, and no choice of texts makes it slow. A `TextMap` has a
//! value for each text besides.
#![tactic(auto)]

mod buckets;
mod map;
mod table;
mod tag;
mod text_list;

pub use map::TextMap;
pub use table::{Absent, TextTable};
pub use text_list::TextList;

#[cfg(test)]
mod tests;
