//! The items of the index, and the index of documents by delegated calls on them: documents, which are
//! split into words, and shards of the terms, into which documents are gathered.
#![tactic(auto)]

mod building;
mod document;
mod item;
mod laws;
mod terms;
mod totals;

pub use building::build;
pub use document::Document;
pub use inverted_index::{Index, Term};
pub use item::{Item, ItemOp};
pub use laws::{the_calls_of_build_are_sound, what_the_calls_of_build_leave};
pub use shard::Shard;
pub use totals::Totals;
