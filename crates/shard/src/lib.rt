//! A shard of an index: the postings of the terms that belong to it, into which documents are gathered.
#![tactic(auto)]

mod shard;

pub use shard::Shard;
