//! Tests of documents, shards and the index of documents. There is nothing else here.
#![tactic(auto)]

#[cfg(test)]
mod tests;
