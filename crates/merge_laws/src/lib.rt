//! That every legal merge leaves the same, and which places begin one.
//!
//! The laws of legal merges, each the contract of a function with an empty body, over the definitions
//! of `interleavings`. There is nothing to run.
#![tactic(auto)]

mod laws;

pub use laws::{begun_merges_go_on, legal_merges_leave_the_same};
