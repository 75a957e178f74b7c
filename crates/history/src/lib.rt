//! What a finished execution was: its logs.
#![tactic(auto)]

mod logs;

pub use logs::{Verdict, check, of_set};

#[cfg(test)]
mod tests;
