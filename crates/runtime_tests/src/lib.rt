//! The tests that every runtime has to pass: one table, gone through with each of them.
//!
//! What a clause says needs no test. These show that calls succeed where memory is ample, and that
//! the clauses mean what was meant, by answers that were worked out by hand.
#![tactic(auto)]

#[cfg(test)]
mod cases;
mod scarce;
#[cfg(test)]
mod tests;
#[cfg(test)]
mod texts;
#[cfg(test)]
mod turns;

pub use scarce::{Need, Scarce};
