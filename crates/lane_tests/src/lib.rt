//! Tests of lanes and of the delegates at their other end, and a small class for them.
//!
//! What a clause says needs no test. These show that memory is found, that the ends of a lane see
//! what the other did, and that the definitions mean what was meant.
#![tactic(auto)]

#[cfg(test)]
mod lanes;
#[cfg(test)]
mod messages;
mod number;
#[cfg(test)]
mod stores;
#[cfg(test)]
mod workers;

pub use number::{Number, Step};
