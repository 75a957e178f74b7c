//! What running lanes are, for contracts.
//!
//! The definitions stand in `specs/`: what contracts see of lanes, how far their delegates may have
//! come, and the core of the machine that they are then. The laws are contracts of functions that
//! do nothing.
#![tactic(auto)]

mod laws;

pub use laws::{cut_drain, cut_event};
