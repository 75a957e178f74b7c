//! That no schedule changes what a program leaves and is answered.
//!
//! The laws of the machine of lanes, each the contract of a function with an empty body, over the
//! definitions of `interleavings`. There is nothing to run.
#![tactic(auto)]

mod laws;

pub use laws::{
    a_drain_is_by_events, every_replay_gives_the_same, every_replay_is_computed,
    every_schedule_gives_the_same, every_schedule_has_one_replay,
};
