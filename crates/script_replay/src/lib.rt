//! A script under a given schedule: its calls on the machine of lanes, and what they show.
#![tactic(auto)]

mod replays;

pub use replays::{Replayed, replay_script, shown_of};

#[cfg(test)]
mod tests;
