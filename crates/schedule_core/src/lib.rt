//! The machine of lanes under a given schedule, without threads.
//!
//! A [`Machine`] takes the events of a program and of its delegates one at a time, in the order that
//! its caller gives. [`replay`] takes a whole schedule of them, and goes on to the end by a fixed rule.
//! Every call returns. The laws (`schedule_laws`) say that no schedule changes what a program leaves and
//! is answered.
#![tactic(auto)]

mod calls;
mod events;
mod machine;
mod parts;
mod queues;
mod replays;
mod step;
mod store;

pub use machine::Machine;
pub use replays::{Outcome, replay};
pub use step::Step;
