//! Delegates: what takes the messages of a lane and runs them.
//!
//! A delegate's [`Home`] is its store and its end of a lane. The program context can run the lane
//! itself, by [`Store::take`], or have a thread do so: [`start`] gives the home to a [`Worker`], and
//! [`take_home`] waits for it and brings it back.
#![tactic(auto)]

mod gate;
mod home;
mod pair_gate;
mod sleeper;
mod store;
mod worker;

pub use gate::{Gate, LocalGate, OpenGate};
pub use home::{Home, work};
pub use pair_gate::PairGate;
pub use sleeper::{Bell, Sleeper, make_bell};
pub use store::Store;
pub use worker::{DelegateJob, Started, Worker, home_in, make_errand, start, take_home};
