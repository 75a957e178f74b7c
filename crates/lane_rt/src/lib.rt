//! Lanes: the runtime whose delegates run in threads of their own, each behind a queue of messages.
//!
//! The first operation delegated to a lane since it was last at home starts its delegate, and the
//! first on an object takes the object along. A `call` or `get` of an object brings its lane home,
//! and `end` all. Contracts see the same as of every runtime: operations count as done when they
//! are delegated, however far the delegates have come.
#![tactic(auto)]

mod hire;
mod lanes;
pub mod laws;

pub use lanes::Lanes;
