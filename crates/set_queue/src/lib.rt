//! Lanes: queues of messages from the program context to one delegate.
//!
//! A lane has two ends, made by one call of [`lane`]. Each may be in a thread of its own, and neither
//! ever waits for the other. A delegated operation goes into a lane as a [`Message`], and the first
//! one of an object takes the object along.
#![tactic(auto)]

mod ends;
mod message;

pub use ends::{Receiver, Sender, lane, meet};
pub use message::Message;
