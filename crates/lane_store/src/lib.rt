//! What a runtime with lanes keeps: objects at home and away, the ends of its lanes, and logs.
//!
//! A [`LaneStore`] is the runtime but for the partition rule. An object is at home, or away in a
//! lane. [`delegate`] sends an operation to a lane, and its object with it where it is at home.
//! [`reclaim`] brings an object home, with all of its lane. Contracts see values, total and runs
//! sent as what they come to once all that was sent is done.
//!
//! A method of an impl has no evidence that a value may go to another thread, so the bounds here
//! have no `Send`: the runtime's hooks may call all of this.
#![tactic(auto)]

mod calls;
mod home;
mod sends;
mod store;

pub use calls::{add, into_values, is_away, new_store, operate, reclaim, value_of};
pub use home::{bring_all_home, end_all};
pub use sends::delegate;
pub use store::LaneStore;
