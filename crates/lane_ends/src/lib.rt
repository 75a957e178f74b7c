//! The program context's end of a lane: what it sends, and who takes it.
//!
//! A [`LaneEnd`] has a sender, and a [`Taker`]: the program context itself, or a delegate in a
//! thread of its own. [`post`] sends a message and [`come_home`] brings back all that the lane
//! came to. In between no clause tells how far a delegate has come, and none needs it: a lane is
//! seen as the store that it comes to once all that was sent is taken.
//!
//! A method of an impl has no evidence that a value may go to another thread. So nothing here
//! starts a thread: whoever calls [`post`] passes what does.
#![tactic(auto)]

mod homing;
mod lane_end;
mod posting;
mod waiting;
mod worker;

pub use homing::{come_home, end_work};
pub use lane_end::{LaneEnd, Taker, new_end};
pub use posting::post;
pub use worker::LaneWorker;
