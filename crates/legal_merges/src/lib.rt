//! Which other orders of the calls of an execution would have left the same: legal merges.
#![tactic(auto)]

mod fault;
mod merges;
mod replay;
mod step;
mod turns;

pub use fault::MergeFault;
pub use merges::{merge_of, replay_merge};
pub use replay::Replayed;
