//! Jobs for threads, and what starts them.
//!
//! A [`Job`] comes back done, as a value of its own type, and its `gives` is all that is known of
//! what a thread did. [`launch`] has one job done in a thread of its own, and [`run_all`] has many
//! done and waits for all of them.
//!
//! Where no thread can be started, a job that waits for whoever started it would wait for ever. So
//! [`launch`] is given an [`Errand`], a job that can be called off until it begins, and hands the
//! job back as it was.
//!
//! A method of an impl has no evidence that a value may go to another thread, and so it can't start
//! one. It is handed a [`Starter`] by whoever has the evidence.
#![tactic(auto)]

mod errand;
mod job;
mod start;

pub use errand::{Errand, Returned};
pub use job::{Job, run_all};
pub use start::{Doing, Launched, RunningJob, StartBy, Starter, launch};

#[cfg(test)]
mod tests;
