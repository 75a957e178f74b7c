//! Delegates as pending lists: the runtime that runs its lanes at an epoch's end, all at once.
//!
//! A delegated operation is put at the end of its lane's list, and the object that it works on goes
//! with that list. A list is run where its outcome is wanted: one lane in the program context at a
//! `call` or `get`, and all lanes in threads at `end` and `finish`. Contracts see the same as of
//! every runtime: operations count as done when they are delegated.
#![tactic(auto)]

mod batch;
mod calls;
mod entries;
mod lane;
mod object;
mod objects;
mod steps;
mod store;

pub use batch::Batch;
pub use lane::{Entry, Lane};
pub use object::Object;
pub use store::Store;
