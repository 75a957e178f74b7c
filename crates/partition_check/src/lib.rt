//! The partition check: which calls keep the objects of different serialization sets apart.
//!
//! In an epoch of isolation each writable object is private to one set, or shared by operations
//! that only read it. So operations of different sets can run at the same time, with the result of
//! the program without delegates (Allen, Sridharan and Sohi, "Serialization Sets", PPoPP 2009).
//! `Marks` judges each call before it takes effect, in constant time, from one mark an object.
#![tactic(auto)]

mod cell;
mod fault;
mod law;
mod mark;
mod marks;
#[cfg(test)]
mod tests;
mod usage;

pub use execution_definitions::Refusal;
pub use fault::MarkFault;
pub use law::marks_follow_the_rule;
pub use mark::Mark;
pub use marks::Marks;
