//! What an execution with serialization sets means, over plain lists and numbers.
//!
//! The model is that of Allen, Sridharan and Sohi, "Serialization Sets: A Dynamic Dependence-Based
//! Parallel Execution Model" (PPoPP 2009). A program is a list of calls. A serializer maps each
//! delegated operation to a serialization set; operations of one set run in program order, and
//! operations of different sets may run at the same time. The partition rule says which calls keep
//! the objects of different sets apart.
//!
//! The definitions stand in `specs/`. The enums below are the values that they speak of, and the
//! crates of the calls that take or give them export them again.
#![tactic(auto)]

mod call;
mod laws;
mod refusal;
mod serializer;

pub use call::{Call, Reply};
pub use laws::{
    an_epoch_is_open_from_its_begin, an_object_is_held_from_its_last_delegation,
    the_first_break_is_the_least,
};
pub use refusal::Refusal;
pub use serializer::{By, Serializer};

#[cfg(test)]
mod tests;
