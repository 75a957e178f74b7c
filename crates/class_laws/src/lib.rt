//! Classes, whose values are operated on, and reducibles, which many operations contribute to.
//!
//! A program delegates operations on values of a class. What they mean is the class's `meaning`,
//! and what they contribute is joined in any order, since each reducible proves that the order
//! doesn't matter.
#![tactic(auto)]

mod both;
mod class;
mod count_map;
mod count_table;
mod local;
mod numbers;
mod reducible;

pub use both::Both;
pub use class::{Class, joins_in_any_order, no_reading};
pub use count_map::CountMap;
pub use local::{LocalClass, LocalReducible, local_reducible_laws};
pub use numbers::{Max, WrapSum};
pub use reducible::{Reducible, reducible_laws};

#[cfg(test)]
mod tests;
