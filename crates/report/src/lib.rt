//! The texts of an index, and of an execution.
#![tactic(auto)]

mod laws;
mod order;
mod print;
mod summary;
mod trace;

pub use laws::{epoch_sets_are_the_one_rising_list, logs_have_the_programs_trace};
pub use order::print_order;
pub use print::{print_index, push_term};
pub use summary::print_summary;
pub use trace::print_trace;

#[cfg(test)]
mod tests;
