//! Small programs over any runtime, each with a class of its own, and with its result proved.
//!
//! Each is a list of calls, which is shown to break no partition. So no refusal is ever answered, and
//! what the program gives is what its definition says, whatever the runtime: only memory may be wanted.
#![tactic(auto)]

mod accounts;
mod bases;
mod grid;
mod outcome;
mod rows;

pub use accounts::{Booking, Fees, Holding, Transfer, are_between, settle};
pub use bases::{Block, Count, Part, Spelling, Tally, histogram};
pub use grid::spread;
pub use rows::{Intake, Row};
