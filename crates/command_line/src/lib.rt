//! What the words of a command line ask for.
#![tactic(auto)]

mod command;
mod numbers;
mod options;
mod pieces;
mod setting;

pub use command::{Command, WordsFault, command_of};
pub use setting::Mode;
