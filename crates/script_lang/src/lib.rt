//! The script language: the words, which words a script may hold, the calls that it stands for, and
//! what it shows when a runtime makes them.
#![tactic(auto)]

mod command;
mod commands;
mod fault;
mod keyword;
mod names;
mod parsing;
mod parts;
mod reader;
mod running;
mod schedule;
mod script;
mod showing;
mod tokens;
mod word32;
mod words;

pub use command::{Command, Placed};
pub use fault::{ParseFault, ScriptFault, ScriptKind};
pub use parsing::parse;
pub use running::{Shown, run_script};
pub use schedule::{ScheduleStop, parse_schedule};
pub use script::Script;
pub use showing::shown_by;
pub use word32::{Act, Deed, Word32};

#[cfg(test)]
mod tests;
