//! What stands between the top call and the system: files, streams, arguments and the exit status.
#![tactic(auto)]

mod again;
mod arguments;
mod file_shelf;
mod message_sink;
mod process;
mod std_sink;

pub use arguments::{ArgumentsFault, words_of};
pub use file_shelf::FileShelf;
pub use message_sink::MessageSink;
pub use process::run_process;
pub use std_sink::StdSink;

#[cfg(test)]
mod tests;
