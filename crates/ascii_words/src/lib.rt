//! The words of ASCII text, and where the cutting of a text begins anew.
#![tactic(auto)]

mod bytes;
mod laws;
mod words;

pub use laws::{restart_at_line_end, restart_in_bytes, words_of_ascii};
pub use words::AsciiWords;

#[cfg(test)]
mod tests;
