//! The top call: all that the program does.
#![tactic(auto)]

mod commands;
mod ending;
mod generate;
mod inputs;
mod limits;
mod no_text;
mod reading;
mod replaying;
mod status;
mod tell;
mod top;

pub use generate::{GenFault, gen_documents};
pub use replaying::replay_run;
pub use status::{LimitHit, Status, TextFault, Which};
pub use tell::{tell_memory, tell_usage};
pub use top::run;
