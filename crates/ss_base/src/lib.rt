//! The types that every crate shares, and the outside: what is read from and written to.
#![tactic(auto)]

mod asked;
mod calls;
mod ids;
pub mod limits;
mod mem_shelf;
mod mem_sink;
mod outside;
mod text;
mod transfer;

pub use asked::Asked;
pub use ids::{CallNo, Event, Lane, LaneLog, ObjectId, Run, SetId};
pub use mem_shelf::MemShelf;
pub use mem_sink::MemSink;
pub use outside::{Failed, Shelf, Sink};
pub use text::{OutOfMemory, Text, Texts};
pub use transfer::{ReadStop, read_all, write_all};

#[cfg(test)]
mod tests;
