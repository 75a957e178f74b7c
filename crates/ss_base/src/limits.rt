//! The most that inputs and runs may have. Whatever passes a limit is refused by its own answer.

/// The most names of documents on a command line, and the most documents that can be made.
pub const NAMES: usize = 65_536;

/// The most bytes of one document.
pub const DOCUMENT_BYTES: usize = 8_388_608;

/// The most bytes of all documents together, without the stop list.
pub const ALL_DOCUMENT_BYTES: usize = 67_108_864;

/// The most bytes of a stop list.
pub const STOP_LIST_BYTES: usize = DOCUMENT_BYTES;

/// The most bytes of a script.
pub const SCRIPT_BYTES: usize = 1_048_576;

/// The most lines of a script.
pub const SCRIPT_LINES: usize = 65_536;

/// The most bytes of a schedule.
pub const SCHEDULE_BYTES: usize = SCRIPT_BYTES;

/// The most delegates of a runtime.
pub const DELEGATES: u32 = 64;

/// The most messages that wait in the ring of one lane.
pub const RING: u32 = 4_096;

/// The most objects of a runtime.
pub const OBJECTS: usize = 1_048_576;

/// The most calls that a runtime accepts.
pub const CALLS: u64 = 1 << 60;
