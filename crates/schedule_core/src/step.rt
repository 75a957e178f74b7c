// What became of an event.

use execution_definitions::Refusal;

/// What became of an event.
#[derive(Clone, Copy, Debug, PartialEq, Eq)]
pub enum Step {
    /// It was enabled, and is done.
    Taken,
    /// It isn't enabled. Nothing changed.
    NotEnabled,
    /// The program context's next call is refused. It stays untaken, and so do all behind it.
    Refused(Refusal),
    /// No event at all is enabled any more.
    Finished,
}
