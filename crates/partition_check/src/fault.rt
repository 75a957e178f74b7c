// Why no object was made.

use execution_definitions::Refusal;
use thiserror::Error;

/// Why an object was not made. Nothing changed then.
#[derive(Clone, Copy, Debug, PartialEq, Eq, Error)]
pub enum MarkFault {
    /// The call is refused: there are too many objects or too many calls.
    #[error(transparent)]
    Refused(Refusal),
    /// There is no memory for the object's mark.
    #[error("out of memory")]
    OutOfMemory,
}
