// The commands of a script.

use crate::word32::Deed;
use execution_definitions::By;
use ss_base::ObjectId;

/// What a line asks for, with numbers in place of names.
#[derive(Clone, Copy, Debug, PartialEq, Eq)]
pub enum Command {
    /// Makes a writable object.
    Make {
        value: u32,
        by: By,
    },
    /// Makes a read-only object.
    MakeFixed {
        value: u32,
    },
    /// Begins an epoch of isolation.
    Begin,
    /// Ends it.
    End,
    /// Delegates a deed to an object, reading another or none.
    Delegate {
        object: ObjectId,
        deed: Deed,
        reading: Option<ObjectId>,
    },
    /// Does a deed in the program context.
    Write {
        object: ObjectId,
        deed: Deed,
    },
    /// Shows an object's value.
    Get {
        object: ObjectId,
    },
    /// Shows the total.
    Total,
}

/// A command, and its line, counted from 1.
#[derive(Clone, Copy, Debug, PartialEq, Eq)]
pub struct Placed {
    pub command: Command,
    pub line: u32,
}
