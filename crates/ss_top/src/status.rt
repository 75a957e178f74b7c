// How a run ended.
ghost use Rattle.std.specs.Prelude.{◌≡◌};
ghost use Rattle.ss_top.specs.Statuses.{code_of};

use execution_definitions::Refusal;
use script_lang::ScriptFault;
use thiserror::Error;

/// An input of a command. Names count from 1.
#[derive(Clone, Copy, Debug, PartialEq, Eq)]
pub enum Which {
    /// The stop list.
    Stop,
    /// A document.
    Name(u32),
    /// A script.
    Script,
    /// The schedule of a replay.
    Schedule,
}

/// A limit that was passed. Documents count from 1.
#[derive(Clone, Copy, Debug, PartialEq, Eq)]
pub enum LimitHit {
    /// More than 65,536 names: so many.
    Names(u64),
    /// A document of more than 8,388,608 bytes.
    Document(u32),
    /// Documents up to this one of more than 67,108,864 bytes together.
    AllDocuments(u32),
    /// A stop list of more than 8,388,608 bytes.
    StopBytes,
    /// A script of more than 1,048,576 bytes.
    ScriptBytes,
    /// A script of more than 65,536 lines.
    ScriptLines,
    /// A schedule of more than 1,048,576 bytes.
    ScheduleBytes,
}

/// What is wrong with the text of an input.
#[derive(Clone, Copy, Debug, PartialEq, Eq, Error)]
pub enum TextFault {
    /// The first bad line of a script.
    #[error(transparent)]
    Script(ScriptFault),
    /// The first word of a schedule that is neither `p` nor a lane.
    #[error("schedule word {word}: not p or a lane")]
    Schedule {
        /// Its number among the words, counted from 1.
        word: u32,
    },
}

/// How a run ended.
#[derive(Clone, Copy, Debug, PartialEq, Eq)]
pub enum Status {
    /// The text was printed.
    Done,
    /// The words are no command.
    Usage,
    /// The shelf failed at this input.
    ReadFault(Which),
    /// The sink failed while the text was written.
    WriteFault,
    /// There was no memory.
    OutOfMemory,
    /// A limit was passed.
    Limit(LimitHit),
    /// The script on this line breaks the partition rule.
    Refused {
        /// The line of the first call that is refused, counted from 1.
        line: u32,
        /// Why it is refused.
        refusal: Refusal,
    },
    /// The text of an input is wrong.
    Text(TextFault),
}

impl Status {
    /// The number with which the program ends.
    pub fn code(&self) -> u8
        ensures { result ≡ code_of self.now }
    {
        match self {
            Status::Done => 0,
            Status::Usage => 2,
            Status::ReadFault(_) => 3,
            Status::WriteFault => 4,
            Status::OutOfMemory => 5,
            Status::Limit(_) => 6,
            Status::Refused { .. } => 7,
            Status::Text(_) => 8,
        }
    }
}
