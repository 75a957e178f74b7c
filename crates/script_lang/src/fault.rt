// Why a script can't be read.
ghost use Rattle.std.specs.Prelude.{◌≡◌};
ghost use Rattle.script_lang.specs.declared.fault.ParseFault.TheVariants as fault;

use ss_base::OutOfMemory;
use thiserror::Error;

/// What is wrong with a line. The kinds are tried in this order, and the first that holds is the
/// line's.
#[derive(Clone, Copy, Debug, PartialEq, Eq, Error)]
pub enum ScriptKind {
    /// The first word is none of the nine command words.
    #[error("unknown command")]
    UnknownCommand,
    /// The words fit no shape of their command.
    #[error("wrong words for this command")]
    BadShape,
    /// What an object is to be called is no name.
    #[error("bad name")]
    BadName,
    /// What an object is to be called is the name of an object that a line above makes.
    #[error("name is taken")]
    NameTaken,
    /// No line above makes an object of this name.
    #[error("unknown name")]
    NameUnknown,
    /// A number or a set is ill spelt or too large.
    #[error("bad number")]
    BadNumber,
}

/// The first line that is wrong, counted from 1, and what is wrong with it.
#[derive(Clone, Copy, Debug, PartialEq, Eq, Error)]
#[error("line {line}: {kind}")]
pub struct ScriptFault {
    pub line: u32,
    pub kind: ScriptKind,
}

/// Why there is no script.
#[derive(Clone, Copy, Debug, PartialEq, Eq, Error)]
pub enum ParseFault {
    /// The text is wrong.
    #[error(transparent)]
    Text(ScriptFault),
    /// There was no memory.
    #[error("out of memory")]
    OutOfMemory,
}

impl From<OutOfMemory> for ParseFault {
    ghost from_gives = { λ _ given. given ≡ fault.OutOfMemory };

    fn from(_: OutOfMemory) -> Self {
        ParseFault::OutOfMemory
    }
}
