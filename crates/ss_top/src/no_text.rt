// Why a command has no text to print.
ghost use Rattle.std.specs.Prelude.{◌≡◌};
ghost use Rattle.ss_top.specs.Printings.{no_text_of, no_text_for, no_text_from};
ghost use Rattle.ss_top.specs.declared.no_text.NoText.TheVariants as no_text;

use crate::{GenFault, LimitHit, TextFault, Which};
use script_lang::{ParseFault, ScheduleStop};
use ss_base::OutOfMemory;
use std::alloc::{AllocError, AllocFailed};

/// Why a command has no text.
#[derive(Clone, Copy, Debug, PartialEq, Eq)]
pub(crate) enum NoText {
    /// The shelf failed at this input.
    ReadFault(Which),
    /// A limit was passed.
    Limit(LimitHit),
    /// The text of an input is wrong.
    Text(TextFault),
    /// There was no memory.
    OutOfMemory,
}

impl From<OutOfMemory> for NoText {
    ghost from_gives = { λ _ given. given ≡ no_text.OutOfMemory };

    fn from(_: OutOfMemory) -> Self {
        NoText::OutOfMemory
    }
}

impl From<AllocError> for NoText {
    ghost from_gives = { λ _ given. given ≡ no_text.OutOfMemory };

    fn from(_: AllocError) -> Self {
        NoText::OutOfMemory
    }
}

impl<T: Drop> From<AllocFailed<T>> for NoText {
    ghost from_gives = { λ _ given. given ≡ no_text.OutOfMemory };

    fn from(_: AllocFailed<T>) -> Self {
        NoText::OutOfMemory
    }
}

impl From<GenFault> for NoText {
    ghost from_gives = { λ fault given. given ≡ no_text_of fault };

    fn from(fault: GenFault) -> Self {
        match fault {
            GenFault::Limit(hit) => NoText::Limit(hit),
            GenFault::OutOfMemory => NoText::OutOfMemory,
        }
    }
}

impl From<ParseFault> for NoText {
    ghost from_gives = { λ fault given. given ≡ no_text_for fault };

    fn from(fault: ParseFault) -> Self {
        match fault {
            ParseFault::Text(fault) => NoText::Text(TextFault::Script(fault)),
            ParseFault::OutOfMemory => NoText::OutOfMemory,
        }
    }
}

impl From<ScheduleStop> for NoText {
    ghost from_gives = { λ stop given. given ≡ no_text_from stop };

    fn from(stop: ScheduleStop) -> Self {
        match stop {
            ScheduleStop::Word(word) => NoText::Text(TextFault::Schedule { word }),
            ScheduleStop::OutOfMemory => NoText::OutOfMemory,
        }
    }
}
