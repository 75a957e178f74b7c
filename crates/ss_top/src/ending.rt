// How a command ends, by what it has to print.
ghost use Rattle.std.specs.Prelude.{◌≡◌, ℕ, None, Some};
ghost use Rattle.ss_top.specs.Printings.{printed_answer, HasEnded, IsPrinted};

use crate::Status;
use crate::commands::{Broken, Printed};
use crate::no_text::NoText;
use execution_definitions::Refusal;
use script_lang::Script;
use ss_base::{Failed, Sink, write_all};

/// How a command ended, and the script that broke the partition rule if one did, since the names of
/// its objects are told.
#[derive(Drop)]
pub(crate) struct Ended {
    pub status: Status,
    pub script: Option<Script>,
}

// An end without a script that broke the partition rule.
fn ended_as(status: Status) -> Ended
    ensures status { result.status ≡ status }
    ensures script { result.script ≡ None }
{
    Ended {
        status,
        script: None,
    }
}

// Writes what a command prints. A script that broke off is kept, for the names of its objects.
fn print<K: Sink>(out: &mut K, printed: Printed) -> Ended
    ensures printed { IsPrinted K.Sink (printed_answer printed) result.status out.old out.new }
    ensures script { (line : ℕ) (refusal : Refusal) → result.status ≡ Status.Refused line refusal →
        (broken : Broken) × (printed.broken ≡ Some broken) × (result.script ≡ Some broken.script) }
{
    let Printed { text, broken } = printed;
    if let Err(Failed) = write_all(out, &text) {
        return ended_as(Status::WriteFault);
    }
    match broken {
        None => ended_as(Status::Done),
        Some(
            Broken {
                line,
                refusal,
                script,
            },
        ) => Ended {
            status: Status::Refused { line, refusal },
            script: Some(script),
        },
    }
}

/// Writes what a command prints, where it prints a text, and says how it ended.
pub(crate) fn end_with<K: Sink>(out: &mut K, given: Result<Printed, NoText>) -> Ended
    ensures ended { HasEnded K.Sink given result.status out.old out.new }
    ensures script { (line : ℕ) (refusal : Refusal) → result.status ≡ Status.Refused line refusal →
        (printed : Printed) × (broken : Broken) × (given ≡ Ok printed)
        × (printed.broken ≡ Some broken) × (result.script ≡ Some broken.script) }
{
    match given {
        Ok(printed) => print(out, printed),
        Err(NoText::ReadFault(which)) => ended_as(Status::ReadFault(which)),
        Err(NoText::Limit(hit)) => ended_as(Status::Limit(hit)),
        Err(NoText::Text(fault)) => ended_as(Status::Text(fault)),
        Err(NoText::OutOfMemory) => ended_as(Status::OutOfMemory),
    }
}
