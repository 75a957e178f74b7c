// What a script shows, as a command prints it.
ghost use Rattle.std.specs.Prelude.{◌≡◌, ◌++◌, IfOk, IfSome};
ghost use Rattle.ss_top.specs.Answers as answers;
ghost use Rattle.ss_top.specs.Printings.{printed_answer};

use crate::commands::{Broken, Printed};
use script_lang::{Script, Shown};
use ss_base::OutOfMemory;

/// What is shown, with a text behind it.
pub(crate) fn with_text(shown: Shown, more: &[u8]) -> Result<Shown, OutOfMemory>
    ensures { IfOk result (λ given.
        given ≡ record { text = shown.text ++ more.now; stopped = shown.stopped }) }
{
    let Shown { mut text, stopped } = shown;
    text.extend_from_slice(more)?;
    Ok(Shown { text, stopped })
}

/// What was shown, of a script that may have stopped.
pub(crate) fn printed(shown: Shown, script: Script) -> Printed
    ensures answer { printed_answer result ≡ answers.printed shown.text shown.stopped }
    ensures script { IfSome result.broken (λ broken. broken.script ≡ script) }
{
    let Shown { text, stopped } = shown;
    let broken = match stopped {
        Some((line, refusal)) => Some(Broken {
            line,
            refusal,
            script,
        }),
        None => None,
    };
    Printed { text, broken }
}
