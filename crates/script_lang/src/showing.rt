// What a script shows with the replies to its calls.
ghost use Rattle.std.specs.Prelude.{◌≡◌, IfOk};
ghost use Rattle.std.specs.Option.{option_map};
ghost use Rattle.execution_definitions.specs.Programs.{HasAnswered};
ghost use Rattle.script_lang.specs.Acts.{script_meaning};
ghost use Rattle.script_lang.specs.ScriptCalls.{calls_of};
ghost use Rattle.script_lang.specs.ScriptAnswers.{line_at, shown_of};

use crate::running::{Shown, push_shown};
use crate::script::Script;
use crate::word32::Word32;
use delegation::Reply;
use execution_definitions::Refusal;
use ss_base::OutOfMemory;
use std::alloc::Global;

// The line of the call at a place. The `End` that a script lacks stands on none, and has 0.
fn line_at(script: &Script, place: usize) -> u32
    ensures { result ≡ line_at script.now place }
{
    script.line(place as u64).unwrap_or(0)
}

// The line of the call at a place and its refusal, where it was refused.
fn stop_at(script: &Script, place: usize, stopped: Option<Refusal>) -> Option<(u32, Refusal)>
    ensures { result ≡ option_map (λ refusal. (line_at script.now place, refusal)) stopped }
{
    let refusal = stopped?;
    Some((line_at(script, place), refusal))
}

/// What a script shows, where these are the replies to its calls before the first that was refused,
/// and this is why that one was, if one was.
pub fn shown_by(
    alloc: Global,
    script: &Script,
    replies: &[Reply<Word32>],
    stopped: Option<Refusal>,
) -> Result<Shown, OutOfMemory>
    requires { HasAnswered script_meaning (calls_of script.now) replies.now stopped }
    ensures { IfOk result (λ shown. shown ≡ shown_of script.now) }
{
    let mut text = Vec::new(alloc);
    for (placed, reply) in script.commands().iter().zip(replies.iter()) {
        push_shown(&mut text, script, placed.command, reply)?;
    }
    let stopped = stop_at(script, replies.len(), stopped);
    Ok(Shown { text, stopped })
}
