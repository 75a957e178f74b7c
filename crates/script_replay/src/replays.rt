// A script under a given schedule.
ghost use Rattle.std.specs.Prelude.{◌≡◌, ◌≤◌, IfOk, map};
ghost use Rattle.execution_definitions.specs.Programs.{HasAnswered};
ghost use Rattle.schedule_laws.specs.Replayed.{replayed};
ghost use Rattle.script_lang.specs.Acts.{script_meaning};
ghost use Rattle.script_lang.specs.ScriptCalls.{calls_of};
ghost use Rattle.script_lang.specs.ScriptAnswers as answers;

use schedule_core::{Outcome, replay};
use schedule_laws::every_replay_is_computed;
use script_lang::{Script, Shown, Word32, shown_by};
use ss_base::{CallNo, Event, OutOfMemory};
use std::alloc::Global;

/// What a script shows under a schedule, and in which order its calls took effect.
#[derive(Drop)]
pub struct Replayed {
    /// What it shows, and where it stops.
    pub shown: Shown,
    /// The numbers of its calls in the order in which they took effect. The `End` that a script
    /// lacks has a number too.
    pub order: Vec<CallNo>,
}

/// What a script shows, where this is the outcome of a replay of its calls, and where it stops.
pub fn shown_of(
    alloc: Global,
    script: &Script,
    outcome: &Outcome<Word32>,
) -> Result<Shown, OutOfMemory>
    requires { HasAnswered script_meaning (calls_of script.now) outcome.now.replies.items
        outcome.now.stopped }
    ensures { IfOk result (λ shown. shown ≡ answers.shown_of script.now) }
{
    shown_by(alloc, script, &outcome.replies, outcome.stopped)
}

/// Runs the calls of a script on so many lanes under a schedule, and then by the fixed rule of
/// replays.
///
/// What it shows and where it stops is that of the program without delegates, whatever the
/// schedule. The order alone depends on it.
pub fn replay_script(
    alloc: Global,
    script: &Script,
    lanes: u32,
    schedule: &[Event],
) -> Result<Replayed, OutOfMemory>
    requires some { 1 ≤ lanes }
    requires few { lanes ≤ 64 }
    ensures shown { IfOk result (λ given. given.shown ≡ answers.shown_of script.now) }
    ensures order { IfOk result (λ given. map (λ call. call.0) given.order.items
        ≡ (replayed script_meaning (calls_of script.now) lanes schedule.now).order) }
{
    every_replay_is_computed::<Word32>();
    let calls = script.calls(alloc)?;
    let outcome = replay(alloc, calls, lanes, schedule)?;
    let shown = shown_of(alloc, script, &outcome)?;
    let Outcome { order, .. } = outcome;
    Ok(Replayed { shown, order })
}
