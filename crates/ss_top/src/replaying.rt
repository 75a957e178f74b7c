// The top call of replays alone. It has no threads.
ghost use Rattle.std.specs.Prelude.{◌≡◌, ◌≢◌, ◌↔◌, ℕ, None, Some, map, string_bytes};
ghost use Rattle.command_line.specs.CommandLine.{outcome, CanBeAsked};
ghost use Rattle.ss_top.specs.Answers.{texts_held};
ghost use Rattle.ss_top.specs.Inputs.{inputs_of};
ghost use Rattle.ss_top.specs.Printings.{script_names};
ghost use Rattle.ss_top.specs.Readings.{IfTold};
ghost use Rattle.ss_top.specs.Runs.{IsReplay, Runs, TellsStatus, names_replay, replay_only};
ghost use Rattle.ss_top.specs.Texts.{names_in};

use crate::Status;
use crate::commands::replayed_by;
use crate::ending::{Ended, end_with};
use crate::tell::{tell_memory, tell_status, tell_usage};
use command_line::{Command, WordsFault, command_of};
use execution_definitions::Refusal;
use ss_base::{Shelf, Sink};
use std::alloc::Global;

// Whether the first word is that of a replay.
fn names_replay(words: &[String]) -> bool
    ensures { result ≡ names_replay (map string_bytes words.now) }
{
    match words.first() {
        Some(name) => name.as_str() == "replay",
        None => false,
    }
}

// Does what a replay asks for, with nothing told on the error stream.
fn carry_out<L: Shelf, K: Sink>(
    alloc: Global,
    command: &Command,
    lanes: u32,
    order: bool,
    shelf: &mut L,
    out: &mut K,
) -> Ended
    requires can { CanBeAsked command.now }
    requires is { IsReplay command.now lanes order }
    ensures usage { result.status ≢ Status.Usage }
    ensures runs { Runs L.Shelf K.Sink (Some command.now) result.status
        shelf.old shelf.new out.old out.new }
    ensures script { (line : ℕ) (refusal : Refusal) → result.status ≡ Status.Refused line refusal →
        IfTold (L.contents shelf.old) (λ told. script_names result.script
        ≡ names_in (Some command.now) (texts_held told (inputs_of command.now))) }
{
    let given = replayed_by(alloc, shelf, command, lanes, order);
    end_with(out, given)
}

/// Does what the words after the program's name ask for where they are a replay, as `run` does, and
/// says how that ended. All other words end as words that are no command.
///
/// It starts no thread and never waits, so it always returns.
pub fn replay_run<L: Shelf, K: Sink, E: Sink>(
    alloc: Global,
    words: &[String],
    shelf: &mut L,
    out: &mut K,
    err: &mut E,
) -> Status
    // Usage comes exactly where the words are no replay, whatever else happens.
    ensures usage { (result ≡ Status.Usage)
        ↔ (replay_only (outcome (map string_bytes words.now)) ≡ None) }

    // The shelf is asked for what the replay needs, a status has its cause, and out gains just what
    // is called for.
    ensures runs { Runs L.Shelf K.Sink (replay_only (outcome (map string_bytes words.now))) result
        shelf.old shelf.new out.old out.new }

    // The error stream gains the text of the status.
    ensures tells { TellsStatus (L.contents shelf.old)
        (replay_only (outcome (map string_bytes words.now))) result
        (E.gained err.old) (E.gained err.new) (E.faults err.old) (E.faults err.new) }
{
    // Other words are refused without a look at the rest of them, which would take memory.
    if !names_replay(words) {
        tell_usage(err);
        return Status::Usage;
    }
    match command_of(alloc, words) {
        Ok(command) => {
            let Command::Replay {
                delegates,
                order,
                ..
            } = &command
            else {
                tell_usage(err);
                return Status::Usage;
            };
            let ended = carry_out(alloc, &command, *delegates, *order, shelf, out);
            tell_status(err, &command, &ended);
            ended.status
        }
        Err(WordsFault::Usage) => {
            tell_usage(err);
            Status::Usage
        }
        Err(WordsFault::OutOfMemory) => {
            tell_memory(err);
            Status::OutOfMemory
        }
    }
}
