// The top call.
ghost use Rattle.std.specs.Prelude.{◌≡◌, ◌≢◌, ◌↔◌, ℕ, None, Some, map, string_bytes};
ghost use Rattle.command_line.specs.CommandLine.{outcome, CanBeAsked};
ghost use Rattle.ss_top.specs.Answers.{texts_held};
ghost use Rattle.ss_top.specs.Inputs.{inputs_of};
ghost use Rattle.ss_top.specs.Printings.{script_names};
ghost use Rattle.ss_top.specs.Readings.{IfTold};
ghost use Rattle.ss_top.specs.Runs.{Runs, TellsStatus};
ghost use Rattle.ss_top.specs.Texts.{names_in};

use crate::Status;
use crate::commands::printed_by;
use crate::ending::{Ended, end_with};
use crate::tell::{tell_memory, tell_status, tell_usage};
use command_line::{Command, WordsFault, command_of};
use delegates::Gate;
use execution_definitions::Refusal;
use ss_base::{Shelf, Sink};
use std::alloc::Global;
use std::sync::{Arc, Wait};
use std::thread::Threads;

// Does what a command asks for, with nothing told on the error stream.
fn carry_out<R, L: Shelf, K: Sink, G: Gate + 'static>(
    rt: &R,
    alloc: Global,
    command: &Command,
    shelf: &mut L,
    out: &mut K,
    gate: Arc<G>,
) -> Ended
where
    R: Threads + Wait + Copy + Send + Sync + 'static,
    requires { CanBeAsked command.now }
    ensures usage { result.status ≢ Status.Usage }
    ensures runs { Runs L.Shelf K.Sink (Some command.now) result.status
        shelf.old shelf.new out.old out.new }
    ensures script { (line : ℕ) (refusal : Refusal) → result.status ≡ Status.Refused line refusal →
        IfTold (L.contents shelf.old) (λ told. script_names result.script
        ≡ names_in (Some command.now) (texts_held told (inputs_of command.now))) }
{
    let given = printed_by(rt, alloc, shelf, command, gate);
    end_with(out, given)
}

/// Does what the words after the program's name ask for, and says how that ended.
///
/// The text is built whole, then written to `out`; so on each status but `Done`, `WriteFault` and
/// `Refused` `out` gains nothing. A write fault comes before a script's refusal. On every status but
/// `Done` a text goes to `err`, and no status depends on whether that could be written.
///
/// Delegates in threads pass `gate` before each run of a delegated operation.
pub fn run<R, L: Shelf, K: Sink, E: Sink, G: Gate + 'static>(
    rt: &R,
    alloc: Global,
    words: &[String],
    shelf: &mut L,
    out: &mut K,
    err: &mut E,
    gate: Arc<G>,
) -> Status
where
    R: Threads + Wait + Copy + Send + Sync + 'static,
    // Usage comes exactly where the words are no command, whatever else happens.
    ensures usage { (result ≡ Status.Usage) ↔ (outcome (map string_bytes words.now) ≡ None) }

    // The shelf is asked for what the command needs, a status has its cause, and out gains just
    // what is called for.
    ensures runs { Runs L.Shelf K.Sink (outcome (map string_bytes words.now)) result
        shelf.old shelf.new out.old out.new }

    // The error stream gains the text of the status.
    ensures tells { TellsStatus (L.contents shelf.old) (outcome (map string_bytes words.now)) result
        (E.gained err.old) (E.gained err.new) (E.faults err.old) (E.faults err.new) }
{
    match command_of(alloc, words) {
        Ok(command) => {
            let ended = carry_out(rt, alloc, &command, shelf, out, gate);
            tell_status(err, &command, &ended);
            ended.status
        }
        Err(WordsFault::Usage) => {
            tell_usage(err);
            Status::Usage
        }
        Err(WordsFault::OutOfMemory) => {
            tell_memory(err);
            Status::OutOfMemory
        }
    }
}
