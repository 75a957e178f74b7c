// A script on a runtime.
ghost use Rattle.std.specs.Prelude.{◌≡◌, [], ◌∷◌, ◌++◌, Some, Err, IfOk, OnOk, decimal};
ghost use Rattle.execution_definitions.specs.Programs.{sound_front};
ghost use Rattle.execution_definitions.specs.Sequential.{reply_of};
ghost use Rattle.delegation.specs.declared.call.Fault.TheVariants.{Refused};
ghost use Rattle.delegation.specs.Runtimes.{IsAfter};
ghost use Rattle.delegation.specs.Answers.{AnswersEachList};
ghost use Rattle.script_lang.specs.Acts.{script_meaning};
ghost use Rattle.script_lang.specs.ScriptCalls.{call_of, calls_of};
ghost use Rattle.script_lang.specs.ScriptAnswers.{value_line, total_line};
ghost use Rattle.script_lang.specs.ScriptAnswers.{shown_line, shown_of};

use crate::command::Command;
use crate::script::{Script, call_of, is_open_after};
use crate::word32::Word32;
use delegation::{Delegation, Fault, Reply, make_call};
use execution_definitions::Refusal;
use itoa::Buffer;
use ss_base::OutOfMemory;
use std::alloc::Global;
use std::marker::Model;
use std::sync::Wait;
use std::thread::Threads;

/// What a script shows, and where it stops.
#[derive(Drop, Debug)]
pub struct Shown {
    /// A line for each `show` and each `total` before the stop.
    pub text: Vec<u8>,
    /// The line and the refusal of the call that was refused, if one was.
    pub stopped: Option<(u32, Refusal)>,
}

impl Model for Shown {
    ghost use Rattle.script_lang.specs.ScriptAnswers.{ShownRecord};

    ghost Value = { ShownRecord };

    ghost view = { λ shown. record { text = shown.text.items; stopped = shown.stopped } };
}

// Appends a number in decimal, and the end of the line.
fn push_number(text: &mut Vec<u8>, number: u64) -> Result<(), OutOfMemory>
    ensures { OnOk result (text.new.items ≡ text.old.items ++ decimal number ++ 10 ∷ []) }
{
    let mut buffer = Buffer::new();
    text.extend_from_slice(buffer.format(number).as_bytes())?;
    text.push(b'\n')?;
    Ok(())
}

// Appends the line of an object's value.
#[tactic(auto, unfolding(crate::specs::ScriptAnswers::value_line))]
fn push_value(text: &mut Vec<u8>, name: &str, value: u32) -> Result<(), OutOfMemory>
    ensures { OnOk result (text.new.items ≡ text.old.items ++ value_line name.now value) }
{
    text.extend_from_slice(name.as_bytes())?;
    text.push(b' ')?;
    push_number(text, u64::from(value))
}

// Appends the line of the total.
#[tactic(auto, unfolding(crate::specs::ScriptAnswers::total_line))]
fn push_total(text: &mut Vec<u8>, value: u64) -> Result<(), OutOfMemory>
    ensures { OnOk result (text.new.items ≡ text.old.items ++ total_line value) }
{
    text.extend_from_slice(b"total ")?;
    push_number(text, value)
}

/// Appends what a command shows with its reply.
pub(crate) fn push_shown(
    text: &mut Vec<u8>,
    script: &Script,
    command: Command,
    reply: &Reply<Word32>,
) -> Result<(), OutOfMemory>
    ensures { OnOk result (text.new.items ≡ text.old.items
        ++ shown_line script.now.names (call_of command) (Some reply.now)) }
{
    match (command, reply) {
        (Command::Get { object }, Reply::Value(word)) => {
            push_value(text, script.name(object).unwrap_or(""), word.0)
        }
        (Command::Total, Reply::Total(total)) => push_total(text, total.0),
        _ => Ok(()),
    }
}

// Makes the call of a command, and appends what it shows. A refused call shows nothing.
fn run_command<D: Delegation<Word32>, R: Threads + Wait + Copy + Send + Sync + 'static>(
    rt: &R,
    alloc: Global,
    d: &mut D,
    script: &Script,
    command: Command,
    text: &mut Vec<u8>,
) -> Result<(), Fault>
    ensures follows { AnswersEachList script_meaning (D.seen d.old) (D.seen d.new)
        (call_of command) result }
    ensures text { OnOk result (text.new.items ≡ text.old.items
        ++ shown_line script.now.names (call_of command) (reply_of script_meaning
        (D.seen d.old).state (D.seen d.old).marks.calls (call_of command))) }
    ensures refused { (refusal : Refusal) → result ≡ Err (Refused refusal)
        → text.new.items ≡ text.old.items }
{
    let reply = make_call(rt, alloc, d, call_of(command))?;
    push_shown(text, script, command, &reply)?;
    Ok(())
}

// What was shown before the call on this line, which wasn't done.
fn shown_until(text: Vec<u8>, line: u32, fault: Fault) -> Result<Shown, OutOfMemory>
    ensures { IfOk result (λ shown. (refusal : Refusal) × (fault ≡ Refused refusal)
        × (shown ≡ record { text = text.items; stopped = Some (line, refusal) })) }
{
    match fault {
        Fault::Refused(refusal) => Ok(Shown {
            text,
            stopped: Some((line, refusal)),
        }),
        Fault::OutOfMemory => Err(OutOfMemory),
    }
}

/// Makes the calls of a script in their order, up to the first that is refused, and gives what they
/// show. The runtime is a new one. An `End` that the script lacks is made too.
///
/// The values and the total shown are those of the program without delegates, and the refusal is
/// that of the first call that breaks the partition rule.
pub fn run_script<D: Delegation<Word32>, R: Threads + Wait + Copy + Send + Sync + 'static>(
    rt: &R,
    alloc: Global,
    d: &mut D,
    script: &Script,
) -> Result<Shown, OutOfMemory>
    requires { IsAfter script_meaning (D.seen d.old) [] }
    ensures shown { IfOk result (λ shown. shown ≡ shown_of script.now) }
    ensures after { IfOk result (λ shown. IsAfter script_meaning (D.seen d.new)
        (sound_front script_meaning (calls_of script.now))) }
{
    let mut text = Vec::new(alloc);
    let mut is_open = false;
    for placed in script.commands() {
        match run_command(rt, alloc, d, script, placed.command, &mut text) {
            Ok(()) => is_open = is_open_after(placed.command, is_open),
            Err(fault) => return shown_until(text, placed.line, fault),
        }
    }
    if is_open {
        match run_command(rt, alloc, d, script, Command::End, &mut text) {
            Ok(()) => {}
            // Of all calls this one stands on no line.
            Err(fault) => return shown_until(text, 0, fault),
        }
    }
    Ok(Shown {
        text,
        stopped: None,
    })
}
