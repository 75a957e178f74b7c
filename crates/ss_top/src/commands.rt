// What each command prints. A command gives a text made of the texts of its inputs: it reads nothing
// and writes nothing.
ghost use Rattle.std.specs.Prelude.{◌≡◌, ◌≢◌, ◌+◌, ◌<◌, ◌≤◌, [], None, Some, map, length};
ghost use Rattle.std.specs.Prelude.{IfOk, IfSome, OnSome, MatchOption};
ghost use Rattle.ss_base.specs.declared.limits.TheConstants as limits;
ghost use Rattle.ss_top.specs.Answers.{answer_after, first_passed, limit_asked, texts_held};
ghost use Rattle.command_line.specs.CommandLine.{CanBeAsked};
ghost use Rattle.ss_top.specs.Inputs.{inputs_of};
ghost use Rattle.ss_top.specs.Printings.{Answers, HasNames};
ghost use Rattle.ss_top.specs.Readings.{Asks, AsksInOrder, FailsAt, IfCalledFor, IfTold, IsLimitOf};
ghost use Rattle.ss_top.specs.Readings.{left_of};
ghost use Rattle.ss_top.specs.Runs.{CanBreak, CanHave, IsReplay};
ghost use Rattle.ss_top.specs.Texts.{names_in};

mod generated;
mod index;
mod indexing;
mod replay;
mod runtime;
mod script;
mod shown;

use crate::commands::runtime::How;
use crate::inputs::read_inputs;
use crate::no_text::NoText;
use crate::{LimitHit, TextFault, Which};
use command_line::Command;
use delegates::Gate;
use execution_definitions::Refusal;
use script_lang::Script;
use ss_base::Shelf;
use ss_base::limits::NAMES;
use std::alloc::Global;
use std::sync::{Arc, Wait};
use std::thread::Threads;

/// What a command prints, and where a script breaks off, if it does.
#[derive(Drop)]
pub(crate) struct Printed {
    pub text: Vec<u8>,
    pub broken: Option<Broken>,
}

/// A script that breaks the partition rule, at this line.
#[derive(Drop)]
pub(crate) struct Broken {
    pub line: u32,
    pub refusal: Refusal,
    pub script: Script,
}

// A text that is printed whole.
fn whole(text: Vec<u8>) -> Printed
    ensures text { result.text ≡ text }
    ensures broken { result.broken ≡ None }
{
    Printed { text, broken: None }
}

// The limit of names, where a command asks for more.
fn names_over(command: &Command) -> Option<LimitHit>
    ensures { MatchOption result
        ((length (inputs_of command.now) ≤ limits.NAMES + 1)
        × (0 < length (inputs_of command.now) → limit_asked command.now ≡ None))
        (λ hit. limit_asked command.now ≡ Some hit) }
{
    match command {
        Command::Index { names, .. } => {
            let count = names.as_slice().len();
            if count > NAMES {
                Some(LimitHit::Names(count as u64))
            } else {
                None
            }
        }
        _ => None,
    }
}

// The text that a command prints, by the texts of its inputs, which pass no limit.
fn text_by<R, G: Gate + 'static>(
    rt: &R,
    alloc: Global,
    command: &Command,
    mut texts: Vec<Vec<u8>>,
    gate: Arc<G>,
) -> Result<Printed, NoText>
where
    R: Threads + Wait + Copy + Send + Sync + 'static,
    requires can { CanBeAsked command.now }
    requires count { length texts.items ≡ length (inputs_of command.now) }
    requires asked { 0 < length (inputs_of command.now) → limit_asked command.now ≡ None }
    requires within { first_passed 0 (inputs_of command.now)
        (map (λ text. text.items) texts.items) ≡ None }
    ensures answers { Answers
        (answer_after (Some command.now) (map (λ text. text.items) texts.items)) (Some []) result }
    ensures names { HasNames result
        (names_in (Some command.now) (map (λ text. text.items) texts.items)) }
    ensures breaks { IfOk result (λ printed. OnSome printed.broken (CanBreak (Some command.now))) }
    ensures read_fault { (which : Which) → result ≢ Err (NoText.ReadFault which) }
    ensures limit { (hit : LimitHit) → result ≡ Err (NoText.Limit hit) →
        limit_asked command.now ≡ Some hit }
    ensures text { (fault : TextFault) → result ≡ Err (NoText.Text fault) →
        CanHave (Some command.now) fault }
{
    match command {
        Command::Index {
            delegates,
            mode,
            ring,
            stop,
            ..
        } => {
            let how = How::of(*delegates, *mode, *ring, gate);
            match stop {
                None => {
                    let stop = Vec::new(alloc);
                    Ok(whole(index::index_text(rt, alloc, how, stop, texts)?))
                }
                Some(_) => {
                    let stop = texts.remove(0);
                    Ok(whole(index::index_text(rt, alloc, how, stop, texts)?))
                }
            }
        }
        Command::Script {
            delegates,
            mode,
            ring,
            trace,
            ..
        } => {
            let how = How::of(*delegates, *mode, *ring, gate);
            Ok(script::script_text(rt, alloc, how, *trace, &texts[0])?)
        }
        Command::Replay {
            delegates,
            order,
            ..
        } => replay::replay_text(alloc, *delegates, *order, &texts[0], &texts[1]),
        Command::Gen {
            delegates,
            mode,
            ring,
            docs,
            words,
            seed,
        } => {
            let how = How::of(*delegates, *mode, *ring, gate);
            Ok(whole(generated::summary_text(rt, alloc, how, *docs, *words, *seed)?))
        }
    }
}

/// The text that a command prints.
pub(crate) fn printed_by<R, L: Shelf, G: Gate + 'static>(
    rt: &R,
    alloc: Global,
    shelf: &mut L,
    command: &Command,
    gate: Arc<G>,
) -> Result<Printed, NoText>
where
    R: Threads + Wait + Copy + Send + Sync + 'static,
    requires { CanBeAsked command.now }
    ensures asks { AsksInOrder L.Shelf shelf.old shelf.new (Some command.now) }
    ensures whole { IfOk result (λ _. Asks L.Shelf shelf.old shelf.new (inputs_of command.now)) }
    ensures answers { IfCalledFor (L.contents shelf.old) (Some command.now) (λ answer.
        Answers answer (left_of (inputs_of command.now) (L.left shelf.new)) result) }
    ensures names { IfTold (L.contents shelf.old) (λ told. HasNames result
        (names_in (Some command.now) (texts_held told (inputs_of command.now)))) }
    ensures breaks { IfOk result (λ printed. OnSome printed.broken (CanBreak (Some command.now))) }
    ensures read_fault { (which : Which) → result ≡ Err (NoText.ReadFault which) →
        FailsAt L.Shelf shelf.old shelf.new (Some command.now) which }
    ensures limit { (hit : LimitHit) → result ≡ Err (NoText.Limit hit) →
        IsLimitOf (Some command.now) hit }
    ensures text { (fault : TextFault) → result ≡ Err (NoText.Text fault) →
        CanHave (Some command.now) fault
        × Asks L.Shelf shelf.old shelf.new (inputs_of command.now) }
{
    if let Some(hit) = names_over(command) {
        return Err(NoText::Limit(hit));
    }
    let texts = read_inputs(alloc, shelf, command)?;
    text_by(rt, alloc, command, texts, gate)
}

/// The text that a replay on so many lanes prints. It starts no thread, and never waits.
pub(crate) fn replayed_by<L: Shelf>(
    alloc: Global,
    shelf: &mut L,
    command: &Command,
    lanes: u32,
    order: bool,
) -> Result<Printed, NoText>
    requires can { CanBeAsked command.now }
    requires is { IsReplay command.now lanes order }
    ensures asks { AsksInOrder L.Shelf shelf.old shelf.new (Some command.now) }
    ensures whole { IfOk result (λ _. Asks L.Shelf shelf.old shelf.new (inputs_of command.now)) }
    ensures answers { IfCalledFor (L.contents shelf.old) (Some command.now) (λ answer.
        Answers answer (left_of (inputs_of command.now) (L.left shelf.new)) result) }
    ensures names { IfTold (L.contents shelf.old) (λ told. HasNames result
        (names_in (Some command.now) (texts_held told (inputs_of command.now)))) }
    ensures breaks { IfOk result (λ printed. OnSome printed.broken (CanBreak (Some command.now))) }
    ensures read_fault { (which : Which) → result ≡ Err (NoText.ReadFault which) →
        FailsAt L.Shelf shelf.old shelf.new (Some command.now) which }
    ensures limit { (hit : LimitHit) → result ≡ Err (NoText.Limit hit) →
        IsLimitOf (Some command.now) hit }
    ensures text { (fault : TextFault) → result ≡ Err (NoText.Text fault) →
        CanHave (Some command.now) fault
        × Asks L.Shelf shelf.old shelf.new (inputs_of command.now) }
{
    let inputs = read_inputs(alloc, shelf, command)?;
    replay::replay_text(alloc, lanes, order, &inputs[0], &inputs[1])
}
