// The inputs of a command, one behind the other.
ghost use Rattle.std.specs.Prelude.{◌≡◌, ◌≢◌, ◌+◌, ◌-◌, ◌^◌, ◌<◌, ◌≤◌, None, Some, map, length, slice_get};
ghost use Rattle.std.specs.Prelude.{IfOk, OnOk};
ghost use Rattle.std.specs.Option.{option_map};
ghost use Rattle.ss_base.specs.declared.limits.TheConstants as limits;
ghost use Rattle.ss_top.specs.Inputs.{documents_from, inputs_of};
ghost use Rattle.ss_top.specs.Answers.{over_limit, limit_asked, bytes_behind};
ghost use Rattle.ss_top.specs.Limits.{limit_passed};
ghost use Rattle.ss_top.specs.Readings.{AsksInOrder, Reads, FailsAt, IfCalledFor, IsLimitOf};

use crate::no_text::NoText;
use crate::reading::read_input;
use crate::{LimitHit, TextFault, Which};
use command_line::Command;
use ss_base::limits::ALL_DOCUMENT_BYTES;
use ss_base::{Shelf, Texts};
use std::alloc::Global;

// The document at this place among these names, counted from 0.
fn document_at(names: &Texts, place: usize) -> Option<(Which, &str)>
    requires { place < 2 ^ 32 - 1 }
    ensures { option_map (λ input. (input.0, input.1.now)) result
        ≡ slice_get (documents_from 1 names.now) place }
{
    let name = names.as_slice().get(place)?;
    Some((Which::Name(place as u32 + 1), name.as_str()))
}

// The input of a command at this place, counted from 0, and its name.
fn input_at(command: &Command, place: usize) -> Option<(Which, &str)>
    requires { place < 2 ^ 32 - 1 }
    ensures { option_map (λ input. (input.0, input.1.now)) result
        ≡ slice_get (inputs_of command.now) place }
{
    match command {
        Command::Index {
            stop: None,
            names,
            ..
        } => document_at(names, place),
        Command::Index {
            stop: Some(stop),
            names,
            ..
        } => match place.checked_sub(1) {
            Some(before) => document_at(names, before),
            None => Some((Which::Stop, stop.as_str())),
        },
        Command::Script { name, .. } if place == 0 => Some((Which::Script, name.as_str())),
        Command::Replay {
            script,
            schedule,
            ..
        } => match place {
            0 => Some((Which::Script, script.as_str())),
            1 => Some((Which::Schedule, schedule.as_str())),
            _ => None,
        },
        _ => None,
    }
}

// How many bytes are left of those for all documents, behind an input that passes no limit.
fn left_behind(left: usize, which: Which, text: &[u8]) -> usize
    requires left { left ≤ limits.ALL_DOCUMENT_BYTES }
    requires within { limit_passed (limits.ALL_DOCUMENT_BYTES - left) which text.now ≡ None }
    ensures { result + bytes_behind (limits.ALL_DOCUMENT_BYTES - left) which text.now
        ≡ limits.ALL_DOCUMENT_BYTES }
{
    match which {
        Which::Name(_) => left - text.len(),
        _ => left,
    }
}

/// The texts of all inputs of a command, in their order.
///
/// An input is opened only after those before it were read whole and passed no limit.
pub(crate) fn read_inputs<L: Shelf>(
    alloc: Global,
    shelf: &mut L,
    command: &Command,
) -> Result<Vec<Vec<u8>>, NoText>
    requires few { length (inputs_of command.now) ≤ limits.NAMES + 1 }
    requires asked { 0 < length (inputs_of command.now) → limit_asked command.now ≡ None }
    ensures asks { AsksInOrder L.Shelf shelf.old shelf.new (Some command.now) }
    ensures reads { IfOk result (λ texts. Reads L.Shelf shelf.old shelf.new (inputs_of command.now)
        (map (λ text. text.items) texts.items)) }
    ensures count { IfOk result (λ texts. length texts.items ≡ length (inputs_of command.now)) }
    ensures read_fault { (which : Which) → result ≡ Err (NoText.ReadFault which) →
        FailsAt L.Shelf shelf.old shelf.new (Some command.now) which }
    ensures limit { (hit : LimitHit) → result ≡ Err (NoText.Limit hit) →
        IsLimitOf (Some command.now) hit
        × IfCalledFor (L.contents shelf.old) (Some command.now)
        (λ answer. answer ≡ Some (over_limit hit)) }
    ensures text { (fault : TextFault) → result ≢ Err (NoText.Text fault) }
{
    let mut texts = Vec::new(alloc);
    let mut left = ALL_DOCUMENT_BYTES;
    while let Some((which, name)) = input_at(command, texts.len()) {
        let text = read_input(alloc, shelf, which, name, left)?;
        left = left_behind(left, which, &text);
        texts.push(text)?;
    }
    Ok(texts)
}
