// From the bytes of a schedule to its steps.
ghost use Rattle.std.specs.Prelude.{◌≡◌, ◌≤◌, ◌++◌, ◌∷◌, [], ℕ, length, IfOk, OnOk, Ok, Err};
ghost use Rattle.ss_base.specs.declared.limits.TheConstants.{SCHEDULE_BYTES};
ghost use Rattle.script_lang.specs.declared.schedule.ScheduleStop.TheVariants as stop;
ghost use Rattle.script_lang.specs.Schedules.{is_gap, lane_named, event_of, schedule_of};

use crate::parsing::is_line_end;
use crate::tokens::value_within;
use crate::words::is_blank;
use ss_base::{Event, Lane, OutOfMemory};
use std::alloc::Global;
use thiserror::Error;

/// Why there is no schedule.
#[derive(Clone, Copy, Debug, PartialEq, Eq, Error)]
pub enum ScheduleStop {
    /// The first word that is neither `p` nor a lane, by its number, counted from 1.
    #[error("word {0}: not p or a lane")]
    Word(u32),
    /// There was no memory.
    #[error("out of memory")]
    OutOfMemory,
}

impl From<OutOfMemory> for ScheduleStop {
    ghost from_gives = { λ _ given. given ≡ stop.OutOfMemory };

    fn from(_: OutOfMemory) -> Self {
        ScheduleStop::OutOfMemory
    }
}

// Whether a byte stands between words.
fn is_gap(byte: u8) -> bool
    ensures { result ≡ is_gap byte }
{
    is_blank(byte) || is_line_end(byte)
}

// The lane of one or two digits of a value below 64.
#[tactic(auto, unfolding(crate::specs::Schedules::lane_named))]
fn lane_named(word: &[u8]) -> Option<Lane>
    ensures { result ≡ lane_named word.now }
{
    let number = value_within(2, 63, word)?;
    Some(Lane(number as u8))
}

// The step of a word: `p` is the program context's, and a lane is that of its delegate.
#[tactic(auto, unfolding(crate::specs::Schedules::event_of))]
fn event_of(word: &[u8]) -> Option<Event>
    ensures { result ≡ event_of word.now }
{
    match word {
        b"p" => Some(Event::Program),
        _ => lane_named(word).map(Event::Delegate),
    }
}

fn push_event(events: &mut Vec<Event>, event: Event) -> Result<(), OutOfMemory>
    ensures { OnOk result (events.new.items ≡ events.old.items ++ event ∷ []) }
{
    events.push(event)?;
    Ok(())
}

/// The steps of a schedule of these bytes, which are at most `SCHEDULE_BYTES`.
///
/// `Word` tells the first word that is neither `p` nor a lane. Without a want of memory it comes
/// exactly where there is one.
pub fn parse_schedule(alloc: Global, bytes: &[u8]) -> Result<Vec<Event>, ScheduleStop>
    requires { length bytes.now ≤ SCHEDULE_BYTES }
    ensures ok { IfOk result (λ events. schedule_of bytes.now ≡ Ok events.items) }
    ensures word { (number : ℕ) → result ≡ Err (ScheduleStop.Word number)
        → schedule_of bytes.now ≡ Err number }
{
    let mut events = Vec::new(alloc);
    let mut number = 0;
    let parts = bytes.split(|byte| is_gap(*byte));
    for word in parts.filter(|part| !part.is_empty()) {
        number += 1;
        match event_of(word) {
            Some(event) => push_event(&mut events, event)?,
            None => return Err(ScheduleStop::Word(number)),
        }
    }
    Ok(events)
}
