// `replay`: what a script shows under a schedule, and in which order its calls took effect.
ghost use Rattle.std.specs.Prelude.{◌≡◌, ◌≢◌, ◌≤◌, length, IfOk, IfSome};
ghost use Rattle.report.specs.Traces.{order_text};
ghost use Rattle.script_lang.specs.Listings.{listing_of};
ghost use Rattle.script_lang.specs.Schedules.{schedule_of};
ghost use Rattle.ss_base.specs.declared.limits.TheConstants as limits;
ghost use Rattle.ss_top.specs.Answers.{has_fault, replay_answer};
ghost use Rattle.ss_top.specs.Executions.{followed};
ghost use Rattle.ss_top.specs.Printings.{printed_answer};
ghost use Rattle.ss_top.specs.Texts.{names_listed};

use crate::commands::Printed;
use crate::commands::shown::{printed, with_text};
use crate::no_text::NoText;
use crate::{LimitHit, TextFault, Which};
use report::print_order;
use script_lang::{Shown, parse, parse_schedule};
use script_replay::{Replayed, replay_script};
use ss_base::OutOfMemory;
use std::alloc::Global;

// What a replay shows, with its order behind it where that is asked for, unless it stopped.
fn with_order(alloc: Global, replayed: Replayed, order: bool) -> Result<Shown, OutOfMemory>
    ensures { IfOk result (λ shown.
        shown ≡ followed order replayed.shown (order_text replayed.order.items)) }
{
    let Replayed {
        shown,
        order: calls,
    } = replayed;
    if !order || shown.stopped.is_some() {
        return Ok(shown);
    }
    let text = print_order(alloc, &calls)?;
    with_text(shown, &text)
}

/// What a script shows on so many lanes under a schedule, with its order where that is asked for. It
/// starts no thread, and never waits.
pub(crate) fn replay_text(
    alloc: Global,
    lanes: u32,
    order: bool,
    script: &[u8],
    schedule: &[u8],
) -> Result<Printed, NoText>
    requires some { 1 ≤ lanes }
    requires few { lanes ≤ 64 }
    requires script { length script.now ≤ limits.SCRIPT_BYTES }
    requires schedule { length schedule.now ≤ limits.SCHEDULE_BYTES }
    ensures answer { IfOk result (λ printed.
        replay_answer lanes order (listing_of script.now) (schedule_of schedule.now)
        ≡ printed_answer printed) }
    ensures names { IfOk result (λ printed. IfSome printed.broken
        (λ broken. broken.script.names ≡ names_listed (listing_of script.now))) }
    ensures fault { (fault : TextFault) → result ≡ Err (NoText.Text fault) →
        replay_answer lanes order (listing_of script.now) (schedule_of schedule.now)
        ≡ has_fault fault }
    ensures read_fault { (which : Which) → result ≢ Err (NoText.ReadFault which) }
    ensures limit { (hit : LimitHit) → result ≢ Err (NoText.Limit hit) }
{
    let script = parse(alloc, script)?;
    let schedule = parse_schedule(alloc, schedule)?;
    let replayed = replay_script(alloc, &script, lanes, &schedule)?;
    let shown = with_order(alloc, replayed, order)?;
    Ok(printed(shown, script))
}
