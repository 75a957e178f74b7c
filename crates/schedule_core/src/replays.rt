// A whole schedule, and the rule behind it.
ghost use Rattle.std.specs.Prelude.{◌≡◌, ◌≤◌, IfOk, OnOk};
ghost use Rattle.execution_definitions.specs.Sequential.{sequential_state};
ghost use Rattle.execution_definitions.specs.Programs.{sound_front, HasAnswered};
ghost use Rattle.interleavings.specs.Machines.{after_schedule};
ghost use Rattle.delegation.specs.PlainParts.{state_of};
ghost use Rattle.schedule_core.specs.Kept.{program_of, machine_of, IsKept};
ghost use Rattle.schedule_core.specs.Outcomes.{GoesOnTo, IsOutcome};

use crate::events::{event_by_rule, new_parts, take_event};
use crate::parts::Parts;
use crate::step::Step;
use crate::store::Store;
use class_laws::Class;
use delegation::{Call, Reply};
use execution_definitions::Refusal;
use schedule_laws::every_replay_gives_the_same;
use ss_base::{CallNo, Event, OutOfMemory};
use std::alloc::Global;

/// What a replay comes to.
#[derive(Drop)]
pub struct Outcome<C: Class> {
    /// The replies of the calls that were accepted, in their order.
    pub replies: Vec<Reply<C>>,
    /// Why the next call was refused, if one was.
    pub stopped: Option<Refusal>,
    /// The objects' values, by their numbers.
    pub values: Vec<C>,
    /// What all operations contributed.
    pub total: C::Red,
    /// The numbers of the calls in the order in which they took effect: a delegation when its lane's
    /// delegate took it, every other call when the program context took it.
    pub order: Vec<CallNo>,
}

// Takes the events of a schedule. Those that aren't enabled are passed over. Once no event is enabled,
// none ever is again, and the rest isn't looked at.
fn take_schedule<C: Class>(parts: &mut Parts<C>, schedule: &[Event]) -> Result<(), OutOfMemory>
    requires { IsKept C.meaning parts.old }
    ensures kept { OnOk result (IsKept C.meaning parts.new) }
    ensures program { OnOk result (program_of parts.new ≡ program_of parts.old) }
    ensures state { OnOk result (machine_of parts.new ≡ after_schedule C.meaning
        (program_of parts.old) (machine_of parts.old) schedule.now) }
{
    for e in schedule {
        if let Step::Finished = take_event(parts, *e)? {
            return Ok(());
        }
    }
    Ok(())
}

// Goes on by the rule until no event is enabled.
fn go_on<C: Class>(parts: &mut Parts<C>) -> Result<(), OutOfMemory>
    requires { IsKept C.meaning parts.old }
    ensures { OnOk result (GoesOnTo C.meaning (program_of parts.old) (machine_of parts.old)
        (machine_of parts.new)) }
{
    while let Some(e) = event_by_rule(parts) {
        take_event(parts, e)?;
    }
    Ok(())
}

/// Runs calls on so many lanes under a schedule, and then by a fixed rule: the program context where
/// it may, else the least lane in which something waits. Events of the schedule that aren't enabled
/// are passed over. It has no threads, and always returns.
///
/// Whatever the schedule, the replies, the refusal, the values and the total are those of the program
/// without delegates, up to its first break. The order alone depends on the schedule.
pub fn replay<C: Class>(
    alloc: Global,
    calls: Vec<Call<C>>,
    lanes: u32,
    schedule: &[Event],
) -> Result<Outcome<C>, OutOfMemory>
    requires some { 1 ≤ lanes }
    requires few { lanes ≤ 64 }
    ensures replayed { IfOk result (λ outcome. IsOutcome C.meaning calls.items lanes schedule.now
        outcome.replies.items outcome.stopped (state_of outcome.values.items outcome.total)
        outcome.order.items) }
    ensures answered { IfOk result (λ outcome.
        HasAnswered C.meaning calls.items outcome.replies.items outcome.stopped) }
    ensures state { IfOk result (λ outcome. state_of outcome.values.items outcome.total
        ≡ sequential_state C.meaning (sound_front C.meaning calls.items)) }
{
    every_replay_gives_the_same::<C>();
    let mut parts = new_parts(alloc, calls, lanes)?;
    take_schedule(&mut parts, schedule)?;
    go_on(&mut parts)?;
    let Parts {
        store,
        replies,
        stop,
        order,
        ..
    } = parts;
    let Store { values, total, .. } = store;
    Ok(Outcome {
        replies,
        stopped: stop,
        values,
        total,
        order,
    })
}
