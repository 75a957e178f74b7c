// The events of a machine, as long as it finds memory.
ghost use Rattle.std.specs.Prelude.{◌≡◌, ◌≤◌, [], ◌∷◌, ◌++◌, true, false, if◌then◌else◌, IfOk, OnOk};
ghost use Rattle.ss_base.specs.declared.ids.Event.{Event};
ghost use Rattle.ss_base.specs.declared.ids.Event.TheVariants as event;
ghost use Rattle.interleavings.specs.Machines.{initial_machine, is_enabled, after_event, IsFinished, event_by_rule};
ghost use Rattle.schedule_core.specs.Kept.{program_of, machine_of, IsKept};
ghost use Rattle.schedule_core.specs.Steps.{IsAnswered};

use crate::calls::{answer, may_take, takes_effect};
use crate::parts::Parts;
use crate::queues::{all_idle, empty_lanes, least_busy};
use crate::step::Step;
use crate::store::{Store, run_front};
use class_laws::{LocalClass, LocalReducible};
use delegation::Fault;
use execution_definitions::{Call, Reply};
use partition_check::Marks;
use ss_base::{CallNo, Event, Lane, OutOfMemory};
use std::alloc::Global;
use std::collections::VecDeque;
use std::snapshot::Snapshot;

/// A machine before its first event.
pub fn new_parts<C: LocalClass>(
    alloc: Global,
    calls: Vec<Call<C, C::LocalOp>>,
    lane_count: u32,
) -> Result<Parts<C>, OutOfMemory>
    requires some { 1 ≤ lane_count }
    requires few { lane_count ≤ 64 }
    ensures kept { IfOk result (λ parts. IsKept C.local_meaning parts) }
    ensures program { IfOk result (λ parts. program_of parts ≡ calls.items) }
    ensures state { IfOk result (λ parts.
        machine_of parts ≡ initial_machine C.local_meaning lane_count) }
{
    let store = Store {
        alloc,
        marks: Marks::new(alloc),
        values: Vec::new(alloc),
        total: C::LocalRed::local_unit(alloc),
        lanes: empty_lanes(alloc, lane_count)?,
    };
    let program = Snapshot::of(&calls);
    Ok(Parts {
        store,
        program,
        left: VecDeque::from(calls),
        replies: Vec::new(alloc),
        stop: None,
        order: Vec::new(alloc),
    })
}

// The program context may take its next call.
fn may_take_next<C: LocalClass>(parts: &Parts<C>) -> bool
    requires { IsKept C.local_meaning parts.now }
    ensures { result ≡ is_enabled C.local_meaning (program_of parts.now) (machine_of parts.now)
        event.Program }
{
    if parts.stop.is_some() {
        return false;
    }
    match parts.left.front() {
        None => false,
        Some(call) => may_take(&parts.store, call),
    }
}

// No event is enabled. Where nothing waits, a call that is left may be taken.
fn is_finished<C: LocalClass>(parts: &Parts<C>) -> bool
    requires { IsKept C.local_meaning parts.now }
    ensures finished { result ≡ true →
        IsFinished C.local_meaning (program_of parts.now) (machine_of parts.now) }
    ensures going { result ≡ false →
        IsFinished C.local_meaning (program_of parts.now) (machine_of parts.now) → ⊥ }
{
    (parts.stop.is_some() || parts.left.is_empty()) && all_idle(&parts.store.lanes)
}

// The answer to an event that isn't enabled.
fn not_taken<C: LocalClass>(parts: &Parts<C>) -> Step
    requires { IsKept C.local_meaning parts.now }
    ensures { (e : Event) →
        is_enabled C.local_meaning (program_of parts.now) (machine_of parts.now) e ≡ false →
        IsAnswered C.local_meaning (program_of parts.now) (machine_of parts.now) e result }
{
    if is_finished(parts) {
        Step::Finished
    } else {
        Step::NotEnabled
    }
}

// The event of a lane: what is at its front takes effect.
fn take_front<C: LocalClass>(parts: &mut Parts<C>, lane: Lane) -> Result<Step, OutOfMemory>
    requires { IsKept C.local_meaning parts.old }
    ensures kept { OnOk result (IsKept C.local_meaning parts.new) }
    ensures program { program_of parts.new ≡ program_of parts.old }
    ensures state { OnOk result (machine_of parts.new ≡ after_event C.local_meaning
        (program_of parts.old) (machine_of parts.old) (event.Delegate lane)) }
    ensures answered { IfOk result (λ step. IsAnswered C.local_meaning (program_of parts.old)
        (machine_of parts.old) (event.Delegate lane) step) }
{
    let Some(call) = run_front(&mut parts.store, lane)? else {
        return Ok(not_taken(parts));
    };
    parts.order.push(call)?;
    Ok(Step::Taken)
}

// Keeps the reply of an accepted call, and its number where it took effect.
fn keep_reply<T: Drop>(
    replies: &mut Vec<T>,
    order: &mut Vec<CallNo>,
    number: CallNo,
    has_effect: bool,
    reply: T,
) -> Result<(), OutOfMemory>
    ensures replies { OnOk result (replies.new.items ≡ replies.old.items ++ reply ∷ []) }
    ensures order { OnOk result (order.new.items
        ≡ order.old.items ++ (if has_effect then number ∷ [] else [])) }
{
    replies.push(reply)?;
    if has_effect {
        order.push(number)?;
    }
    Ok(())
}

// The event of the program context: its next call is taken, or refused.
fn take_call<C: LocalClass>(parts: &mut Parts<C>) -> Result<Step, OutOfMemory>
    requires { IsKept C.local_meaning parts.old }
    ensures kept { OnOk result (IsKept C.local_meaning parts.new) }
    ensures program { program_of parts.new ≡ program_of parts.old }
    ensures state { OnOk result (machine_of parts.new ≡ after_event C.local_meaning
        (program_of parts.old) (machine_of parts.old) event.Program) }
    ensures answered { IfOk result (λ step. IsAnswered C.local_meaning (program_of parts.old)
        (machine_of parts.old) event.Program step) }
{
    if !may_take_next(parts) {
        return Ok(not_taken(parts));
    }
    let Some(call) = parts.left.pop_front() else {
        return Ok(not_taken(parts));
    };
    let number = CallNo(parts.store.marks.calls());
    let has_effect = takes_effect::<C>(&call);
    match answer(&mut parts.store, call) {
        Ok(reply) => {
            keep_reply(
                &mut parts.replies,
                &mut parts.order,
                number,
                has_effect,
                reply,
            )?;
            Ok(Step::Taken)
        }
        Err(Fault::Refused(refusal)) => {
            parts.stop = Some(refusal);
            Ok(Step::Refused(refusal))
        }
        Err(Fault::OutOfMemory) => Err(OutOfMemory),
    }
}

/// Takes an event. One that isn't enabled changes nothing.
pub fn take_event<C: LocalClass>(parts: &mut Parts<C>, e: Event) -> Result<Step, OutOfMemory>
    requires { IsKept C.local_meaning parts.old }
    ensures kept { OnOk result (IsKept C.local_meaning parts.new) }
    ensures program { program_of parts.new ≡ program_of parts.old }
    ensures state { OnOk result (machine_of parts.new ≡ after_event C.local_meaning
        (program_of parts.old) (machine_of parts.old) e) }
    ensures answered { IfOk result (λ step. IsAnswered C.local_meaning (program_of parts.old)
        (machine_of parts.old) e step) }
{
    match e {
        Event::Program => take_call(parts),
        Event::Delegate(lane) => take_front(parts, lane),
    }
}

/// The event that comes next where no schedule says so: the program's where it is enabled, else that
/// of the least lane in which something waits.
pub fn event_by_rule<C: LocalClass>(parts: &Parts<C>) -> Option<Event>
    requires { IsKept C.local_meaning parts.now }
    ensures { result ≡ event_by_rule C.local_meaning (program_of parts.now) (machine_of parts.now) }
{
    if may_take_next(parts) {
        return Some(Event::Program);
    }
    match least_busy(&parts.store.lanes) {
        None => None,
        Some(lane) => Some(Event::Delegate(lane)),
    }
}
