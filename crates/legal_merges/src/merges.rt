// Legal merges: the order that picks give, and what calls leave in an order.
ghost use Rattle.std.specs.Prelude.{◌≡◌, ◌≤◌, [], List, ℕ, IfOk, IfErr, OnOk};
ghost use Rattle.execution_definitions.specs.Meanings.{shapes_of};
ghost use Rattle.execution_definitions.specs.Sequential.{sequential_state};
ghost use Rattle.interleavings.specs.Merges.{replay_list};
ghost use Rattle.delegation.specs.PlainParts.{state_of};
ghost use Rattle.legal_merges.specs.Picks.{lane_picked, picked};
ghost use Rattle.legal_merges.specs.Merging.{places, IsMerge, IsCauseOf};
ghost use Rattle.legal_merges.specs.kept.Turns.{turn_of, IsTable, IsOnWay};

use crate::fault::MergeFault;
use crate::replay::{Replayed, replay};
use crate::step::{Step, step_of};
use crate::turns::{Turns, first_turns};
use class_laws::Class;
use delegation::{Call, Fault};
use merge_laws::legal_merges_leave_the_same;
use partition_check::Marks;
use ss_base::{CallNo, Event};
use std::alloc::Global;

/// The order of the calls that picks give: `Program` picks the next call that isn't a `Delegate`,
/// and a lane its next `Delegate`. A pick that finds no call counts as a place with which no legal
/// merge begins.
///
/// Ok is a legal merge. OutOfMemory may come in place of any answer.
pub fn merge_of<C: Class>(
    alloc: Global,
    calls: &[Call<C>],
    lanes: u32,
    picks: &[Event],
) -> Result<Vec<CallNo>, MergeFault>
    requires some_lane { 1 ≤ lanes }
    requires at_most_64 { lanes ≤ 64 }
    ensures order { IfOk result (λ order.
        places order.items ≡ picked lanes (shapes_of C.meaning calls.now) picks.now) }
    ensures legal { IfOk result (λ order.
        IsMerge lanes (shapes_of C.meaning calls.now) (places order.items)) }
    ensures fault { let shapes = shapes_of C.meaning calls.now in
        IfErr result (λ fault. IsCauseOf lanes shapes (picked lanes shapes picks.now) fault) }
{
    let mut turns = turns_of(alloc, calls, lanes)?;
    let mut order = Vec::with_capacity(alloc, calls.len())?;
    for pick in picks {
        let place = turns.next_of(turn_picked(*pick));
        if !turns.take(place) {
            return Err(MergeFault::NotMerge {
                place: order.len() as u64,
            });
        }
        let Ok(()) = order.push(CallNo(place as u64)) else {
            return Err(MergeFault::OutOfMemory);
        };
    }
    if !turns.are_done() {
        return Err(MergeFault::NotMerge {
            place: picks.len() as u64,
        });
    }
    Ok(order)
}

// The turn of which a pick takes the next place.
fn turn_picked(pick: Event) -> usize
    ensures { turn_of (lane_picked pick) ≡ result }
{
    match pick {
        Event::Program => 0,
        Event::Delegate(lane) => lane.0 as usize + 1,
    }
}

/// Applies the calls one at a time in this order to plain values, an operation to the values that
/// stand then. A legal merge leaves what the program leaves without delegates.
///
/// OutOfMemory may come in place of any answer.
pub fn replay_merge<C: Class>(
    alloc: Global,
    calls: Vec<Call<C>>,
    lanes: u32,
    order: &[CallNo],
) -> Result<Replayed<C>, MergeFault>
    requires some_lane { 1 ≤ lanes }
    requires at_most_64 { lanes ≤ 64 }
    ensures legal { OnOk result (
        IsMerge lanes (shapes_of C.meaning calls.items) (places order.now)) }
    ensures merged { IfOk result (λ left. state_of left.values.items left.total
        ≡ replay_list C.meaning calls.items (places order.now)) }
    ensures same { IfOk result (λ left. state_of left.values.items left.total
        ≡ sequential_state C.meaning calls.items) }
    ensures fault { IfErr result (λ fault.
        IsCauseOf lanes (shapes_of C.meaning calls.items) (places order.now) fault) }
{
    legal_merges_leave_the_same::<C>();
    judge_order(alloc, &calls, lanes, order)?;
    Ok(replay(alloc, calls, order)?)
}

// That no call is refused, and that the order is a legal merge.
fn judge_order<C: Class>(
    alloc: Global,
    calls: &[Call<C>],
    lanes: u32,
    order: &[CallNo],
) -> Result<(), MergeFault>
    requires some_lane { 1 ≤ lanes }
    requires at_most_64 { lanes ≤ 64 }
    ensures legal { OnOk result (
        IsMerge lanes (shapes_of C.meaning calls.now) (places order.now)) }
    ensures fault { IfErr result (λ fault.
        IsCauseOf lanes (shapes_of C.meaning calls.now) (places order.now) fault) }
{
    let mut turns = turns_of(alloc, calls, lanes)?;
    for (place, call) in order.iter().enumerate() {
        if !turns.take(call.0 as usize) {
            return Err(MergeFault::NotMerge {
                place: place as u64,
            });
        }
    }
    if !turns.are_done() {
        return Err(MergeFault::NotMerge {
            place: order.len() as u64,
        });
    }
    Ok(())
}

// The turns of calls of which none is refused.
fn turns_of<C: Class>(alloc: Global, calls: &[Call<C>], lanes: u32) -> Result<Turns, MergeFault>
    requires some_lane { 1 ≤ lanes }
    requires at_most_64 { lanes ≤ 64 }
    ensures way { IfOk result (λ turns. IsOnWay lanes (shapes_of C.meaning calls.now) [] turns) }
    ensures fault { IfErr result (λ fault. (order : List ℕ) →
        IsCauseOf lanes (shapes_of C.meaning calls.now) order fault) }
{
    let steps = steps_of(alloc, calls, lanes)?;
    Ok(first_turns(alloc, steps, lanes)?)
}

// What is kept of each call, or the first call that is refused.
fn steps_of<C: Class>(alloc: Global, calls: &[Call<C>], lanes: u32) -> Result<Vec<Step>, MergeFault>
    requires some_lane { 1 ≤ lanes }
    requires at_most_64 { lanes ≤ 64 }
    ensures table { IfOk result (λ steps.
        IsTable lanes (shapes_of C.meaning calls.now) steps.items) }
    ensures fault { IfErr result (λ fault. (order : List ℕ) →
        IsCauseOf lanes (shapes_of C.meaning calls.now) order fault) }
{
    let mut marks = Marks::new(alloc);
    let mut steps = Vec::with_capacity(alloc, calls.len())?;
    for call in calls {
        match step_of::<C>(&mut marks, call, lanes) {
            Ok(step) => {
                let Ok(()) = steps.push(step) else {
                    return Err(MergeFault::OutOfMemory);
                };
            }
            Err(Fault::Refused(refusal)) => {
                return Err(MergeFault::Broken {
                    call: CallNo(steps.len() as u64),
                    refusal,
                });
            }
            Err(Fault::OutOfMemory) => return Err(MergeFault::OutOfMemory),
        }
    }
    Ok(steps)
}
