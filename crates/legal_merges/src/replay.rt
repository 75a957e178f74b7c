// Calls, applied to plain values.
ghost use Rattle.std.specs.Prelude.{◌≡◌, ◌<◌, ℕ, OnOk, IfOk, Some, length};
ghost use Rattle.execution_definitions.specs.Meanings.{shapes_of};
ghost use Rattle.execution_definitions.specs.Sequential.{operated, state_after, value_read};
ghost use Rattle.interleavings.specs.Merges.{replay_list};
ghost use Rattle.delegation.specs.PlainParts.{state_of};
ghost use Rattle.legal_merges.specs.Merging.{IsMerge, places};
ghost use Rattle.legal_merges.specs.kept.Judging.{IsOther, ReadsAnother};

use class_laws::{Class, Reducible, no_reading};
use delegation::Call;
use ss_base::{CallNo, ObjectId, OutOfMemory};
use std::alloc::Global;
use std::mem;

/// What calls leave.
#[derive(Drop)]
pub struct Replayed<C: Class> {
    /// The objects' values, by their numbers.
    pub values: Vec<C>,
    /// The total.
    pub total: C::Red,
}

/// Applies the calls of a legal merge, one after the other. Each is moved out of its place.
pub fn replay<C: Class>(
    alloc: Global,
    mut calls: Vec<Call<C>>,
    order: &[CallNo],
) -> Result<Replayed<C>, OutOfMemory>
    requires { (n : ℕ) × IsMerge n (shapes_of C.meaning calls.items) (places order.now) }
    ensures { IfOk result (λ left. state_of left.values.items left.total
        ≡ replay_list C.meaning calls.items (places order.now)) }
{
    let mut values = Vec::new(alloc);
    let mut total = C::Red::unit(alloc);
    for call in order {
        let taken = mem::replace(&mut calls[call.0 as usize], Call::End);
        apply(alloc, &mut values, &mut total, taken)?;
    }
    Ok(Replayed { values, total })
}

fn apply<C: Class>(
    alloc: Global,
    values: &mut Vec<C>,
    total: &mut C::Red,
    call: Call<C>,
) -> Result<(), OutOfMemory>
    requires { ReadsAnother call }
    ensures { OnOk result (state_of values.new.items total.new
        ≡ state_after C.meaning (state_of values.old.items total.old) call) }
{
    match call {
        Call::Make { value, .. } | Call::MakeFixed { value } => Ok(values.push(value)?),
        Call::Delegate {
            object,
            op,
            reading,
        } => operate(alloc, values, total, object, &op, reading),
        Call::Write { object, op } => operate(alloc, values, total, object, &op, None),
        Call::Begin | Call::Get { .. } | Call::End | Call::Total => Ok(()),
    }
}

// Runs an operation on the value of an object, which may read the value of another. Where there is no
// such object nothing happens.
fn operate<C: Class>(
    alloc: Global,
    values: &mut [C],
    total: &mut C::Red,
    object: ObjectId,
    op: &C::Op,
    reading: Option<ObjectId>,
) -> Result<(), OutOfMemory>
    requires { IsOther object.0 reading }
    ensures { OnOk result (state_of values.new total.new ≡ operated C.meaning
        (state_of values.old total.old) object.0 op.now (value_read values.old reading)) }
{
    let at = object.0 as usize;
    if at >= values.len() {
        return Ok(());
    }
    match reading {
        Some(read) if (read.0 as usize) < values.len() => {
            operate_reading(alloc, values, total, object, op, read)
        }
        _ => values[at].apply(alloc, op, no_reading(), total),
    }
}

// The same of two objects that are there: the values can be split between them.
fn operate_reading<C: Class>(
    alloc: Global,
    values: &mut [C],
    total: &mut C::Red,
    object: ObjectId,
    op: &C::Op,
    read: ObjectId,
) -> Result<(), OutOfMemory>
    requires known { object.0 < length values.old }
    requires readable { read.0 < length values.old }
    requires other { read.0 ≡ object.0 → ⊥ }
    ensures { OnOk result (state_of values.new total.new ≡ operated C.meaning
        (state_of values.old total.old) object.0 op.now (value_read values.old (Some read))) }
{
    let at = object.0 as usize;
    let from = read.0 as usize;
    if from < at {
        let (front, back) = values.split_at_mut(at);
        back[0].apply(alloc, op, Some(&front[from]), total)
    } else {
        let (front, back) = values.split_at_mut(from);
        front[at].apply(alloc, op, Some(&back[0]), total)
    }
}
