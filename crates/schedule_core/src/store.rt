// Values, total and lanes, and what runs on them. A method of an impl may call these functions: their
// bounds have no `Send`.
ghost use Rattle.std.specs.Prelude.{◌≡◌, IfOk, OnOk, length};
ghost use Rattle.std.specs.Option.{option_copied, option_map};
ghost use Rattle.execution_definitions.specs.Sequential.{operated, value_read};
ghost use Rattle.interleavings.specs.Machines.{entry_done, front_at, lane_event};
ghost use Rattle.delegation.specs.PlainParts.{state_of};
ghost use Rattle.schedule_core.specs.Stores.{entry_of, core_of};

use crate::queues::{Queue, pop_from};
use class_laws::LocalClass;
use partition_check::Marks;
use ss_base::{CallNo, Lane, ObjectId, OutOfMemory, Run};
use std::alloc::Global;

/// A delegated operation that waits, with the value that it reads, as it stood at the call.
#[derive(Drop)]
pub struct Waiting<C: LocalClass> {
    pub run: Run,
    pub op: C::LocalOp,
    pub read: Option<C>,
}

/// Values and total, what waits in each lane, and what the partition rule knows of the calls so far.
#[derive(Drop)]
pub struct Store<C: LocalClass> {
    pub alloc: Global,
    pub marks: Marks,
    pub values: Vec<C>,
    pub total: C::LocalRed,
    pub lanes: Vec<Queue<Waiting<C>>>,
}

/// Runs an operation on the value of `o`, where there is one, and joins its contribution.
pub fn operate<C: LocalClass>(
    alloc: Global,
    values: &mut Vec<C>,
    total: &mut C::LocalRed,
    o: ObjectId,
    op: &C::LocalOp,
    read: Option<&C>,
) -> Result<(), OutOfMemory>
    ensures state { OnOk result (state_of values.new.items total.new ≡ operated C.local_meaning
        (state_of values.old.items total.old) o.0 op.now (option_copied read.entry)) }
    ensures count { length values.new.items ≡ length values.old.items }
{
    let Some(value) = values.get_mut(o.0 as usize) else {
        return Ok(());
    };
    value.local_apply(alloc, op, read, total)
}

/// A copy of the value that an operation reads, where it reads one.
pub fn value_to_read<C: LocalClass>(
    alloc: Global,
    values: &Vec<C>,
    reading: Option<ObjectId>,
) -> Result<Option<C>, OutOfMemory>
    ensures { IfOk result (λ read. read ≡ value_read values.now.items reading) }
{
    let Some(object) = reading else {
        return Ok(None);
    };
    let Some(value) = values.get(object.0 as usize) else {
        return Ok(None);
    };
    Ok(Some(value.local_copy(alloc)?))
}

// Runs an operation that waited, on the value that its object has now.
fn run_waiting<C: LocalClass>(
    alloc: Global,
    values: &mut Vec<C>,
    total: &mut C::LocalRed,
    waiting: &Waiting<C>,
) -> Result<(), OutOfMemory>
    ensures state { OnOk result (state_of values.new.items total.new ≡ entry_done C.local_meaning
        (state_of values.old.items total.old) (entry_of waiting.now)) }
    ensures count { length values.new.items ≡ length values.old.items }
{
    let read = waiting.read.as_ref();
    operate(alloc, values, total, waiting.run.object, &waiting.op, read)
}

/// Runs what is at the front of a lane, and gives the number of its call; none where nothing waits.
pub fn run_front<C: LocalClass>(
    store: &mut Store<C>,
    lane: Lane,
) -> Result<Option<CallNo>, OutOfMemory>
    ensures core { OnOk result
        (core_of store.new ≡ lane_event C.local_meaning (core_of store.old) lane.0) }
    ensures call { IfOk result (λ call. call
        ≡ option_map (λ entry. entry.run.call) (front_at (core_of store.old).lanes lane.0)) }
    ensures marks { store.new.marks ≡ store.old.marks }
    ensures values { length store.new.values.items ≡ length store.old.values.items }
    ensures lanes { length store.new.lanes.items ≡ length store.old.lanes.items }
{
    let Some(waiting) = pop_from(&mut store.lanes, lane) else {
        return Ok(None);
    };
    run_waiting(store.alloc, &mut store.values, &mut store.total, &waiting)?;
    Ok(Some(waiting.run.call))
}
