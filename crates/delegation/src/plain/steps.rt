// Steps on what the undelegated runtime keeps. A method of an impl may call these: their bounds
// have no `Send`.
ghost use Rattle.std.specs.Prelude.{◌≡◌, ◌<◌, [], ◌∷◌, ◌++◌, Some, OnOk, IfOk, length, slice_get};
ghost use Rattle.execution_definitions.specs.Sequential.{operated, value_read};
ghost use Rattle.partition_check.specs.Answers.{AnswersMake, making};
ghost use Rattle.partition_check.specs.Judged.{judged};
ghost use Rattle.partition_check.specs.MarkedAfter.{marked_after};
ghost use Rattle.delegation.specs.Answers.{with_run};
ghost use Rattle.delegation.specs.PlainParts.{state_of, IsReadable, IsUnchanged};

use class_laws::{LocalClass, no_reading};
use execution_definitions::By;
use partition_check::{MarkFault, Marks};
use ss_base::{LaneLog, ObjectId, OutOfMemory, Run};
use std::alloc::Global;

/// Makes an object with this value; a read-only one where no serializer is asked for.
pub fn add<C: Drop>(
    values: &mut Vec<C>,
    marks: &mut Marks,
    value: C,
    by: Option<By>,
) -> Result<ObjectId, MarkFault>
    ensures judged { AnswersMake result (judged marks.old (making by)) }
    ensures number { IfOk result (λ object. object.0 ≡ length marks.old.objects) }
    ensures marks { OnOk result (marks.new ≡ marked_after marks.old (making by)) }
    ensures values { OnOk result (values.new.items ≡ values.old.items ++ value ∷ []) }
    ensures unchanged { IsUnchanged result marks.old marks.new values.old.items values.new.items }
{
    let object = marks.new_object(by)?;
    let Ok(()) = values.push(value) else {
        return Err(MarkFault::OutOfMemory);
    };
    Ok(object)
}

/// The value of an object that was made.
pub fn value_of<C>(values: &Vec<C>, o: ObjectId) -> &C
    requires { o.0 < length values.now.items }
    ensures { slice_get values.now.items o.0 ≡ Some result.now }
{
    &values[o.0 as usize]
}

/// Runs an operation on the value of `o`, which may read the value of another object, and joins its
/// contribution.
pub fn operate<C: LocalClass>(
    alloc: Global,
    values: &mut Vec<C>,
    total: &mut C::LocalRed,
    o: ObjectId,
    op: &C::LocalOp,
    reading: Option<ObjectId>,
) -> Result<(), OutOfMemory>
    requires known { o.0 < length values.old.items }
    requires readable { IsReadable (length values.old.items) o.0 reading }
    ensures state { OnOk result (state_of values.new.items total.new ≡ operated C.local_meaning
        (state_of values.old.items total.old) o.0 op.now (value_read values.old.items reading)) }
    ensures count { length values.new.items ≡ length values.old.items }
{
    operate_among(alloc, values, total, o, op, reading)
}

// The same on a slice, which can be split between the two objects.
fn operate_among<C: LocalClass>(
    alloc: Global,
    values: &mut [C],
    total: &mut C::LocalRed,
    o: ObjectId,
    op: &C::LocalOp,
    reading: Option<ObjectId>,
) -> Result<(), OutOfMemory>
    requires known { o.0 < length values.old }
    requires readable { IsReadable (length values.old) o.0 reading }
    ensures state { OnOk result (state_of values.new total.new ≡ operated C.local_meaning
        (state_of values.old total.old) o.0 op.now (value_read values.old reading)) }
    ensures length { length values.new ≡ length values.old }
{
    let at = o.0 as usize;
    let Some(read) = reading else {
        return values[at].local_apply(alloc, op, no_reading(), total);
    };
    let from = read.0 as usize;
    if from < at {
        let (front, back) = values.split_at_mut(at);
        back[0].local_apply(alloc, op, Some(&front[from]), total)
    } else {
        let (front, back) = values.split_at_mut(from);
        front[at].local_apply(alloc, op, Some(&back[0]), total)
    }
}

/// Logs a run in the one log.
pub fn log_run(logs: &mut Vec<LaneLog>, run: Run) -> Result<(), OutOfMemory>
    requires { 0 < length logs.old.items }
    ensures logged { OnOk result (logs.new.items ≡ with_run 0 run logs.old.items) }
    ensures length { length logs.new.items ≡ length logs.old.items }
{
    logs[0].runs.push(run)?;
    Ok(())
}
