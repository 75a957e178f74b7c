// Making objects: the one call that takes memory.

ghost use Rattle.std.specs.Prelude.{◌≡◌, ◌<◌, OnOk, OnErr, IfOk, length};
ghost use Rattle.ss_base.specs.declared.limits.TheConstants as limits;
ghost use Rattle.execution_definitions.specs.Refusals.{first_of, too_many_objects, too_many_calls};
ghost use Rattle.partition_check.specs.Judged.{judged};
ghost use Rattle.partition_check.specs.MarkedAfter.{marked_after, sequence_objects_making};
ghost use Rattle.partition_check.specs.Represents.{RepresentsWith};
ghost use Rattle.partition_check.specs.Answers.{Answers, AnswersMake, AnswersMakeRule, making};

use super::{Marks, room_for_a_call};
use crate::cell::fresh_cell;
use crate::fault::MarkFault;
use execution_definitions::{By, Refusal};
use ss_base::{ObjectId, limits};

impl Marks {
    /// Makes an object with the serializer asked for, or a read-only one where none is. Ok gives
    /// its number.
    ///
    /// OutOfMemory is answered only where nothing is refused.
    pub fn new_object(&mut self, by: Option<By>) -> Result<ObjectId, MarkFault>
        ensures judged { AnswersMake result (judged self.old (making by)) }
        ensures breaks { AnswersMakeRule result self.old (making by) }

        ensures number { IfOk result (λ o. o.0 ≡ length self.old.objects) }
        ensures after { OnOk result (self.new ≡ marked_after self.old (making by)) }
        ensures represents { OnOk result (RepresentsWith self.old self.new (making by)) }
        ensures unchanged { OnErr result (self.new ≡ self.old) }
    {
        let number = self.cells.len();
        if let Err(refusal) = room_for_an_object(number, self.calls) {
            return Err(MarkFault::Refused(refusal));
        }
        let cell = fresh_cell(by, self.sequence_objects);
        let Ok(()) = self.cells.push(cell) else {
            return Err(MarkFault::OutOfMemory);
        };
        self.sequence_objects = sequence_objects_with(by, self.sequence_objects);
        self.calls += 1;
        Ok(ObjectId(number as u32))
    }
}

// Refuses an object where the limit of objects or that of calls is reached.
fn room_for_an_object(objects: usize, calls: u64) -> Result<(), Refusal>
    ensures { Answers result (first_of (too_many_objects objects) (too_many_calls calls)) }
{
    if objects >= limits::OBJECTS {
        return Err(Refusal::TooManyObjects);
    }
    room_for_a_call(calls)
}

// How many objects by sequence there are with a new object.
fn sequence_objects_with(by: Option<By>, count: u64) -> u64
    requires { count < limits.CALLS }
    ensures { result ≡ sequence_objects_making by count }
{
    match by {
        Some(By::Sequence) => count + 1,
        _ => count,
    }
}
