// What is kept of one call to judge an order, and how it is found.
ghost use Rattle.std.specs.Prelude.{◌≡◌, ◌<◌, ◌≤◌, ◌+◌, ℕ, None, Some, List, IfOk, OnOk};
ghost use Rattle.execution_definitions.specs.Shapes.{Shape, delegate, write, get, total};
ghost use Rattle.execution_definitions.specs.Refusals.{breaks};
ghost use Rattle.execution_definitions.specs.Meanings.{number_given, shape_of};
ghost use Rattle.partition_check.specs.Represents.{Represents, RepresentsWith};
ghost use Rattle.partition_check.specs.Answers.{AnswersRule, making};
ghost use Rattle.legal_merges.specs.kept.Turns.{IsStepAfter};
ghost use Rattle.legal_merges.specs.kept.Judging.{AnswersFault, StepsAfter, WaitsFor};

use class_laws::Class;
use delegation::{Call, Fault};
use execution_definitions::{By, Refusal};
use partition_check::{MarkFault, Marks};
use serializer::lane_of;
use ss_base::{Lane, ObjectId};

/// For which turns a call waits: those of which all places before it stand before it.
#[derive(Clone, Copy)]
pub enum Waits {
    /// For this turn, beside that of the program context.
    For(u8),
    /// For all turns.
    ForAll,
}

/// What is kept of a call. Turn 0 is that of the program context, and turn `lane + 1` that of a lane.
#[derive(Clone, Copy)]
pub struct Step {
    /// The turn of the call itself.
    pub turn: u8,
    /// The turns that it waits for.
    pub waits: Waits,
}

// A call of the program context that waits for no lane.
const FREE: Step = Step {
    turn: 0,
    waits: Waits::For(0),
};

fn turn_of(lane: Lane) -> u8
    requires { lane.0 < 64 }
    ensures { result ≡ lane.0 + 1 }
{
    lane.0 + 1
}

/// Judges a call by the marks, and notes it there. Ok gives what is kept of it.
pub fn step_of<C: Class>(marks: &mut Marks, call: &Call<C>, lanes: u32) -> Result<Step, Fault>
    requires some_lane { 1 ≤ lanes }
    requires at_most_64 { lanes ≤ 64 }
    ensures rule { (calls : List Shape) → Represents marks.old calls →
        AnswersFault result (breaks calls (shape_of C.meaning.own call.now)) }
    ensures represents { OnOk result (RepresentsWith marks.old marks.new
        (shape_of C.meaning.own call.now)) }
    ensures step { IfOk result (λ step. StepsAfter lanes marks.old
        (shape_of C.meaning.own call.now) step) }
{
    match call {
        Call::Make { by, .. } => make_step(marks, Some(*by)),
        Call::MakeFixed { .. } => make_step(marks, None),
        Call::Begin => {
            marks.begin()?;
            Ok(FREE)
        }
        Call::Delegate {
            object,
            op,
            reading,
        } => Ok(delegate_step(marks, *object, C::own_set(op), *reading, lanes)?),
        Call::Write { object, .. } => Ok(write_step(marks, *object, lanes)?),
        Call::Get { object } => Ok(get_step(marks, *object, lanes)?),
        Call::End => {
            marks.end()?;
            Ok(Step {
                turn: 0,
                waits: Waits::ForAll,
            })
        }
        Call::Total => {
            marks.check_total()?;
            marks.note_call(None);
            Ok(FREE)
        }
    }
}

fn make_step(marks: &mut Marks, by: Option<By>) -> Result<Step, Fault>
    ensures rule { (calls : List Shape) → Represents marks.old calls →
        AnswersFault result (breaks calls (making by)) }
    ensures represents { OnOk result (RepresentsWith marks.old marks.new (making by)) }
    ensures step { (n : ℕ) → IfOk result (λ step. StepsAfter n marks.old (making by) step) }
{
    match marks.new_object(by) {
        Ok(_) => Ok(FREE),
        Err(MarkFault::Refused(refusal)) => Err(Fault::Refused(refusal)),
        Err(MarkFault::OutOfMemory) => Err(Fault::OutOfMemory),
    }
}

fn delegate_step(
    marks: &mut Marks,
    object: ObjectId,
    own: u64,
    reading: Option<ObjectId>,
    lanes: u32,
) -> Result<Step, Refusal>
    requires some_lane { 1 ≤ lanes }
    requires at_most_64 { lanes ≤ 64 }
    ensures rule { AnswersRule result marks.old (delegate object.0 own (number_given reading)) }
    ensures represents { OnOk result (RepresentsWith marks.old marks.new
        (delegate object.0 own (number_given reading))) }
    ensures step { IfOk result (λ step. StepsAfter lanes marks.old
        (delegate object.0 own (number_given reading)) step) }
{
    let set = marks.delegate(object, own, reading)?;
    let turn = turn_of(lane_of(set, lanes));
    Ok(Step {
        turn,
        waits: Waits::For(turn),
    })
}

// What a write or a get of an object waits for.
fn waits_of(marks: &Marks, object: ObjectId, lanes: u32) -> Waits
    requires some_lane { 1 ≤ lanes }
    requires at_most_64 { lanes ≤ 64 }
    ensures { WaitsFor lanes marks.now object.0 result }
{
    match marks.delegated_to(object) {
        None => Waits::For(0),
        Some(set) => Waits::For(turn_of(lane_of(set, lanes))),
    }
}

fn write_step(marks: &mut Marks, object: ObjectId, lanes: u32) -> Result<Step, Refusal>
    requires some_lane { 1 ≤ lanes }
    requires at_most_64 { lanes ≤ 64 }
    ensures rule { AnswersRule result marks.old (write object.0) }
    ensures represents { OnOk result (RepresentsWith marks.old marks.new (write object.0)) }
    ensures step { IfOk result (λ step. StepsAfter lanes marks.old (write object.0) step) }
{
    let waits = waits_of(marks, object, lanes);
    marks.check_write(object)?;
    marks.note_call(Some(object));
    Ok(Step { turn: 0, waits })
}

fn get_step(marks: &mut Marks, object: ObjectId, lanes: u32) -> Result<Step, Refusal>
    requires some_lane { 1 ≤ lanes }
    requires at_most_64 { lanes ≤ 64 }
    ensures rule { AnswersRule result marks.old (get object.0) }
    ensures represents { OnOk result (RepresentsWith marks.old marks.new (get object.0)) }
    ensures step { IfOk result (λ step. StepsAfter lanes marks.old (get object.0) step) }
{
    let waits = waits_of(marks, object, lanes);
    marks.check_get(object)?;
    marks.note_call(Some(object));
    Ok(Step { turn: 0, waits })
}
