// What no clause can say: that calls succeed where memory is ample, and that the refusals come in
// the order of their rows, by a table written by hand. TooManyCalls, which stands last in every
// row, can't be reached by a test. And the text of the fault.

ghost use Rattle.std.specs.Prelude.{◌^◌, ◌<◌};
ghost use Rattle.execution_definitions.specs.Meanings.{number_given};
ghost use Rattle.partition_check.specs.MarkedAfter.{HasMark};

use crate::{MarkFault, Marks, Refusal};
use execution_definitions::By;
use ss_base::{ObjectId, SetId, limits};
use std::test::Fail;

// A call of the program context: objects by number, an operation by the number that it names.
#[derive(Clone, Copy)]
enum Call {
    Make(Option<By>),
    Begin,
    End,
    Delegate(u32, u64, Option<u32>),
    Write(u32),
    Get(u32),
    Total,
}

// Takes the call and gives its refusal; none where it was accepted.
fn refusal(marks: &mut Marks, call: Call) -> Option<Refusal> {
    match call {
        Call::Make(by) => match marks.new_object(by) {
            Err(MarkFault::Refused(refusal)) => Some(refusal),
            _ => None,
        },
        Call::Begin => marks.begin().err(),
        Call::End => marks.end().err(),
        Call::Delegate(o, own, reading) => delegate(marks, ObjectId(o), own, reading),
        Call::Write(o) => match marks.check_write(ObjectId(o)) {
            Ok(()) => note(marks, Some(ObjectId(o))),
            Err(refusal) => Some(refusal),
        },
        Call::Get(o) => match marks.check_get(ObjectId(o)) {
            Ok(()) => note(marks, Some(ObjectId(o))),
            Err(refusal) => Some(refusal),
        },
        Call::Total => match marks.check_total() {
            Ok(()) => note(marks, None),
            Err(refusal) => Some(refusal),
        },
    }
}

fn note(marks: &mut Marks, o: Option<ObjectId>) -> Option<Refusal>
    requires room { marks.old.calls < 2 ^ 60 }
    requires known { HasMark (number_given o) marks.old.objects }
{
    marks.note_call(o);
    None
}

fn delegate(marks: &mut Marks, o: ObjectId, own: u64, reading: Option<u32>) -> Option<Refusal> {
    let reading = match reading {
        None => None,
        Some(read) => Some(ObjectId(read)),
    };
    marks.delegate(o, own, reading).err()
}

// A delegation in two calls.
fn check_and_note(marks: &mut Marks, o: ObjectId) -> Result<SetId, Refusal> {
    let set = marks.check_delegate(o, 77, None)?;
    marks.note_delegate(o, 77, None);
    Ok(set)
}

fn private(object: u32, set: u64) -> Option<Refusal> {
    Some(Refusal::Private {
        object: ObjectId(object),
        set: SetId(set),
    })
}

fn two_sets(object: u32, first: u64, second: u64) -> Option<Refusal> {
    Some(Refusal::TwoSets {
        object: ObjectId(object),
        first: SetId(first),
        second: SetId(second),
    })
}

#[test]
fn the_first_refusal_of_a_row_is_answered(rt: HostRuntime) {
    use Call::*;
    use Refusal::*;
    let script = [
        // object 0 is read-only, 1 and 2 are by object, 3 by operation
        (Make(None), None),
        (Make(Some(By::Object)), None),
        (Make(Some(By::Object)), None),
        (Make(Some(By::Own)), None),
        (End, Some(NotIsolating)),
        (Total, None),
        // each of these holds together with the next in its row
        (Delegate(9, 0, Some(8)), Some(UnknownObject(ObjectId(9)))),
        (Delegate(1, 0, Some(8)), Some(UnknownObject(ObjectId(8)))),
        (Delegate(0, 0, Some(0)), Some(NotIsolating)),
        (Begin, None),
        (Begin, Some(Isolating)),
        (Total, Some(Isolating)),
        (Delegate(0, 0, Some(0)), Some(ReadOnly(ObjectId(0)))),
        (Delegate(1, 0, None), None),
        (Delegate(0, 0, Some(1)), Some(ReadOnly(ObjectId(0)))),
        (Delegate(3, 5, Some(2)), None),
        (Delegate(3, 6, Some(3)), two_sets(3, 5, 6)),
        (Delegate(3, 6, Some(1)), two_sets(3, 5, 6)),
        (Delegate(2, 0, Some(2)), Some(Shared(ObjectId(2)))),
        (Delegate(2, 0, Some(1)), Some(Shared(ObjectId(2)))),
        (Delegate(1, 0, Some(1)), Some(SelfRead(ObjectId(1)))),
        (Delegate(3, 5, Some(1)), private(1, 1)),
        (Write(9), Some(UnknownObject(ObjectId(9)))),
        (Write(0), Some(ReadOnly(ObjectId(0)))),
        (Write(2), Some(Shared(ObjectId(2)))),
        (Get(9), Some(UnknownObject(ObjectId(9)))),
        // what is allowed: a write of a private object, a get of a shared one, a read of a
        // read-only one, and a second object in a set
        (Write(1), None),
        (Get(2), None),
        (Delegate(3, 5, Some(0)), None),
        (Make(Some(By::Own)), None),
        (Delegate(4, 5, Some(2)), None),
        // a new epoch holds no object to a set, and none to being read
        (End, None),
        (Begin, None),
        (Delegate(3, 6, Some(1)), None),
        (Delegate(2, 0, None), None),
    ];
    let mut marks = Marks::new(rt.alloc());
    for (place, (call, wanted)) in script.iter().enumerate() {
        assert_eq!(rt; refusal(&mut marks, *call), *wanted, "at {place}");
    }
}

#[test]
fn a_write_or_a_get_frees_its_object_alone(rt: HostRuntime) {
    use Call::*;
    use Refusal::*;
    let script = [
        // objects 0 and 1 are by operation, 2 is by object
        (Make(Some(By::Own)), None),
        (Make(Some(By::Own)), None),
        (Make(Some(By::Object)), None),
        (Begin, None),
        // freed by a get, by a write and twice: another set after each
        (Delegate(0, 1, None), None),
        (Get(0), None),
        (Delegate(0, 2, None), None),
        (Delegate(0, 1, None), two_sets(0, 2, 1)),
        (Write(0), None),
        (Delegate(0, 3, None), None),
        (Write(0), None),
        (Get(0), None),
        (Delegate(0, 1, None), None),
        // not by a call of another object, nor by one that is refused
        (Get(1), None),
        (Write(2), None),
        (Write(9), Some(UnknownObject(ObjectId(9)))),
        (Total, Some(Isolating)),
        (Delegate(0, 2, None), two_sets(0, 1, 2)),
        (Delegate(1, 4, Some(0)), private(0, 1)),
        // read after it was freed, and read-shared from then on, whatever follows
        (Get(0), None),
        (Delegate(1, 4, Some(0)), None),
        (Get(0), None),
        (Delegate(0, 1, None), Some(Shared(ObjectId(0)))),
        (Write(0), Some(Shared(ObjectId(0)))),
        (Delegate(2, 0, Some(0)), None),
        // a new epoch holds it to nothing, and a total frees nothing in any
        (End, None),
        (Delegate(0, 5, None), Some(NotIsolating)),
        (Total, None),
        (Begin, None),
        (Delegate(0, 6, None), None),
        (Delegate(1, 5, Some(2)), None),
        (Delegate(0, 5, None), two_sets(0, 6, 5)),
        (Delegate(1, 5, Some(0)), private(0, 6)),
    ];
    let mut marks = Marks::new(rt.alloc());
    for (place, (call, wanted)) in script.iter().enumerate() {
        assert_eq!(rt; refusal(&mut marks, *call), *wanted, "at {place}");
    }
}

#[test]
fn marks_tell_the_calls_the_epoch_and_the_sets(rt: HostRuntime) {
    let mut marks = Marks::new(rt.alloc());
    for by in [
        Some(By::Sequence),
        None,
        Some(By::Sequence),
        Some(By::Sequence),
    ] {
        assert!(rt; marks.new_object(by).is_ok());
    }
    assert!(rt; !marks.isolating());
    assert_eq!(rt; marks.begin(), Ok(()));
    assert!(rt; marks.isolating());
    for (object, set) in [(0, 0), (2, 1), (3, 2)] {
        assert_eq!(rt;
            marks.check_delegate(ObjectId(object), 77, None),
            Ok(SetId(set)),
            "at {object}"
        );
    }
    assert_eq!(rt; check_and_note(&mut marks, ObjectId(2)), Ok(SetId(1)));
    assert_eq!(rt;
        marks.delegate(ObjectId(3), 77, Some(ObjectId(1))),
        Ok(SetId(2))
    );
    for (object, set) in [
        (0, None),
        (1, None),
        (2, Some(SetId(1))),
        (3, Some(SetId(2))),
        (9, None),
    ] {
        assert_eq!(rt; marks.delegated_to(ObjectId(object)), set, "at {object}");
    }
    assert_eq!(rt; (marks.epoch(), marks.calls()), (1, 7));
    // freed, the object has a last delegation all the same
    assert_eq!(rt; refusal(&mut marks, Call::Get(2)), None);
    assert_eq!(rt; marks.delegated_to(ObjectId(2)), Some(SetId(1)));
    assert_eq!(rt; marks.end(), Ok(()));
    assert_eq!(rt; marks.delegated_to(ObjectId(2)), None);
}

#[test]
fn there_are_as_many_objects_as_the_limit_at_most(rt: HostRuntime) {
    let mut marks = Marks::new(rt.alloc());
    for number in 0..limits::OBJECTS as u32 {
        assert_eq!(rt; marks.new_object(Some(By::Own)), Ok(ObjectId(number)));
    }
    for by in [None, Some(By::Object)] {
        let refused = Err(MarkFault::Refused(Refusal::TooManyObjects));
        assert_eq!(rt; marks.new_object(by), refused);
    }
}

#[test]
fn a_fault_says_why_no_object_was_made(rt: HostRuntime) -> Result<(), Fail> {
    for (fault, text) in [
        (
            MarkFault::Refused(Refusal::TooManyObjects),
            "too many objects",
        ),
        (MarkFault::OutOfMemory, "out of memory"),
    ] {
        let told = format!(in rt.alloc(); "{fault}")?;
        assert_eq!(rt; told.as_str(), text);
    }
    Ok(())
}
