// The user's side: the ten calls.
ghost use Rattle.std.specs.Prelude.{◌≡◌, Option, Some, true, false, ⊤, IfOk, OnOk, OnErr, slice_get};
ghost use Rattle.std.specs.Borrow.{sem, follows_so};
ghost use mathlib.Core.Option.{none};
ghost use Rattle.execution_definitions.specs.declared.call.Call.TheVariants as call;
ghost use Rattle.execution_definitions.specs.declared.call.Reply.TheVariants as reply;
ghost use Rattle.delegation.specs.Answers.{Answered, AnswersEachList, fault_in};

use crate::call::Fault;
use crate::runtime::{Finished, Runtime};
use class_laws::Class;
use execution_definitions::By;
use jobs::{Errand, Launched, StartBy, launch, run_all};
use ss_base::{CallNo, LaneLog, ObjectId, OutOfMemory};
use std::alloc::AllocError;
use std::sync::Wait;
use std::thread::Threads;

// That a runtime may be called: one that has failed answers each call so.
fn check_usable(has_failed: bool) -> Result<(), OutOfMemory>
    ensures ok { OnOk result (has_failed ≡ false) }
    ensures err { OnErr result (has_failed ≡ true) }
{
    if has_failed { Err(OutOfMemory) } else { Ok(()) }
}

/// The calls of a program on its objects, some of which are delegated.
///
/// A runtime is seen as the values and the total that the program would have without delegates,
/// with what the partition rule knows of its calls, and the runs sent to each lane and done there.
/// Each call has three clauses:
///
/// - `answered`: Ok comes only of a call that the marks allow, gives the program's own reply, and
///   changes what is seen as the program does. A refusal comes only of a call that the marks refuse
///   so, and changes nothing. After a want of memory every call but `runs` answers so.
/// - `follows`: for every list of calls that the runtime is after, a refusal is exactly that of the
///   partition rule, and after Ok the runtime is after the list with this call at its end.
/// - `moves`: what this runtime says of itself beyond that. Most say nothing.
///
/// A runtime has all of these from its hooks: its `impl Delegation` is empty.
pub trait Delegation<C: Class>: Runtime<C> {
    /// Makes an object with this value, whose operations are mapped to sets as `by` says, and gives
    /// its number. It is refused where there are too many objects or calls.
    final fn make(&mut self, value: C, by: By) -> Result<ObjectId, Fault>
        ensures answered { Answered C.meaning reply.Made (Self.seen self.old) (Self.seen self.new)
            (call.Make value by) result }
        ensures follows { AnswersEachList C.meaning (Self.seen self.old) (Self.seen self.new)
            (call.Make value by) result }
        ensures moves { Self.moves self.old self.new (call.Make value by) (fault_in result) }
    {
        check_usable(self.has_failed())?;
        self.do_make(value, by)
    }

    /// Makes an object that is only read, and gives its number. It is refused as `make` is.
    final fn make_fixed(&mut self, value: C) -> Result<ObjectId, Fault>
        ensures answered { Answered C.meaning reply.Made (Self.seen self.old) (Self.seen self.new)
            (call.MakeFixed value) result }
        ensures follows { AnswersEachList C.meaning (Self.seen self.old) (Self.seen self.new)
            (call.MakeFixed value) result }
        ensures moves { Self.moves self.old self.new (call.MakeFixed value) (fault_in result) }
    {
        check_usable(self.has_failed())?;
        self.do_make_fixed(value)
    }

    /// Begins an epoch of isolation, in which operations can be delegated.
    final fn begin(&mut self) -> Result<(), Fault>
        ensures answered { Answered C.meaning (λ _. reply.Done)
            (Self.seen self.old) (Self.seen self.new) call.Begin result }
        ensures follows { AnswersEachList C.meaning (Self.seen self.old) (Self.seen self.new)
            call.Begin result }
        ensures moves { Self.moves self.old self.new call.Begin (fault_in result) }
    {
        check_usable(self.has_failed())?;
        self.do_begin()
    }

    /// Delegates an operation on `o`, which may read one other object, and gives the call's number.
    /// The operation runs after those of its set that were delegated before it, on the value that
    /// they leave, and reads the value that the other object has at this call.
    final fn delegate<R: Threads + Wait + Copy + Send + Sync + 'static>(
        &mut self,
        rt: &R,
        o: ObjectId,
        op: C::Op,
        reading: Option<ObjectId>,
    ) -> Result<CallNo, Fault>
        ensures answered { Answered C.meaning reply.Sent (Self.seen self.old) (Self.seen self.new)
            (call.Delegate o op reading) result }
        ensures follows { AnswersEachList C.meaning (Self.seen self.old) (Self.seen self.new)
            (call.Delegate o op reading) result }
        ensures moves { Self.moves self.old self.new
            (call.Delegate o op reading) (fault_in result) }
    {
        check_usable(self.has_failed())?;
        let starter = StartBy {
            closure: |errand: Errand<Self::Task>| -> Launched<Self::Task> { launch(rt, errand) },
        };
        self.do_delegate(rt, &starter, o, op, reading)
    }

    /// Runs an operation on `o` in the program context, after those that were delegated to `o`.
    final fn call<R: Threads + Wait + Copy>(
        &mut self,
        rt: &R,
        o: ObjectId,
        op: C::Op,
    ) -> Result<(), Fault>
        ensures answered { Answered C.meaning (λ _. reply.Done)
            (Self.seen self.old) (Self.seen self.new) (call.Write o op) result }
        ensures follows { AnswersEachList C.meaning (Self.seen self.old) (Self.seen self.new)
            (call.Write o op) result }
        ensures moves { Self.moves self.old self.new (call.Write o op) (fault_in result) }
    {
        check_usable(self.has_failed())?;
        self.do_call(rt, o, op)
    }

    /// The value of `o`, after the operations that were delegated to it.
    final fn get<R: Threads + Wait + Copy>(&mut self, rt: &R, o: ObjectId) -> Result<&C, Fault>
        // What is seen once the value isn't lent any more.
        ensures* after { sem 𝓛 (follows_so Self.row Self.row self.entry.ghost_name none
            (λ _ _. ⊤) (λ new. Answered C.meaning (λ value. reply.Value value.now)
            (Self.seen self.old) (Self.seen new) (call.Get o) result
            × AnswersEachList C.meaning (Self.seen self.old) (Self.seen new) (call.Get o) result
            × Self.moves self.old new (call.Get o) (fault_in result))) }

        ensures value { IfOk result (λ value.
            slice_get (Self.seen self.old).state.values o.0 ≡ Some value.now) }
    {
        check_usable(self.has_failed())?;
        self.do_get(rt, o)
    }

    /// Ends the epoch of isolation: all that was delegated is done, and every object is at home.
    final fn end<R: Threads + Wait + Copy + Send + Sync + 'static>(
        &mut self,
        rt: &R,
    ) -> Result<(), Fault>
        ensures answered { Answered C.meaning (λ _. reply.Done)
            (Self.seen self.old) (Self.seen self.new) call.End result }
        ensures follows { AnswersEachList C.meaning (Self.seen self.old) (Self.seen self.new)
            call.End result }
        ensures moves { Self.moves self.old self.new call.End (fault_in result) }
    {
        check_usable(self.has_failed())?;
        let starter = StartBy {
            closure: |tasks: Vec<Self::Task>| -> Result<Vec<Self::Task>, AllocError> {
                run_all(rt, tasks)
            },
        };
        self.do_end(rt, &starter)
    }

    /// What all operations have contributed. It is refused in an epoch of isolation.
    final fn total(&mut self) -> Result<&C::Red, Fault>
        // What is seen once the total isn't lent any more.
        ensures* after { sem 𝓛 (follows_so Self.row Self.row self.entry.ghost_name none
            (λ _ _. ⊤) (λ new. Answered C.meaning (λ total. reply.Total total.now)
            (Self.seen self.old) (Self.seen new) call.Total result
            × AnswersEachList C.meaning (Self.seen self.old) (Self.seen new) call.Total result
            × Self.moves self.old new call.Total (fault_in result))) }

        ensures total { IfOk result (λ total. total.now ≡ (Self.seen self.old).state.total) }
    {
        check_usable(self.has_failed())?;
        self.do_total()
    }

    /// What each lane is known to have run, in order: the first of the runs sent to it, and in
    /// aggregation all of them. It takes no memory and never fails.
    final fn runs(&self) -> &[LaneLog]
        ensures { result.now ≡ (Self.seen self.now).logs }
    {
        self.do_runs()
    }

    /// Ends a run of the program, within an epoch too, and gives what it leaves. It is no call of
    /// the program. After a want of memory it answers so.
    final fn finish<R: Threads + Wait + Copy + Send + Sync + 'static>(
        self,
        rt: &R,
    ) -> Result<Finished<C>, OutOfMemory>
        ensures usable { OnOk result ((Self.seen self).has_failed ≡ false) }
        ensures values { IfOk result (λ end. end.values.items ≡ (Self.seen self).state.values) }
        ensures total { IfOk result (λ end. end.total ≡ (Self.seen self).state.total) }
        ensures logs { IfOk result (λ end. end.logs.items ≡ (Self.seen self).sent) }
    {
        if self.has_failed() {
            self.do_give_up(rt);
            return Err(OutOfMemory);
        }
        let starter = StartBy {
            closure: |tasks: Vec<Self::Task>| -> Result<Vec<Self::Task>, AllocError> {
                run_all(rt, tasks)
            },
        };
        self.do_finish(rt, &starter)
    }
}
