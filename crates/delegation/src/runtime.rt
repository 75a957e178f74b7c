// The implementor's side: the hooks behind the calls of `Delegation`.
ghost use Rattle.std.specs.Prelude.{◌≡◌, Option, Some, true, false, ⊤, IfOk, slice_get};
ghost use Rattle.std.specs.Borrow.{sem, follows_so};
ghost use mathlib.Core.Option.{none};
ghost use Rattle.execution_definitions.specs.declared.call.Call.{Call};
ghost use Rattle.execution_definitions.specs.declared.call.Call.TheVariants as call;
ghost use Rattle.execution_definitions.specs.declared.call.Reply.TheVariants as reply;
ghost use Rattle.jobs.specs.Jobs.{EachGives};
ghost use Rattle.jobs.specs.Launches.{HasLaunched};
ghost use Rattle.delegation.specs.Runtimes.{RuntimeView};
ghost use Rattle.delegation.specs.Answers.{Answered, fault_in};
ghost use Rattle.delegation.specs.declared.call.Fault.{Fault};
ghost use Rattle.delegation.specs.declared.call.Fault.TheVariants as fault;

use crate::call::Fault;
use class_laws::Class;
use execution_definitions::By;
use jobs::{Errand, Job, Launched, Starter};
use ss_base::{CallNo, LaneLog, ObjectId, OutOfMemory};
use std::alloc::AllocError;
use std::sync::Wait;
use std::thread::Threads;

/// What a runtime leaves when it is done with.
#[derive(Drop)]
pub struct Finished<C: Class> {
    /// The objects' values, by their numbers.
    pub values: Vec<C>,
    /// What all operations contributed.
    pub total: C::Red,
    /// What each lane ran, in order.
    pub logs: Vec<LaneLog>,
}

/// What an implementor writes: a hook behind each call of `Delegation`, with the same meaning.
///
/// Each hook owes `Answered`, which speaks of the runtime before the call and after it, and what the
/// runtime says of itself beyond that (`moves`). What `Answered` says of whole lists of calls is
/// proved once, at the calls of `Delegation`. There it is also asked whether the runtime has failed,
/// so that hooks are called of one that hasn't.
///
/// Hooks that may need threads are handed a starter, since a method of an impl has no evidence that
/// a value may go to another thread. `do_delegate` can start one job, which may wait for whatever
/// later calls do, and keep the `RunningJob` until `do_call`, `do_get`, `do_end` or `do_finish`
/// joins it: where no thread can be started, the job comes back as it was. `do_end` and `do_finish`
/// can have many jobs done and wait for all of them.
pub trait Runtime<C: Class>: Sized {
    /// What its threads are given to do.
    type Task: Job;

    /// What contracts see of it.
    ghost seen: { Self → RuntimeView C C.Red };

    /// What this runtime says of itself before and after a call, beyond what every runtime says: of
    /// the call, and of why it wasn't done, where it wasn't. A runtime that has no more to say gives
    /// none, and then this says nothing.
    ghost moves: { Self → Self → Call C C.Op → Option Fault → Type 0 } = { λ _ _ _ _. Unit {0} };

    /// Whether an earlier call found no memory. Each call is then answered so, and the runtime has to
    /// count that among its moves.
    fn has_failed(&self) -> bool
        ensures failed { result ≡ (seen self.now).has_failed }
        ensures moves { result ≡ true → (made : Call C C.Op) →
            moves self.now self.now made (Some fault.OutOfMemory) };

    /// Behind `Delegation::make`.
    fn do_make(&mut self, value: C, by: By) -> Result<ObjectId, Fault>
        requires usable { (seen self.old).has_failed ≡ false }
        ensures answered { Answered C.meaning reply.Made (seen self.old) (seen self.new)
            (call.Make value by) result }
        ensures moves { moves self.old self.new (call.Make value by) (fault_in result) };

    /// Behind `Delegation::make_fixed`.
    fn do_make_fixed(&mut self, value: C) -> Result<ObjectId, Fault>
        requires usable { (seen self.old).has_failed ≡ false }
        ensures answered { Answered C.meaning reply.Made (seen self.old) (seen self.new)
            (call.MakeFixed value) result }
        ensures moves { moves self.old self.new (call.MakeFixed value) (fault_in result) };

    /// Behind `Delegation::begin`.
    fn do_begin(&mut self) -> Result<(), Fault>
        requires usable { (seen self.old).has_failed ≡ false }
        ensures answered { Answered C.meaning (λ _. reply.Done) (seen self.old) (seen self.new)
            call.Begin result }
        ensures moves { moves self.old self.new call.Begin (fault_in result) };

    /// Behind `Delegation::delegate`. `starter` starts one job, or hands it back.
    fn do_delegate<R: Threads + Wait + Copy, S: Starter<Errand<Self::Task>, Launched<Self::Task>>>(
        &mut self,
        rt: &R,
        starter: &S,
        o: ObjectId,
        op: C::Op,
        reading: Option<ObjectId>,
    ) -> Result<CallNo, Fault>
        requires usable { (seen self.old).has_failed ≡ false }
        requires can { (errand : _) → S.can starter.now errand }
        requires means { (errand : _) (launched : _) → S.gives starter.now errand launched →
            HasLaunched Self.Task.gives errand.job launched }
        ensures answered { Answered C.meaning reply.Sent (seen self.old) (seen self.new)
            (call.Delegate o op reading) result }
        ensures moves { moves self.old self.new (call.Delegate o op reading) (fault_in result) };

    /// Behind `Delegation::call`.
    fn do_call<R: Threads + Wait + Copy>(
        &mut self,
        rt: &R,
        o: ObjectId,
        op: C::Op,
    ) -> Result<(), Fault>
        requires usable { (seen self.old).has_failed ≡ false }
        ensures answered { Answered C.meaning (λ _. reply.Done) (seen self.old) (seen self.new)
            (call.Write o op) result }
        ensures moves { moves self.old self.new (call.Write o op) (fault_in result) };

    /// Behind `Delegation::get`.
    fn do_get<R: Threads + Wait + Copy>(&mut self, rt: &R, o: ObjectId) -> Result<&C, Fault>
        requires usable { (seen self.old).has_failed ≡ false }
        // What is seen once the value isn't lent any more.
        ensures* after { sem 𝓛 (follows_so Self.row Self.row self.entry.ghost_name none
            (λ _ _. ⊤) (λ new. Answered C.meaning (λ value. reply.Value value.now)
            (seen self.old) (seen new) (call.Get o) result
            × moves self.old new (call.Get o) (fault_in result))) }

        ensures value { IfOk result (λ value.
            slice_get (seen self.old).state.values o.0 ≡ Some value.now) };

    /// Behind `Delegation::end`. `starter` has many jobs done.
    fn do_end<
        R: Threads + Wait + Copy,
        S: Starter<Vec<Self::Task>, Result<Vec<Self::Task>, AllocError>>,
    >(&mut self, rt: &R, starter: &S) -> Result<(), Fault>
        requires usable { (seen self.old).has_failed ≡ false }
        requires can { (tasks : _) → S.can starter.now tasks }
        requires means { (tasks : _) (answer : _) → S.gives starter.now tasks answer →
            IfOk answer (λ done. EachGives Self.Task.gives tasks.items done.items) }
        ensures answered { Answered C.meaning (λ _. reply.Done) (seen self.old) (seen self.new)
            call.End result }
        ensures moves { moves self.old self.new call.End (fault_in result) };

    /// Behind `Delegation::total`.
    fn do_total(&mut self) -> Result<&C::Red, Fault>
        requires usable { (seen self.old).has_failed ≡ false }
        // What is seen once the total isn't lent any more.
        ensures* after { sem 𝓛 (follows_so Self.row Self.row self.entry.ghost_name none
            (λ _ _. ⊤) (λ new. Answered C.meaning (λ total. reply.Total total.now)
            (seen self.old) (seen new) call.Total result
            × moves self.old new call.Total (fault_in result))) }

        ensures total { IfOk result (λ total. total.now ≡ (seen self.old).state.total) };

    /// Behind `Delegation::runs`.
    fn do_runs(&self) -> &[LaneLog]
        ensures { result.now ≡ (seen self.now).logs };

    /// Behind `Delegation::finish`. `starter` has many jobs done.
    fn do_finish<
        R: Threads + Wait + Copy,
        S: Starter<Vec<Self::Task>, Result<Vec<Self::Task>, AllocError>>,
    >(self, rt: &R, starter: &S) -> Result<Finished<C>, OutOfMemory>
        requires usable { (seen self).has_failed ≡ false }
        requires can { (tasks : _) → S.can starter.now tasks }
        requires means { (tasks : _) (answer : _) → S.gives starter.now tasks answer →
            IfOk answer (λ done. EachGives Self.Task.gives tasks.items done.items) }
        ensures values { IfOk result (λ end. end.values.items ≡ (seen self).state.values) }
        ensures total { IfOk result (λ end. end.total ≡ (seen self).state.total) }
        ensures logs { IfOk result (λ end. end.logs.items ≡ (seen self).sent) };

    /// Behind `Delegation::finish` of a runtime that failed: ends what it started.
    fn do_give_up<R: Threads + Wait + Copy>(self, rt: &R);
}
