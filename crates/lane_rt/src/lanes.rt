// The runtime with delegates in threads.
ghost use Rattle.std.specs.Prelude.{◌≡◌, ◌≤◌, false, IfOk};
ghost use Rattle.ss_base.specs.declared.limits.TheConstants.{RING};
ghost use Rattle.delegation.specs.Runtimes.{IsNew};
ghost use Rattle.lane_rt.specs.Moves.{is_away};

use crate::hire::HireBy;
use class_laws::Class;
use delegates::{DelegateJob, Gate};
use delegation::{Delegation, Fault, Finished, Runtime};
use execution_definitions::By;
use jobs::{Errand, Launched, RunningJob, Starter};
use lane_store::{
    LaneStore, add, bring_all_home, delegate, end_all, into_values, is_away, new_store, operate,
    reclaim, value_of,
};
use partition_check::{MarkFault, Marks};
use serializer::lane_of;
use ss_base::{CallNo, LaneLog, ObjectId, OutOfMemory, Run};
use std::alloc::{AllocError, Global};
use std::marker::Model;
use std::sync::{Arc, Wait};
use std::thread::Threads;

/// The runtime whose delegates run in threads.
#[derive(Drop)]
pub struct Lanes<C: Class + 'static, G: Gate + 'static> {
    store: LaneStore<C, RunningJob<DelegateJob<C, G>>>,
    marks: Marks,
    delegates: u32,
    gate: Arc<G>,
    has_failed: bool,
}

impl<C: Class + 'static, G: Gate + 'static> Model for Lanes<C, G> {
    ghost use Rattle.lane_ends.specs.Workers.{home_given};
    ghost use Rattle.lane_store.specs.Running.{running_of};
    ghost use Rattle.lane_rt.specs.Seen.{LanesValue, seen_of};
    ghost use Rattle.lane_rt.specs.Kept.{IsKept};

    ghost Value = { LanesValue C C.Op C.Red };

    ghost view = { λ lanes. record {
      runtime = seen_of C.meaning lanes.store lanes.marks lanes.delegates lanes.has_failed;
      running = running_of C.meaning home_given lanes.store lanes.marks lanes.has_failed;
    } };

    ghost invariant = { λ lanes. IsKept C.meaning lanes.store lanes.marks lanes.delegates
        lanes.has_failed };
}

impl<C: Class + 'static, G: Gate + 'static> Lanes<C, G> {
    ghost use Rattle.lane_core.specs.Cores.{logical_state};
    ghost use Rattle.lane_core.specs.Kept.{IsKept};
    ghost use Rattle.lane_core.specs.Laws.{CutsAreLogical};

    /// A runtime before its first call, with `n` delegates, each behind a queue with room for
    /// `capacity` messages. They pass `gate` before each run.
    pub fn new(
        alloc: Global,
        n: u32,
        capacity: usize,
        gate: Arc<G>,
    ) -> Result<Lanes<C, G>, OutOfMemory>
        requires some { 1 ≤ n }
        requires at_most_64 { n ≤ 64 }
        requires least { 1 ≤ capacity }
        requires most { capacity ≤ RING }
        ensures { IfOk result (λ lanes. IsNew C.meaning lanes.runtime n) }
    {
        Ok(Lanes {
            store: new_store(alloc, n, capacity)?,
            marks: Marks::new(alloc),
            delegates: n,
            gate,
            has_failed: false,
        })
    }

    // What the laws on cuts ask of running lanes holds between calls, as long as memory was found, and
    // the state that every runtime shows is then the logical one. A look at any field has the invariant
    // at hand.
    pub(crate) fn hold_together(&self)
        ensures kept { self.now.running.has_failed ≡ false → IsKept self.now.running }
        ensures shown { self.now.running.has_failed ≡ false →
            CutsAreLogical C.meaning self.now.running →
            self.now.runtime.state ≡ logical_state C.meaning self.now.running }
    {
        let _has_failed = self.has_failed;
    }

    /// Whether the object's value isn't at home, and a delegate in a thread of its own takes from
    /// its lane, that of its last delegation in this epoch.
    pub fn away(&self, o: ObjectId) -> bool
        ensures { result ≡ is_away self.now o.0 }
    {
        match self.marks.delegated_to(o) {
            None => false,
            Some(set) => {
                let there = usize::from(lane_of(set, self.delegates).0);
                is_away(&self.store, o, there)
            }
        }
    }
}

impl<C: Class + 'static, G: Gate + 'static> Runtime<C> for Lanes<C, G> {
    type Task = DelegateJob<C, G>;

    ghost use Rattle.lane_rt.specs.Moves.{Moves};

    ghost seen = { λ lanes. lanes.runtime };

    ghost moves = { Moves C.meaning };

    fn has_failed(&self) -> bool {
        self.has_failed
    }

    fn do_make(&mut self, value: C, by: By) -> Result<ObjectId, Fault> {
        match add(&mut self.store, &mut self.marks, value, Some(by)) {
            Ok(object) => Ok(object),
            Err(MarkFault::Refused(refusal)) => Err(Fault::Refused(refusal)),
            Err(MarkFault::OutOfMemory) => {
                self.has_failed = true;
                Err(Fault::OutOfMemory)
            }
        }
    }

    fn do_make_fixed(&mut self, value: C) -> Result<ObjectId, Fault> {
        match add(&mut self.store, &mut self.marks, value, None) {
            Ok(object) => Ok(object),
            Err(MarkFault::Refused(refusal)) => Err(Fault::Refused(refusal)),
            Err(MarkFault::OutOfMemory) => {
                self.has_failed = true;
                Err(Fault::OutOfMemory)
            }
        }
    }

    fn do_begin(&mut self) -> Result<(), Fault> {
        Ok(self.marks.begin()?)
    }

    fn do_delegate<
        R: Threads + Wait + Copy,
        S: Starter<Errand<DelegateJob<C, G>>, Launched<DelegateJob<C, G>>>,
    >(
        &mut self,
        rt: &R,
        starter: &S,
        o: ObjectId,
        op: C::Op,
        reading: Option<ObjectId>,
    ) -> Result<CallNo, Fault> {
        // Of a runtime that failed nothing is said, so the call is marked before it is sent.
        let call = CallNo(self.marks.calls());
        let epoch = self.marks.epoch();
        let set = self.marks.delegate(o, C::own_set(&op), reading)?;
        let run = Run {
            call,
            epoch,
            set,
            object: o,
        };
        let lane = usize::from(lane_of(set, self.delegates).0);
        let hirer = HireBy {
            alloc: self.store.alloc,
            starter,
            gate: &self.gate,
        };
        let Ok(()) = delegate(rt, &mut self.store, &hirer, lane, run, op, reading) else {
            self.has_failed = true;
            return Err(Fault::OutOfMemory);
        };
        Ok(call)
    }

    fn do_call<R: Threads + Wait + Copy>(
        &mut self,
        rt: &R,
        o: ObjectId,
        op: C::Op,
    ) -> Result<(), Fault> {
        self.marks.check_write(o)?;
        let Ok(()) = reclaim(rt, &mut self.store, &self.marks, self.delegates, o) else {
            self.has_failed = true;
            return Err(Fault::OutOfMemory);
        };
        let Ok(()) = operate(&mut self.store, o, &op) else {
            self.has_failed = true;
            return Err(Fault::OutOfMemory);
        };
        self.marks.note_call(Some(o));
        Ok(())
    }

    fn do_get<R: Threads + Wait + Copy>(&mut self, rt: &R, o: ObjectId) -> Result<&C, Fault> {
        self.marks.check_get(o)?;
        let Ok(()) = reclaim(rt, &mut self.store, &self.marks, self.delegates, o) else {
            self.has_failed = true;
            return Err(Fault::OutOfMemory);
        };
        self.marks.note_call(Some(o));
        Ok(value_of(&self.store, o))
    }

    fn do_end<
        R: Threads + Wait + Copy,
        S: Starter<Vec<DelegateJob<C, G>>, Result<Vec<DelegateJob<C, G>>, AllocError>>,
    >(&mut self, rt: &R, _starter: &S) -> Result<(), Fault> {
        self.marks.end()?;
        let Ok(()) = bring_all_home(rt, &mut self.store) else {
            self.has_failed = true;
            return Err(Fault::OutOfMemory);
        };
        Ok(())
    }

    fn do_total(&mut self) -> Result<&C::Red, Fault> {
        self.marks.check_total()?;
        self.marks.note_call(None);
        Ok(&self.store.total)
    }

    fn do_runs(&self) -> &[LaneLog] {
        &self.store.logs
    }

    fn do_finish<
        R: Threads + Wait + Copy,
        S: Starter<Vec<DelegateJob<C, G>>, Result<Vec<DelegateJob<C, G>>, AllocError>>,
    >(self, rt: &R, _starter: &S) -> Result<Finished<C>, OutOfMemory> {
        let Lanes { mut store, .. } = self;
        let Ok(()) = bring_all_home(rt, &mut store) else {
            end_all(rt, store);
            return Err(OutOfMemory);
        };
        let LaneStore {
            alloc,
            objects,
            total,
            logs,
            ..
        } = store;
        let values = into_values(alloc, objects)?;
        Ok(Finished {
            values,
            total,
            logs,
        })
    }

    fn do_give_up<R: Threads + Wait + Copy>(self, rt: &R) {
        end_all(rt, self.store);
    }
}

impl<C: Class + 'static, G: Gate + 'static> Delegation<C> for Lanes<C, G> {}
