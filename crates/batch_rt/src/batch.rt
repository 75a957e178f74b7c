// The runtime with delegates as pending lists.
ghost use Rattle.std.specs.Prelude.{◌≡◌, ◌≤◌, IfOk, false, length};
ghost use Rattle.delegation.specs.Runtimes.{IsNew};
ghost use Rattle.batch_rt.specs.Kept.{HoldsTogether};

use crate::calls::{add, into_values, new_store, reclaim, value_of};
use crate::lane::Lane;
use crate::steps::{bring_all_home, operate, send};
use crate::store::Store;
use class_laws::Class;
use delegation::{Delegation, Fault, Finished, Runtime};
use execution_definitions::By;
use jobs::{Errand, Launched, Starter};
use partition_check::{MarkFault, Marks};
use serializer::lane_of;
use ss_base::{CallNo, LaneLog, ObjectId, OutOfMemory, Run};
use std::alloc::{AllocError, Global};
use std::sync::Wait;
use std::thread::Threads;

/// The runtime whose delegates are lists of pending operations.
#[derive(Drop)]
pub struct Batch<C: Class + 'static> {
    store: Store<C>,
    marks: Marks,
    delegates: u32,
    has_failed: bool,
    ghost some_delegate: { 1 ≤ delegates },
    ghost at_most_64: { delegates ≤ 64 },
    ghost kept: { has_failed ≡ false →
        HoldsTogether store.objects.items store.lanes.items (length store.logs.items)
        delegates marks },
}

impl<C: Class + 'static> Batch<C> {
    ghost use Rattle.batch_rt.specs.Batches.{batch_view};

    /// A runtime before its first call, with `n` delegates.
    pub fn new(alloc: Global, n: u32) -> Result<Batch<C>, OutOfMemory>
        requires some { 1 ≤ n }
        requires at_most_64 { n ≤ 64 }
        ensures { IfOk result (λ batch. IsNew C.meaning (batch_view C.meaning batch) n) }
    {
        Ok(Batch {
            store: new_store(alloc, n)?,
            marks: Marks::new(alloc),
            delegates: n,
            has_failed: false,
        })
    }
}

impl<C: Class + 'static> Runtime<C> for Batch<C> {
    ghost use Rattle.batch_rt.specs.Batches.{batch_view};

    type Task = Lane<C>;

    ghost seen = { batch_view C.meaning };

    fn has_failed(&self) -> bool {
        self.has_failed
    }

    fn do_make(&mut self, value: C, by: By) -> Result<ObjectId, Fault> {
        match add(&mut self.store, &mut self.marks, value, Some(by)) {
            Ok(object) => Ok(object),
            Err(MarkFault::Refused(refusal)) => Err(Fault::Refused(refusal)),
            Err(MarkFault::OutOfMemory) => {
                self.has_failed = true;
                Err(Fault::OutOfMemory)
            }
        }
    }

    fn do_make_fixed(&mut self, value: C) -> Result<ObjectId, Fault> {
        match add(&mut self.store, &mut self.marks, value, None) {
            Ok(object) => Ok(object),
            Err(MarkFault::Refused(refusal)) => Err(Fault::Refused(refusal)),
            Err(MarkFault::OutOfMemory) => {
                self.has_failed = true;
                Err(Fault::OutOfMemory)
            }
        }
    }

    fn do_begin(&mut self) -> Result<(), Fault> {
        Ok(self.marks.begin()?)
    }

    fn do_delegate<R: Threads + Wait + Copy, S: Starter<Errand<Lane<C>>, Launched<Lane<C>>>>(
        &mut self,
        _rt: &R,
        _starter: &S,
        o: ObjectId,
        op: C::Op,
        reading: Option<ObjectId>,
    ) -> Result<CallNo, Fault> {
        // Of a runtime that failed nothing is said, so the call is marked before it is sent.
        let call = CallNo(self.marks.calls());
        let epoch = self.marks.epoch();
        let set = self.marks.delegate(o, C::own_set(&op), reading)?;
        let run = Run {
            call,
            epoch,
            set,
            object: o,
        };
        let lane = usize::from(lane_of(set, self.delegates).0);
        let Ok(()) = send(&mut self.store, lane, run, op, reading) else {
            self.has_failed = true;
            return Err(Fault::OutOfMemory);
        };
        Ok(call)
    }

    fn do_call<R: Threads + Wait + Copy>(
        &mut self,
        _rt: &R,
        o: ObjectId,
        op: C::Op,
    ) -> Result<(), Fault> {
        self.marks.check_write(o)?;
        let Ok(()) = reclaim(&mut self.store, &self.marks, self.delegates, o) else {
            self.has_failed = true;
            return Err(Fault::OutOfMemory);
        };
        let Ok(()) = operate(&mut self.store, o, &op) else {
            self.has_failed = true;
            return Err(Fault::OutOfMemory);
        };
        self.marks.note_call(Some(o));
        Ok(())
    }

    fn do_get<R: Threads + Wait + Copy>(&mut self, _rt: &R, o: ObjectId) -> Result<&C, Fault> {
        self.marks.check_get(o)?;
        let Ok(()) = reclaim(&mut self.store, &self.marks, self.delegates, o) else {
            self.has_failed = true;
            return Err(Fault::OutOfMemory);
        };
        self.marks.note_call(Some(o));
        Ok(value_of(&self.store, o))
    }

    fn do_end<R: Threads + Wait + Copy, S: Starter<Vec<Lane<C>>, Result<Vec<Lane<C>>, AllocError>>>(
        &mut self,
        _rt: &R,
        starter: &S,
    ) -> Result<(), Fault> {
        self.marks.end()?;
        let Ok(()) = bring_all_home(&mut self.store, starter) else {
            self.has_failed = true;
            return Err(Fault::OutOfMemory);
        };
        Ok(())
    }

    fn do_total(&mut self) -> Result<&C::Red, Fault> {
        self.marks.check_total()?;
        self.marks.note_call(None);
        Ok(&self.store.total)
    }

    fn do_runs(&self) -> &[LaneLog] {
        &self.store.logs
    }

    fn do_finish<
        R: Threads + Wait + Copy,
        S: Starter<Vec<Lane<C>>, Result<Vec<Lane<C>>, AllocError>>,
    >(self, _rt: &R, starter: &S) -> Result<Finished<C>, OutOfMemory> {
        let Batch { mut store, .. } = self;
        bring_all_home(&mut store, starter)?;
        let Store {
            alloc,
            objects,
            total,
            logs,
            ..
        } = store;
        let values = into_values(alloc, objects)?;
        Ok(Finished {
            values,
            total,
            logs,
        })
    }

    fn do_give_up<R: Threads + Wait + Copy>(self, _rt: &R) {}
}

impl<C: Class + 'static> Delegation<C> for Batch<C> {}
