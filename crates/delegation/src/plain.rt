// The undelegated runtime.
mod steps;

ghost use Rattle.std.specs.Prelude.{IfOk};
ghost use Rattle.delegation.specs.Runtimes.{IsNew};
ghost use Rattle.delegation.specs.PlainParts.{IsConsistent};

use crate::call::Fault;
use crate::delegation::Delegation;
use crate::runtime::{Finished, Runtime};
use class_laws::{Class, Reducible};
use execution_definitions::By;
use jobs::{Errand, Job, Launched, Starter};
use partition_check::{MarkFault, Marks};
use ss_base::{CallNo, LaneLog, ObjectId, OutOfMemory, Run};
use std::alloc::{AllocError, Global};
use std::sync::Wait;
use std::thread::Threads;
use steps::{add, log_run, operate, value_of};

/// The runtime without delegates: every operation runs at its call, and one log tells of all.
#[derive(Drop)]
pub struct Plain<C: Class> {
    alloc: Global,
    values: Vec<C>,
    total: C::Red,
    marks: Marks,
    // One log, that of lane 0.
    logs: Vec<LaneLog>,
    has_failed: bool,
    ghost kept: { IsConsistent values.items marks logs.items has_failed },
}

/// It starts no thread, and so it has nothing for one to do.
#[derive(Drop)]
pub struct Idle;

impl Job for Idle {
    ghost gives = { λ job done. Unit {0} };

    fn run<R: Wait>(self, _rt: &R) -> Idle {
        self
    }
}

impl<C: Class> Plain<C> {
    ghost use Rattle.delegation.specs.Plains.{plain_view};

    /// A runtime before its first call.
    pub fn new(alloc: Global) -> Result<Plain<C>, OutOfMemory>
        ensures { IfOk result (λ plain. IsNew C.meaning (plain_view plain) 0) }
    {
        let mut logs = Vec::with_capacity(alloc, 1)?;
        logs.push(LaneLog {
            runs: Vec::new(alloc),
        })?;
        Ok(Plain {
            alloc,
            values: Vec::new(alloc),
            total: C::Red::unit(alloc),
            marks: Marks::new(alloc),
            logs,
            has_failed: false,
        })
    }
}

impl<C: Class> Runtime<C> for Plain<C> {
    ghost use Rattle.delegation.specs.Plains.{plain_view, plain_moves};

    type Task = Idle;

    ghost seen = { plain_view };

    ghost moves = { plain_moves };

    fn has_failed(&self) -> bool {
        self.has_failed
    }

    fn do_make(&mut self, value: C, by: By) -> Result<ObjectId, Fault> {
        match add(&mut self.values, &mut self.marks, value, Some(by)) {
            Ok(object) => Ok(object),
            Err(MarkFault::Refused(refusal)) => Err(Fault::Refused(refusal)),
            Err(MarkFault::OutOfMemory) => {
                self.has_failed = true;
                Err(Fault::OutOfMemory)
            }
        }
    }

    fn do_make_fixed(&mut self, value: C) -> Result<ObjectId, Fault> {
        match add(&mut self.values, &mut self.marks, value, None) {
            Ok(object) => Ok(object),
            Err(MarkFault::Refused(refusal)) => Err(Fault::Refused(refusal)),
            Err(MarkFault::OutOfMemory) => {
                self.has_failed = true;
                Err(Fault::OutOfMemory)
            }
        }
    }

    fn do_begin(&mut self) -> Result<(), Fault> {
        Ok(self.marks.begin()?)
    }

    fn do_delegate<R: Threads + Wait + Copy, S: Starter<Errand<Idle>, Launched<Idle>>>(
        &mut self,
        _rt: &R,
        _starter: &S,
        o: ObjectId,
        op: C::Op,
        reading: Option<ObjectId>,
    ) -> Result<CallNo, Fault> {
        // Of a runtime that failed nothing is said, so the call is marked before it is run.
        let call = CallNo(self.marks.calls());
        let epoch = self.marks.epoch();
        let set = self.marks.delegate(o, C::own_set(&op), reading)?;
        let run = Run {
            call,
            epoch,
            set,
            object: o,
        };
        let Ok(()) = operate(
            self.alloc,
            &mut self.values,
            &mut self.total,
            o,
            &op,
            reading,
        ) else {
            self.has_failed = true;
            return Err(Fault::OutOfMemory);
        };
        let Ok(()) = log_run(&mut self.logs, run) else {
            self.has_failed = true;
            return Err(Fault::OutOfMemory);
        };
        Ok(call)
    }

    fn do_call<R: Threads + Wait + Copy>(
        &mut self,
        _rt: &R,
        o: ObjectId,
        op: C::Op,
    ) -> Result<(), Fault> {
        self.marks.check_write(o)?;
        let Ok(()) = operate(self.alloc, &mut self.values, &mut self.total, o, &op, None) else {
            self.has_failed = true;
            return Err(Fault::OutOfMemory);
        };
        self.marks.note_call(Some(o));
        Ok(())
    }

    fn do_get<R: Threads + Wait + Copy>(&mut self, _rt: &R, o: ObjectId) -> Result<&C, Fault> {
        self.marks.check_get(o)?;
        self.marks.note_call(Some(o));
        Ok(value_of(&self.values, o))
    }

    fn do_end<R: Threads + Wait + Copy, S: Starter<Vec<Idle>, Result<Vec<Idle>, AllocError>>>(
        &mut self,
        _rt: &R,
        _starter: &S,
    ) -> Result<(), Fault> {
        Ok(self.marks.end()?)
    }

    fn do_total(&mut self) -> Result<&C::Red, Fault> {
        self.marks.check_total()?;
        self.marks.note_call(None);
        Ok(&self.total)
    }

    fn do_runs(&self) -> &[LaneLog] {
        &self.logs
    }

    fn do_finish<R: Threads + Wait + Copy, S: Starter<Vec<Idle>, Result<Vec<Idle>, AllocError>>>(
        self,
        _rt: &R,
        _starter: &S,
    ) -> Result<Finished<C>, OutOfMemory> {
        let Plain {
            values,
            total,
            logs,
            ..
        } = self;
        Ok(Finished {
            values,
            total,
            logs,
        })
    }

    fn do_give_up<R: Threads + Wait + Copy>(self, _rt: &R) {}
}

impl<C: Class> Delegation<C> for Plain<C> {}
