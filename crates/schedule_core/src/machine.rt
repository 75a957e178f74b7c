// The machine that a caller drives by events.
ghost use Rattle.std.specs.Prelude.{◌≡◌, ◌≤◌, false, true, IfOk, OnOk, OnErr};
ghost use Rattle.interleavings.specs.Machines.{initial_machine, after_event};
ghost use Rattle.schedule_core.specs.Steps.{IsAnswered};

use crate::events::{new_parts, take_event};
use crate::parts::Parts;
use crate::step::Step;
use class_laws::Class;
use delegation::Call;
use ss_base::{Event, OutOfMemory};
use std::alloc::Global;
use std::marker::Model;

/// The program context of some calls, and lanes for what they delegate, under the events that its
/// caller gives. Contracts see all calls, and the state of the machine that the definitions speak of.
#[derive(Drop)]
pub struct Machine<C: Class> {
    parts: Parts<C>,
    has_failed: bool,
}

impl<C: Class> Model for Machine<C> {
    ghost use Rattle.schedule_core.specs.Kept.{MachineView, view_of, IsKeptUnless};

    ghost Value = { MachineView C C.Op C.Red };

    ghost view = { λ machine. view_of machine.parts machine.has_failed };

    ghost invariant = { λ machine. IsKeptUnless C.meaning machine.parts machine.has_failed };
}

impl<C: Class> Machine<C> {
    /// A machine before its first event, with so many lanes.
    pub fn new(alloc: Global, calls: Vec<Call<C>>, lanes: u32) -> Result<Machine<C>, OutOfMemory>
        requires some { 1 ≤ lanes }
        requires few { lanes ≤ 64 }
        ensures calls { IfOk result (λ machine. machine.calls ≡ calls.items) }
        ensures state { IfOk result (λ machine. machine.state ≡ initial_machine C.meaning lanes) }
        ensures usable { IfOk result (λ machine. machine.has_failed ≡ false) }
    {
        Ok(Machine {
            parts: new_parts(alloc, calls, lanes)?,
            has_failed: false,
        })
    }

    /// Takes an event: that of the program context takes its next call, and that of a lane what is at
    /// the lane's front. One that isn't enabled changes nothing, and so does that of a lane that the
    /// machine doesn't have. After a want of memory every event is answered so.
    pub fn step(&mut self, e: Event) -> Result<Step, OutOfMemory>
        ensures calls { self.new.calls ≡ self.old.calls }
        ensures state { OnOk result
            (self.new.state ≡ after_event C.meaning self.old.calls self.old.state e) }
        ensures answered { IfOk result (λ step.
            IsAnswered C.meaning self.old.calls self.old.state e step) }
        ensures was_usable { OnOk result (self.old.has_failed ≡ false) }
        ensures usable { OnOk result (self.new.has_failed ≡ false) }
        ensures fails { OnErr result (self.new.has_failed ≡ true) }
    {
        if self.has_failed {
            return Err(OutOfMemory);
        }
        let Ok(step) = take_event(&mut self.parts, e) else {
            self.has_failed = true;
            return Err(OutOfMemory);
        };
        Ok(step)
    }
}
