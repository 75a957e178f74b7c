// Numbers of objects, sets, lanes and calls, and the log of what a lane ran.
ghost use Rattle.std.specs.Prelude.{◌≡◌, ◌++◌, OnOk};

use crate::OutOfMemory;
use std::marker::Model;

/// An object's number: objects are numbered from 0 in the order in which they were made.
#[derive(Clone, Copy, Debug, PartialEq, Eq)]
pub struct ObjectId(pub u32);

/// A serialization set. Operations of one set run in program order.
#[derive(Clone, Copy, Debug, PartialEq, Eq)]
pub struct SetId(pub u64);

/// A lane: the queue of one delegate, numbered from 0.
#[derive(Clone, Copy, Debug, PartialEq, Eq)]
pub struct Lane(pub u8);

/// A call's number: how many calls were accepted before it.
#[derive(Clone, Copy, Debug, PartialEq, Eq)]
pub struct CallNo(pub u64);

/// One delegated operation that was run.
#[derive(Clone, Copy, Debug, PartialEq, Eq)]
pub struct Run {
    /// The call that delegated it.
    pub call: CallNo,
    /// The epoch of isolation in which it was delegated. The first is 1.
    pub epoch: u64,
    /// The set to which it was delegated.
    pub set: SetId,
    /// The object that it ran on.
    pub object: ObjectId,
}

/// What one lane ran, in order. Contracts see the list of runs.
#[derive(Drop, Debug)]
pub struct LaneLog {
    pub runs: Vec<Run>,
}

impl Model for LaneLog {
    ghost use Rattle.std.specs.Prelude.{List};
    ghost use Rattle.ss_base.specs.declared.ids.Run.{Run};

    ghost Value = { List Run };

    ghost view = { λ log. log.runs.items };
}

impl LaneLog {
    /// Adds runs behind those that the log has. An empty log takes them as they are.
    pub fn append(&mut self, mut runs: Vec<Run>) -> Result<(), OutOfMemory>
        ensures { OnOk result (self.new ≡ self.old ++ runs.items) }
    {
        if self.runs.is_empty() {
            self.runs = runs;
            return Ok(());
        }
        self.runs.append(&mut runs)?;
        Ok(())
    }
}

/// A step of a schedule.
#[derive(Clone, Copy, Debug, PartialEq, Eq)]
pub enum Event {
    /// The program context takes its next call.
    Program,
    /// The delegate of this lane takes the message at its lane's front.
    Delegate(Lane),
}
