// The checks: what a call would be answered, with nothing changed.

ghost use Rattle.std.specs.Prelude.{◌≡◌, ◌<◌, List, length, OnOk, IfOk};
ghost use Rattle.execution_definitions.specs.Shapes.{Shape, delegate, write, get, total};
ghost use Rattle.execution_definitions.specs.Sets.{set_of as set_in};
ghost use Rattle.execution_definitions.specs.Refusals.{if_reading};
ghost use Rattle.partition_check.specs.Marked.{mark_at, set_marked, set_delegated};
ghost use Rattle.partition_check.specs.Judged.{judged, judged_write, judged_delegate, unknown_read, private_read};
ghost use Rattle.partition_check.specs.Represents.{Represents, IsDelegatedTo};
ghost use Rattle.execution_definitions.specs.Meanings.{number_given};
ghost use Rattle.partition_check.specs.Answers.{Answers, AnswersRule};

use super::{Marks, room_for_a_call};
use crate::mark::Mark;
use execution_definitions::Refusal;
use ss_base::{ObjectId, SetId};

impl Marks {
    /// Whether an operation may be delegated to `o`, reading the object `reading` or none. The
    /// operation names the number `own`. Ok gives the operation's set.
    #[inline(always)] // else its answer, which has room for a refusal, goes through memory
    pub fn check_delegate(
        &self,
        o: ObjectId,
        own: u64,
        reading: Option<ObjectId>,
    ) -> Result<SetId, Refusal>
        ensures judged { Answers result (judged self.now (delegate o.0 own (number_given reading))) }
        ensures breaks { AnswersRule result self.now (delegate o.0 own (number_given reading)) }

        // The set by the marks, and by every list that they represent.
        ensures set_marked { let mark = mark_at self.now o.0 in
            IfOk result (λ set. set.0 ≡ set_marked mark o.0 own) }
        ensures set { IfOk result (λ set. (calls : List Shape) → Represents self.now calls →
            set.0 ≡ set_in calls o.0 own) }
    {
        self.judge_delegate(o, own, reading)
    }

    /// Whether the program context may run an operation on `o`.
    pub fn check_write(&self, o: ObjectId) -> Result<(), Refusal>
        ensures judged { Answers result (judged self.now (write o.0)) }
        ensures breaks { AnswersRule result self.now (write o.0) }
        ensures known { OnOk result (o.0 < length self.now.objects) }
    {
        self.judge_write(o)
    }

    /// Whether the program context may look at `o`.
    pub fn check_get(&self, o: ObjectId) -> Result<(), Refusal>
        ensures judged { Answers result (judged self.now (get o.0)) }
        ensures breaks { AnswersRule result self.now (get o.0) }
        ensures known { OnOk result (o.0 < length self.now.objects) }
    {
        if self.mark(o).is_none() {
            return Err(Refusal::UnknownObject(o));
        }
        room_for_a_call(self.calls)
    }

    /// Whether the program context may look at the total.
    pub fn check_total(&self) -> Result<(), Refusal>
        ensures judged { Answers result (judged self.now total) }
        ensures breaks { AnswersRule result self.now total }
    {
        if self.is_open {
            return Err(Refusal::Isolating);
        }
        room_for_a_call(self.calls)
    }

    /// The set of the last delegation to `o` in this epoch, whether or not the object is held to it.
    /// None in aggregation, for an object that nothing was delegated to, and for a number that no
    /// object has.
    pub fn delegated_to(&self, o: ObjectId) -> Option<SetId>
        ensures marked { result ≡ set_delegated self.now o.0 }
        ensures calls { (calls : List Shape) → Represents self.now calls →
            IsDelegatedTo calls o.0 result }
    {
        self.mark(o)?.set
    }

    fn mark(&self, o: ObjectId) -> Option<Mark>
        ensures { result ≡ mark_at self.now o.0 }
    {
        let cell = self.cells.get(o.0 as usize)?;
        Some(cell.mark(self.epochs, self.is_open))
    }

    fn judge_write(&self, o: ObjectId) -> Result<(), Refusal>
        ensures { Answers result (judged_write self.now o.0 (mark_at self.now o.0)) }
    {
        let Some(mark) = self.mark(o) else {
            return Err(Refusal::UnknownObject(o));
        };
        if mark.serializer.is_none() {
            return Err(Refusal::ReadOnly(o));
        }
        if mark.shared {
            return Err(Refusal::Shared(o));
        }
        room_for_a_call(self.calls)
    }

    // The refusals are tried in the order of their row; the first that holds is answered.
    #[inline(always)] // else its answer, which has room for a refusal, goes through memory
    fn judge_delegate(
        &self,
        o: ObjectId,
        own: u64,
        reading: Option<ObjectId>,
    ) -> Result<SetId, Refusal>
        ensures judged { let mark = mark_at self.now o.0 in
            Answers result (judged_delegate self.now o.0 own (number_given reading) mark) }
        ensures set { IfOk result (λ set. set.0 ≡ set_marked (mark_at self.now o.0) o.0 own) }
    {
        let Some(cell) = self.cells.get(o.0 as usize) else {
            return Err(Refusal::UnknownObject(o));
        };
        self.judge_known(reading)?;
        if !self.is_open {
            return Err(Refusal::NotIsolating);
        }
        if cell.by.is_none() {
            return Err(Refusal::ReadOnly(o));
        }
        let set = cell.set_for(o, own);
        if let Some(first) = cell.held(self.epochs, self.is_open)
            && first != set
        {
            return Err(Refusal::TwoSets {
                object: o,
                first,
                second: set,
            });
        }
        if cell.is_shared(self.epochs, self.is_open) {
            return Err(Refusal::Shared(o));
        }
        if let Some(read) = reading
            && read == o
        {
            return Err(Refusal::SelfRead(read));
        }
        self.judge_private(reading)?;
        room_for_a_call(self.calls)?;
        Ok(set)
    }

    // Refuses the object to be read where its number is unknown.
    fn judge_known(&self, reading: Option<ObjectId>) -> Result<(), Refusal>
        ensures { Answers result (if_reading (number_given reading) (unknown_read self.now)) }
    {
        let Some(read) = reading else {
            return Ok(());
        };
        if self.cells.get(read.0 as usize).is_none() {
            return Err(Refusal::UnknownObject(read));
        }
        Ok(())
    }

    // Refuses the object to be read where it is writable and held to a set.
    fn judge_private(&self, reading: Option<ObjectId>) -> Result<(), Refusal>
        ensures { Answers result (if_reading (number_given reading) (private_read self.now)) }
    {
        let Some(read) = reading else {
            return Ok(());
        };
        let Some(cell) = self.cells.get(read.0 as usize) else {
            return Ok(());
        };
        if cell.by.is_none() {
            return Ok(());
        }
        match cell.held(self.epochs, self.is_open) {
            None => Ok(()),
            Some(set) => Err(Refusal::Private { object: read, set }),
        }
    }
}
