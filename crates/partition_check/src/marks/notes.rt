// The notes: what an accepted call leaves in the marks.

ghost use Rattle.std.specs.Prelude.{◌≡◌, ℕ, ◌^◌, ◌<◌, true, OnOk, OnErr, IfOk};
ghost use Rattle.std.specs.Prelude.{List, Some, None, [], ◌∷◌, ◌++◌, length};
ghost use Rattle.execution_definitions.specs.Shapes.{Shape, delegate};
ghost use Rattle.execution_definitions.specs.Sets.{set_of as set_in};
ghost use Rattle.execution_definitions.specs.Refusals.{breaks};
ghost use Rattle.partition_check.specs.Marked.{mark_at, set_marked};
ghost use Rattle.partition_check.specs.declared.mark.Mark.{Mark};
ghost use Rattle.partition_check.specs.Judged.{judged};
ghost use Rattle.partition_check.specs.MarkedAfter.{marked_after, marked_noted, HasMark};
ghost use Rattle.partition_check.specs.MarkedAfter.{changed_at, with_set, with_reader, freed_mark, with_reader_at, changed_where};
ghost use Rattle.partition_check.specs.Delegable.{IsFree, IsReadFree, IsUnshared, IsSetFor, IsDelegable};
ghost use Rattle.partition_check.specs.Represents.{Represents, RepresentsWith, IsNotedWith};
ghost use Rattle.execution_definitions.specs.Meanings.{number_given};
ghost use Rattle.partition_check.specs.Answers.{Answers, AnswersRule};

use super::Marks;
use execution_definitions::Refusal;
use ss_base::{ObjectId, SetId};

impl Marks {
    /// Checks a delegation and, where it isn't refused, marks and counts it: `check_delegate` and
    /// `note_delegate` in one call. Ok gives the operation's set.
    // Always, since LLVM inlines it into a first caller alone. Else each answer, which has room for a
    // refusal, goes through memory.
    #[inline(always)]
    pub fn delegate(
        &mut self,
        o: ObjectId,
        own: u64,
        reading: Option<ObjectId>,
    ) -> Result<SetId, Refusal>
        ensures judged { Answers result (judged self.old (delegate o.0 own (number_given reading))) }
        ensures breaks { AnswersRule result self.old (delegate o.0 own (number_given reading)) }

        // The set by the marks, and by every list that they represent.
        ensures set_marked { let mark = mark_at self.old o.0 in
            IfOk result (λ set. set.0 ≡ set_marked mark o.0 own) }
        ensures set { IfOk result (λ set. (calls : List Shape) → Represents self.old calls →
            set.0 ≡ set_in calls o.0 own) }

        ensures after { let call = delegate o.0 own (number_given reading) in
            OnOk result (self.new ≡ marked_after self.old call) }
        ensures represents { let call = delegate o.0 own (number_given reading) in
            OnOk result (RepresentsWith self.old self.new call) }
        ensures unchanged { OnErr result (self.new ≡ self.old) }
    {
        let set = self.check_delegate(o, own, reading)?;
        self.mark_delegation(o, set, reading);
        Ok(set)
    }

    /// Marks and counts an accepted delegation: one for which `check_delegate` answers Ok.
    pub fn note_delegate(&mut self, o: ObjectId, own: u64, reading: Option<ObjectId>)
        requires { judged self.old (delegate o.0 own (number_given reading)) ≡ None }
        ensures after { self.new ≡ marked_after self.old (delegate o.0 own (number_given reading)) }
        ensures represents { let call = delegate o.0 own (number_given reading) in
            RepresentsWith self.old self.new call }
    {
        let set = self.set_for(o, own);
        self.mark_delegation(o, set, reading);
    }

    /// Counts an accepted write or get of `o`, which frees it, or a total where there is none.
    /// Fewer than 2^60 calls are counted before.
    pub fn note_call(&mut self, o: Option<ObjectId>)
        requires room { self.old.calls < 2 ^ 60 }
        requires known { HasMark (number_given o) self.old.objects }
        ensures after { self.new ≡ marked_noted self.old (number_given o) }
        ensures represents { (calls : List Shape) (call : Shape) →
            IsNotedWith (number_given o) call → Represents self.old calls →
            breaks calls call ≡ None → Represents self.new (calls ++ call ∷ []) }
    {
        self.free(o);
        self.calls += 1;
    }

    // The set of an operation on `o` that names `own`.
    fn set_for(&self, o: ObjectId, own: u64) -> SetId
        requires { o.0 < length self.now.objects }
        ensures { result.0 ≡ set_marked (mark_at self.now o.0) o.0 own }
    {
        self.cells[o.0 as usize].set_for(o, own)
    }

    // Marks and counts a delegation to this set.
    fn mark_delegation(&mut self, o: ObjectId, set: SetId, reading: Option<ObjectId>)
        requires delegable { IsDelegable self.old o.0 (number_given reading) }
        requires set { IsSetFor self.old o.0 set.0 }
        ensures { (own : ℕ) → set.0 ≡ set_marked (mark_at self.old o.0) o.0 own →
            self.new ≡ marked_after self.old (delegate o.0 own (number_given reading)) }
    {
        self.hold(o, set);
        self.share(reading);
        self.calls += 1;
    }

    // Holds the object to this set, that of an operation on it.
    fn hold(&mut self, o: ObjectId, set: SetId)
        requires known { o.0 < length self.old.objects }
        requires isolating { self.old.is_open ≡ true }
        requires unshared { IsUnshared self.old o.0 }
        ensures { (own : ℕ) → set.0 ≡ set_marked (mark_at self.old o.0) o.0 own → self.new ≡
            record self.old { objects = changed_at o.0 (with_set o.0 own) self.old.objects } }
    {
        let epochs = self.epochs;
        self.cells[o.0 as usize].hold(epochs, set);
    }

    // Marks that an operation reads the object, where it reads one.
    fn share(&mut self, reading: Option<ObjectId>)
        requires known { HasMark (number_given reading) self.old.objects }
        requires isolating { self.old.is_open ≡ true }
        requires free { IsReadFree (number_given reading) self.old.objects }
        ensures { self.new ≡
            record self.old { objects = with_reader_at (number_given reading) self.old.objects } }
    {
        if let Some(o) = reading {
            self.share_one(o);
        }
    }

    fn share_one(&mut self, o: ObjectId)
        requires known { o.0 < length self.old.objects }
        requires isolating { self.old.is_open ≡ true }
        requires free { (mark : Mark) → mark_at self.old o.0 ≡ Some mark → IsFree mark }
        ensures { self.new ≡
            record self.old { objects = changed_at o.0 with_reader self.old.objects } }
    {
        let epochs = self.epochs;
        self.cells[o.0 as usize].share(epochs);
    }

    // Frees the object of the set that it is held to, where there is one.
    fn free(&mut self, o: Option<ObjectId>)
        requires { HasMark (number_given o) self.old.objects }
        ensures { self.new ≡
            record self.old { objects = changed_where (number_given o) freed_mark self.old.objects } }
    {
        if let Some(o) = o {
            self.free_one(o);
        }
    }

    fn free_one(&mut self, o: ObjectId)
        requires { o.0 < length self.old.objects }
        ensures { self.new ≡ record self.old { objects = changed_at o.0 freed_mark self.old.objects } }
    {
        self.cells[o.0 as usize].free();
    }
}
