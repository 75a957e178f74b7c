// The cell of one object: its mark, with the epoch that it tells of.

ghost use Rattle.std.specs.Prelude.{◌≡◌, ◌==◌, ◌&&◌, ℕ, ◌<◌, Bool, true, false};
ghost use Rattle.std.specs.Option.{option_map};
ghost use Rattle.execution_definitions.specs.Sets.{set_under};
ghost use Rattle.partition_check.specs.Cells.{mark_in, IsStamped};
ghost use Rattle.partition_check.specs.Marked.{held_in};
ghost use Rattle.partition_check.specs.Delegable.{IsFree};
ghost use Rattle.partition_check.specs.MarkedAfter.{serializer_making, fresh_mark, with_set, with_reader, freed_mark};

use crate::mark::Mark;
use crate::usage::Usage;
use execution_definitions::{By, Serializer};
use serializer::serializer_of;
use ss_base::{ObjectId, SetId};

/// What is kept of one object, in 24 bytes.
///
/// What was done to the object counts only in the epoch of the stamp, so that a new epoch clears
/// every cell without a pass over them. Epochs are numbered from 1.
#[derive(Clone, Copy)]
pub struct Cell {
    /// What the object's maker asked for. None of a read-only object.
    pub by: Option<By>,
    /// How the object was used in the epoch of the stamp; of a read-only object any.
    pub usage: Usage,
    /// The stamp: the last epoch in which an operation was delegated to the object or, if it is
    /// writable, read it.
    pub epoch: u64,
    /// The set of the last delegation. Of an object by sequence the only one it can have, from the
    /// start.
    pub set: SetId,
}

/// The cell of a new object, made after so many objects by sequence.
pub fn fresh_cell(by: Option<By>, sequence_objects: u64) -> Cell
    ensures mark { (epochs : ℕ) (is_open : Bool) → 0 < epochs →
        mark_in epochs is_open result ≡ fresh_mark (serializer_making by sequence_objects) }
    ensures closed { (epochs : ℕ) →
        mark_in epochs false result ≡ fresh_mark (serializer_making by sequence_objects) }
    ensures stamped { (epochs : ℕ) → IsStamped epochs result }
{
    Cell {
        by,
        usage: Usage::Unused,
        epoch: 0,
        set: SetId(sequence_objects),
    }
}

// The serializer of an object; none of a read-only one.
fn serializer_for(by: Option<By>, sequence_objects: u64) -> Option<Serializer>
    ensures { result ≡ serializer_making by sequence_objects }
{
    match by {
        None => None,
        Some(by) => Some(serializer_of(by, sequence_objects)),
    }
}

impl Cell {
    /// The mark that the cell stands for after `epochs` epochs, the last of which is open or not.
    pub fn mark(&self, epochs: u64, is_open: bool) -> Mark
        ensures { result ≡ mark_in epochs is_open self.now }
    {
        Mark {
            serializer: serializer_for(self.by, self.set.0),
            set: self.last_set(epochs, is_open),
            is_held: self.is_stamped(epochs, is_open) && self.usage.holds(),
            shared: self.is_shared(epochs, is_open),
        }
    }

    fn last_set(&self, epochs: u64, is_open: bool) -> Option<SetId>
        ensures { result ≡ (mark_in epochs is_open self.now).set }
    {
        if self.is_stamped(epochs, is_open) && self.usage.was_delegated_to() {
            Some(self.set)
        } else {
            None
        }
    }

    /// The set that an object with that mark is held to.
    pub fn held(&self, epochs: u64, is_open: bool) -> Option<SetId>
        ensures { option_map (λ set. set.0) result ≡ held_in (mark_in epochs is_open self.now) }
    {
        if self.is_stamped(epochs, is_open) && self.usage.holds() {
            Some(self.set)
        } else {
            None
        }
    }

    /// Whether that mark is shared.
    pub fn is_shared(&self, epochs: u64, is_open: bool) -> bool
        ensures { result ≡ (mark_in epochs is_open self.now).shared }
    {
        self.by.is_some() && self.is_stamped(epochs, is_open) && self.usage.was_read()
    }

    fn is_stamped(&self, epochs: u64, is_open: bool) -> bool
        ensures { result ≡ (is_open && (self.now.epoch == epochs)) }
    {
        is_open && self.epoch == epochs
    }

    /// The set of an operation on the object, which names `own`. A read-only object has none, and
    /// the number is any.
    pub fn set_for(&self, object: ObjectId, own: u64) -> SetId
        ensures { result.0 ≡
            set_under (serializer_making self.now.by self.now.set.0) object.0 own }
    {
        match self.by {
            Some(By::Own) => SetId(own),
            Some(By::Sequence) => self.set,
            Some(By::Object) | None => SetId(u64::from(object.0)),
        }
    }

    /// Holds the object to the set of an operation in the open epoch, in which it isn't shared.
    pub fn hold(&mut self, epochs: u64, set: SetId)
        requires unshared { (mark_in epochs true self.old).shared ≡ false }
        ensures mark { (object own : ℕ) →
            set.0 ≡ set_under (mark_in epochs true self.old).serializer object own →
            mark_in epochs true self.new ≡ with_set object own (mark_in epochs true self.old) }
        ensures stamped { IsStamped epochs self.new }
    {
        self.usage = Usage::Held;
        self.epoch = epochs;
        self.set = set;
    }

    /// Marks that an operation in the open epoch reads the object, if it is writable. It isn't held
    /// to a set then.
    pub fn share(&mut self, epochs: u64)
        requires free { IsFree (mark_in epochs true self.old) }
        ensures mark { mark_in epochs true self.new ≡ with_reader (mark_in epochs true self.old) }
        ensures stamped { IsStamped epochs self.old → IsStamped epochs self.new }
    {
        if self.by.is_none() {
            return;
        }
        // What was done in an earlier epoch is forgotten.
        let usage = if self.epoch == epochs {
            self.usage
        } else {
            Usage::Unused
        };
        self.usage = usage.read();
        self.epoch = epochs;
    }

    /// Frees the object of the set that it is held to, if it is. It needs no stamp: what an older
    /// one tells of doesn't count any more.
    pub fn free(&mut self)
        ensures mark { (epochs : ℕ) (is_open : Bool) →
            mark_in epochs is_open self.new ≡ freed_mark (mark_in epochs is_open self.old) }
        ensures stamped { (epochs : ℕ) → IsStamped epochs self.old → IsStamped epochs self.new }
    {
        self.usage = self.usage.freed();
    }
}
