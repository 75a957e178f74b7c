// The marks of all objects, and the calls that change whole epochs.

mod checks;
mod notes;
mod objects;

ghost use Rattle.std.specs.Prelude.{◌≡◌, [], OnOk, OnErr};
ghost use Rattle.execution_definitions.specs.Shapes.{begin, end};
ghost use Rattle.execution_definitions.specs.Refusals.{too_many_calls};
ghost use Rattle.partition_check.specs.Judged.{judged};
ghost use Rattle.partition_check.specs.MarkedAfter.{marked_after};
ghost use Rattle.partition_check.specs.Represents.{Represents, RepresentsWith};
ghost use Rattle.partition_check.specs.Answers.{Answers, AnswersRule};

use crate::cell::Cell;
use execution_definitions::Refusal;
use ss_base::limits;
use std::alloc::Global;
use std::marker::Model;

/// What the partition rule has to know of the calls so far: one mark an object, and a few counts.
///
/// Each check says what the marks say, and also what the rule says of every list of calls that the
/// marks represent. Each accepted call leaves marks that represent the list with that call at its
/// end; a refused one changes nothing. All calls take constant time. None but `new_object` takes
/// memory.
#[derive(Drop)]
pub struct Marks {
    cells: Vec<Cell>,
    calls: u64,
    epochs: u64,
    is_open: bool,
    sequence_objects: u64,
}

impl Model for Marks {
    ghost use Rattle.std.specs.Prelude.{map};
    ghost use Rattle.partition_check.specs.Marked.{Marked};
    ghost use Rattle.partition_check.specs.Cells.{mark_in};
    ghost use Rattle.partition_check.specs.Kept.{PartsFit};

    ghost Value = { Marked };

    ghost view = { λ m. record {
      calls = m.calls;
      epochs = m.epochs;
      is_open = m.is_open;
      sequence_objects = m.sequence_objects;
      objects = map (mark_in m.epochs m.is_open) m.cells.items;
    } };

    ghost invariant = { λ m. PartsFit m.cells.items m.calls m.epochs m.is_open m.sequence_objects };
}

impl Marks {
    /// Marks before the first call. Takes no memory.
    pub fn new(alloc: Global) -> Marks
        ensures { Represents result [] }
    {
        Marks {
            cells: Vec::new(alloc),
            calls: 0,
            epochs: 0,
            is_open: false,
            sequence_objects: 0,
        }
    }

    /// Begins an epoch of isolation.
    pub fn begin(&mut self) -> Result<(), Refusal>
        ensures judged { Answers result (judged self.old begin) }
        ensures breaks { AnswersRule result self.old begin }
        ensures after { OnOk result (self.new ≡ marked_after self.old begin) }
        ensures represents { OnOk result (RepresentsWith self.old self.new begin) }
        ensures unchanged { OnErr result (self.new ≡ self.old) }
    {
        if self.is_open {
            return Err(Refusal::Isolating);
        }
        room_for_a_call(self.calls)?;
        self.calls += 1;
        self.epochs += 1;
        self.is_open = true;
        Ok(())
    }

    /// Ends the epoch of isolation.
    pub fn end(&mut self) -> Result<(), Refusal>
        ensures judged { Answers result (judged self.old end) }
        ensures breaks { AnswersRule result self.old end }
        ensures after { OnOk result (self.new ≡ marked_after self.old end) }
        ensures represents { OnOk result (RepresentsWith self.old self.new end) }
        ensures unchanged { OnErr result (self.new ≡ self.old) }
    {
        if !self.is_open {
            return Err(Refusal::NotIsolating);
        }
        room_for_a_call(self.calls)?;
        self.calls += 1;
        self.is_open = false;
        Ok(())
    }

    /// The number of the last epoch that was begun; 0 before the first.
    pub fn epoch(&self) -> u64
        ensures { result ≡ self.now.epochs }
    {
        self.epochs
    }

    /// An epoch of isolation is open.
    pub fn isolating(&self) -> bool
        ensures { result ≡ self.now.is_open }
    {
        self.is_open
    }

    /// How many calls were accepted.
    pub fn calls(&self) -> u64
        ensures { result ≡ self.now.calls }
    {
        self.calls
    }
}

// Refuses a call where the limit of calls is reached.
fn room_for_a_call(calls: u64) -> Result<(), Refusal>
    ensures { Answers result (too_many_calls calls) }
{
    if calls >= limits::CALLS {
        return Err(Refusal::TooManyCalls);
    }
    Ok(())
}
