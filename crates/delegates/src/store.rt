// What a delegate holds.
ghost use Rattle.std.specs.Prelude.{◌≡◌, ◌<◌, [], true, false, None, All, IsOk, OnOk, IfSome, IfNone};
ghost use Rattle.std.specs.Option.{option_copied, option_map};
ghost use Rattle.std.specs.Arc.{arc_value};
ghost use Rattle.delegates.specs.Stores.{stored, value_of, numbers_of, with_first, with_total, with_runs, empty_store, entry_of, ran, after_message, taken, changes_nothing};

use class_laws::{LocalClass, LocalReducible};
use set_queue::Message;
use ss_base::{ObjectId, OutOfMemory, Run};
use std::alloc::Global;
use std::collections::BTreeMap;
use std::mem;
use std::sync::Arc;

/// The objects of a lane, what their operations contributed, and the log of what ran.
///
/// An operation that finds no memory breaks the store, and a broken store drops every message.
#[derive(Drop)]
pub struct Store<C: LocalClass> {
    alloc: Global,
    values: BTreeMap<u32, C>,
    total: C::LocalRed,
    runs: Vec<Run>,
    is_broken: bool,
}

// The value that is read, if there is one.
fn value_read<C>(reading: &Option<Arc<C>>) -> Option<&C>
    ensures { option_copied result ≡ option_map arc_value reading.now }
{
    match reading {
        None => None,
        Some(shared) => Some(&**shared),
    }
}

impl<C: LocalClass> Store<C> {
    /// A store without objects, runs and contributions. It takes no memory.
    pub fn new(alloc: Global) -> Store<C>
        ensures { stored result ≡ empty_store C.local_meaning }
    {
        Store {
            alloc,
            values: BTreeMap::new(alloc),
            total: C::LocalRed::local_unit(alloc),
            runs: Vec::new(alloc),
            is_broken: false,
        }
    }

    /// Takes a message. One that changes nothing doesn't break the store.
    pub fn take(&mut self, m: Message<C>)
        ensures taken { (stored self.new).is_broken ≡ false →
            stored self.new ≡ taken C.local_meaning (stored self.old) m }
        ensures unchanged { changes_nothing (stored self.old) m ≡ true →
            stored self.new ≡ stored self.old }
    {
        if !self.is_broken && self.try_take(m).is_err() {
            self.is_broken = true;
        }
    }

    // Takes a message, where the store is whole.
    fn try_take(&mut self, m: Message<C>) -> Result<(), OutOfMemory>
        requires { self.old.is_broken ≡ false }
        ensures ok { OnOk result
            (stored self.new ≡ after_message C.local_meaning (stored self.old) m) }
        ensures unchanged { changes_nothing (stored self.old) m ≡ true → IsOk result }
    {
        match m {
            Message::Stop => Ok(()),
            Message::Carry {
                call,
                epoch,
                set,
                object,
                value,
                op,
                reading,
            } => {
                self.values.insert(object.0, value)?;
                let run = Run {
                    call,
                    epoch,
                    set,
                    object,
                };
                self.run(run, op, reading)
            }
            Message::Run {
                call,
                epoch,
                set,
                object,
                op,
                reading,
            } => {
                let run = Run {
                    call,
                    epoch,
                    set,
                    object,
                };
                self.run(run, op, reading)
            }
        }
    }

    // Runs an operation and logs it, where its object is there.
    fn run(&mut self, run: Run, op: C::LocalOp, reading: Option<Arc<C>>) -> Result<(), OutOfMemory>
        ensures ok { OnOk result (stored self.new ≡
            ran C.local_meaning (stored self.old) (entry_of run op reading)) }
        ensures absent { value_of (stored self.old) run.object.0 ≡ None → IsOk result }
    {
        let Some(value) = self.values.get_mut(&run.object.0) else {
            return Ok(());
        };
        value.local_apply(self.alloc, &op, value_read(&reading), &mut self.total)?;
        self.runs.push(run)?;
        Ok(())
    }

    /// Whether an operation found no memory.
    pub fn broken(&self) -> bool
        ensures { result ≡ (stored self.now).is_broken }
    {
        self.is_broken
    }

    /// Takes out the object with the least number. It takes no memory.
    pub fn pop_value(&mut self) -> Option<(ObjectId, C)>
        ensures some { IfSome result (λ object.
            stored self.old ≡ with_first (stored self.new) object.0.0 object.1) }
        ensures least { IfSome result (λ object.
            All (λ number. object.0.0 < number) (numbers_of (stored self.new))) }
        ensures none { IfNone result
            (((stored self.old).values ≡ []) × (stored self.new ≡ stored self.old)) }
    {
        let (number, value) = self.values.pop_first()?;
        Some((ObjectId(number), value))
    }

    /// Takes out what was contributed, and leaves the unit. It takes no memory.
    pub fn take_red(&mut self, alloc: Global) -> C::LocalRed
        ensures red { result ≡ (stored self.old).total }
        ensures left { stored self.new ≡ with_total (stored self.old) C.local_meaning.unit }
    {
        mem::replace(&mut self.total, C::LocalRed::local_unit(alloc))
    }

    /// Takes out the log of what ran, and leaves an empty one. It takes no memory.
    pub fn take_runs(&mut self, alloc: Global) -> Vec<Run>
        ensures runs { result.items ≡ (stored self.old).runs }
        ensures left { stored self.new ≡ with_runs (stored self.old) [] }
    {
        mem::replace(&mut self.runs, Vec::new(alloc))
    }
}
