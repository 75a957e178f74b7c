// A lane's pending operations are run.
ghost use Rattle.std.specs.Prelude.{◌≡◌, [], ◌∷◌, ◌++◌, None, false, OnOk, length};
ghost use Rattle.std.specs.Option.{option_copied, option_map, unwrap_or};
ghost use Rattle.std.specs.Arc.{arc_value};
ghost use Rattle.batch_rt.specs.Lanes.{load_from, after_entry, Works};

use crate::lane::{Entry, Lane};
use class_laws::{LocalClass, LocalReducible};
use ss_base::{OutOfMemory, Run};
use std::alloc::Global;
use std::sync::Arc;

/// A lane with nothing in it.
pub fn empty_lane<C: LocalClass>(alloc: Global) -> Lane<C>
    ensures numbers { result.numbers.items ≡ [] }
    ensures values { result.values.items ≡ [] }
    ensures pending { result.pending.items ≡ [] }
    ensures ran { result.ran.items ≡ [] }
    ensures part { result.part ≡ None }
    ensures whole { result.is_broken ≡ false }
{
    Lane {
        alloc,
        numbers: Vec::new(alloc),
        values: Vec::new(alloc),
        pending: Vec::new(alloc),
        ran: Vec::new(alloc),
        part: None,
        is_broken: false,
    }
}

fn value_read<C>(reading: &Option<Arc<C>>) -> Option<&C>
    ensures { option_copied result ≡ option_map arc_value reading.now }
{
    match reading {
        None => None,
        Some(shared) => Some(&**shared),
    }
}

// Takes out what was contributed so far; the unit where nothing was.
fn part_or_unit<R: LocalReducible>(alloc: Global, part: &mut Option<R>) -> R
    ensures { result ≡ unwrap_or part.old R.local_unit_value }
{
    match part.take() {
        None => R::local_unit(alloc),
        Some(part) => part,
    }
}

// Runs an operation on the value at its place.
fn run_entry<C: LocalClass>(
    alloc: Global,
    values: &mut Vec<C>,
    part: &mut Option<C::LocalRed>,
    entry: &Entry<C>,
) -> Result<(), OutOfMemory>
    ensures load { OnOk result (load_from values.new.items part.new
        ≡ after_entry C.local_meaning (load_from values.old.items part.old) entry.now) }
    ensures count { length values.new.items ≡ length values.old.items }
{
    let Some(value) = values.get_mut(entry.place) else {
        return Ok(());
    };
    let mut total = part_or_unit(alloc, part);
    value.local_apply(alloc, &entry.op, value_read(&entry.reading), &mut total)?;
    *part = Some(total);
    Ok(())
}

fn run_and_log<C: LocalClass>(
    alloc: Global,
    values: &mut Vec<C>,
    part: &mut Option<C::LocalRed>,
    ran: &mut Vec<Run>,
    entry: &Entry<C>,
) -> Result<(), OutOfMemory>
    ensures load { OnOk result (load_from values.new.items part.new
        ≡ after_entry C.local_meaning (load_from values.old.items part.old) entry.now) }
    ensures count { length values.new.items ≡ length values.old.items }
    ensures ran { OnOk result (ran.new.items ≡ ran.old.items ++ entry.now.run ∷ []) }
{
    run_entry(alloc, values, part, entry)?;
    ran.push(entry.run)?;
    Ok(())
}

/// Runs all that is pending in a lane, in order.
pub fn run_entries<C: LocalClass>(lane: Lane<C>) -> Lane<C>
    ensures { Works C.local_meaning lane result }
{
    let Lane {
        alloc,
        numbers,
        mut values,
        pending,
        mut ran,
        mut part,
        is_broken,
    } = lane;
    for entry in pending {
        let Ok(()) = run_and_log(alloc, &mut values, &mut part, &mut ran, &entry) else {
            return Lane {
                alloc,
                numbers,
                values,
                pending: Vec::new(alloc),
                ran,
                part,
                is_broken: true,
            };
        };
    }
    Lane {
        alloc,
        numbers,
        values,
        pending: Vec::new(alloc),
        ran,
        part,
        is_broken,
    }
}
