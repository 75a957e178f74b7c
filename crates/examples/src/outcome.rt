// A list of calls that breaks no partition, from its first call to what it leaves.
ghost use Rattle.std.specs.Prelude.{◌≡◌, [], IfOk};
ghost use Rattle.execution_definitions.specs.Meanings.{shapes_of};
ghost use Rattle.execution_definitions.specs.Sequential.{sequential_state};
ghost use Rattle.execution_definitions.specs.Soundness.{IsSound};
ghost use Rattle.delegation.specs.Runtimes.{IsAfter};

use class_laws::Class;
use delegation::{Call, Delegation, Finished, run_calls};
use ss_base::OutOfMemory;
use std::alloc::Global;
use std::sync::Wait;
use std::thread::Threads;

/// Makes the calls, none of which is refused, and ends the run. The runtime is a new one.
pub(crate) fn outcome_of<
    C: Class,
    D: Delegation<C>,
    R: Threads + Wait + Copy + Send + Sync + 'static,
>(rt: &R, alloc: Global, mut d: D, calls: Vec<Call<C>>) -> Result<Finished<C>, OutOfMemory>
    requires new { IsAfter C.meaning (D.seen d) [] }
    requires sound { IsSound (shapes_of C.meaning calls.items) }
    ensures values { IfOk result (λ end.
        end.values.items ≡ (sequential_state C.meaning calls.items).values) }
    ensures total { IfOk result (λ end.
        end.total ≡ (sequential_state C.meaning calls.items).total) }
{
    // Whatever came of the calls, threads that were started are joined.
    let ran = run_calls(rt, alloc, &mut d, calls);
    let end = d.finish(rt)?;
    ran?;
    Ok(end)
}
