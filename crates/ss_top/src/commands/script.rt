// `script`: what a script shows, and its trace.
ghost use Rattle.std.specs.Prelude.{◌≡◌, ◌≤◌, [], length, IfOk, IfSome};
ghost use Rattle.delegation.specs.Runtimes.{IsAfter};
ghost use Rattle.report.specs.Traces.{runs_in, trace_text};
ghost use Rattle.script_lang.specs.Acts.{script_meaning};
ghost use Rattle.script_lang.specs.Listings.{listing_of};
ghost use Rattle.script_lang.specs.ScriptAnswers.{shown_of};
ghost use Rattle.script_lang.specs.declared.fault.ScriptFault.{ScriptFault};
ghost use Rattle.ss_base.specs.declared.limits.TheConstants as limits;
ghost use Rattle.ss_top.specs.Answers.{has_fault, traced_answer};
ghost use Rattle.ss_top.specs.Executions.{followed, trace_of};
ghost use Rattle.ss_top.specs.Printings.{printed_answer};
ghost use Rattle.ss_top.specs.Texts.{names_listed};
ghost use Rattle.ss_top.specs.declared.status.TextFault.TheVariants as text_fault;

use crate::commands::Printed;
use crate::commands::runtime::{How, with_runtime};
use crate::commands::shown::{printed, with_text};
use batch_rt::Batch;
use command_line::Mode;
use delegates::Gate;
use delegation::{Delegation, Finished, Plain};
use lane_rt::Lanes;
use report::{logs_have_the_programs_trace, print_trace};
use script_lang::{ParseFault, Script, Shown, Word32, parse, run_script};
use ss_base::{LaneLog, OutOfMemory};
use std::alloc::Global;
use std::sync::Wait;
use std::thread::Threads;

// What is shown, with the trace of these logs behind it where that is asked for, unless it stopped.
fn with_trace(
    alloc: Global,
    shown: Shown,
    trace: bool,
    logs: &[LaneLog],
) -> Result<Shown, OutOfMemory>
    ensures { IfOk result (λ given. given ≡ followed trace shown (trace_text (runs_in logs.now))) }
{
    if !trace || shown.stopped.is_some() {
        return Ok(shown);
    }
    let text = print_trace(alloc, logs)?;
    with_text(shown, &text)
}

// What a script shows on a new runtime, which is then given up, with its trace where that is asked
// for.
fn shown_on<D: Delegation<Word32>, R: Threads + Wait + Copy + Send + Sync + 'static>(
    rt: &R,
    alloc: Global,
    mut d: D,
    script: &Script,
    trace: bool,
) -> Result<Shown, OutOfMemory>
    requires { IsAfter script_meaning (D.seen d) [] }
    ensures { IfOk result (λ shown.
        shown ≡ followed trace (shown_of script.now) (trace_of script.now)) }
{
    logs_have_the_programs_trace();
    let given = run_script(rt, alloc, &mut d, script);
    let Finished { logs, .. } = d.finish(rt)?;
    with_trace(alloc, given?, trace, &logs)
}

// Runs a script.
fn show<R, G: Gate + 'static>(
    rt: &R,
    alloc: Global,
    how: How<G>,
    script: &Script,
    trace: bool,
) -> Result<Shown, OutOfMemory>
where
    R: Threads + Wait + Copy + Send + Sync + 'static,
    ensures { IfOk result (λ shown.
        shown ≡ followed trace (shown_of script.now) (trace_of script.now)) }
{
    with_runtime!(
        alloc,
        how,
        |runtime| shown_on(rt, alloc, runtime, script, trace)
    )
}

/// What a script shows, with its trace where that is asked for.
pub(crate) fn script_text<R, G: Gate + 'static>(
    rt: &R,
    alloc: Global,
    how: How<G>,
    trace: bool,
    script: &[u8],
) -> Result<Printed, ParseFault>
where
    R: Threads + Wait + Copy + Send + Sync + 'static,
    requires bytes { length script.now ≤ limits.SCRIPT_BYTES }
    ensures answer { IfOk result (λ printed.
        traced_answer trace (listing_of script.now) ≡ printed_answer printed) }
    ensures names { IfOk result (λ printed. IfSome printed.broken
        (λ broken. broken.script.names ≡ names_listed (listing_of script.now))) }
    ensures fault { (fault : ScriptFault) → result ≡ Err (ParseFault.Text fault) →
        traced_answer trace (listing_of script.now) ≡ has_fault (text_fault.Script fault) }
{
    let script = parse(alloc, script)?;
    let shown = show(rt, alloc, how, &script, trace)?;
    Ok(printed(shown, script))
}
