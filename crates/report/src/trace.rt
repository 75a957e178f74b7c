// Which calls ran, set by set.
ghost use Rattle.std.specs.Prelude.{◌≡◌, ◌++◌, IfOk, OnOk, None};
ghost use Rattle.report.specs.Traces.{epoch_set, set_head, runs_in, trace_text};
ghost use Rattle.report.specs.Tracing.{is_begun, line_end, run_lead, runs_text};

use crate::order::push_call;
use crate::print::push_number;
use ss_base::{LaneLog, OutOfMemory, Run};
use std::alloc::Global;

// The epoch and the set of a run.
fn epoch_set(run: &Run) -> (u64, u64)
    ensures { result ≡ epoch_set run.now }
{
    (run.epoch, run.set.0)
}

// Whether the line that was begun last is that of this epoch and set.
fn is_begun(last: Option<(u64, u64)>, at: (u64, u64)) -> bool
    ensures { result ≡ is_begun last at }
{
    match last {
        Some(last) => at.0 == last.0 && at.1 == last.1,
        None => false,
    }
}

// Appends what ends the line that was begun last, if one was.
fn push_end(text: &mut Vec<u8>, last: Option<(u64, u64)>) -> Result<(), OutOfMemory>
    ensures { OnOk result (text.new.items ≡ text.old.items ++ line_end last) }
{
    if last.is_some() {
        text.push(b'\n')?;
    }
    Ok(())
}

// Appends the head of a set's line.
#[tactic(auto, unfolding(crate::specs::Traces::set_head))]
fn push_head(text: &mut Vec<u8>, at: (u64, u64)) -> Result<(), OutOfMemory>
    ensures { OnOk result (text.new.items ≡ text.old.items ++ set_head at) }
{
    text.extend_from_slice(b"epoch ")?;
    push_number(text, at.0)?;
    text.extend_from_slice(b" set ")?;
    push_number(text, at.1)?;
    text.push(b':')?;
    Ok(())
}

// Appends what stands before a run of this epoch and set.
fn push_lead(
    text: &mut Vec<u8>,
    last: Option<(u64, u64)>,
    at: (u64, u64),
) -> Result<(), OutOfMemory>
    ensures { OnOk result (text.new.items ≡ text.old.items ++ run_lead last at) }
{
    if is_begun(last, at) {
        return Ok(());
    }
    push_end(text, last)?;
    push_head(text, at)
}

// Appends the lines of runs, of which those of a set in an epoch stand together.
fn push_runs(text: &mut Vec<u8>, runs: &[Run]) -> Result<(), OutOfMemory>
    ensures { OnOk result (text.new.items ≡ text.old.items ++ runs_text None runs.now) }
{
    let mut last = None;
    for run in runs {
        let at = epoch_set(run);
        push_lead(text, last, at)?;
        push_call(text, run.call)?;
        last = Some(at);
    }
    push_end(text, last)?;
    Ok(())
}

// The runs of all logs, log by log.
fn runs_in(alloc: Global, logs: &[LaneLog]) -> Result<Vec<Run>, OutOfMemory>
    ensures { IfOk result (λ runs. runs.items ≡ runs_in logs.now) }
{
    let mut runs = Vec::new(alloc);
    for log in logs {
        runs.extend_from_slice(&log.runs)?;
    }
    Ok(runs)
}

/// The trace of an execution: a line for each set of an epoch to which some call was delegated, with
/// the numbers of its calls. Epochs rise, and in an epoch sets do. The calls of a set stand log by
/// log, in the order of the logs.
pub fn print_trace(alloc: Global, logs: &[LaneLog]) -> Result<Vec<u8>, OutOfMemory>
    ensures { IfOk result (λ text. text.items ≡ trace_text (runs_in logs.now)) }
{
    let mut runs = runs_in(alloc, logs)?;
    // The sort is stable, so that the calls of a set stay in the order of the logs.
    runs.sort_by_key(|run| (run.epoch, run.set.0))?;
    let mut text = Vec::new(alloc);
    push_runs(&mut text, &runs)?;
    Ok(text)
}
