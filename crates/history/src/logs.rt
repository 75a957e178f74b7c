// The logs of a finished execution: the calls of a set, and whether the lanes ran what they were
// sent.

ghost use Rattle.std.specs.Prelude.{◌≡◌, ◌<◌, ◌≤◌, ◌++◌, IfOk, OnOk, IfSome, IfNone, length, slice_get};
ghost use Rattle.std.specs.Bool.{OnTrue, OnFalse};
ghost use Rattle.history.specs.Logs.{calls_in, calls_of_set, wanted_in, DiffersAt, IsVerdict};

use serializer::lane_of;
use ss_base::{CallNo, Lane, LaneLog, OutOfMemory, Run, SetId};
use std::alloc::Global;

/// Whether logs are what was sent to their lanes.
#[derive(Clone, Copy, Debug, PartialEq, Eq)]
pub enum Verdict {
    /// They are.
    Good,
    /// They are not.
    Bad {
        /// The first lane whose log differs.
        lane: Lane,
        /// The first place in it that differs.
        place: u64,
        /// The run that was sent there; none where the log goes on past all that was sent.
        wanted: Option<Run>,
        /// The run that the log has there; none where it ends too soon.
        found: Option<Run>,
    },
}

/// The calls that were delegated to a set in an epoch, lane by lane, in the order of the logs.
pub fn of_set(
    alloc: Global,
    logs: &[LaneLog],
    epoch: u64,
    set: SetId,
) -> Result<Vec<CallNo>, OutOfMemory>
    ensures { IfOk result (λ calls. calls.items ≡ calls_of_set epoch set.0 logs.now) }
{
    let mut calls = Vec::new(alloc);
    for log in logs {
        push_calls(&mut calls, &log.runs, epoch, set)?;
    }
    Ok(calls)
}

fn push_calls(
    calls: &mut Vec<CallNo>,
    runs: &[Run],
    epoch: u64,
    set: SetId,
) -> Result<(), OutOfMemory>
    ensures { OnOk result (calls.new.items ≡ calls.old.items ++ calls_in epoch set.0 runs.now) }
{
    for run in runs {
        if run.epoch == epoch && run.set == set {
            calls.push(run.call)?;
        }
    }
    Ok(())
}

/// Whether each log is what was sent to its lane: the runs of `sent` whose set has that lane, in
/// order. Takes no memory.
pub fn check(sent: &[Run], lanes: u32, logs: &[LaneLog]) -> Verdict
    requires some_lane { 1 ≤ lanes }
    requires at_most_64 { lanes ≤ 64 }
    requires a_log_each { length logs.now ≡ lanes }
    ensures { IsVerdict lanes sent.now logs.now result }
{
    for lane in 0..lanes {
        let log = &logs[lane as usize];
        if let Some(difference) = first_difference(sent, lanes, lane, &log.runs) {
            return Verdict::Bad {
                lane: Lane(lane as u8),
                place: difference.place,
                wanted: difference.wanted,
                found: difference.found,
            };
        }
    }
    Verdict::Good
}

// Where a log differs from what was sent to its lane.
#[derive(Clone, Copy)]
struct Difference {
    place: u64,
    wanted: Option<Run>,
    found: Option<Run>,
}

fn first_difference(sent: &[Run], lanes: u32, lane: u32, log: &[Run]) -> Option<Difference>
    requires some_lane { 1 ≤ lanes }
    requires at_most_64 { lanes ≤ 64 }
    ensures none { IfNone result (log.now ≡ wanted_in lanes lane sent.now) }
    ensures some { IfSome result (λ d.
        DiffersAt (wanted_in lanes lane sent.now) log.now d.place d.wanted d.found) }
{
    let mut place: usize = 0;
    for run in sent {
        if u32::from(lane_of(run.set, lanes).0) == lane {
            let found = run_at(log, place);
            if !is_same(Some(*run), found) {
                return Some(Difference {
                    place: place as u64,
                    wanted: Some(*run),
                    found,
                });
            }
            place += 1;
        }
    }
    let found = run_at(log, place);
    if is_same(None, found) {
        return None;
    }
    Some(Difference {
        place: place as u64,
        wanted: None,
        found,
    })
}

fn run_at(log: &[Run], place: usize) -> Option<Run>
    ensures run { result ≡ slice_get log.now place }
    ensures within { IfSome result (λ _. place < length log.now) }
{
    log.get(place).copied()
}

fn is_same(one: Option<Run>, other: Option<Run>) -> bool
    ensures same { OnTrue result (one ≡ other) }
    ensures differ { OnFalse result (¬ (one ≡ other)) }
{
    one == other
}
