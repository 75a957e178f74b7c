// Lanes as queues.
ghost use Rattle.std.specs.Prelude.{◌≡◌, ◌<◌, ◌≤◌, [], IfOk, OnOk, length, replicate};
ghost use Rattle.std.specs.List.{list_all};
ghost use Rattle.std.specs.Option.{option_map};
ghost use Rattle.interleavings.specs.Machines.{is_empty, is_idle, front_at, with_entry, without_front, least_busy};
ghost use Rattle.std.specs.Prelude.{slice_get};
ghost use Rattle.schedule_core.specs.Queues.{queued};

use ss_base::{Lane, OutOfMemory};
use std::alloc::Global;
use std::collections::VecDeque;

/// What waits in a lane, front first.
#[derive(Drop)]
pub struct Queue<T> {
    pub entries: VecDeque<T>,
}

/// So many lanes, in which nothing waits.
pub fn empty_lanes<T: Drop>(alloc: Global, lane_count: u32) -> Result<Vec<Queue<T>>, OutOfMemory>
    ensures { IfOk result (λ lanes. queued lanes.items ≡ replicate lane_count []) }
{
    let mut lanes = Vec::with_capacity(alloc, lane_count as usize)?;
    for _ in 0..lane_count {
        lanes.push(Queue {
            entries: VecDeque::new(alloc),
        })?;
    }
    Ok(lanes)
}

/// Puts an entry at the end of a lane.
pub fn push_to<T: Drop>(lanes: &mut Vec<Queue<T>>, lane: Lane, entry: T) -> Result<(), OutOfMemory>
    requires { lane.0 < length lanes.old.items }
    ensures entered { OnOk result
        (queued lanes.new.items ≡ with_entry lane.0 entry (queued lanes.old.items)) }
    ensures count { length lanes.new.items ≡ length lanes.old.items }
{
    lanes[usize::from(lane.0)].entries.push_back(entry)?;
    Ok(())
}

/// Takes the entry at the front of a lane. None where nothing waits, and where there is no such lane.
pub fn pop_from<T>(lanes: &mut Vec<Queue<T>>, lane: Lane) -> Option<T>
    ensures front { result ≡ front_at (queued lanes.old.items) lane.0 }
    ensures rest { queued lanes.new.items ≡ without_front lane.0 (queued lanes.old.items) }
    ensures count { length lanes.new.items ≡ length lanes.old.items }
{
    let lane = usize::from(lane.0);
    if lane >= lanes.len() {
        return None;
    }
    lanes[lane].entries.pop_front()
}

/// Nothing waits in a lane.
pub fn is_idle<T>(lanes: &Vec<Queue<T>>, lane: Lane) -> bool
    ensures { result ≡ is_idle (slice_get (queued lanes.now.items) lane.0) }
{
    match lanes.get(usize::from(lane.0)) {
        None => true,
        Some(queue) => queue.entries.is_empty(),
    }
}

/// The least lane in which something waits.
pub fn least_busy<T>(lanes: &Vec<Queue<T>>) -> Option<Lane>
    requires { length lanes.now.items ≤ 64 }
    ensures { option_map (λ lane. lane.0) result ≡ least_busy (queued lanes.now.items) }
{
    for index in 0..lanes.len() {
        let lane = Lane(index as u8);
        if !is_idle(lanes, lane) {
            return Some(lane);
        }
    }
    None
}

/// Nothing waits in any lane.
pub fn all_idle<T>(lanes: &Vec<Queue<T>>) -> bool
    requires { length lanes.now.items ≤ 64 }
    ensures { result ≡ list_all is_empty (queued lanes.now.items) }
{
    least_busy(lanes).is_none()
}
