// What the program context has of a lane.
ghost use Rattle.std.specs.Prelude.{◌≤◌, IfOk};
ghost use Rattle.ss_base.specs.declared.limits.TheConstants.{RING};
ghost use Rattle.lane_ends.specs.LaneEnds.{IsIdle};

use crate::worker::LaneWorker;
use class_laws::LocalClass;
use delegates::{Bell, Home, Store};
use set_queue::{Sender, lane};
use ss_base::OutOfMemory;
use std::alloc::Global;

/// Who takes the messages of a lane.
#[derive(Drop)]
pub enum Taker<C: LocalClass, W> {
    /// The program context, where it needs what the lane comes to, or room in it.
    Program(Home<C>),
    /// A delegate in a thread of its own.
    Delegate { worker: W, bell: Bell },
}

/// The program context's end of a lane.
#[derive(Drop)]
pub struct LaneEnd<C: LocalClass, W> {
    pub sender: Sender<C>,
    /// None only within a call, and after a want of memory.
    pub taker: Option<Taker<C, W>>,
    /// No thread could be started since the lane last came home, so that none is wanted.
    pub was_refused: bool,
}

/// A lane in which nothing was sent, with room for `capacity` messages.
pub fn new_end<C: LocalClass, W: LaneWorker<C>>(
    alloc: Global,
    capacity: usize,
) -> Result<LaneEnd<C, W>, OutOfMemory>
    requires least { 1 ≤ capacity }
    requires most { capacity ≤ RING }
    ensures { IfOk result (λ end. IsIdle C.local_meaning W.home_of end) }
{
    let (sender, receiver) = lane(alloc, capacity)?;
    let home = Home {
        store: Store::new(alloc),
        receiver,
    };
    Ok(LaneEnd {
        sender,
        taker: Some(Taker::Program(home)),
        was_refused: false,
    })
}
