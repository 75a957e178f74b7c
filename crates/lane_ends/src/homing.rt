// A lane comes home: its delegate stops, and what is left is taken here.
ghost use Rattle.std.specs.Prelude.{IfOk};
ghost use Rattle.set_queue.specs.Ends.{AreOneLane};
ghost use Rattle.delegates.specs.Works.{HasReturned};
ghost use Rattle.lane_ends.specs.LaneEnds.{IsTakenFrom, IsWhole, ComesToSame, HasCome, taker_home};

use crate::lane_end::{LaneEnd, Taker};
use crate::waiting::{send_waiting, take_all};
use crate::worker::LaneWorker;
use class_laws::LocalClass;
use delegates::Home;
use set_queue::{Message, Sender};
use ss_base::OutOfMemory;
use std::sync::Wait;
use std::thread::Threads;

// The home of a lane, from which nobody takes any more.
fn take_home<C: LocalClass, W: LaneWorker<C>, R: Threads + Wait>(
    rt: &R,
    sender: &mut Sender<C>,
    taker: Taker<C, W>,
) -> Home<C>
    requires { IsTakenFrom C.local_meaning sender.old (taker_home W.home_of taker) }
    ensures one { AreOneLane sender.new result.receiver }
    ensures back { HasReturned C.local_meaning (taker_home W.home_of taker) result }
    ensures same { ComesToSame C.local_meaning sender.old sender.new
        (taker_home W.home_of taker) }
{
    match taker {
        Taker::Program(home) => home,
        Taker::Delegate { worker, bell } => {
            send_waiting(rt, sender, Message::Stop);
            bell.wake();
            worker.join(rt)
        }
    }
}

/// Ends the work of a lane's delegate, if it has one, takes all that is left, and gives the home.
/// The lane has no taker then.
pub fn come_home<C: LocalClass, W: LaneWorker<C>, R: Threads + Wait>(
    rt: &R,
    end: &mut LaneEnd<C, W>,
) -> Result<Home<C>, OutOfMemory>
    requires { IsWhole C.local_meaning W.home_of end.old }
    ensures { IfOk result (λ home. HasCome C.local_meaning W.home_of end.old end.new home) }
{
    let Some(taker) = end.taker.take() else {
        unreachable!()
    };
    let home = take_home(rt, &mut end.sender, taker);
    end.was_refused = false;
    take_all(&mut end.sender, home)
}

/// Ends the work of a lane's delegate, if it has one, after a want of memory. Nothing is said of
/// what it took.
pub fn end_work<C: LocalClass, W: LaneWorker<C>, R: Threads + Wait>(rt: &R, end: LaneEnd<C, W>) {
    let LaneEnd {
        mut sender,
        taker,
        ..
    } = end;
    if let Some(Taker::Delegate { worker, bell }) = taker {
        send_waiting(rt, &mut sender, Message::Stop);
        bell.wake();
        drop(worker.join(rt));
    }
}
