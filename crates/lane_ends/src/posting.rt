// A message is sent, and a delegate started for it.
ghost use Rattle.std.specs.Prelude.{◌≡◌, true, OnOk, IsOk, IfOk};
ghost use Rattle.set_queue.specs.Ends.{AreOneLane};
ghost use Rattle.delegates.specs.Works.{HasReturned};
ghost use Rattle.lane_ends.specs.Workers.{HasHired};
ghost use Rattle.lane_ends.specs.LaneEnds.{IsTakenFrom, IsWhole, GoesOn, TakesIn, HasGoneOn, HasTakenIn, has_worker, comes_from, comes_to, finds};

use crate::lane_end::{LaneEnd, Taker};
use crate::waiting::{send_waiting, take_all};
use crate::worker::LaneWorker;
use class_laws::LocalClass;
use delegates::Home;
use jobs::Starter;
use set_queue::{Message, Sender, meet};
use ss_base::OutOfMemory;
use std::sync::Wait;

// Sees how much a home has taken that came back.
fn look<C: LocalClass>(sender: &mut Sender<C>, home: Home<C>) -> Result<Home<C>, OutOfMemory>
    requires { AreOneLane sender.old home.receiver }
    ensures { IfOk result (λ back. (from : _) → IsTakenFrom C.local_meaning sender.old from →
        HasReturned C.local_meaning from home →
        HasGoneOn C.local_meaning sender.old sender.new from back) }
{
    let Home {
        store,
        mut receiver,
    } = home;
    if store.broken() {
        return Err(OutOfMemory);
    }
    meet(sender, &mut receiver);
    Ok(Home { store, receiver })
}

// Has a delegate take the lane, if there is none and none was refused since it last came home.
fn hire<C: LocalClass, W: LaneWorker<C>, H: Starter<Home<C>, Taker<C, W>>>(
    end: &mut LaneEnd<C, W>,
    hirer: &H,
) -> Result<(), OutOfMemory>
    requires can { (home : _) → H.can hirer.now home }
    requires means { (home : _) (taker : _) → H.gives hirer.now home taker →
        HasHired C.local_meaning W.home_of home taker }
    requires whole { IsWhole C.local_meaning W.home_of end.old }
    ensures goes_on { OnOk result (GoesOn C.local_meaning W.home_of end.old end.new) }
    ensures succeeds { has_worker end.old ≡ true →
        IsOk result × (has_worker end.new ≡ true) }
{
    if end.was_refused {
        return Ok(());
    }
    // So it is at each message but the first: the taker is looked at and not moved.
    if let Some(Taker::Delegate { .. }) = &end.taker {
        return Ok(());
    }
    let Some(Taker::Program(home)) = end.taker.take() else {
        unreachable!()
    };
    match hirer.start(home) {
        Taker::Program(back) => {
            let home = look(&mut end.sender, back)?;
            end.was_refused = true;
            end.taker = Some(Taker::Program(home));
        }
        Taker::Delegate { worker, bell } => end.taker = Some(Taker::Delegate { worker, bell }),
    }
    Ok(())
}

// Sends a message to a lane from which the program context takes. Where there is no room, it first
// takes all that waits.
fn send_here<C: LocalClass, R: Wait>(
    rt: &R,
    sender: &mut Sender<C>,
    home: Home<C>,
    m: Message<C>,
) -> Result<Home<C>, OutOfMemory>
    requires whole { IsTakenFrom C.local_meaning sender.old home }
    requires finds { finds (comes_from C.local_meaning sender.old home) m ≡ true }
    ensures { IfOk result (λ back. HasTakenIn C.local_meaning sender.old sender.new home back m) }
{
    let Err(m) = sender.try_send(m) else {
        return Ok(home);
    };
    let home = take_all(sender, home)?;
    send_waiting(rt, sender, m);
    Ok(home)
}

// Sends a message, for which it waits where a delegate is to make room.
fn send<C: LocalClass, W: LaneWorker<C>, R: Wait>(
    rt: &R,
    end: &mut LaneEnd<C, W>,
    m: Message<C>,
) -> Result<(), OutOfMemory>
    requires whole { IsWhole C.local_meaning W.home_of end.old }
    requires finds { finds (comes_to C.local_meaning W.home_of end.old) m ≡ true }
    ensures takes { OnOk result (TakesIn C.local_meaning W.home_of end.old end.new m) }
    ensures succeeds { has_worker end.old ≡ true → IsOk result }
{
    if let Some(Taker::Delegate { bell, .. }) = &end.taker {
        send_waiting(rt, &mut end.sender, m);
        bell.wake();
        return Ok(());
    }
    let Some(Taker::Program(home)) = end.taker.take() else {
        unreachable!()
    };
    let home = send_here(rt, &mut end.sender, home, m)?;
    end.taker = Some(Taker::Program(home));
    Ok(())
}

/// Sends a message. The first since the lane came home has a delegate take the lane, by `hirer`;
/// where that fails the program context takes from it, and only then, where there is no room, may
/// an operation run here and find no memory.
pub fn post<C: LocalClass, W: LaneWorker<C>, H: Starter<Home<C>, Taker<C, W>>, R: Wait>(
    rt: &R,
    end: &mut LaneEnd<C, W>,
    hirer: &H,
    m: Message<C>,
) -> Result<(), OutOfMemory>
    requires can { (home : _) → H.can hirer.now home }
    requires means { (home : _) (taker : _) → H.gives hirer.now home taker →
        HasHired C.local_meaning W.home_of home taker }
    requires whole { IsWhole C.local_meaning W.home_of end.old }
    requires finds { finds (comes_to C.local_meaning W.home_of end.old) m ≡ true }
    ensures takes { OnOk result (TakesIn C.local_meaning W.home_of end.old end.new m) }
    ensures succeeds { has_worker end.old ≡ true → IsOk result }
{
    hire(end, hirer)?;
    send(rt, end, m)
}
