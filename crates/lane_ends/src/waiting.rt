// Steps on the two ends of a lane.
ghost use Rattle.std.specs.Prelude.{◌≡◌, [], ◌∷◌, ◌++◌, IfOk};
ghost use Rattle.set_queue.specs.Ends.{sent, received, AreOneLane, IsSameSender};
ghost use Rattle.delegates.specs.Works.{HasReturned};
ghost use Rattle.lane_ends.specs.LaneEnds.{IsTakenFrom, HasGoneOn};

use class_laws::LocalClass;
use crossbeam_utils::Backoff;
use delegates::Home;
use set_queue::{Message, Sender, meet};
use ss_base::OutOfMemory;
use std::sync::Wait;

/// Sends a message once there is room, for which it waits.
pub fn send_waiting<C: LocalClass, R: Wait>(rt: &R, sender: &mut Sender<C>, m: Message<C>)
    ensures end { IsSameSender sender.old sender.new }
    ensures sent { sent sender.new ≡ sent sender.old ++ m ∷ [] }
{
    let mut waiting = m;
    let backoff = Backoff::new();
    for _ in rt.forever() {
        match sender.try_send(waiting) {
            Ok(()) => return,
            Err(back) => waiting = back,
        }
        backoff.snooze();
    }
    unreachable!()
}

// Takes all that is left in a lane whose ends are both here.
fn take_rest<C: LocalClass>(sender: &mut Sender<C>, home: Home<C>) -> Home<C>
    requires { AreOneLane sender.old home.receiver }
    ensures one { AreOneLane sender.new result.receiver }
    ensures end { IsSameSender sender.old sender.new }
    ensures sent { sent sender.new ≡ sent sender.old }
    ensures back { HasReturned C.local_meaning home result }
    ensures all { received result.receiver ≡ sent sender.old }
{
    let Home {
        mut store,
        mut receiver,
    } = home;
    meet(sender, &mut receiver);
    while let Some(m) = receiver.try_next() {
        store.take(m);
        meet(sender, &mut receiver);
    }
    Home { store, receiver }
}

/// Takes all that is left in a lane, whose home came back. None of it may have found no memory.
pub fn take_all<C: LocalClass>(
    sender: &mut Sender<C>,
    home: Home<C>,
) -> Result<Home<C>, OutOfMemory>
    requires { AreOneLane sender.old home.receiver }
    ensures all { IfOk result (λ back. received back.receiver ≡ sent sender.new) }
    ensures goes_on { IfOk result (λ back. (from : _) →
        IsTakenFrom C.local_meaning sender.old from → HasReturned C.local_meaning from home →
        HasGoneOn C.local_meaning sender.old sender.new from back) }
{
    let home = take_rest(sender, home);
    if home.store.broken() {
        return Err(OutOfMemory);
    }
    Ok(home)
}
