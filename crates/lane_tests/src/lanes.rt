// What no clause says of lanes: that memory is found, that a full lane gives a message back, that a
// message is taken before the ends meet, and that the lane then has room again.

use crate::messages::run;
use crate::{Number, Step};
use set_queue::{Message, lane, meet};
use std::test::Fail;

// The message of a call, which does nothing of interest.
fn idle(call: u64) -> Message<Number> {
    run(call, 0, 0, Step::Add(0))
}

fn call_of(m: &Message<Number>) -> Option<u64> {
    match m {
        Message::Carry { call, .. } => Some(call.0),
        Message::Run { call, .. } => Some(call.0),
        Message::Stop => None,
    }
}

// The call whose message came back.
fn call_back(sent: Result<(), Message<Number>>) -> Option<u64> {
    match sent {
        Ok(()) => None,
        Err(m) => call_of(&m),
    }
}

#[test]
fn a_full_lane_gives_the_message_back(rt: HostRuntime) -> Result<(), Fail> {
    let (mut sender, mut receiver) = lane::<Number>(rt.alloc(), 1)?;
    assert!(rt; sender.try_send(idle(0)).is_ok());
    assert_eq!(rt; call_back(sender.try_send(idle(1))), Some(1));
    let Some(first) = receiver.try_next() else {
        assert!(rt; false, "no message came");
        return Ok(());
    };
    assert_eq!(rt; call_of(&first), Some(0));
    meet(&mut sender, &mut receiver);
    assert!(rt; sender.try_send(idle(1)).is_ok());
    Ok(())
}
