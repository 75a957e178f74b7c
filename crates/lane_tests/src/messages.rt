// Messages for the tests, all of epoch 1.

use crate::{Number, Step};
use set_queue::Message;
use ss_base::{CallNo, ObjectId, SetId};

pub fn carry(call: u64, set: u64, object: u32, value: u32, op: Step) -> Message<Number> {
    Message::Carry {
        call: CallNo(call),
        epoch: 1,
        set: SetId(set),
        object: ObjectId(object),
        value: Number(value),
        op,
        reading: None,
    }
}

pub fn run(call: u64, set: u64, object: u32, op: Step) -> Message<Number> {
    Message::Run {
        call: CallNo(call),
        epoch: 1,
        set: SetId(set),
        object: ObjectId(object),
        op,
        reading: None,
    }
}
