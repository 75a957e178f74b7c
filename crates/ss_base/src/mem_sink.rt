// A sink in memory, with calls that fail as listed.
ghost use Rattle.std.specs.Prelude.{◌≡◌, ◌+◌, ◌<◌, ◌≤◌, ◌&&◌, [], Some, IfOk, OnErr, is_ok, not};
ghost use Rattle.std.specs.Prelude.{length, nat_lt, vec_len, vec_capacity};
ghost use Rattle.ss_base.specs.Calls.{fitting, next_fails, sure_bytes, IsNew, IsNext};
ghost use Rattle.ss_base.specs.Faults.{CountsFaults, HasCause, HasNoFault};
ghost use Rattle.ss_base.specs.Sinks.{Gains};

use crate::calls::Calls;
use crate::{Failed, OutOfMemory, Sink};
use std::alloc::Global;

/// Bytes in memory, with room for so many. It tells its bytes.
///
/// Writes are numbered from 0, and those that are listed fail; so does a write without room left.
/// A write takes the least of the chunk, the bytes given and the room left. None takes memory.
#[derive(Drop)]
pub struct MemSink {
    bytes: Vec<u8>,
    room: usize,
    chunk: usize,
    calls: Calls,
    faults: u64,
    ghost takes_some: { 0 < chunk },
    ghost has_room: { vec_len bytes + room ≤ vec_capacity bytes },
}

impl MemSink {
    /// An empty sink, with memory for `room` bytes. `fail` lists the numbers of the writes that
    /// fail, and `chunk` is the most bytes that a write takes.
    pub fn new(
        alloc: Global,
        room: usize,
        fail: Vec<u64>,
        chunk: usize,
    ) -> Result<MemSink, OutOfMemory>
        requires { 0 < chunk }
        ensures gained { IfOk result (λ sink. ⟦<MemSink as Sink>⟧.gained sink ≡ Some []) }
        ensures sure { IfOk result
            (λ sink. ⟦<MemSink as Sink>⟧.sure sink ≡ sure_bytes fail.items room) }
        ensures faults { IfOk result (λ sink. ⟦<MemSink as Sink>⟧.faults sink ≡ 0) }
        ensures calls { IfOk result (λ sink. IsNew sink.calls fail) }
        ensures room { IfOk result (λ sink. sink.room ≡ room) }
        ensures chunk { IfOk result (λ sink. sink.chunk ≡ chunk) }
    {
        Ok(MemSink {
            bytes: Vec::with_capacity(alloc, room)?,
            room,
            chunk,
            calls: Calls::new(fail),
            faults: 0,
        })
    }

    /// What it gained, which takes no memory.
    pub fn bytes(&self) -> &[u8]
        ensures { ⟦<MemSink as Sink>⟧.gained self.now ≡ Some result.now }
    {
        &self.bytes
    }
}

impl Sink for MemSink {
    ghost faults = { λ s. s.faults };

    ghost gained = { λ s. Some s.bytes.items };

    ghost sure = { λ s. sure_bytes s.calls.fail.items s.room };

    fn write(&mut self, bytes: &[u8]) -> Result<usize, Failed>
        requires { 0 < length bytes.now }
        ensures bound { IfOk result (λ n. (0 < n) × (n ≤ length bytes.now)) }
        ensures cause { HasCause self.old.faults self.new.faults result }
        ensures gained { Gains (Some self.old.bytes.items) (Some self.new.bytes.items) result bytes.now }
        ensures sure { 0 < sure_bytes self.old.calls.fail.items self.old.room →
            HasNoFault self.old.faults self.new.faults result
            × IfOk result (λ n. sure_bytes self.old.calls.fail.items self.old.room
            ≤ sure_bytes self.new.calls.fail.items self.new.room + n) }
        // what follows is this sink's own: which writes fail, and how much each takes
        ensures fails { is_ok result ≡ (not (next_fails self.old.calls) && nat_lt 0 self.old.room) }
        ensures fits { IfOk result (λ n. n ≡ fitting self.old.chunk (length bytes.now) self.old.room) }
        ensures room { IfOk result (λ n. self.new.room + n ≡ self.old.room) }
        ensures room_stays { OnErr result (self.new.room ≡ self.old.room) }
        ensures counts { CountsFaults self.old.faults self.new.faults result }
        ensures calls { IsNext self.old.calls self.new.calls }
        ensures chunk { self.new.chunk ≡ self.old.chunk }
    {
        let fails = self.calls.next_fails();
        if fails || self.room == 0 {
            self.faults = self.faults.saturating_add(1);
            return Err(Failed);
        }
        let count = self.chunk.min(bytes.len()).min(self.room);
        self.bytes.extend_from_slice(&bytes[..count]).unwrap();
        self.room -= count;
        Ok(count)
    }
}
