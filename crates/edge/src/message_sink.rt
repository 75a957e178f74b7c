// A stream of messages as a sink, each message in one write.
ghost use Rattle.std.specs.Prelude.{◌≡◌, None};
ghost use Rattle.ss_base.specs.Faults.{HasCause};

use crate::StdSink;
use ss_base::{Failed, Sink, write_all};
use std::io::Write;
use std::mem::replace;

/// The most bytes of a message that go out in one write.
const AT_ONCE: usize = 1024;

/// A stream of messages. What is written waits until [`MessageSink::send`], so that the messages of
/// two programs on one terminal don't mix; a message of over 1,024 bytes goes out in several writes.
#[derive(Drop)]
pub struct MessageSink<W: Write + Drop> {
    stream: StdSink<W>,
    waiting: [u8; AT_ONCE],
    // how many bytes of `waiting` wait
    count: usize,
}

impl<W: Write + Drop> MessageSink<W> {
    /// A stream on which nothing waits.
    pub fn new(stream: W) -> MessageSink<W> {
        MessageSink {
            stream: StdSink::new(stream),
            waiting: [0; AT_ONCE],
            count: 0,
        }
    }

    /// Writes what waits. At `Failed` a front part of it at most was written, and nothing waits.
    pub fn send(&mut self) -> Result<(), Failed>
        ensures cause { HasCause (self.old.stream.faults) (self.new.stream.faults) result }
    {
        let count = replace(&mut self.count, 0);
        match self.waiting.get(..count) {
            Some(message) => write_all(&mut self.stream, message),
            None => Ok(()),
        }
    }

    // Puts bytes behind what waits, where they fit.
    fn wait(&mut self, bytes: &[u8]) -> bool
        ensures stream { self.new.stream ≡ self.old.stream }
    {
        let end = self.count.saturating_add(bytes.len());
        match self.waiting.get_mut(self.count..end) {
            Some(room) => {
                room.copy_from_slice(bytes);
                self.count = end;
                true
            }
            None => false,
        }
    }
}

impl<W: Write + Drop> Sink for MessageSink<W> {
    ghost faults = { λ s. s.stream.faults };

    ghost gained = { λ s. None };

    ghost sure = { λ s. 0 };

    fn write(&mut self, bytes: &[u8]) -> Result<usize, Failed> {
        if self.wait(bytes) {
            return Ok(bytes.len());
        }
        self.send()?;
        if self.wait(bytes) {
            return Ok(bytes.len());
        }
        self.stream.write(bytes)
    }
}
