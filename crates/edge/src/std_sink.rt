// A stream as a sink that counts its faults.
ghost use Rattle.std.specs.Prelude.{None};

use crate::again::{flush_again, write_again};
use ss_base::{Failed, Sink};
use std::io::Write;

/// A stream whose every write is flushed. It tells nothing of what was gained: no contract can know
/// what reached a file or a terminal.
#[derive(Drop)]
pub struct StdSink<W: Write + Drop> {
    stream: W,
    faults: u64,
}

impl<W: Write + Drop> StdSink<W> {
    pub fn new(stream: W) -> StdSink<W> {
        StdSink { stream, faults: 0 }
    }
}

impl<W: Write + Drop> Sink for StdSink<W> {
    ghost faults = { λ s. s.faults };

    ghost gained = { λ s. None };

    ghost sure = { λ s. 0 };

    fn write(&mut self, bytes: &[u8]) -> Result<usize, Failed> {
        match write_again(&mut self.stream, bytes) {
            Ok(0) | Err(_) => {}
            Ok(taken) => {
                if flush_again(&mut self.stream).is_ok() {
                    return Ok(taken);
                }
            }
        }
        self.faults = self.faults.saturating_add(1);
        Err(Failed)
    }
}
