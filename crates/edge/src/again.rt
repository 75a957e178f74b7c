// Calls that the system may interrupt, as it does where a signal comes.
ghost use Rattle.std.specs.Io.{ReadsAtMost, WritesAtMost};

use std::fs::{File, Files};
use std::io::{ErrorKind, Read, Write};
use std::{fs, io};

/// How often a call is made that is interrupted each time.
const TRIES: u32 = 1000;

/// Opens a file to read it.
pub(crate) fn open_again<R: Files>(files: &R, name: &str) -> io::Result<R::File> {
    for _ in 1..TRIES {
        match File::open(files, name) {
            Err(error) if error.kind() == ErrorKind::Interrupted => {}
            opened => return opened,
        }
    }
    File::open(files, name)
}

/// Reads once.
pub(crate) fn read_again<R: Read>(from: &mut R, into: &mut [u8]) -> io::Result<usize>
    ensures { ReadsAtMost result into.new }
{
    for _ in 1..TRIES {
        match from.read(into) {
            Err(error) if error.kind() == ErrorKind::Interrupted => {}
            read => return read,
        }
    }
    from.read(into)
}

/// Writes once.
pub(crate) fn write_again<W: Write>(to: &mut W, bytes: &[u8]) -> io::Result<usize>
    ensures { WritesAtMost result bytes.now }
{
    for _ in 1..TRIES {
        match to.write(bytes) {
            Err(error) if error.kind() == ErrorKind::Interrupted => {}
            written => return written,
        }
    }
    to.write(bytes)
}

/// Flushes what was written.
pub(crate) fn flush_again<W: Write>(to: &mut W) -> io::Result<()> {
    for _ in 1..TRIES {
        match to.flush() {
            Err(error) if error.kind() == ErrorKind::Interrupted => {}
            flushed => return flushed,
        }
    }
    to.flush()
}
