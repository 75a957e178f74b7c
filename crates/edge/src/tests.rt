// What no clause says: what reaches a stream or comes from the system, which call is a fault, and
// that the words, the streams and the status are handed on as they are.
use crate::{ArgumentsFault, FileShelf, MessageSink, StdSink, run_process, words_of};
use ss_base::{Failed, ReadStop, Sink, read_all, write_all};
use std::alloc::Global;
use std::env::{Env, FillError};
use std::fs::Files;
use std::io;
use std::io::{Error, ErrorKind, Read, Write};
use std::process::ExitCode;
use std::sync::Wait;
use std::test::Fail;
use std::thread::Threads;

// A stream that takes so many bytes of a write at most and so many in all, fails to flush where that
// is asked, and counts the writes.
#[derive(Drop)]
struct Stream {
    bytes: Vec<u8>,
    most: usize,
    room: usize,
    flush_fails: bool,
    writes: u32,
}

// A stream with ample room that takes so many bytes of a write at most.
fn stream_taking(alloc: Global, most: usize) -> Stream {
    Stream {
        bytes: Vec::new(alloc),
        most,
        room: 8192,
        flush_fails: false,
        writes: 0,
    }
}

impl Write for Stream {
    fn write(&mut self, bytes: &[u8]) -> io::Result<usize> {
        self.writes = self.writes.saturating_add(1);
        let room = self.room.saturating_sub(self.bytes.len());
        let count = self.most.min(room).min(bytes.len());
        self.bytes.extend_from_slice(&bytes[..count])?;
        Ok(count)
    }

    fn flush(&mut self) -> io::Result<()> {
        if self.flush_fails {
            return Err(Error::from(ErrorKind::StorageFull));
        }
        Ok(())
    }
}

// A stream whose first calls are interrupted.
#[derive(Drop)]
struct Interrupted<T: Drop> {
    inner: T,
    calls: u32,
}

impl<T: Drop> Interrupted<T> {
    fn next_call(&mut self) -> io::Result<()> {
        if self.calls == 0 {
            return Ok(());
        }
        self.calls -= 1;
        Err(Error::from(ErrorKind::Interrupted))
    }
}

impl<T: Write + Drop> Write for Interrupted<T> {
    fn write(&mut self, bytes: &[u8]) -> io::Result<usize> {
        self.next_call()?;
        self.inner.write(bytes)
    }

    fn flush(&mut self) -> io::Result<()> {
        self.next_call()?;
        self.inner.flush()
    }
}

impl<T: Read + Drop> Read for Interrupted<T> {
    fn read(&mut self, into: &mut [u8]) -> io::Result<usize> {
        self.next_call()?;
        self.inner.read(into)
    }
}

#[test]
fn a_text_is_written_whole_by_short_and_interrupted_writes(rt: HostRuntime) -> Result<(), Fail> {
    for (most, calls) in [(1usize, 0u32), (3, 0), (8, 0), (3, 5)] {
        let mut stream = stream_taking(rt.alloc(), most);
        let mut sink = StdSink::new(Interrupted {
            inner: &mut stream,
            calls,
        });
        assert_eq!(rt; write_all(&mut sink, b"abcdefg"), Ok(()), "at {most}");
        assert_eq!(rt; stream.bytes.as_slice(), b"abcdefg".as_slice(), "at {most}");
    }
    Ok(())
}

#[test]
fn a_write_that_takes_nothing_and_a_failed_flush_are_faults(rt: HostRuntime) {
    for (most, flush_fails) in [(0usize, false), (8, true)] {
        let mut stream = stream_taking(rt.alloc(), most);
        stream.flush_fails = flush_fails;
        assert_eq!(rt; StdSink::new(stream).write(b"ab"), Err(Failed), "at {most}");
    }
}

#[test]
fn messages_go_out_whole_and_in_order(rt: HostRuntime) -> Result<(), Fail> {
    let long = [b'x'; 1025];
    let mut stream = stream_taking(rt.alloc(), 8192);
    let mut sink = MessageSink::new(&mut stream);
    for part in [&long[..1000], b"ab", &long[..24], &long[..1025], b"cd"] {
        write_all(&mut sink, part)?;
    }
    sink.send()?;
    sink.send()?;
    assert_eq!(rt; stream.bytes.len(), 1000 + 2 + 24 + 1025 + 2);
    assert_eq!(rt; &stream.bytes[998..1004], b"xxabxx".as_slice());
    assert!(rt; stream.bytes.ends_with(b"xcd"));
    // The first two together, the third, the one that is too long to wait, and the last.
    assert_eq!(rt; stream.writes, 4);
    Ok(())
}

#[test]
fn standard_input_is_read_once_wherever_its_name_stands(rt: HostRuntime) -> Result<(), Fail> {
    let alloc = rt.alloc();
    let input = Interrupted {
        inner: b"ab".as_slice(),
        calls: 5,
    };
    let mut shelf = FileShelf::new(rt, input);
    for bytes in [b"ab".as_slice(), b"".as_slice()] {
        let endless = read_all(alloc, &mut shelf, "/dev/zero", 9);
        assert!(rt; matches!(&endless, Err(ReadStop::TooLong)));
        assert_eq!(rt; read_all(alloc, &mut shelf, "-", 9)?.as_slice(), bytes);
    }
    Ok(())
}

#[test]
fn a_folder_and_an_absent_name_are_faults(rt: HostRuntime) {
    let mut shelf = FileShelf::new(rt, b"".as_slice());
    for name in ["/", "/dev/null/absent", ""] {
        let read = read_all(rt.alloc(), &mut shelf, name, 9);
        assert!(rt; matches!(&read, Err(ReadStop::Failed)), "at {name}");
    }
}

// A program that was called with these arguments.
#[derive(Drop)]
struct Called(&'static [&'static [u8]]);

impl Env for Called {
    fn arg(&self, i: usize, buf: &mut [u8]) -> Result<usize, FillError> {
        let Some(bytes) = self.0.get(i) else {
            return Err(FillError::NotPresent);
        };
        if buf.len() < bytes.len() {
            return Err(FillError::TooLong);
        }
        buf[..bytes.len()].copy_from_slice(bytes);
        Ok(bytes.len())
    }

    fn var(&self, _name: &str, _buf: &mut [u8]) -> Result<usize, FillError> {
        Err(FillError::NotPresent)
    }

    fn var_at(&self, _i: usize, _buf: &mut [u8]) -> Result<usize, FillError> {
        Err(FillError::NotPresent)
    }
}

#[test]
fn the_words_are_all_arguments_behind_the_first_in_their_order(
    rt: HostRuntime,
) -> Result<(), Fail> {
    let called = Called(&[b"ssidx", b"index", b"", b"\xc3\xa4", b"index"]);
    let words = words_of(&(called, rt.alloc()))?;
    assert_eq!(rt; words.len(), 4);
    for (word, wanted) in words.iter().zip(["index", "", "ä", "index"]) {
        assert_eq!(rt; word.as_str(), wanted);
    }
    assert_eq!(rt; words_of(&(Called(&[b"ssidx"]), rt.alloc()))?.len(), 0);
    Ok(())
}

#[test]
fn an_argument_that_is_no_text_is_no_word(rt: HostRuntime) {
    let called = Called(&[b"ssidx", b"index", b"\xff"]);
    let words = words_of(&(called, rt.alloc()));
    assert!(rt; matches!(&words, Err(ArgumentsFault::NotText)));
}

// Runs the program on the words of a line.
fn run_line<R>(
    rt: &R,
    line: &str,
    input: &str,
    out: &mut Stream,
    err: &mut Stream,
) -> Result<ExitCode, Fail>
where
    R: Files + AllocGlobal + Threads + Wait + Drop + Copy + Send + Sync + 'static,
{
    let mut words = Vec::new(rt.alloc());
    for word in line.split_whitespace() {
        words.push(String::from_str(rt.alloc(), word)?)?;
    }
    Ok(run_process(rt, Ok(words), input.as_bytes(), out, err))
}

const BROKEN: &str = "object x 5 own\nshow x\nisolate\ndo x add 1 in 1\ndo x add 1 in 2\nshow x\n";

#[test]
fn the_exit_status_is_the_number_of_the_status(rt: HostRuntime) -> Result<(), Fail> {
    let two = "documents 2\nwords 1\nlongest 1\nterms 1\na 1 2:1\n";
    for (line, input, code, printed, told) in [
        ("index /dev/null -", "a", 0u8, two, ""),
        ("index", "a", 2, "", "usage: ssidx index "),
        (
            "index - /dev/null/absent",
            "a",
            3,
            "",
            "ssidx: cannot read /dev/null/absent\n",
        ),
        (
            "gen 65537 1 0",
            "",
            6,
            "",
            "ssidx: limit: 65537 names are over 65536\n",
        ),
        (
            "script -",
            BROKEN,
            7,
            "x 5\n",
            "ssidx: line 5: object x is in set 1, not in set 2\n",
        ),
        (
            "script -",
            "hide x\n",
            8,
            "",
            "ssidx: line 1: unknown command\n",
        ),
    ] {
        let mut out = stream_taking(rt.alloc(), 8);
        let mut err = stream_taking(rt.alloc(), 8);
        let ended = run_line(&rt, line, input, &mut out, &mut err)?;
        assert_eq!(rt; ended, ExitCode::from(code), "at {line}");
        assert_eq!(rt; out.bytes.as_slice(), printed.as_bytes(), "at {line}");
        assert!(rt; err.bytes.starts_with(told.as_bytes()), "at {line}");
        let is_usage = code == 2;
        assert!(rt; is_usage || err.bytes.len() == told.len(), "at {line}");
    }
    Ok(())
}

#[test]
fn each_word_is_handed_on_in_its_order(rt: HostRuntime) -> Result<(), Fail> {
    // Standard input is read once: where its name stands again, nothing is left of it.
    for (line, printed) in [
        (
            "index - /dev/null /dev/null -",
            "documents 4\nwords 2\nlongest 1\nterms 2\na 1 1:2\nb 1 1:1\n",
        ),
        (
            "index /dev/null /dev/null - -",
            "documents 4\nwords 2\nlongest 1\nterms 2\na 1 3:2\nb 1 3:1\n",
        ),
        (
            "index --stop - /dev/null -",
            "documents 2\nwords 0\nlongest 0\nterms 0\n",
        ),
        (
            "index --stop /dev/null -",
            "documents 1\nwords 2\nlongest 1\nterms 2\na 1 1:2\nb 1 1:1\n",
        ),
    ] {
        let mut out = stream_taking(rt.alloc(), 8);
        let mut err = stream_taking(rt.alloc(), 8);
        let ended = run_line(&rt, line, "b a", &mut out, &mut err)?;
        assert_eq!(rt; ended, ExitCode::from(0), "at {line}");
        assert_eq!(rt; out.bytes.as_slice(), printed.as_bytes(), "at {line}");
        assert_eq!(rt; err.bytes.len(), 0, "at {line}");
    }
    Ok(())
}

#[test]
fn a_stream_that_fails_is_told_and_has_a_front_part(rt: HostRuntime) -> Result<(), Fail> {
    for (most, room, flush_fails, printed) in [
        (0usize, 99usize, false, ""),
        (8, 11, false, "documents 1"),
        (8, 99, true, "document"),
    ] {
        let mut out = stream_taking(rt.alloc(), most);
        out.room = room;
        out.flush_fails = flush_fails;
        let mut err = stream_taking(rt.alloc(), 8);
        let ended = run_line(&rt, "index -", "a", &mut out, &mut err)?;
        assert_eq!(rt; ended, ExitCode::from(4), "at {room}");
        assert_eq!(rt; out.bytes.as_slice(), printed.as_bytes(), "at {room}");
        let told = b"ssidx: cannot write\n".as_slice();
        assert_eq!(rt; err.bytes.as_slice(), told, "at {room}");
    }
    Ok(())
}

#[test]
fn what_is_told_goes_out_in_one_write(rt: HostRuntime) -> Result<(), Fail> {
    for (line, code) in [
        ("index /dev/null/absent", 3u8),
        ("index", 2),
        ("index -", 0),
    ] {
        let mut out = stream_taking(rt.alloc(), 8);
        let mut err = stream_taking(rt.alloc(), 8192);
        let ended = run_line(&rt, line, "a", &mut out, &mut err)?;
        assert_eq!(rt; ended, ExitCode::from(code), "at {line}");
        assert_eq!(rt; err.writes, u32::from(code > 0), "at {line}");
    }
    Ok(())
}

#[test]
fn an_error_stream_that_fails_changes_no_status(rt: HostRuntime) -> Result<(), Fail> {
    for (room, flush_fails, told) in [
        (0usize, false, ""),
        (8, false, "ssidx: c"),
        (99, true, "ssi"),
    ] {
        let mut out = stream_taking(rt.alloc(), 8);
        let mut err = stream_taking(rt.alloc(), 3);
        err.room = room;
        err.flush_fails = flush_fails;
        let ended = run_line(&rt, "index /dev/null/absent", "", &mut out, &mut err)?;
        assert_eq!(rt; ended, ExitCode::from(3), "at {room}");
        assert_eq!(rt; err.bytes.as_slice(), told.as_bytes(), "at {room}");
        assert_eq!(rt; out.bytes.len(), 0, "at {room}");
    }
    Ok(())
}

#[test]
fn without_words_the_exit_status_tells_why(rt: HostRuntime) {
    for (fault, code, told) in [
        (ArgumentsFault::NotText, 2u8, "usage: ssidx index "),
        (ArgumentsFault::OutOfMemory, 5, "ssidx: out of memory\n"),
    ] {
        let input = b"".as_slice();
        let mut out = stream_taking(rt.alloc(), 8);
        let mut err = stream_taking(rt.alloc(), 8);
        let ended = run_process(&rt, Err(fault), input, &mut out, &mut err);
        assert_eq!(rt; ended, ExitCode::from(code), "at {code}");
        assert!(rt; err.bytes.starts_with(told.as_bytes()), "at {code}");
        assert_eq!(rt; out.bytes.len(), 0, "at {code}");
    }
}

#[test]
fn a_fault_says_why_there_are_no_words(rt: HostRuntime) -> Result<(), Fail> {
    for (fault, text) in [
        (ArgumentsFault::NotText, "an argument is no UTF-8"),
        (ArgumentsFault::OutOfMemory, "out of memory"),
    ] {
        let told = format!(in rt.alloc(); "{fault}")?;
        assert_eq!(rt; told.as_str(), text);
    }
    Ok(())
}
