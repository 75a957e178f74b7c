// What fails outside, by the numbers of the calls, and what passes a limit, as one table: the status,
// what `out` holds then, and what is told. No clause says which calls of a shelf or a sink in memory fail.
use crate::tests::{run_open, words_of};
use ss_base::{MemShelf, MemSink, Text};
use ss_top::{LimitHit, Status, Which};
use std::alloc::Global;
use std::process::Abort;
use std::sync::Wait;
use std::test::Fail;
use std::thread::Threads;

// What a name holds: so many times these bytes.
type Held = (&'static str, usize, &'static [u8]);

// The calls that fail of the shelf, of `out` and of `err`. The shelf gives 4,096 bytes at a time, `out`
// takes 8.
type Failing = (&'static [u64], &'static [u64], &'static [u64]);

// Two documents. Each takes three calls: the open, a read of its bytes and a read of its end.
const TWO: &[&str] = &["index", "p", "q"];

const TWO_NAMES: &[Held] = &[("p", 1, b"b a"), ("q", 1, b"a")];

const TWO_INDEXED: &str = "documents 2\nwords 3\nlongest 1\nterms 2\na 2 1:2;2:1\nb 1 1:1\n";

const NO_P: &str = "ssidx: cannot read p\n";

const NO_Q: &str = "ssidx: cannot read q\n";

// One document, whose text goes out in seven writes.
const ONE: &[&str] = &["index", "-"];

const ONE_NAME: &[Held] = &[("-", 1, b"a b A\n")];

const ONE_INDEXED: &str = "documents 1\nwords 3\nlongest 1\nterms 2\na 2 1:1,3\nb 1 1:2\n";

const NO_OUT: &str = "ssidx: cannot write\n";

const STOP: &[&str] = &["index", "--stop", "s", "d"];

const GEN: &[&str] = &["gen", "1", "8388608", "0"];

const SCRIPT: &[&str] = &["script", "s"];

const REPLAY: &[&str] = &["replay", "a", "b"];

type Case = (
    &'static [&'static str],
    &'static [Held],
    Failing,
    Status,
    &'static str,
    &'static str,
);

const CASES: [Case; 26] = [
    (
        TWO,
        TWO_NAMES,
        (&[0], &[], &[]),
        Status::ReadFault(Which::Name(1)),
        "",
        NO_P,
    ),
    (
        TWO,
        TWO_NAMES,
        (&[1], &[], &[]),
        Status::ReadFault(Which::Name(1)),
        "",
        NO_P,
    ),
    (
        TWO,
        TWO_NAMES,
        (&[2], &[], &[]),
        Status::ReadFault(Which::Name(1)),
        "",
        NO_P,
    ),
    (
        TWO,
        TWO_NAMES,
        (&[3], &[], &[]),
        Status::ReadFault(Which::Name(2)),
        "",
        NO_Q,
    ),
    (
        TWO,
        TWO_NAMES,
        (&[4], &[], &[]),
        Status::ReadFault(Which::Name(2)),
        "",
        NO_Q,
    ),
    (
        TWO,
        TWO_NAMES,
        (&[5], &[], &[]),
        Status::ReadFault(Which::Name(2)),
        "",
        NO_Q,
    ),
    // No seventh call is made.
    (
        TWO,
        TWO_NAMES,
        (&[6], &[], &[]),
        Status::Done,
        TWO_INDEXED,
        "",
    ),
    (
        ONE,
        ONE_NAME,
        (&[], &[0], &[]),
        Status::WriteFault,
        "",
        NO_OUT,
    ),
    (
        ONE,
        ONE_NAME,
        (&[], &[1], &[]),
        Status::WriteFault,
        "document",
        NO_OUT,
    ),
    (
        ONE,
        ONE_NAME,
        (&[], &[2], &[]),
        Status::WriteFault,
        "documents 1\nword",
        NO_OUT,
    ),
    (
        ONE,
        ONE_NAME,
        (&[], &[3], &[]),
        Status::WriteFault,
        "documents 1\nwords 3\nlong",
        NO_OUT,
    ),
    (
        ONE,
        ONE_NAME,
        (&[], &[4], &[]),
        Status::WriteFault,
        "documents 1\nwords 3\nlongest 1\nte",
        NO_OUT,
    ),
    (
        ONE,
        ONE_NAME,
        (&[], &[5], &[]),
        Status::WriteFault,
        "documents 1\nwords 3\nlongest 1\nterms 2\na ",
        NO_OUT,
    ),
    (
        ONE,
        ONE_NAME,
        (&[], &[6], &[]),
        Status::WriteFault,
        "documents 1\nwords 3\nlongest 1\nterms 2\na 2 1:1,3\n",
        NO_OUT,
    ),
    (
        ONE,
        ONE_NAME,
        (&[], &[7], &[]),
        Status::Done,
        ONE_INDEXED,
        "",
    ),
    (
        STOP,
        &[("s", 1, b"The"), ("d", 1, b"the cat the")],
        (&[0], &[], &[]),
        Status::ReadFault(Which::Stop),
        "",
        "ssidx: cannot read s\n",
    ),
    // An empty script takes two calls, its open and the read of its end.
    (
        REPLAY,
        &[("a", 1, b""), ("b", 1, b"p")],
        (&[1], &[], &[]),
        Status::ReadFault(Which::Script),
        "",
        "ssidx: cannot read a\n",
    ),
    (
        REPLAY,
        &[("a", 1, b""), ("b", 1, b"p")],
        (&[2], &[], &[]),
        Status::ReadFault(Which::Schedule),
        "",
        "ssidx: cannot read b\n",
    ),
    // The status hangs on nothing that is told.
    (&[], &[], (&[], &[], &[0]), Status::Usage, "", ""),
    (
        TWO,
        TWO_NAMES,
        (&[3], &[], &[0]),
        Status::ReadFault(Which::Name(2)),
        "",
        "",
    ),
    (
        GEN,
        &[],
        (&[], &[], &[0]),
        Status::Limit(LimitHit::Document(1)),
        "",
        "",
    ),
    // Limits.
    (
        SCRIPT,
        &[("s", 1_048_577, b"\n")],
        (&[], &[], &[]),
        Status::Limit(LimitHit::ScriptBytes),
        "",
        "ssidx: limit: script is over 1048576 bytes\n",
    ),
    (
        REPLAY,
        &[("a", 1, b""), ("b", 1_048_577, b" ")],
        (&[], &[], &[]),
        Status::Limit(LimitHit::ScheduleBytes),
        "",
        "ssidx: limit: schedule is over 1048576 bytes\n",
    ),
    // The script's lines are counted before the schedule is opened.
    (
        REPLAY,
        &[("a", 65_537, b"\n")],
        (&[], &[], &[]),
        Status::Limit(LimitHit::ScriptLines),
        "",
        "ssidx: limit: script is over 65536 lines\n",
    ),
    (
        STOP,
        &[("s", 8_388_609, b" "), ("d", 1, b"a")],
        (&[], &[], &[]),
        Status::Limit(LimitHit::StopBytes),
        "",
        "ssidx: limit: stop list is over 8388608 bytes\n",
    ),
    (
        GEN,
        &[],
        (&[], &[], &[]),
        Status::Limit(LimitHit::Document(1)),
        "",
        "ssidx: limit: document 1 is over 8388608 bytes\n",
    ),
];

fn files_of(alloc: Global, names: &[Held]) -> Result<Vec<(Text, Vec<u8>)>, Fail> {
    let mut files = Vec::new(alloc);
    for (name, times, bytes) in names {
        files.push((Text::of(alloc, name)?, bytes.repeat(alloc, *times)?))?;
    }
    Ok(files)
}

// Runs each of these cases.
fn check_all<R>(rt: R, alloc: Global, cases: &[Case]) -> Result<(), Fail>
where
    R: Abort + Threads + Wait + Copy + Send + Sync + 'static,
{
    for (place, (words, names, failing, ends, printed, told)) in cases.iter().enumerate() {
        let words = words_of(alloc, words)?;
        let (reads, writes, tells) = failing;
        let mut shelf = MemShelf::new(files_of(alloc, names)?, reads.to_vec(alloc)?, 4096);
        let mut out = MemSink::new(alloc, 8192, writes.to_vec(alloc)?, 8)?;
        let mut err = MemSink::new(alloc, 8192, tells.to_vec(alloc)?, 4096)?;
        let status = run_open(rt, alloc, &words, &mut shelf, &mut out, &mut err)?;
        assert_eq!(rt; status, *ends, "case {place}");
        assert_eq!(rt; out.bytes(), printed.as_bytes(), "case {place}");
        assert_eq!(rt; err.bytes(), told.as_bytes(), "case {place}");
    }
    Ok(())
}

#[test]
fn what_fails_or_is_too_much_ends_the_run_and_is_told(rt: HostRuntime) -> Result<(), Fail> {
    check_all(rt, rt.alloc(), &CASES)
}

#[test]
fn a_script_ends_as_it_does_where_nothing_can_be_told(rt: HostRuntime) -> Result<(), Fail> {
    let alloc = rt.alloc();
    for (script, code) in [(b"jump\n", 8), (b"join\n", 7)] {
        let words = words_of(alloc, SCRIPT)?;
        let files = files_of(alloc, &[("s", 1, script.as_slice())])?;
        let mut shelf = MemShelf::new(files, Vec::new(alloc), 4096);
        let mut out = MemSink::new(alloc, 8192, Vec::new(alloc), 8)?;
        let mut err = MemSink::new(alloc, 8192, vec![in alloc; 0]?, 4096)?;
        let status = run_open(rt, alloc, &words, &mut shelf, &mut out, &mut err)?;
        assert_eq!(rt; status.code(), code);
        assert_eq!(rt; out.bytes(), b"".as_slice());
        assert_eq!(rt; err.bytes(), b"".as_slice());
    }
    Ok(())
}
