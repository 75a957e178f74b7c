// Worked cases of the top call, a file for each command. What no clause says is that memory is found,
// what the texts look like, and which calls of a shelf or a sink in memory fail.
ghost use Rattle.std.specs.Prelude.{◌<◌};

mod faults;
mod generated;
mod index;
mod modes;
mod replay;
mod script;
mod usage;

use delegates::OpenGate;
use ss_base::{MemShelf, MemSink, Text};
use ss_top::{Status, run};
use std::alloc::Global;
use std::process::Abort;
use std::sync::{Arc, Wait};
use std::test::Fail;
use std::thread::Threads;

// A shelf with one document under `-`.
pub(crate) fn shelf_of(
    alloc: Global,
    document: Vec<u8>,
    fail: &[u64],
    chunk: usize,
) -> Result<MemShelf, Fail>
    requires { 0 < chunk }
{
    let mut files = Vec::new(alloc);
    files.push((Text::of(alloc, "-")?, document))?;
    Ok(MemShelf::new(files, fail.to_vec(alloc)?, chunk))
}

// A sink with ample room.
pub(crate) fn sink(alloc: Global) -> Result<MemSink, Fail> {
    Ok(MemSink::new(alloc, 8192, Vec::new(alloc), 4096)?)
}

pub(crate) fn words_of(alloc: Global, words: &[&str]) -> Result<Vec<String>, Fail> {
    let mut list = Vec::new(alloc);
    for word in words {
        list.push(String::from_str(alloc, word)?)?;
    }
    Ok(list)
}

// Runs these words, with delegates that nothing holds up.
pub(crate) fn run_open<R>(
    rt: R,
    alloc: Global,
    words: &[String],
    shelf: &mut MemShelf,
    out: &mut MemSink,
    err: &mut MemSink,
) -> Result<Status, Fail>
where
    R: Threads + Wait + Copy + Send + Sync + 'static,
{
    let gate = Arc::new(alloc, OpenGate)?;
    Ok(run(&rt, alloc, words, shelf, out, err, gate))
}

// A run over files in memory, and what it ends with and writes.
pub(crate) struct Case {
    pub words: &'static [&'static str],
    pub files: &'static [(&'static str, &'static [u8])],
    pub status: Status,
    pub out: &'static str,
    pub err: &'static str,
}

// Runs these words over these files, and compares what it ends with and writes.
pub(crate) fn check_run<R>(
    rt: R,
    alloc: Global,
    words: &[String],
    files: Vec<(Text, Vec<u8>)>,
    wanted: (Status, &str, &str),
) -> Result<(), Fail>
where
    R: Abort + Threads + Wait + Copy + Send + Sync + 'static,
{
    let mut shelf = MemShelf::new(files, Vec::new(alloc), 4096);
    let mut out = sink(alloc)?;
    let mut err = sink(alloc)?;
    let status = run_open(rt, alloc, words, &mut shelf, &mut out, &mut err)?;
    let (ends, printed, told) = wanted;
    assert_eq!(rt; status, ends, "at {told}");
    assert_eq!(rt; out.bytes(), printed.as_bytes(), "at {told}");
    assert_eq!(rt; err.bytes(), told.as_bytes(), "at {told}");
    Ok(())
}

// Runs each of these cases.
pub(crate) fn check_cases<R>(rt: R, alloc: Global, cases: &[Case]) -> Result<(), Fail>
where
    R: Abort + Threads + Wait + Copy + Send + Sync + 'static,
{
    for case in cases {
        let words = words_of(alloc, case.words)?;
        let files = files_of(alloc, case.files)?;
        check_run(rt, alloc, &words, files, (case.status, case.out, case.err))?;
    }
    Ok(())
}

// These files in memory.
pub(crate) fn files_of(
    alloc: Global,
    files: &[(&str, &[u8])],
) -> Result<Vec<(Text, Vec<u8>)>, Fail> {
    let mut made = Vec::new(alloc);
    for (name, bytes) in files {
        made.push((Text::of(alloc, name)?, bytes.to_vec(alloc)?))?;
    }
    Ok(made)
}
