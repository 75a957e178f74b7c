// The program as a process: the top call on real files and streams, and the exit status.

use crate::{ArgumentsFault, FileShelf, MessageSink, StdSink};
use delegates::OpenGate;
use ss_top::{run, tell_memory, tell_usage};
use std::fs::Files;
use std::io::{Read, Write};
use std::process::ExitCode;
use std::sync::{Arc, Wait};
use std::thread::Threads;

const USAGE: u8 = 2;

const OUT_OF_MEMORY: u8 = 5;

/// Does what the words ask for, on files by their names, with `input` under the name `-`.
///
/// The exit status is the number of the top call's status.
pub fn run_process<R, I: Read + Drop, O: Write + Drop, E: Write + Drop>(
    rt: &R,
    words: Result<Vec<String>, ArgumentsFault>,
    input: I,
    out: O,
    err: E,
) -> ExitCode
where
    R: Files + AllocGlobal + Threads + Wait + Drop + Copy + Send + Sync + 'static,
{
    let mut err = MessageSink::new(err);
    let gate = Arc::new(rt.alloc(), OpenGate);
    let code = match (words, gate) {
        (Ok(words), Ok(gate)) => {
            let mut shelf = FileShelf::new(*rt, input);
            let status = run(
                rt,
                rt.alloc(),
                &words,
                &mut shelf,
                &mut StdSink::new(out),
                &mut err,
                gate,
            );
            status.code()
        }
        (Err(ArgumentsFault::NotText), _) => {
            tell_usage(&mut err);
            USAGE
        }
        (Err(ArgumentsFault::OutOfMemory), _) | (Ok(_), Err(_)) => {
            tell_memory(&mut err);
            OUT_OF_MEMORY
        }
    };
    // A stream that fails can't be told so, and no status depends on it.
    let _ = err.send();
    ExitCode::from(code)
}
