//! The program once more, on a script that the partition rule refuses.
#![tactic(auto)]

use edge::{run_process, words_of};
use std::process::ExitCode;

fn main(rt: HostRuntime) -> ExitCode {
    let words = words_of(&rt);
    run_process(&rt, words, rt.stdin(), rt.stdout(), rt.stderr())
}
