// Words that are no command, and the two texts of the program itself.
use crate::tests::{run_open, shelf_of, sink, words_of};
use ss_top::{GenFault, LimitHit, Status, tell_memory, tell_usage};
use std::test::Fail;

pub(crate) const USAGE: &str =
    "usage: ssidx index [--delegates N] [--mode lanes|batch] [--ring N] [--stop FILE] NAME...
       ssidx script [--delegates N] [--mode lanes|batch] [--ring N] [--trace] NAME
       ssidx replay [--delegates N] [--order] SCRIPT SCHEDULE
       ssidx gen [--delegates N] [--mode lanes|batch] [--ring N] DOCS WORDS SEED
";

#[test]
fn what_is_no_command_is_usage(rt: HostRuntime) -> Result<(), Fail> {
    let alloc = rt.alloc();
    // The tables of `command_line_tests` have all of them.
    let lines: [&[&str]; 9] = [
        &[],
        &["index"],
        &["index", "--ring", "0", "-"],
        &["index", "--ring", "1", "--ring", "1", "-"],
        &["script", "a", "b"],
        &["script", "--order", "s"],
        &["replay", "a", "b", "c"],
        &["replay", "--delegates", "0", "a", "b"],
        &["gen", "--stop", "s", "1", "1", "1"],
    ];
    for line in lines {
        let words = words_of(alloc, line)?;
        let mut shelf = shelf_of(alloc, Vec::new(alloc), &[], 1)?;
        let mut out = sink(alloc)?;
        let mut err = sink(alloc)?;
        let status = run_open(rt, alloc, &words, &mut shelf, &mut out, &mut err)?;
        assert_eq!(rt; status, Status::Usage);
        assert_eq!(rt; status.code(), 2);
        assert_eq!(rt; out.bytes(), b"".as_slice());
        assert_eq!(rt; err.bytes(), USAGE.as_bytes());
    }
    Ok(())
}

#[test]
fn the_two_texts_of_the_program_itself(rt: HostRuntime) -> Result<(), Fail> {
    let alloc = rt.alloc();
    let mut err = sink(alloc)?;
    tell_memory(&mut err);
    assert_eq!(rt; err.bytes(), b"ssidx: out of memory\n".as_slice());
    let mut err = sink(alloc)?;
    tell_usage(&mut err);
    assert_eq!(rt; err.bytes(), USAGE.as_bytes());
    Ok(())
}

#[test]
fn an_error_says_what_is_wrong(rt: HostRuntime) -> Result<(), Fail> {
    let alloc = rt.alloc();
    let limit = GenFault::Limit(LimitHit::Names(65_537));
    for (told, text) in [
        (format!(in alloc; "{limit}")?, "the documents pass a limit"),
        (
            format!(in alloc; "{}", GenFault::OutOfMemory)?,
            "out of memory",
        ),
    ] {
        assert_eq!(rt; told.as_str(), text);
    }
    Ok(())
}
