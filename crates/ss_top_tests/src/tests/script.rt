// `script`: what scripts show, and where they stop.
use crate::tests::{run_open, shelf_of, sink, words_of};
use ss_base::{MemShelf, MemSink, Text};
use ss_top::{LimitHit, Status, Which};
use std::alloc::Global;
use std::test::Fail;

// A script, and what a run over it writes to `out` and to `err` and ends with.
const SCRIPTS: [(&str, &str, &str, u8); 27] = [
    (
        "object x 5\nisolate\ndo x add 3\ndo x mul 2\njoin\nshow x\n",
        "x 16\n",
        "",
        0,
    ),
    (
        "object x 5 own\nisolate\ndo x add 1 in 1\ndo x add 1 in 2\n",
        "",
        "ssidx: line 4: object x is in set 1, not in set 2\n",
        7,
    ),
    (
        "object x 2\nobject y 3\nisolate\nmix x y\ndo y add 1\n",
        "",
        "ssidx: line 5: object y is read-shared\n",
        7,
    ),
    (
        "object x 2\nobject y 3\nisolate\nmix x y\njoin\nisolate\ndo y add 1\njoin\nshow x\nshow y\n",
        "x 65\ny 4\n",
        "",
        0,
    ),
    (
        "object x 2\nobject y 3\nisolate\ndo y add 1\nmix x y\n",
        "",
        "ssidx: line 5: object y is private to set 1\n",
        7,
    ),
    (
        "object x 2\nobject y 3\nisolate\nmix x x\ndo y add 1\n",
        "",
        "ssidx: line 4: object x reads itself\n",
        7,
    ),
    (
        "object x 5\nisolate\ndo x add 1\nshow x\ndo x add 1\njoin\nshow x\n",
        "x 6\nx 7\n",
        "",
        0,
    ),
    (
        "object x 2\nobject y 3\nisolate\nmix x y\njoin\nisolate\ndo y set 4\njoin\nisolate\nmix x y\n\
         join\nshow x\n",
        "x 2019\n",
        "",
        0,
    ),
    (
        "object a 1\nobject b 2\nobject c 3\nisolate\ndo a give\ndo b give\nshow a\ndo c give\njoin\n\
         total\n",
        "a 1\ntotal 6\n",
        "",
        0,
    ),
    (
        "object x 1\njoin\n",
        "",
        "ssidx: line 2: no epoch of isolation is open\n",
        7,
    ),
    (
        "isolate\ntotal\n",
        "",
        "ssidx: line 2: an epoch of isolation is open\n",
        7,
    ),
    (
        "fixed f 1\nisolate\ndo f give\n",
        "",
        "ssidx: line 3: object f is read-only\n",
        7,
    ),
    (
        "object x 7\nwrite x mul 3\nshow x\ntotal\n",
        "x 21\ntotal 0\n",
        "",
        0,
    ),
    (
        "object x 5\nobject y 6\nisolate\ndo x add 1\ndo y add 1\ndo x mul 2\njoin\nshow x\n",
        "x 12\n",
        "",
        0,
    ),
    // Showing an object frees it of its set, but not of its readers.
    (
        "object x 5 own\nisolate\ndo x add 1 in 1\nshow x\ndo x mul 2 in 2\nshow x\njoin\n",
        "x 6\nx 12\n",
        "",
        0,
    ),
    (
        "object x 2\nobject y 3\nisolate\ndo y add 1\nshow y\nmix x y\njoin\nshow x\n",
        "y 4\nx 66\n",
        "",
        0,
    ),
    (
        "object x 2\nobject y 3\nisolate\nmix x y\nshow y\ndo y add 1\n",
        "y 3\n",
        "ssidx: line 6: object y is read-shared\n",
        7,
    ),
    // What was shown before the break is printed, and what stands behind it isn't.
    (
        "object x 5\nshow x\njoin\nshow x\n",
        "x 5\n",
        "ssidx: line 3: no epoch of isolation is open\n",
        7,
    ),
    ("", "", "", 0),
    ("# nothing\n\nisolate", "", "", 0),
    ("jump", "", "ssidx: line 1: unknown command\n", 8),
    (
        "show",
        "",
        "ssidx: line 1: wrong words for this command\n",
        8,
    ),
    ("object 9x 1", "", "ssidx: line 1: bad name\n", 8),
    ("show x", "", "ssidx: line 1: unknown name\n", 8),
    ("object x 4294967296", "", "ssidx: line 1: bad number\n", 8),
    (
        "object x 1\nobject x y",
        "",
        "ssidx: line 2: name is taken\n",
        8,
    ),
    // Nothing of a script is shown whose text is wrong further down.
    (
        "object x 1\nshow x\njump\n",
        "",
        "ssidx: line 3: unknown command\n",
        8,
    ),
];

// A shelf with one script under `s`, read in pieces.
fn script_shelf(alloc: Global, script: Vec<u8>) -> Result<MemShelf, Fail> {
    let mut files = Vec::new(alloc);
    files.push((Text::of(alloc, "s")?, script))?;
    Ok(MemShelf::new(files, Vec::new(alloc), 4096))
}

#[test]
fn scripts_are_run_up_to_the_first_break(rt: HostRuntime) -> Result<(), Fail> {
    let alloc = rt.alloc();
    let words = words_of(alloc, &["script", "s"])?;
    for (script, shown, told, code) in &SCRIPTS {
        let mut shelf = script_shelf(alloc, script.as_bytes().to_vec(alloc)?)?;
        let mut out = sink(alloc)?;
        let mut err = sink(alloc)?;
        let status = run_open(rt, alloc, &words, &mut shelf, &mut out, &mut err)?;
        assert_eq!(rt; out.bytes(), shown.as_bytes(), "at {script}");
        assert_eq!(rt; err.bytes(), told.as_bytes(), "at {script}");
        assert_eq!(rt; status.code(), *code, "at {script}");
    }
    Ok(())
}

#[test]
fn scripts_are_limited_by_bytes_and_then_by_lines(rt: HostRuntime) -> Result<(), Fail> {
    let alloc = rt.alloc();
    let words = words_of(alloc, &["script", "s"])?;
    let rows = [
        (b'\n', 65536usize, Status::Done, ""),
        (
            b'\n',
            65537,
            Status::Limit(LimitHit::ScriptLines),
            "ssidx: limit: script is over 65536 lines\n",
        ),
        (b' ', 1048576, Status::Done, ""),
        (
            b'\n',
            1048577,
            Status::Limit(LimitHit::ScriptBytes),
            "ssidx: limit: script is over 1048576 bytes\n",
        ),
    ];
    for (byte, count, ends, told) in rows {
        let mut shelf = script_shelf(alloc, vec![in alloc; byte; count]?)?;
        let mut out = sink(alloc)?;
        let mut err = sink(alloc)?;
        let status = run_open(rt, alloc, &words, &mut shelf, &mut out, &mut err)?;
        assert_eq!(rt; status, ends, "at {count}");
        assert_eq!(rt; out.bytes(), b"".as_slice(), "at {count}");
        assert_eq!(rt; err.bytes(), told.as_bytes(), "at {count}");
    }
    Ok(())
}

#[test]
fn a_script_that_is_not_there_is_named(rt: HostRuntime) -> Result<(), Fail> {
    let alloc = rt.alloc();
    let words = words_of(alloc, &["script", "no such script"])?;
    let mut shelf = script_shelf(alloc, b"total\n".to_vec(alloc)?)?;
    let mut out = sink(alloc)?;
    let mut err = sink(alloc)?;
    let status = run_open(rt, alloc, &words, &mut shelf, &mut out, &mut err)?;
    assert_eq!(rt; status, Status::ReadFault(Which::Script));
    assert_eq!(rt; out.bytes(), b"".as_slice());
    assert_eq!(rt;
        err.bytes(),
        b"ssidx: cannot read no such script\n".as_slice()
    );
    Ok(())
}

#[test]
fn a_bad_line_is_an_error_that_says_so(rt: HostRuntime) -> Result<(), Fail> {
    let alloc = rt.alloc();
    let words = words_of(alloc, &["script", "s"])?;
    let mut shelf = script_shelf(alloc, b"total\njump\n".to_vec(alloc)?)?;
    let mut out = sink(alloc)?;
    let mut err = sink(alloc)?;
    let status = run_open(rt, alloc, &words, &mut shelf, &mut out, &mut err)?;
    let told = match status {
        Status::Text(fault) => format!(in alloc; "{fault}")?,
        _ => String::new(alloc),
    };
    assert_eq!(rt; told.as_str(), "line 2: unknown command");
    Ok(())
}

#[test]
fn a_failed_write_comes_before_a_break(rt: HostRuntime) -> Result<(), Fail> {
    let alloc = rt.alloc();
    let words = words_of(alloc, &["script", "-"])?;
    // The first script breaks and the second doesn't.
    for script in ["object x 57\nshow x\njoin\n", "object x 57\nshow x\n"] {
        let mut shelf = shelf_of(alloc, script.as_bytes().to_vec(alloc)?, &[], 4096)?;
        let mut out = MemSink::new(alloc, 8192, vec![in alloc; 1]?, 3)?;
        let mut err = sink(alloc)?;
        let status = run_open(rt, alloc, &words, &mut shelf, &mut out, &mut err)?;
        assert_eq!(rt; status, Status::WriteFault, "at {script}");
        assert_eq!(rt; out.bytes(), b"x 5".as_slice(), "at {script}");
    }
    Ok(())
}
