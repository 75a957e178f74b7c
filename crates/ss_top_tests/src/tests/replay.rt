// `replay`, by itself and as one of the program's commands, and the traces of scripts.
use crate::tests::usage::USAGE;
use crate::tests::{Case, check_cases, files_of, run_open, sink, words_of};
use ss_base::MemShelf;
use ss_top::{Status, TextFault, replay_run};
use std::test::Fail;

const SCRIPT: &[u8] = b"object x 5\nisolate\ndo x add 3\ndo x mul 2\njoin\nshow x\n";

const BROKEN: &[u8] = b"object x 5 own\nisolate\ndo x add 1 in 1\ndo x add 1 in 2\n";

// Two objects, whose operations may take effect in two orders.
const TWO: &[u8] =
    b"object x 5\nobject y 6\nisolate\ndo x add 1\ndo y add 1\ndo x mul 2\njoin\nshow x\n";

const TRACED: &str = "x 12\nepoch 1 set 0: 3 5\nepoch 1 set 1: 4\n";

const TWO_SETS: &str = "ssidx: line 4: object x is in set 1, not in set 2\n";

// No schedule changes what is shown.
const SCHEDULES: [&str; 4] = ["p 0 p 0", "", "p p p p p p", "p p p 0 p 0"];

// Lane 1 goes before lane 0.
const OTHER_ORDER: &str = "x 12\norder 0 1 2 4 3 5 6 7\n";

// The words and the schedule, and what is printed.
const ORDERS: [(&[&str], &str, &str); 4] = [
    (
        &["replay", "--order", "--delegates", "2", "s", "t"],
        "p p p p p 1",
        OTHER_ORDER,
    ),
    (
        &["replay", "--order", "--delegates", "2", "s", "t"],
        "",
        "x 12\norder 0 1 2 3 5 4 6 7\n",
    ),
    (
        &["replay", "s", "--delegates=1", "t", "--order"],
        "p p p p p 1",
        "x 12\norder 0 1 2 3 4 5 6 7\n",
    ),
    (&["replay", "s", "t"], "p p p p p 1", "x 12\n"),
];

const TRACES: [Case; 6] = [
    Case {
        words: &["script", "--trace", "s"],
        files: &[("s", TWO)],
        status: Status::Done,
        out: TRACED,
        err: "",
    },
    Case {
        words: &["script", "s", "--trace", "--delegates", "0"],
        files: &[("s", TWO)],
        status: Status::Done,
        out: TRACED,
        err: "",
    },
    Case {
        words: &["script", "--delegates=1", "--trace", "s"],
        files: &[("s", TWO)],
        status: Status::Done,
        out: TRACED,
        err: "",
    },
    Case {
        words: &["script", "--delegates=64", "--trace", "s"],
        files: &[("s", TWO)],
        status: Status::Done,
        out: TRACED,
        err: "",
    },
    // A script that ends within an epoch, and one that delegates nothing.
    Case {
        words: &["script", "--trace", "s"],
        files: &[("s", b"object x 5\nisolate\ndo x add 1\n")],
        status: Status::Done,
        out: "epoch 1 set 0: 2\n",
        err: "",
    },
    Case {
        words: &["script", "--trace", "s"],
        files: &[("s", b"object x 5\nshow x\n")],
        status: Status::Done,
        out: "x 5\n",
        err: "",
    },
];

#[test]
fn a_trace_is_the_same_with_any_delegates(rt: HostRuntime) -> Result<(), Fail> {
    check_cases(rt, rt.alloc(), &TRACES)
}

#[test]
fn a_replay_shows_the_same_under_every_schedule(rt: HostRuntime) -> Result<(), Fail> {
    let alloc = rt.alloc();
    let words = words_of(alloc, &["replay", "s", "t"])?;
    for schedule in &SCHEDULES {
        let files = files_of(alloc, &[("s", SCRIPT), ("t", schedule.as_bytes())])?;
        let mut shelf = MemShelf::new(files, Vec::new(alloc), 4096);
        let mut out = sink(alloc)?;
        let mut err = sink(alloc)?;
        let status = replay_run(alloc, &words, &mut shelf, &mut out, &mut err);
        assert_eq!(rt; status, Status::Done, "at {schedule}");
        assert_eq!(rt; out.bytes(), b"x 16\n".as_slice(), "at {schedule}");
        assert_eq!(rt; err.bytes(), b"".as_slice(), "at {schedule}");
    }
    Ok(())
}

#[test]
fn an_order_follows_what_is_shown(rt: HostRuntime) -> Result<(), Fail> {
    let alloc = rt.alloc();
    for (words, schedule, printed) in &ORDERS {
        let words = words_of(alloc, words)?;
        let files = files_of(alloc, &[("s", TWO), ("t", schedule.as_bytes())])?;
        let mut shelf = MemShelf::new(files, Vec::new(alloc), 4096);
        let mut out = sink(alloc)?;
        let mut err = sink(alloc)?;
        let status = replay_run(alloc, &words, &mut shelf, &mut out, &mut err);
        assert_eq!(rt; status, Status::Done, "at {schedule}");
        assert_eq!(rt; out.bytes(), printed.as_bytes(), "at {schedule}");
        assert_eq!(rt; err.bytes(), b"".as_slice(), "at {schedule}");
    }
    Ok(())
}

const REPLAYS: [Case; 3] = [
    Case {
        words: &["replay", "--order", "--delegates", "2", "s", "t"],
        files: &[("s", TWO), ("t", b"p p p p p 1")],
        status: Status::Done,
        out: OTHER_ORDER,
        err: "",
    },
    Case {
        words: &["replay", "s", "t"],
        files: &[("s", SCRIPT), ("t", b"p 64")],
        status: Status::Text(TextFault::Schedule { word: 2 }),
        out: "",
        err: "ssidx: schedule word 2: not p or a lane\n",
    },
    Case {
        words: &["replay", "-", "-"],
        files: &[("-", b"")],
        status: Status::Done,
        out: "",
        err: "",
    },
];

#[test]
fn a_replay_is_a_command_of_the_program(rt: HostRuntime) -> Result<(), Fail> {
    check_cases(rt, rt.alloc(), &REPLAYS)
}

// Neither an order nor a trace stands behind what was shown before a break.
#[test]
fn a_break_is_told_and_ends_what_is_shown(rt: HostRuntime) -> Result<(), Fail> {
    let alloc = rt.alloc();
    let lines: [&[&str]; 3] = [
        &["replay", "s", "t"],
        &["replay", "--order", "s", "t"],
        &["script", "--trace", "s"],
    ];
    for line in lines {
        let words = words_of(alloc, line)?;
        let files = files_of(alloc, &[("s", BROKEN), ("t", b"")])?;
        let mut shelf = MemShelf::new(files, Vec::new(alloc), 4096);
        let mut out = sink(alloc)?;
        let mut err = sink(alloc)?;
        let status = run_open(rt, alloc, &words, &mut shelf, &mut out, &mut err)?;
        assert_eq!(rt; status.code(), 7);
        assert_eq!(rt; out.bytes(), b"".as_slice());
        assert_eq!(rt; err.bytes(), TWO_SETS.as_bytes());
    }
    Ok(())
}

#[test]
fn a_bad_script_is_told_before_a_bad_schedule(rt: HostRuntime) -> Result<(), Fail> {
    let alloc = rt.alloc();
    let words = words_of(alloc, &["replay", "s", "t"])?;
    let files = files_of(alloc, &[("s", b"# none\njump\n"), ("t", b"q")])?;
    let mut shelf = MemShelf::new(files, Vec::new(alloc), 4096);
    let mut out = sink(alloc)?;
    let mut err = sink(alloc)?;
    let status = replay_run(alloc, &words, &mut shelf, &mut out, &mut err);
    assert_eq!(rt; status.code(), 8);
    assert_eq!(rt; out.bytes(), b"".as_slice());
    assert_eq!(rt; err.bytes(), b"ssidx: line 2: unknown command\n".as_slice());
    Ok(())
}

#[test]
fn other_words_are_no_replay(rt: HostRuntime) -> Result<(), Fail> {
    let alloc = rt.alloc();
    let lines: [&[&str]; 6] = [
        &[],
        &["script", "s"],
        &["index", "s"],
        &["gen", "1", "1", "1"],
        &["replay", "s"],
        &["replay", "--trace", "s", "t"],
    ];
    for line in lines {
        let words = words_of(alloc, line)?;
        let files = files_of(alloc, &[("s", SCRIPT), ("t", b"")])?;
        let mut shelf = MemShelf::new(files, Vec::new(alloc), 4096);
        let mut out = sink(alloc)?;
        let mut err = sink(alloc)?;
        let status = replay_run(alloc, &words, &mut shelf, &mut out, &mut err);
        assert_eq!(rt; status, Status::Usage);
        assert_eq!(rt; out.bytes(), b"".as_slice());
        assert_eq!(rt; err.bytes(), USAGE.as_bytes());
    }
    Ok(())
}

#[test]
fn a_bad_word_is_an_error_that_says_so(rt: HostRuntime) -> Result<(), Fail> {
    let fault = TextFault::Schedule { word: 2 };
    let told = format!(in rt.alloc(); "{fault}")?;
    assert_eq!(rt; told.as_str(), "schedule word 2: not p or a lane");
    Ok(())
}
