// The same text with any number of delegates, in each mode and with room of any size; and delegates
// that run at once.
use crate::tests::{Case, check_cases, check_run, files_of, run_open, sink, words_of};
use delegates::PairGate;
use ss_base::{MemShelf, SetId};
use ss_top::{Status, run};
use std::alloc::Global;
use std::process::Abort;
use std::sync::{Arc, Wait};
use std::test::Fail;
use std::thread::Threads;

type Files = &'static [(&'static str, &'static [u8])];

// What is run in each way: its words, its files, and what is printed.
const EACH_WAY: [(&[&str], Files, &str); 3] = [
    (
        &["index", "p", "q"],
        &[("p", b"b a"), ("q", b"a")],
        "documents 2\nwords 3\nlongest 1\nterms 2\na 2 1:2;2:1\nb 1 1:1\n",
    ),
    (
        &["script", "s"],
        &[(
            "s",
            b"object a 1\nobject b 2\nobject c 3\nisolate\ndo a give\ndo b give\nshow a\n\
              do c give\njoin\ntotal\n",
        )],
        "a 1\ntotal 6\n",
    ),
    (
        &["script", "s"],
        &[(
            "s",
            b"object x 2\nobject y 3\nisolate\nmix x y\njoin\nisolate\ndo y set 4\njoin\nisolate\n\
              mix x y\njoin\nshow x\n",
        )],
        "x 2019\n",
    ),
];

// Runs each in this way.
fn check_way<R>(rt: R, alloc: Global, way: &[&str]) -> Result<(), Fail>
where
    R: Abort + Threads + Wait + Copy + Send + Sync + 'static,
{
    for (command, files, printed) in &EACH_WAY {
        let mut words = words_of(alloc, command)?;
        for word in way {
            words.push(String::from_str(alloc, word)?)?;
        }
        let files = files_of(alloc, files)?;
        check_run(rt, alloc, &words, files, (Status::Done, *printed, ""))?;
    }
    Ok(())
}

#[test]
fn the_same_is_printed_however_calls_are_run(rt: HostRuntime) -> Result<(), Fail> {
    for delegates in ["0", "1", "3", "64"] {
        for mode in ["lanes", "batch"] {
            for ring in ["1", "256"] {
                let way = ["--delegates", delegates, "--mode", mode, "--ring", ring];
                check_way(rt, rt.alloc(), &way)?;
            }
        }
    }
    Ok(())
}

const CASES: [Case; 4] = [
    // A name behind `--` may begin with `-`.
    Case {
        words: &["index", "--ring=1", "--delegates", "2", "--", "-x"],
        files: &[("-x", b"a")],
        status: Status::Done,
        out: "documents 1\nwords 1\nlongest 1\nterms 1\na 1 1:1\n",
        err: "",
    },
    Case {
        words: &["index", "p", "--delegates=3", "--stop=s"],
        files: &[("s", b"The"), ("p", b"the cat the")],
        status: Status::Done,
        out: "documents 1\nwords 1\nlongest 3\nterms 1\ncat 1 1:2\n",
        err: "",
    },
    Case {
        words: &["script", "--delegates", "2", "s"],
        files: &[(
            "s",
            b"object a 1\nobject b 2\nobject c 3\nisolate\ndo a give\ndo b give\nshow a\n\
              do c give\njoin\ntotal\n",
        )],
        status: Status::Done,
        out: "a 1\ntotal 6\n",
        err: "",
    },
    Case {
        words: &["script", "--delegates", "64", "s"],
        files: &[(
            "s",
            b"object x 5\nisolate\ndo x add 3\ndo x mul 2\njoin\nshow x\n",
        )],
        status: Status::Done,
        out: "x 16\n",
        err: "",
    },
];

#[test]
fn delegates_change_nothing(rt: HostRuntime) -> Result<(), Fail> {
    check_cases(rt, rt.alloc(), &CASES)
}

// Sets that a lane shares are different sets still.
#[test]
fn a_break_is_told_the_same_with_64_delegates(rt: HostRuntime) -> Result<(), Fail> {
    let alloc = rt.alloc();
    let words = words_of(alloc, &["script", "--delegates", "64", "s"])?;
    let files = files_of(
        alloc,
        &[(
            "s",
            b"object x 5 own\nisolate\ndo x add 1 in 1\ndo x add 1 in 65\n",
        )],
    )?;
    let mut shelf = MemShelf::new(files, Vec::new(alloc), 4096);
    let mut out = sink(alloc)?;
    let mut err = sink(alloc)?;
    let status = run_open(rt, alloc, &words, &mut shelf, &mut out, &mut err)?;
    assert_eq!(rt; status.code(), 7);
    assert_eq!(rt; out.bytes(), b"".as_slice());
    assert_eq!(rt;
        err.bytes(),
        b"ssidx: line 4: object x is in set 1, not in set 65\n".as_slice()
    );
    Ok(())
}

// How often a run looks for one of the other set.
const LOOKS: u64 = 10_000_000;

const TWO_SETS: &[u8] =
    b"object x 5\nobject y 6\nisolate\ndo x add 1\ndo y add 1\njoin\nshow x\nshow y\n";

// Whether runs of the script's two sets met, with so many delegates.
fn have_met<R>(rt: R, alloc: Global, delegates: &str) -> Result<bool, Fail>
where
    R: Abort + Threads + Wait + Copy + Send + Sync + 'static,
{
    let gate = Arc::new(alloc, PairGate::new(SetId(0), SetId(1), LOOKS))?;
    let words = words_of(alloc, &["script", "--delegates", delegates, "s"])?;
    let files = files_of(alloc, &[("s", TWO_SETS)])?;
    let mut shelf = MemShelf::new(files, Vec::new(alloc), 4096);
    let mut out = sink(alloc)?;
    let mut err = sink(alloc)?;
    let passed = Arc::try_clone(&gate)?;
    let status = run(&rt, alloc, &words, &mut shelf, &mut out, &mut err, passed);
    assert_eq!(rt; status, Status::Done);
    assert_eq!(rt; out.bytes(), b"x 6\ny 7\n".as_slice());
    Ok(gate.both_passed())
}

#[test]
fn two_sets_meet_in_two_lanes_and_not_in_one(rt: HostRuntime) -> Result<(), Fail> {
    assert!(rt; have_met(rt, rt.alloc(), "2")?);
    assert!(rt; !have_met(rt, rt.alloc(), "1")?);
    Ok(())
}
