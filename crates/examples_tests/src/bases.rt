// The bases of texts in blocks, by values worked out by hand.
ghost use Rattle.std.specs.Prelude.{[]};
ghost use Rattle.delegation.specs.Runtimes.{IsAfter};
ghost use Rattle.examples.specs.Histograms.{part_meaning};

use batch_rt::Batch;
use class_laws::{Both, WrapSum};
use delegates::OpenGate;
use delegation::{Delegation, Plain};
use examples::{Part, Spelling, histogram};
use lane_rt::Lanes;
use ss_base::limits::OBJECTS;
use std::alloc::Global;
use std::process::Abort;
use std::sync::{Arc, Wait};
use std::test::Fail;
use std::thread::Threads;

const CAPITALS: Spelling = Spelling {
    a: b'A',
    c: b'C',
    g: b'G',
    t: b'T',
};

// In this one U stands in the place of T, and two bases have one letter.
const ODD: Spelling = Spelling {
    a: b'a',
    c: b'n',
    g: b'n',
    t: b'u',
};

struct Case {
    name: &'static str,
    spelling: Spelling,
    blocks: &'static [&'static [u8]],
    // Of A, C, G and T.
    counts: [u64; 4],
}

const CASES: &[Case] = &[
    Case {
        name: "no block",
        spelling: CAPITALS,
        blocks: &[],
        counts: [0, 0, 0, 0],
    },
    Case {
        name: "an empty block",
        spelling: CAPITALS,
        blocks: &[b""],
        counts: [0, 0, 0, 0],
    },
    Case {
        name: "one block",
        spelling: CAPITALS,
        blocks: &[b"GATTACA"],
        counts: [3, 1, 1, 2],
    },
    Case {
        name: "the same in blocks of all lengths",
        spelling: CAPITALS,
        blocks: &[b"GAT", b"", b"T", b"ACA"],
        counts: [3, 1, 1, 2],
    },
    Case {
        name: "other bytes aren't counted",
        spelling: CAPITALS,
        blocks: &[b"gattaca", b"N\nA", b"\xffT"],
        counts: [1, 0, 0, 1],
    },
    Case {
        name: "another spelling",
        spelling: ODD,
        blocks: &[b"auGu", b"nna", b"TAC"],
        counts: [2, 2, 2, 2],
    },
];

fn passes<D: Delegation<Part> + Drop, R: Threads + Wait + Abort + Copy + Send + Sync + 'static>(
    rt: &R,
    alloc: Global,
    d: D,
    case: &Case,
) -> Result<(), Fail>
    requires { IsAfter part_meaning (D.seen d) [] }
{
    let mut blocks = Vec::new(alloc);
    for block in case.blocks {
        blocks.push(block.to_vec(alloc)?)?;
    }
    assert!(rt; blocks.len() < OBJECTS);
    let Both(Both(a, c), Both(g, t)) = histogram(rt, alloc, d, case.spelling, blocks)?;
    assert_eq!(rt; a, WrapSum(case.counts[0]), "{}", case.name);
    assert_eq!(rt; c, WrapSum(case.counts[1]), "{}", case.name);
    assert_eq!(rt; g, WrapSum(case.counts[2]), "{}", case.name);
    assert_eq!(rt; t, WrapSum(case.counts[3]), "{}", case.name);
    Ok(())
}

#[test]
fn bases_are_counted_without_delegates(rt: HostRuntime) -> Result<(), Fail> {
    for case in CASES {
        passes(&rt, rt.alloc(), Plain::new(rt.alloc())?, case)?;
    }
    Ok(())
}

#[test]
fn bases_are_counted_by_pending_lists(rt: HostRuntime) -> Result<(), Fail> {
    for delegates in [1, 2, 3, 64] {
        assert!(rt; 1 <= delegates && delegates <= 64);
        for case in CASES {
            passes(&rt, rt.alloc(), Batch::new(rt.alloc(), delegates)?, case)?;
        }
    }
    Ok(())
}

#[test]
fn bases_are_counted_in_threads(rt: HostRuntime) -> Result<(), Fail> {
    for delegates in [1, 2, 3, 64] {
        assert!(rt; 1 <= delegates && delegates <= 64);
        for case in CASES {
            let gate = Arc::new(rt.alloc(), OpenGate)?;
            let d = Lanes::new(rt.alloc(), delegates, 2, gate)?;
            passes(&rt, rt.alloc(), d, case)?;
        }
    }
    Ok(())
}
