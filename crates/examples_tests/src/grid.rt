// Rows of grids after some rounds, by values worked out by hand.
ghost use Rattle.std.specs.Prelude.{[]};
ghost use Rattle.delegation.specs.Runtimes.{IsAfter};
ghost use Rattle.examples.specs.Grids.{row_meaning};

use batch_rt::Batch;
use delegates::OpenGate;
use delegation::{Delegation, Plain};
use examples::{Row, spread};
use lane_rt::Lanes;
use std::alloc::Global;
use std::process::Abort;
use std::sync::{Arc, Wait};
use std::test::Fail;
use std::thread::Threads;

struct Case {
    name: &'static str,
    rows: &'static [&'static [u64]],
    rounds: u32,
    after: &'static [&'static [u64]],
}

const CASES: &[Case] = &[
    Case {
        name: "no row",
        rows: &[],
        rounds: 3,
        after: &[],
    },
    Case {
        name: "no round",
        rows: &[&[1, 2], &[3, 4]],
        rounds: 0,
        after: &[&[1, 2], &[3, 4]],
    },
    Case {
        // Nothing is above it, and nothing below.
        name: "one row",
        rows: &[&[5, 6]],
        rounds: 3,
        after: &[&[5, 6]],
    },
    Case {
        // 1 + 2, and 2 + 1; 10 + 20, and 20 + 10.
        name: "two rows",
        rows: &[&[1, 10], &[2, 20]],
        rounds: 1,
        after: &[&[3, 30], &[3, 30]],
    },
    Case {
        // Row by row 0 + 0, 0 + 0 + 1, 1 + 0 + 0, 0 + 1 + 0 and 0 + 0.
        name: "a one in the middle, after one round",
        rows: &[&[0], &[0], &[1], &[0], &[0]],
        rounds: 1,
        after: &[&[0], &[1], &[1], &[1], &[0]],
    },
    Case {
        // Of 0, 1, 1, 1 and 0 there come 0 + 1, 1 + 0 + 1, 1 + 1 + 1, 1 + 1 + 0 and 0 + 1. Had a row read
        // the new values of the row above, the second would be 1 + 1 + 1.
        name: "a one in the middle, after two rounds",
        rows: &[&[0], &[0], &[1], &[0], &[0]],
        rounds: 2,
        after: &[&[1], &[2], &[3], &[2], &[1]],
    },
    Case {
        // Of 1, 2, 3, 2 and 1 there come 1 + 2, 2 + 1 + 3, 3 + 2 + 2, 2 + 3 + 1 and 1 + 2.
        name: "a one in the middle, after three rounds",
        rows: &[&[0], &[0], &[1], &[0], &[0]],
        rounds: 3,
        after: &[&[3], &[6], &[7], &[6], &[3]],
    },
    Case {
        // The first row has one cell, so it takes 1 of the two below; the second cell of the second row
        // has no neighbour; the last row has no cell.
        name: "rows of different lengths",
        rows: &[&[1], &[1, 1], &[]],
        rounds: 1,
        after: &[&[2], &[2, 1], &[]],
    },
    Case {
        // 2^64 - 1 + 2 is 1 modulo 2^64, and 2^64 - 1 + 0 stays.
        name: "sums past the end of a cell",
        rows: &[&[u64::MAX, u64::MAX], &[2, 0]],
        rounds: 1,
        after: &[&[1, u64::MAX], &[1, u64::MAX]],
    },
];

fn passes<D: Delegation<Row> + Drop, R: Threads + Wait + Abort + Copy + Send + Sync + 'static>(
    rt: &R,
    alloc: Global,
    d: D,
    case: &Case,
) -> Result<(), Fail>
    requires { IsAfter row_meaning (D.seen d) [] }
{
    let mut rows = Vec::new(alloc);
    for cells in case.rows {
        rows.push(Row::new(cells.to_vec(alloc)?))?;
    }
    assert!(rt; rows.len() <= 524_286);
    let after = spread(rt, alloc, d, rows, case.rounds)?;
    assert_eq!(rt; after.len(), case.after.len(), "{}", case.name);
    for (row, cells) in after.iter().zip(case.after) {
        assert_eq!(rt; row.cells(), *cells, "{}", case.name);
    }
    Ok(())
}

#[test]
fn rows_are_spread_without_delegates(rt: HostRuntime) -> Result<(), Fail> {
    for case in CASES {
        passes(&rt, rt.alloc(), Plain::new(rt.alloc())?, case)?;
    }
    Ok(())
}

#[test]
fn rows_are_spread_by_pending_lists(rt: HostRuntime) -> Result<(), Fail> {
    for delegates in [1, 2, 3, 64] {
        assert!(rt; 1 <= delegates && delegates <= 64);
        for case in CASES {
            passes(&rt, rt.alloc(), Batch::new(rt.alloc(), delegates)?, case)?;
        }
    }
    Ok(())
}

#[test]
fn rows_are_spread_in_threads(rt: HostRuntime) -> Result<(), Fail> {
    for delegates in [1, 2, 3, 64] {
        assert!(rt; 1 <= delegates && delegates <= 64);
        for case in CASES {
            let gate = Arc::new(rt.alloc(), OpenGate)?;
            let d = Lanes::new(rt.alloc(), delegates, 2, gate)?;
            passes(&rt, rt.alloc(), d, case)?;
        }
    }
    Ok(())
}
