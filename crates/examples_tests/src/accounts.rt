// Balances after transfers, by values worked out by hand.
ghost use Rattle.std.specs.Prelude.{[]};
ghost use Rattle.delegation.specs.Runtimes.{IsAfter};
ghost use Rattle.examples.specs.Accounts.{holding_meaning};

use batch_rt::Batch;
use delegates::OpenGate;
use delegation::{Delegation, Plain};
use examples::{Fees, Holding, Transfer, are_between, settle};
use lane_rt::Lanes;
use ss_base::limits::OBJECTS;
use std::alloc::Global;
use std::process::Abort;
use std::sync::{Arc, Wait};
use std::test::Fail;
use std::thread::Threads;

struct Case {
    name: &'static str,
    fees: Fees,
    balances: &'static [u64],
    transfers: &'static [Transfer],
    settled: &'static [u64],
}

const FREE: Fees = Fees {
    debit: 0,
    credit: 0,
};

const CASES: &[Case] = &[
    Case {
        name: "no account",
        fees: FREE,
        balances: &[],
        transfers: &[],
        settled: &[],
    },
    Case {
        name: "no transfer",
        fees: FREE,
        balances: &[10, 0],
        transfers: &[],
        settled: &[10, 0],
    },
    Case {
        name: "both bookings cost",
        fees: Fees {
            debit: 1,
            credit: 2,
        },
        balances: &[10, 5],
        transfers: &[Transfer {
            from: 0,
            to: 1,
            amount: 4,
        }],
        settled: &[5, 7],
    },
    Case {
        name: "a debit takes all that there is, and then comes a credit",
        fees: FREE,
        balances: &[3, 0],
        transfers: &[
            Transfer {
                from: 0,
                to: 1,
                amount: 5,
            },
            Transfer {
                from: 1,
                to: 0,
                amount: 5,
            },
        ],
        settled: &[5, 0],
    },
    Case {
        name: "the same transfers the other way round",
        fees: FREE,
        balances: &[3, 0],
        transfers: &[
            Transfer {
                from: 1,
                to: 0,
                amount: 5,
            },
            Transfer {
                from: 0,
                to: 1,
                amount: 5,
            },
        ],
        settled: &[3, 5],
    },
    Case {
        name: "an account to itself",
        fees: Fees {
            debit: 1,
            credit: 1,
        },
        balances: &[10],
        transfers: &[Transfer {
            from: 0,
            to: 0,
            amount: 4,
        }],
        settled: &[8],
    },
    Case {
        name: "a fee above the amount",
        fees: Fees {
            debit: 0,
            credit: 9,
        },
        balances: &[5, 5],
        transfers: &[Transfer {
            from: 0,
            to: 1,
            amount: 4,
        }],
        settled: &[1, 5],
    },
    Case {
        name: "a balance has an end",
        fees: FREE,
        balances: &[u64::MAX - 1, 9],
        transfers: &[Transfer {
            from: 1,
            to: 0,
            amount: 9,
        }],
        settled: &[u64::MAX, 0],
    },
    Case {
        name: "a chain of three",
        fees: Fees {
            debit: 1,
            credit: 0,
        },
        balances: &[100, 0, 0, 7],
        transfers: &[
            Transfer {
                from: 0,
                to: 1,
                amount: 50,
            },
            Transfer {
                from: 1,
                to: 2,
                amount: 30,
            },
            Transfer {
                from: 2,
                to: 0,
                amount: 10,
            },
        ],
        settled: &[59, 19, 19, 7],
    },
];

fn passes<D: Delegation<Holding> + Drop, R: Threads + Wait + Abort + Copy + Send + Sync + 'static>(
    rt: &R,
    alloc: Global,
    d: D,
    case: &Case,
) -> Result<(), Fail>
    requires { IsAfter holding_meaning (D.seen d) [] }
{
    let balances = case.balances;
    let transfers = case.transfers;
    assert!(rt; balances.len() < OBJECTS);
    assert!(rt; transfers.len() <= 4_294_967_296);
    assert!(rt; are_between(balances.len(), transfers));
    let settled = settle(rt, alloc, d, case.fees, balances, transfers)?;
    assert_eq!(rt; settled.as_slice(), case.settled, "{}", case.name);
    Ok(())
}

#[test]
fn transfers_name_accounts_that_there_are(rt: HostRuntime) -> Result<(), Fail> {
    let transfers = [Transfer {
        from: 0,
        to: 1,
        amount: 5,
    }];
    assert!(rt; are_between(2, &transfers));
    assert!(rt; !are_between(1, &transfers));
    Ok(())
}

#[test]
fn transfers_are_settled_without_delegates(rt: HostRuntime) -> Result<(), Fail> {
    for case in CASES {
        passes(&rt, rt.alloc(), Plain::new(rt.alloc())?, case)?;
    }
    Ok(())
}

#[test]
fn transfers_are_settled_by_pending_lists(rt: HostRuntime) -> Result<(), Fail> {
    for delegates in [1, 2, 3, 64] {
        assert!(rt; 1 <= delegates && delegates <= 64);
        for case in CASES {
            let d = Batch::new(rt.alloc(), delegates)?;
            passes(&rt, rt.alloc(), d, case)?;
        }
    }
    Ok(())
}

#[test]
fn transfers_are_settled_in_threads(rt: HostRuntime) -> Result<(), Fail> {
    for delegates in [1, 2, 3, 64] {
        assert!(rt; 1 <= delegates && delegates <= 64);
        for case in CASES {
            let gate = Arc::new(rt.alloc(), OpenGate)?;
            let d = Lanes::new(rt.alloc(), delegates, 2, gate)?;
            passes(&rt, rt.alloc(), d, case)?;
        }
    }
    Ok(())
}
