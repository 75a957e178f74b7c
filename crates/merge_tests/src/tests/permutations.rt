// Every order of the eight calls, judged as a plain test of pairs judges it.
use super::program::calls;
use legal_merges::{MergeFault, replay_merge};
use script_lang::Word32;
use ss_base::CallNo;
use std::alloc::{AllocError, Global};
use std::test::Fail;

const CALLS: u64 = 8;

const ORDERS: u64 = 40_320;

// The first must stand before the second: what the program context does before all that is later,
// the delegations of lane 0 in their order, and all delegations before the end.
const PAIRS: [(u64, u64); 23] = [
    (0, 1),
    (0, 2),
    (0, 3),
    (0, 4),
    (0, 5),
    (0, 6),
    (0, 7),
    (1, 2),
    (1, 3),
    (1, 4),
    (1, 5),
    (1, 6),
    (1, 7),
    (2, 3),
    (2, 4),
    (2, 5),
    (2, 6),
    (2, 7),
    (3, 5),
    (3, 6),
    (4, 6),
    (5, 6),
    (6, 7),
];

// The order of this number among all: each call is put among those before it.
fn order_of(alloc: Global, number: u64) -> Result<Vec<CallNo>, AllocError> {
    let mut order = Vec::with_capacity(alloc, 8)?;
    let mut rest = number;
    for call in 0..CALLS {
        let places = order.len() as u64 + 1;
        order.insert((rest % places) as usize, CallNo(call))?;
        rest /= places;
    }
    Ok(order)
}

fn stands_before(order: &[CallNo], call: u64) -> bool {
    order.iter().any(|other| other.0 == call)
}

// The first place before which a call is missing that must stand there.
fn first_bad(order: &[CallNo]) -> Option<u64> {
    for (place, call) in order.iter().enumerate() {
        let before = order.get(..place)?;
        for (first, second) in PAIRS {
            if second == call.0 && !stands_before(before, first) {
                return Some(place as u64);
            }
        }
    }
    None
}

#[test]
fn each_order_is_judged_as_the_pairs_say(rt: HostRuntime) -> Result<(), Fail> {
    let mut legal = Vec::new(rt.alloc());
    for number in 0..ORDERS {
        let order = order_of(rt.alloc(), number)?;
        let fault = replay_merge::<Word32>(rt.alloc(), calls(rt.alloc())?, 2, &order).err();
        match first_bad(&order) {
            Some(place) => assert_eq!(rt; fault, Some(MergeFault::NotMerge { place })),
            None => {
                assert_eq!(rt; fault, None);
                legal.push(number)?;
            }
        }
    }
    assert_eq!(rt; legal.len(), 3);
    Ok(())
}
