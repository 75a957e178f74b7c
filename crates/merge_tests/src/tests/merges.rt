// The orders that picks give, and what calls leave in an order.
use super::program::{calls, numbered};
use class_laws::WrapSum;
use legal_merges::{MergeFault, merge_of, replay_merge};
use script_lang::Word32;
use ss_base::{Event, Lane};
use std::test::Fail;

const P: Event = Event::Program;

const L0: Event = Event::Delegate(Lane(0));

const L1: Event = Event::Delegate(Lane(1));

#[test]
fn picks_give_a_legal_merge_that_leaves_what_the_program_leaves(
    rt: HostRuntime,
) -> Result<(), Fail> {
    let table = [
        ([P, P, P, L1, L0, L0, P, P], [0, 1, 2, 4, 3, 5, 6, 7]),
        ([P, P, P, L0, L1, L0, P, P], [0, 1, 2, 3, 4, 5, 6, 7]),
        ([P, P, P, L0, L0, L1, P, P], [0, 1, 2, 3, 5, 4, 6, 7]),
    ];
    for (picks, expected) in table {
        let made = calls(rt.alloc())?;
        let order = merge_of::<Word32>(rt.alloc(), &made, 2, &picks)?;
        assert_eq!(rt;
            order.as_slice(),
            numbered(rt.alloc(), &expected)?.as_slice()
        );
        let left = replay_merge::<Word32>(rt.alloc(), made, 2, &order)?;
        assert_eq!(rt; left.values.as_slice(), [Word32(12), Word32(7)].as_slice());
        assert_eq!(rt; left.total, WrapSum(0));
    }
    Ok(())
}

#[test]
fn picks_that_give_no_merge_are_told_by_their_place(rt: HostRuntime) -> Result<(), Fail> {
    let made = calls(rt.alloc())?;
    // The end would pass a delegation; the first is picked too early; a lane has no third; a lane
    // that there isn't; a lane before its call; none; all but one.
    let table: [(&[Event], u64); 7] = [
        (&[P, P, P, L1, L0, P], 5),
        (&[L0], 0),
        (&[P, P, P, L0, L0, L0], 5),
        (&[P, P, P, Event::Delegate(Lane(2))], 3),
        (&[P, P, L1], 2),
        (&[], 0),
        (&[P, P, P, L1, L0, L0, P], 7),
    ];
    for (picks, place) in table {
        let order = merge_of::<Word32>(rt.alloc(), &made, 2, picks);
        assert_eq!(rt; order.err(), Some(MergeFault::NotMerge { place }));
    }
    Ok(())
}
