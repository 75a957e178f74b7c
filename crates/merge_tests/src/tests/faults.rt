// Why calls aren't merged, and the texts of it.
use super::program::numbered;
use delegation::Call;
use execution_definitions::{By, Refusal};
use legal_merges::{MergeFault, merge_of, replay_merge};
use script_lang::Word32;
use ss_base::{CallNo, ObjectId};
use std::alloc::{AllocError, Global};
use std::test::Fail;

// The second call is the first that is refused.
fn broken(alloc: Global) -> Result<Vec<Call<Word32>>, AllocError> {
    let mut calls = Vec::with_capacity(alloc, 3)?;
    calls.push(Call::Make {
        value: Word32(5),
        by: By::Object,
    })?;
    calls.push(Call::Get {
        object: ObjectId(1),
    })?;
    calls.push(Call::End)?;
    Ok(calls)
}

#[test]
fn a_first_break_comes_before_an_order_is_judged(rt: HostRuntime) -> Result<(), Fail> {
    let fault = MergeFault::Broken {
        call: CallNo(1),
        refusal: Refusal::UnknownObject(ObjectId(1)),
    };
    let calls = broken(rt.alloc())?;
    let order = merge_of::<Word32>(rt.alloc(), &calls, 1, &[]);
    assert_eq!(rt; order.err(), Some(fault));
    let order = numbered(rt.alloc(), &[2, 1, 0])?;
    let left = replay_merge::<Word32>(rt.alloc(), calls, 1, &order);
    assert_eq!(rt; left.err(), Some(fault));
    Ok(())
}

#[test]
fn a_fault_says_why(rt: HostRuntime) -> Result<(), Fail> {
    let broken = MergeFault::Broken {
        call: CallNo(1),
        refusal: Refusal::UnknownObject(ObjectId(1)),
    };
    let texts = [
        (broken, "call 1 is refused: no object has the number 1"),
        (
            MergeFault::NotMerge { place: 5 },
            "with place 5 the order begins no legal merge",
        ),
        (MergeFault::OutOfMemory, "out of memory"),
    ];
    for (fault, text) in texts {
        let told = format!(in rt.alloc(); "{fault}")?;
        assert_eq!(rt; told.as_str(), text);
    }
    Ok(())
}
