// A program of two objects: to the first 1 is added, which is then doubled, and to the second 1 is
// added between.
use delegation::Call;
use execution_definitions::By;
use script_lang::{Act, Deed, Word32};
use ss_base::{CallNo, ObjectId};
use std::alloc::{AllocError, Global};

fn made(value: u32) -> Call<Word32> {
    Call::Make {
        value: Word32(value),
        by: By::Object,
    }
}

fn sent(object: u32, act: Act) -> Call<Word32> {
    Call::Delegate {
        object: ObjectId(object),
        op: Deed { act, set: 0 },
        reading: None,
    }
}

/// The calls. Among two lanes, 3 and 5 are of lane 0, and 4 is of lane 1.
pub fn calls(alloc: Global) -> Result<Vec<Call<Word32>>, AllocError> {
    let mut calls = Vec::with_capacity(alloc, 8)?;
    calls.push(made(5))?;
    calls.push(made(6))?;
    calls.push(Call::Begin)?;
    calls.push(sent(0, Act::Add(1)))?;
    calls.push(sent(1, Act::Add(1)))?;
    calls.push(sent(0, Act::Mul(2)))?;
    calls.push(Call::End)?;
    calls.push(Call::Get {
        object: ObjectId(0),
    })?;
    Ok(calls)
}

/// Calls by their numbers.
pub fn numbered(alloc: Global, numbers: &[u64]) -> Result<Vec<CallNo>, AllocError> {
    let mut order = Vec::with_capacity(alloc, numbers.len())?;
    for number in numbers {
        order.push(CallNo(*number))?;
    }
    Ok(order)
}
