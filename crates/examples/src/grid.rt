// A grid whose rows read their neighbours' last values, round after round.
ghost use Rattle.std.specs.Prelude.{◌≡◌, ◌+◌, ◌<◌, ◌≤◌, ◌++◌, [], length, map, replicate, take, drop};
ghost use Rattle.std.specs.Prelude.{IfOk, OnOk};
ghost use Rattle.ss_base.specs.declared.limits.TheConstants as limits;
ghost use Rattle.delegation.specs.Runtimes.{IsAfter};
ghost use Rattle.examples.specs.Grids.{row_meaning, rows_after};
ghost use Rattle.examples.specs.GridCalls.{MOST_ROWS, intake_call, make_row, row_calls};
ghost use Rattle.examples.specs.GridCalls.{round_calls, rounds_calls, half_after, grid_calls};

use crate::outcome::outcome_of;
use crate::rows::{Intake, Row};
use delegation::{Call, Delegation};
use execution_definitions::By;
use ss_base::{ObjectId, OutOfMemory};
use std::alloc::Global;
use std::mem::swap;
use std::sync::Wait;
use std::thread::Threads;

// The call by which a row takes in another.
fn intake_call(object: u32, intake: Intake, read: u32) -> Call<Row>
    ensures { result ≡ intake_call object intake read }
{
    Call::Delegate {
        object: ObjectId(object),
        op: intake,
        reading: Some(ObjectId(read)),
    }
}

// Appends the calls that make rows, each in a set of its own.
fn push_rows(calls: &mut Vec<Call<Row>>, rows: Vec<Row>) -> Result<(), OutOfMemory>
    ensures { OnOk result (calls.new.items ≡ calls.old.items ++ map make_row rows.items) }
{
    for row in rows {
        calls.push(Call::Make {
            value: row,
            by: By::Object,
        })?;
    }
    Ok(())
}

// So many rows of no cells.
fn empty_rows(alloc: Global, count: u32) -> Result<Vec<Row>, OutOfMemory>
    ensures { IfOk result (λ rows. rows.items ≡ replicate count []) }
{
    let mut rows = Vec::new(alloc);
    for _place in 0..count {
        rows.push(Row::new(Vec::new(alloc)))?;
    }
    Ok(rows)
}

// Appends the calls of the row at a place: that of the half at `to` becomes that of the other half, and
// then has the neighbours there added.
fn push_row_calls(
    calls: &mut Vec<Call<Row>>,
    from: u32,
    to: u32,
    place: u32,
) -> Result<(), OutOfMemory>
    requires from { from + place + 2 < limits.OBJECTS }
    requires to { to + place + 2 < limits.OBJECTS }
    ensures { OnOk result (calls.new.items ≡ calls.old.items ++ row_calls from to place) }
{
    calls.push(intake_call(to + place + 1, Intake::Take, from + place + 1))?;
    calls.push(intake_call(to + place + 1, Intake::Add, from + place))?;
    calls.push(intake_call(to + place + 1, Intake::Add, from + place + 2))?;
    Ok(())
}

// Appends the calls of a round, from one half to the other.
fn push_round(calls: &mut Vec<Call<Row>>, rows: u32, from: u32, to: u32) -> Result<(), OutOfMemory>
    requires from { from + rows + 2 ≤ limits.OBJECTS }
    requires to { to + rows + 2 ≤ limits.OBJECTS }
    ensures { OnOk result (calls.new.items ≡ calls.old.items ++ round_calls rows from to) }
{
    calls.push(Call::Begin)?;
    for place in 0..rows {
        push_row_calls(calls, from, to, place)?;
    }
    calls.push(Call::End)?;
    Ok(())
}

// Appends the calls of so many rounds, between which the halves change roles.
fn push_rounds(calls: &mut Vec<Call<Row>>, rows: u32, rounds: u32) -> Result<(), OutOfMemory>
    requires { rows ≤ MOST_ROWS }
    ensures { OnOk result
        (calls.new.items ≡ calls.old.items ++ rounds_calls rows rounds 0 (rows + 2)) }
{
    let mut from = 0;
    let mut to = rows + 2;
    for _round in 0..rounds {
        push_round(calls, rows, from, to)?;
        swap(&mut from, &mut to);
    }
    Ok(())
}

// The calls of the program: the grid is made twice, the second time with no cells.
fn calls_of(alloc: Global, rows: Vec<Row>, rounds: u32) -> Result<Vec<Call<Row>>, OutOfMemory>
    requires { length rows.items ≤ MOST_ROWS }
    ensures { IfOk result (λ calls. calls.items ≡ grid_calls rounds rows.items) }
{
    let count = rows.len() as u32;
    let mut calls = Vec::new(alloc);
    push_rows(&mut calls, empty_rows(alloc, 1)?)?;
    push_rows(&mut calls, rows)?;
    push_rows(&mut calls, empty_rows(alloc, count + 3)?)?;
    push_rounds(&mut calls, count, rounds)?;
    Ok(calls)
}

// Where the half begins that has the rows after so many rounds.
fn last_half(rows: u32, rounds: u32) -> u32
    requires { rows ≤ MOST_ROWS }
    ensures { result ≡ half_after rounds 0 (rows + 2) }
{
    if rounds % 2 == 0 { 0 } else { rows + 2 }
}

// The rows at some places.
fn rows_at(
    alloc: Global,
    values: &[Row],
    first: usize,
    count: usize,
) -> Result<Vec<Row>, OutOfMemory>
    requires { first + count ≤ length values.now }
    ensures { IfOk result (λ rows. rows.items ≡ take count (drop first values.now)) }
{
    let mut rows = Vec::new(alloc);
    for row in &values[first..first + count] {
        rows.push(row.copy()?)?;
    }
    Ok(rows)
}

/// The rows of a grid after so many rounds: in each, every row has the last values of the row above
/// and of the row below added, cell by cell, modulo 2^64. At most 524,286 rows. In a round all may be
/// worked on at once. The runtime is a new one.
pub fn spread<D: Delegation<Row> + Drop, R: Threads + Wait + Copy + Send + Sync + 'static>(
    rt: &R,
    alloc: Global,
    d: D,
    rows: Vec<Row>,
    rounds: u32,
) -> Result<Vec<Row>, OutOfMemory>
    requires new { IsAfter row_meaning (D.seen d) [] }
    requires few { length rows.items ≤ MOST_ROWS }
    ensures { IfOk result (λ spread. spread.items ≡ rows_after rounds rows.items) }
{
    let count = rows.len();
    let calls = calls_of(alloc, rows, rounds)?;
    let end = outcome_of(rt, alloc, d, calls)?;
    let first = last_half(count as u32, rounds) as usize + 1;
    rows_at(alloc, &end.values, first, count)
}
