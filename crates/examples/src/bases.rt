// How often each base stands in a text that comes in blocks.
ghost use Rattle.std.specs.Prelude.{◌≡◌, ◌<◌, ◌==◌, [], count_by, length, map, IfOk};
ghost use Rattle.std.specs.List.{flat_map};
ghost use Rattle.std.specs.Option.{option_copied};
ghost use Rattle.ss_base.specs.declared.limits.TheConstants as limits;
ghost use Rattle.delegation.specs.Runtimes.{IsAfter};
ghost use Rattle.examples.specs.Histograms.{tally_in, tally_after, part_meaning};
ghost use Rattle.examples.specs.HistogramCalls.{histogram_calls};

use crate::outcome::outcome_of;
use class_laws::{Both, Class, Reducible, WrapSum};
use delegation::{Call, Delegation};
use execution_definitions::By;
use ss_base::{ObjectId, OutOfMemory};
use std::alloc::Global;
use std::marker::Model;
use std::sync::Wait;
use std::thread::Threads;

/// How often each of the bases A, C, G and T stands, modulo 2^64.
pub type Tally = Both<Both<WrapSum, WrapSum>, Both<WrapSum, WrapSum>>;

/// Which byte stands for each base.
#[derive(Clone, Copy, Debug, PartialEq, Eq)]
pub struct Spelling {
    pub a: u8,
    pub c: u8,
    pub g: u8,
    pub t: u8,
}

/// A block of a text. Contracts see its bytes.
#[derive(Drop)]
pub struct Block {
    bytes: Vec<u8>,
}

impl Model for Block {
    ghost use Rattle.std.specs.Prelude.{ℕ, List};

    ghost Value = { List ℕ };

    ghost view = { λ block. block.bytes.items };
}

impl Block {
    /// A block of these bytes.
    pub fn new(bytes: Vec<u8>) -> Block
        ensures { result ≡ bytes.items }
    {
        Block { bytes }
    }

    // What the block comes to.
    fn tally(&self, spelling: Spelling) -> Tally
        ensures { result ≡ tally_in spelling self.now }
    {
        tally(&self.bytes, spelling)
    }

    fn copy(&self) -> Result<Block, OutOfMemory>
        ensures { IfOk result (λ copy. copy ≡ self.now) }
    {
        Ok(Block::new(self.bytes.clone()?))
    }
}

/// What the program is made of.
#[derive(Drop)]
pub enum Part {
    Spelling(Spelling),
    Block(Block),
}

/// Counts the bases of a block, in the spelling that is read, and contributes how many there are. It
/// changes nothing. Where the parts are others it contributes nothing.
#[derive(Clone, Copy, Debug, PartialEq, Eq)]
pub struct Count;

// How often a byte stands among others.
fn count_of(bytes: &[u8], byte: u8) -> u64
    ensures { result ≡ count_by (λ b. b == byte) bytes.now }
{
    let mut count: u64 = 0;
    for b in bytes {
        if *b == byte {
            count += 1;
        }
    }
    count
}

// How often each base stands among some bytes.
fn tally(bytes: &[u8], spelling: Spelling) -> Tally
    ensures { result ≡ tally_in spelling bytes.now }
{
    Both(
        Both(
            WrapSum(count_of(bytes, spelling.a)),
            WrapSum(count_of(bytes, spelling.c)),
        ),
        Both(
            WrapSum(count_of(bytes, spelling.g)),
            WrapSum(count_of(bytes, spelling.t)),
        ),
    )
}

// What counting a part contributes.
fn tally_after(alloc: Global, part: &Part, reading: Option<&Part>) -> Tally
    ensures { result ≡ tally_after part.now (option_copied reading.entry) }
{
    match (part, reading) {
        (Part::Block(block), Some(Part::Spelling(spelling))) => block.tally(*spelling),
        _ => Tally::unit(alloc),
    }
}

fn copy_part(part: &Part) -> Result<Part, OutOfMemory>
    ensures { IfOk result (λ copy. copy ≡ part.now) }
{
    Ok(match part {
        Part::Spelling(spelling) => Part::Spelling(*spelling),
        Part::Block(block) => Part::Block(block.copy()?),
    })
}

impl Class for Part {
    type Op = Count;

    type Red = Tally;

    ghost use Rattle.std.specs.Prelude.{refl};
    ghost use Rattle.examples.specs.Histograms.{part_meaning};

    ghost meaning = { part_meaning };

    ghost same_unit = { refl };

    ghost same_join = { refl };

    fn apply(
        &mut self,
        alloc: Global,
        _op: &Count,
        reading: Option<&Part>,
        red: &mut Tally,
    ) -> Result<(), OutOfMemory> {
        red.join(tally_after(alloc, self, reading))
    }

    fn own_set(_op: &Count) -> u64 {
        0
    }

    fn copy(&self, _alloc: Global) -> Result<Part, OutOfMemory> {
        copy_part(self)
    }
}

// The calls of the program: each block is an object of its own, and is counted in its own set.
fn calls_of(
    alloc: Global,
    spelling: Spelling,
    blocks: Vec<Vec<u8>>,
) -> Result<Vec<Call<Part>>, OutOfMemory>
    requires few { length blocks.items < limits.OBJECTS }
    ensures { IfOk result (λ calls.
        calls.items ≡ histogram_calls spelling (map (λ block. block.items) blocks.items)) }
{
    let count = blocks.len() as u32;
    let mut calls = Vec::new(alloc);
    calls.push(Call::MakeFixed {
        value: Part::Spelling(spelling),
    })?;
    for block in blocks {
        calls.push(Call::Make {
            value: Part::Block(Block::new(block)),
            by: By::Object,
        })?;
    }
    calls.push(Call::Begin)?;
    for place in 0..count {
        calls.push(Call::Delegate {
            object: ObjectId(1 + place),
            op: Count,
            reading: Some(ObjectId(0)),
        })?;
    }
    calls.push(Call::End)?;
    Ok(calls)
}

/// How often each base stands in the blocks together: fewer than 1,048,576 blocks, each of which may be
/// counted at once with the others. The runtime is a new one.
pub fn histogram<D: Delegation<Part> + Drop, R: Threads + Wait + Copy + Send + Sync + 'static>(
    rt: &R,
    alloc: Global,
    d: D,
    spelling: Spelling,
    blocks: Vec<Vec<u8>>,
) -> Result<Tally, OutOfMemory>
    requires new { IsAfter part_meaning (D.seen d) [] }
    requires few { length blocks.items < limits.OBJECTS }
    ensures { IfOk result (λ tally.
        tally ≡ tally_in spelling (flat_map (λ block. block.items) blocks.items)) }
{
    let calls = calls_of(alloc, spelling, blocks)?;
    Ok(outcome_of(rt, alloc, d, calls)?.total)
}
