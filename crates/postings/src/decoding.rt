// Bytes as postings.
ghost use Rattle.std.specs.Prelude.{◌≡◌, ℕ, ◌<◌, ◌≤◌, ◌^◌, ◌-◌, length, take, Err, IfOk, IfErr, OnOk};
ghost use Rattle.index_definitions.specs.PostingLists.{ArePositions};
ghost use Rattle.postings.specs.Spelling.{SpellsNumber, SpellsPositions, SpellsDocument};
ghost use Rattle.postings.specs.Spelling.{Spells, AreBadAt};
ghost use Rattle.postings.specs.Stuck.{AreStuck, IsNumberUpTo, ArePositionBytes, IsDocumentAbove};
ghost use Rattle.postings.specs.declared.decoding.PostingsFault.TheVariants.{BadPostings};
ghost use Rattle.postings.specs.declared.decoding.PostingsFault.TheVariants as fault;

use crate::Postings;
use ss_base::OutOfMemory;
use std::alloc::{AllocFailed, Global};
use thiserror::Error;

/// Why bytes were not read as postings.
#[derive(Clone, Copy, Debug, PartialEq, Eq, Error)]
pub enum PostingsFault {
    /// The bytes spell no list.
    #[error("no postings from byte {at} on")]
    BadPostings {
        /// Up to this place they begin a list. It is their length, or the first place at which
        /// another byte would have to stand.
        at: usize,
    },
    /// There was no memory.
    #[error("out of memory")]
    OutOfMemory,
}

impl From<OutOfMemory> for PostingsFault {
    ghost from_gives = { λ _ given. given ≡ fault.OutOfMemory };

    fn from(_: OutOfMemory) -> PostingsFault {
        PostingsFault::OutOfMemory
    }
}

impl From<AllocFailed<u32>> for PostingsFault {
    ghost from_gives = { λ _ given. given ≡ fault.OutOfMemory };

    fn from(_: AllocFailed<u32>) -> PostingsFault {
        PostingsFault::OutOfMemory
    }
}

// The number in front, up to a limit, and how many bytes it takes. The error is the place up to
// which the bytes begin one.
fn read_number(bytes: &[u8], limit: u32) -> Result<(u32, usize), usize>
    ensures spelt { IfOk result (λ read. SpellsNumber (take read.1 bytes.now) read.0) }
    ensures within { IfOk result (λ read. read.1 ≤ length bytes.now) }
    ensures small { IfOk result (λ read. read.0 ≤ limit) }
    ensures stuck { IfErr result (λ at. AreStuck (IsNumberUpTo limit) bytes.now at) }
{
    let Some((first, rest)) = bytes.split_first() else {
        return Err(0);
    };
    let group = u32::from(*first);
    if group == 0 || limit < group {
        return Err(0);
    }
    if group < 128 {
        return Ok((group, 1));
    }
    match read_number(rest, (limit - group) / 128 + 1) {
        Ok((high, len)) => Ok((group - 128 + 128 * high, len + 1)),
        Err(at) => Err(at + 1),
    }
}

// The positions of a document, and how many bytes they take.
fn read_positions(bytes: &[u8], positions: &mut Vec<u32>) -> Result<usize, PostingsFault>
    ensures spelt { IfOk result (λ len.
        SpellsPositions 0 (take len bytes.now) positions.new.items) }
    ensures within { IfOk result (λ len. len ≤ length bytes.now) }
    ensures positions { OnOk result (ArePositions positions.new.items) }
    ensures stuck { (at : ℕ) → result ≡ Err (BadPostings at)
        → AreStuck ArePositionBytes bytes.now at }
{
    positions.clear();
    let mut last = 0;
    let mut at = 0;
    while at < bytes.len() {
        if bytes[at] == 0 && !positions.is_empty() {
            return Ok(at + 1);
        }
        match read_number(&bytes[at..], u32::MAX - last) {
            Ok((gap, len)) => {
                last += gap;
                positions.push(last)?;
                at += len;
            }
            Err(more) => return Err(PostingsFault::BadPostings { at: at + more }),
        }
    }
    Err(PostingsFault::BadPostings { at })
}

// A document above the one before it, with its positions, and how many bytes it takes.
fn read_document(
    bytes: &[u8],
    before: u32,
    positions: &mut Vec<u32>,
) -> Result<(u32, usize), PostingsFault>
    ensures spelt { IfOk result (λ read.
        SpellsDocument before (take read.1 bytes.now) (read.0, positions.new.items)) }
    ensures within { IfOk result (λ read. read.1 ≤ length bytes.now) }
    ensures positions { OnOk result (ArePositions positions.new.items) }
    ensures stuck { (at : ℕ) → result ≡ Err (BadPostings at)
        → AreStuck (IsDocumentAbove before) bytes.now at }
{
    match read_number(bytes, u32::MAX - before) {
        Ok((gap, len)) => match read_positions(&bytes[len..], positions) {
            Ok(more) => Ok((before + gap, len + more)),
            Err(PostingsFault::BadPostings { at }) => {
                Err(PostingsFault::BadPostings { at: len + at })
            }
            Err(PostingsFault::OutOfMemory) => Err(PostingsFault::OutOfMemory),
        },
        Err(at) => Err(PostingsFault::BadPostings { at }),
    }
}

/// The list that bytes spell.
pub fn decode(alloc: Global, bytes: &[u8]) -> Result<Postings, PostingsFault>
    ensures ok { IfOk result (λ list. Spells bytes.now list) }
    ensures bad { (at : ℕ) → result ≡ Err (BadPostings at) → AreBadAt bytes.now at }
{
    let mut list = Postings::new(alloc);
    let mut positions = Vec::new(alloc);
    let mut before = 0;
    let mut at = 0;
    while at < bytes.len() {
        match read_document(&bytes[at..], before, &mut positions) {
            Ok((document, len)) => {
                list.append(document, &positions)?;
                before = document;
                at += len;
            }
            Err(PostingsFault::BadPostings { at: more }) => {
                return Err(PostingsFault::BadPostings { at: at + more });
            }
            Err(PostingsFault::OutOfMemory) => return Err(PostingsFault::OutOfMemory),
        }
    }
    Ok(list)
}
