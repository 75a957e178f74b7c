// Documents that are generated.
ghost use Rattle.std.specs.Prelude.{◌≡◌, ◌+◌, ◌^◌, ◌<◌, ◌≤◌, ◌++◌, map, length, None, Some};
ghost use Rattle.std.specs.Prelude.{vec_len, IfOk, OnOk, MatchBool, MatchOption};
ghost use Rattle.ss_top.specs.Generated.{state_after, state_at, generated_word, generated_document};
ghost use Rattle.ss_top.specs.Generated.{generated_documents, generated_limit};
ghost use Rattle.ss_base.specs.declared.limits.TheConstants as limits;
ghost use Rattle.ss_top.specs.declared.generate.GenFault.TheVariants as fault;

use crate::LimitHit;
use crate::limits::limit_with;
use itoa::Buffer;
use ss_base::OutOfMemory;
use ss_base::limits::{ALL_DOCUMENT_BYTES, DOCUMENT_BYTES, NAMES};
use std::alloc::{AllocError, AllocFailed, Global};
use thiserror::Error;

/// Why documents weren't generated.
#[derive(Clone, Copy, Debug, PartialEq, Eq, Error)]
pub enum GenFault {
    /// They pass this limit first.
    #[error("the documents pass a limit")]
    Limit(LimitHit),
    /// There was no memory.
    #[error("out of memory")]
    OutOfMemory,
}

impl From<OutOfMemory> for GenFault {
    ghost from_gives = { λ _ given. given ≡ fault.OutOfMemory };

    fn from(_: OutOfMemory) -> Self {
        GenFault::OutOfMemory
    }
}

impl From<AllocError> for GenFault {
    ghost from_gives = { λ _ given. given ≡ fault.OutOfMemory };

    fn from(_: AllocError) -> Self {
        GenFault::OutOfMemory
    }
}

impl<T: Drop> From<AllocFailed<T>> for GenFault {
    ghost from_gives = { λ _ given. given ≡ fault.OutOfMemory };

    fn from(_: AllocFailed<T>) -> Self {
        GenFault::OutOfMemory
    }
}

// The most bytes of a word with its space.
const WORD_BYTES: usize = 5;

// The state behind this one.
fn next_state(state: u32) -> u32
    requires { state < 2 ^ 31 }
    ensures value { result ≡ state_after state }
    ensures bound { result < 2 ^ 31 }
{
    ((u64::from(state) * 1103515245 + 12345) % (1 << 31)) as u32
}

// Appends the word of a state, unless the document would pass `most` bytes then.
fn push_word(document: &mut Vec<u8>, state: u32, most: usize) -> Result<bool, OutOfMemory>
    requires { vec_len document.old ≤ most }
    ensures { IfOk result (λ fits. MatchBool fits
        ((document.new.items ≡ document.old.items ++ generated_word state)
        × (vec_len document.new ≤ most))
        (most < length (document.old.items ++ generated_word state))) }
{
    let mut buffer = Buffer::new();
    let number = buffer.format(state / 256 % 1000).as_bytes();
    if number.len() + 2 > most - document.len() {
        return Ok(false);
    }
    document.push(b'w')?;
    document.extend_from_slice(number)?;
    document.push(b' ')?;
    Ok(true)
}

// A document of so many words, or none where it is over `most` bytes. It ends at the word that
// passes them. `state` goes on.
fn gen_document(
    alloc: Global,
    words: u32,
    most: usize,
    state: &mut u32,
) -> Result<Option<Vec<u8>>, OutOfMemory>
    requires { state.old < 2 ^ 31 }
    ensures { IfOk result (λ made. MatchOption made
        (most < length (generated_document words state.old))
        (λ document. (document.items ≡ generated_document words state.old)
        × (vec_len document ≤ most)
        × (state.new ≡ state_at state.old words)
        × (state.new < 2 ^ 31))) }
{
    let mut document = Vec::with_capacity(alloc, most.min(words as usize * WORD_BYTES))?;
    for _ in 0..words {
        *state = next_state(*state);
        if !push_word(&mut document, *state, most)? {
            return Ok(None);
        }
    }
    Ok(Some(document))
}

/// So many documents of so many words each, from a generator of numbers that begins at `seed`.
///
/// It ends at the word that meets the first limit, however many were asked for.
pub fn gen_documents(
    alloc: Global,
    docs: u32,
    words: u32,
    seed: u32,
) -> Result<Vec<Vec<u8>>, GenFault>
    requires docs { 1 ≤ docs }
    requires seed { seed < 2 ^ 31 }
    // Too many documents are refused before any is made, so that no memory is asked for.
    ensures names { limits.NAMES < docs → result ≡ Err (GenFault.Limit (LimitHit.Names docs)) }

    ensures documents { IfOk result (λ made.
        map (λ document. document.items) made.items ≡ generated_documents docs words seed) }
    ensures within { OnOk result (generated_limit docs words seed ≡ None) }
    ensures limit { (hit : LimitHit) → result ≡ Err (GenFault.Limit hit) →
        generated_limit docs words seed ≡ Some hit }
{
    if docs as usize > NAMES {
        return Err(GenFault::Limit(LimitHit::Names(u64::from(docs))));
    }
    let mut documents = Vec::with_capacity(alloc, docs as usize)?;
    let mut state = seed;
    let mut left = ALL_DOCUMENT_BYTES;
    for before in 0..docs {
        let most = left.min(DOCUMENT_BYTES);
        let Some(document) = gen_document(alloc, words, most, &mut state)? else {
            return Err(GenFault::Limit(limit_with(before + 1, left)));
        };
        left -= document.len();
        documents.push(document)?;
    }
    Ok(documents)
}
