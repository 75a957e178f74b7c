// The index of documents, by delegated calls.
ghost use Rattle.std.specs.Prelude.{◌≡◌, ◌<◌, ◌≤◌, ℕ, [], map, length, Err, Ok, vec_len, IfOk, OnOk};
ghost use Rattle.std.specs.List.{AllByRecursion};
ghost use Rattle.execution_definitions.specs.declared.call.Call.TheVariants as call;
ghost use Rattle.index_definitions.specs.Index.{index_without};
ghost use Rattle.delegation.specs.Runtimes.{IsAfter};
ghost use Rattle.delegation.specs.declared.call.Fault.TheVariants.{Refused};
ghost use Rattle.ss_base.specs.declared.limits.TheConstants as limits;
ghost use Rattle.shard.specs.Shards.{ShardParts};
ghost use Rattle.shard.specs.ShardTerms.{AppendsTermsOfShard};
ghost use Rattle.indexer.specs.Items.{item_meaning};
ghost use Rattle.indexer.specs.BuildCalls.{make_calls, split_calls, gather_document_calls};
ghost use Rattle.indexer.specs.BuildCalls.{gather_calls, get_calls, build_calls};
ghost use Rattle.indexer.specs.Parts.{MayMake, HasMade};
ghost use Rattle.indexer.specs.Collected.{HasShards, CollectsTerms};
ghost use Rattle.indexer.specs.declared.item.Item.TheVariants as kind;

use crate::terms::{fill_totals, sort_terms};
use crate::{Document, Item, ItemOp};
use class_laws::Both;
use delegation::{Delegation, Fault};
use doc_words::StopSet;
use execution_definitions::{By, Refusal};
use inverted_index::{Index, Term};
use shard::Shard;
use ss_base::{ObjectId, OutOfMemory};
use std::alloc::Global;
use std::sync::Wait;
use std::thread::Threads;

// How many shards there are.
const SHARDS: u32 = 16;

// The number of the stop list. Those of the documents follow, and then those of the shards.
const STOP: ObjectId = ObjectId(0);

// The answer of a call that breaks no partition.
fn accepted<T: Drop>(answer: Result<T, Fault>) -> Result<T, OutOfMemory>
    requires { (refusal : Refusal) → answer ≡ Err (Refused refusal) → ⊥ }
    ensures { IfOk result (λ value. answer ≡ Ok value) }
{
    match answer {
        Ok(value) => Ok(value),
        Err(Fault::OutOfMemory) => Err(OutOfMemory),
        Err(Fault::Refused(_)) => unreachable!(),
    }
}

// Makes the stop list, which is only read, the documents and the shards.
fn make_items<D: Delegation<Item>>(
    alloc: Global,
    d: &mut D,
    docs: Vec<Vec<u8>>,
    stop: StopSet,
) -> Result<(), OutOfMemory>
    requires calls { MayMake (D.seen d.old)
        (make_calls (map (λ document. document.items) docs.items) stop) }
    requires within { AllByRecursion (λ document. vec_len document ≤ limits.DOCUMENT_BYTES) docs.items }
    ensures { OnOk result (HasMade (D.seen d.old) (D.seen d.new)
        (make_calls (map (λ document. document.items) docs.items) stop)) }
{
    accepted(d.make_fixed(Item::Stop(stop)))?;
    for doc in docs {
        accepted(d.make(Item::Doc(Document::new(doc)), By::Object))?;
    }
    for number in 0..SHARDS {
        accepted(d.make(Item::Shard(Shard::new(alloc, number)), By::Sequence))?;
    }
    Ok(())
}

// Splits the documents, in an epoch in which each is private to its set.
fn split_documents<D: Delegation<Item>, R: Threads + Wait + Copy + Send + Sync + 'static>(
    rt: &R,
    d: &mut D,
    count: u32,
) -> Result<(), OutOfMemory>
    requires few { count ≤ limits.NAMES }
    requires calls { MayMake (D.seen d.old) (split_calls count) }
    ensures { OnOk result (HasMade (D.seen d.old) (D.seen d.new) (split_calls count)) }
{
    accepted(d.begin())?;
    for number in 0..count {
        accepted(d.delegate(rt, ObjectId(1 + number), ItemOp::Split, Some(STOP)))?;
    }
    accepted(d.end(rt))
}

// Gathers the document at a place into each shard.
fn gather_document<D: Delegation<Item>, R: Threads + Wait + Copy + Send + Sync + 'static>(
    rt: &R,
    d: &mut D,
    count: u32,
    place: u32,
) -> Result<(), OutOfMemory>
    requires few { count ≤ limits.NAMES }
    requires place { place < count }
    requires calls { MayMake (D.seen d.old) (gather_document_calls count place) }
    ensures { OnOk result
        (HasMade (D.seen d.old) (D.seen d.new) (gather_document_calls count place)) }
{
    let doc = 1 + place;
    for number in 0..SHARDS {
        let shard = ObjectId(1 + count + number);
        accepted(d.delegate(rt, shard, ItemOp::Gather { doc }, Some(ObjectId(doc))))?;
    }
    Ok(())
}

// Gathers the documents into the shards, in an epoch in which each shard is private to its set and
// the documents are read-shared.
fn gather_documents<D: Delegation<Item>, R: Threads + Wait + Copy + Send + Sync + 'static>(
    rt: &R,
    d: &mut D,
    count: u32,
) -> Result<(), OutOfMemory>
    requires few { count ≤ limits.NAMES }
    requires calls { MayMake (D.seen d.old) (gather_calls count) }
    ensures { OnOk result (HasMade (D.seen d.old) (D.seen d.new) (gather_calls count)) }
{
    accepted(d.begin())?;
    for place in 0..count {
        gather_document(rt, d, count, place)?;
    }
    accepted(d.end(rt))
}

// Appends the terms of an item that is a shard.
fn push_item(alloc: Global, item: &Item, terms: &mut Vec<Term>) -> Result<(), OutOfMemory>
    ensures { (parts : ShardParts) → item.now ≡ kind.Shard parts →
        OnOk result (AppendsTermsOfShard parts.lists terms.old.items terms.new.items) }
{
    if let Item::Shard(shard) = item {
        shard.push_terms(alloc, terms)?;
    }
    Ok(())
}

// The terms of all shards, which aren't counted yet.
fn collect_terms<D: Delegation<Item>, R: Threads + Wait + Copy + Send + Sync + 'static>(
    rt: &R,
    alloc: Global,
    d: &mut D,
    count: u32,
) -> Result<Vec<Term>, OutOfMemory>
    requires few { count ≤ limits.NAMES }
    requires calls { MayMake (D.seen d.old) (get_calls count) }
    ensures terms { (parts : ℕ → ShardParts) → HasShards (D.seen d.old).state count parts →
        IfOk result (λ terms. CollectsTerms parts 16 terms.items) }
    ensures made { OnOk result (HasMade (D.seen d.old) (D.seen d.new) (get_calls count)) }
{
    let mut terms = Vec::new(alloc);
    for number in 0..SHARDS {
        let item = accepted(d.get(rt, ObjectId(1 + count + number)))?;
        push_item(alloc, item, &mut terms)?;
    }
    Ok(terms)
}

/// The index of at most 65,536 documents of at most 8 MiB each, without the stopped terms. The
/// runtime is a new one.
pub fn build<D: Delegation<Item>, R: Threads + Wait + Copy + Send + Sync + 'static>(
    rt: &R,
    alloc: Global,
    d: &mut D,
    docs: Vec<Vec<u8>>,
    stop: StopSet,
) -> Result<Index, OutOfMemory>
    requires new { IsAfter item_meaning (D.seen d.old) [] }
    requires few { length docs.items ≤ limits.NAMES }
    requires within { AllByRecursion (λ document. vec_len document ≤ limits.DOCUMENT_BYTES) docs.items }
    ensures index { IfOk result (λ made.
        made ≡ index_without (map (λ document. document.items) docs.items) stop) }
    // The index is what these calls came to, and the runtime took no others.
    ensures calls { OnOk result (IsAfter item_meaning (D.seen d.new)
        (build_calls (map (λ document. document.items) docs.items) stop)) }
{
    let count = docs.len() as u32;
    make_items(alloc, d, docs, stop)?;
    split_documents(rt, d, count)?;
    gather_documents(rt, d, count)?;
    let mut terms = collect_terms(rt, alloc, d, count)?;
    let Both(Both(words, longest), counts) = accepted(d.total())?;
    fill_totals(&mut terms, counts);
    sort_terms(&mut terms);
    Ok(Index {
        documents: count,
        words: words.0,
        longest: longest.0,
        terms,
    })
}
