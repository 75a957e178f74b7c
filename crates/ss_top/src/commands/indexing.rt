// The index of documents, on a runtime of its own.
ghost use Rattle.std.specs.Prelude.{◌≡◌, ◌≤◌, ℕ, List, None, [], map, length, IfOk};
ghost use Rattle.delegation.specs.Runtimes.{IsAfter};
ghost use Rattle.index_definitions.specs.Words.{terms_in};
ghost use Rattle.index_definitions.specs.Terms.{HaveSameTerms};
ghost use Rattle.index_definitions.specs.Index.{index};
ghost use Rattle.indexer.specs.Items.{item_meaning};
ghost use Rattle.ss_base.specs.declared.limits.TheConstants as limits;
ghost use Rattle.ss_top.specs.Limits.{first_limit};

use crate::commands::runtime::{How, with_runtime};
use batch_rt::Batch;
use command_line::Mode;
use delegates::Gate;
use delegation::{Delegation, Plain};
use doc_words::StopSet;
use indexer::{Index, Item, build};
use lane_rt::Lanes;
use ss_base::OutOfMemory;
use std::alloc::Global;
use std::sync::Wait;
use std::thread::Threads;

// The index of documents on a new runtime, which is then given up.
fn index_on<D: Delegation<Item>, R: Threads + Wait + Copy + Send + Sync + 'static>(
    rt: &R,
    alloc: Global,
    mut d: D,
    documents: Vec<Vec<u8>>,
    stop: StopSet,
) -> Result<Index, OutOfMemory>
    requires new { IsAfter item_meaning (D.seen d) [] }
    requires few { length documents.items ≤ limits.NAMES }
    requires within { first_limit (map (λ document. document.items) documents.items) ≡ None }
    ensures { IfOk result (λ made. (list : List ℕ) → HaveSameTerms stop (terms_in list) →
        made ≡ index (map (λ document. document.items) documents.items) list) }
{
    let given = build(rt, alloc, &mut d, documents, stop);
    d.finish(rt)?;
    given
}

/// The index of documents that pass no limit, without the stopped terms.
pub(crate) fn index_documents<R, G: Gate + 'static>(
    rt: &R,
    alloc: Global,
    how: How<G>,
    documents: Vec<Vec<u8>>,
    stop: StopSet,
) -> Result<Index, OutOfMemory>
where
    R: Threads + Wait + Copy + Send + Sync + 'static,
    requires few { length documents.items ≤ limits.NAMES }
    requires within { first_limit (map (λ document. document.items) documents.items) ≡ None }
    ensures { IfOk result (λ made. (list : List ℕ) → HaveSameTerms stop (terms_in list) →
        made ≡ index (map (λ document. document.items) documents.items) list) }
{
    // The documents and the shards are given up before the index is printed.
    with_runtime!(
        alloc,
        how,
        |runtime| index_on(rt, alloc, runtime, documents, stop)
    )
}
