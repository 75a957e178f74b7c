// `index`: the index of documents.
ghost use Rattle.std.specs.Prelude.{◌≡◌, ◌≤◌, None, map, length, IfOk, vec_len};
ghost use Rattle.index_definitions.specs.IndexText.{index_text};
ghost use Rattle.ss_base.specs.declared.limits.TheConstants as limits;
ghost use Rattle.ss_top.specs.Limits.{first_limit};

use crate::commands::indexing::index_documents;
use crate::commands::runtime::How;
use delegates::Gate;
use doc_words::StopSet;
use report::print_index;
use ss_base::OutOfMemory;
use std::alloc::Global;
use std::sync::Wait;
use std::thread::Threads;

/// Prints the index of documents that pass no limit, without the terms of a stop list.
pub(crate) fn index_text<R, G: Gate + 'static>(
    rt: &R,
    alloc: Global,
    how: How<G>,
    stop: Vec<u8>,
    documents: Vec<Vec<u8>>,
) -> Result<Vec<u8>, OutOfMemory>
where
    R: Threads + Wait + Copy + Send + Sync + 'static,
    requires stop { length stop.items ≤ limits.STOP_LIST_BYTES }
    requires some { 1 ≤ length documents.items }
    requires few { length documents.items ≤ limits.NAMES }
    requires within { first_limit (map (λ document. document.items) documents.items) ≡ None }
    ensures { IfOk result (λ text.
        text.items ≡ index_text (map (λ document. document.items) documents.items) stop.items) }
{
    let stopped = StopSet::of(alloc, &stop)?;
    drop(stop);
    let index = index_documents(rt, alloc, how, documents, stopped)?;
    print_index(alloc, &index)
}
