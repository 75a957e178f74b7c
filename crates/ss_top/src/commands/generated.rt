// `gen`: a summary of the index of generated documents.
ghost use Rattle.std.specs.Prelude.{◌≡◌, ◌≤◌, ◌<◌, ◌^◌, [], None, Some, IfOk};
ghost use Rattle.index_definitions.specs.Index.{index};
ghost use Rattle.index_definitions.specs.IndexText.{summary_of_index};
ghost use Rattle.ss_top.specs.Generated.{generated_documents, generated_limit};

use crate::commands::indexing::index_documents;
use crate::commands::runtime::How;
use crate::{GenFault, LimitHit, gen_documents};
use delegates::Gate;
use doc_words::StopSet;
use report::print_summary;
use std::alloc::Global;
use std::sync::Wait;
use std::thread::Threads;

/// Prints a summary of the index of so many generated documents.
pub(crate) fn summary_text<R, G: Gate + 'static>(
    rt: &R,
    alloc: Global,
    how: How<G>,
    docs: u32,
    words: u32,
    seed: u32,
) -> Result<Vec<u8>, GenFault>
where
    R: Threads + Wait + Copy + Send + Sync + 'static,
    requires docs { 1 ≤ docs }
    requires seed { seed < 2 ^ 31 }
    ensures within { IfOk result (λ _. generated_limit docs words seed ≡ None) }
    ensures text { IfOk result (λ text. text.items
        ≡ summary_of_index (index (generated_documents docs words seed) [])) }
    ensures limit { (hit : LimitHit) → result ≡ Err (GenFault.Limit hit) →
        generated_limit docs words seed ≡ Some hit }
{
    let documents = gen_documents(alloc, docs, words, seed)?;
    let index = index_documents(rt, alloc, how, documents, StopSet::empty(alloc))?;
    Ok(print_summary(alloc, &index)?)
}
