// A document: its bytes, or the counted words that it was split into.
ghost use Rattle.std.specs.Prelude.{◌≡◌, ◌≤◌, length, IfOk, OnOk, MatchOption};
ghost use Rattle.ss_base.specs.declared.limits.TheConstants as limits;
ghost use Rattle.indexer.specs.Documents.{whole, split, IsWhole, split_content};
ghost use Rattle.indexer.specs.Totals.{totals_join, split_totals};

use crate::totals::{Totals, add_totals};
use class_laws::Reducible;
use doc_words::StopSet;
use document_terms::CountedWords;
use ss_base::OutOfMemory;
use std::alloc::Global;
use std::marker::Model;

#[derive(Drop)]
enum Kept {
    Bytes(Vec<u8>),
    Words(CountedWords),
}

/// A document. Contracts see its bytes or, once it is split, its counted words, each with its
/// position and its term.
#[derive(Drop)]
pub struct Document {
    kept: Kept,
}

impl Model for Document {
    ghost use Rattle.indexer.specs.Documents.{Content};

    ghost Value = { Content };

    ghost use Rattle.indexer.specs.kept.Documents.{content_of, IsKept};

    ghost view = { λ document. content_of document.kept };

    ghost invariant = { λ document. IsKept document.kept };
}

impl Document {
    /// A document of at most 8 MiB that isn't split yet, which takes no memory.
    pub fn new(bytes: Vec<u8>) -> Document
        requires { length bytes.items ≤ limits.DOCUMENT_BYTES }
        ensures { result ≡ whole bytes.items }
    {
        Document {
            kept: Kept::Bytes(bytes),
        }
    }

    /// Splits the document and gives its bytes up, unless it is split, and joins what its counted
    /// words come to into `totals`. After an `OutOfMemory` nothing is said of either.
    pub(crate) fn split(
        &mut self,
        alloc: Global,
        stop: &StopSet,
        totals: &mut Totals,
    ) -> Result<(), OutOfMemory>
        ensures value { OnOk result (self.new ≡ split_content stop.now self.old) }
        ensures totals { OnOk result
            (totals.new ≡ totals_join totals.old (split_totals stop.now self.old)) }
    {
        let Kept::Bytes(bytes) = &self.kept else {
            return totals.join(Totals::unit(alloc));
        };
        let words = CountedWords::split(alloc, stop, bytes)?;
        add_totals(alloc, &words, totals)?;
        self.kept = Kept::Words(words);
        Ok(())
    }

    /// The words of a document that is split.
    pub fn words(&self) -> Option<&CountedWords>
        ensures { MatchOption result (IsWhole self.now) (λ kept. self.now ≡ split kept.now.words) }
    {
        match &self.kept {
            Kept::Bytes(_) => None,
            Kept::Words(words) => Some(words),
        }
    }

    /// A second document, equal to this one.
    pub(crate) fn copy(&self) -> Result<Document, OutOfMemory>
        ensures { IfOk result (λ copy. copy ≡ self.now) }
    {
        let kept = match &self.kept {
            Kept::Bytes(bytes) => Kept::Bytes(bytes.clone()?),
            Kept::Words(words) => Kept::Words(words.copy()?),
        };
        Ok(Document { kept })
    }
}
