// The terms that an index leaves out.
ghost use Rattle.std.specs.Prelude.{◌≡◌, ◌≤◌, ℕ, List, [], length, IfOk, OnOk, ◌||◌};
ghost use Rattle.std.specs.List.Sorted.{IsStrictlySortedBy};
ghost use Rattle.std.specs.Ordering.{nat_cmp};
ghost use Rattle.std.specs.Cmp.Lexicographic.{slice_cmp};
ghost use Rattle.std.specs.Str.{bytes_eq};
ghost use Rattle.ss_base.specs.declared.limits.TheConstants.{STOP_LIST_BYTES};
ghost use Rattle.index_definitions.specs.Words.{terms_in};
ghost use Rattle.index_definitions.specs.Terms.{has_term, HaveSameTerms, rising_terms};

use crate::{Terms, text_of};
use ss_base::OutOfMemory;
use std::alloc::Global;
use std::collections::BTreeSet;
use std::marker::Model;

/// The terms of a stop list. Contracts see them as a list, each once, in the order of their bytes,
/// so that stop lists with the same terms are equal.
///
/// They are ordered, so no choice of words makes a look-up slow.
#[derive(Drop)]
pub struct StopSet {
    terms: BTreeSet<String>,
}

impl Model for StopSet {
    ghost use Rattle.std.specs.Prelude.{ℕ, List, map, string_bytes};
    ghost use Rattle.std.specs.List.Sorted.{IsStrictlySortedBy};
    ghost use Rattle.std.specs.Ordering.{nat_cmp};
    ghost use Rattle.std.specs.Cmp.Lexicographic.{slice_cmp};

    ghost Value = { List (List ℕ) };

    ghost view = { λ set. map string_bytes set.terms.keys };

    ghost invariant = { λ set.
        IsStrictlySortedBy (slice_cmp nat_cmp) (map string_bytes set.terms.keys) };
}

impl StopSet {
    /// No terms, which takes no memory.
    pub fn empty(alloc: Global) -> StopSet
        ensures { result ≡ [] }
    {
        StopSet {
            terms: BTreeSet::new(alloc),
        }
    }

    /// The terms of the words of a stop list of at most 8 MiB, which is read as a document is.
    pub fn of(alloc: Global, bytes: &[u8]) -> Result<StopSet, OutOfMemory>
        requires { length bytes.now ≤ STOP_LIST_BYTES }
        ensures terms { IfOk result (λ set. set ≡ rising_terms (terms_in bytes.now)) }
        ensures stops { IfOk result (λ set. HaveSameTerms set (terms_in bytes.now)) }
    {
        let text = text_of(alloc, bytes)?;
        let mut terms = Terms::new(text.as_str());
        let mut term = String::new(alloc);
        let mut set = StopSet::empty(alloc);
        while terms.next_into(alloc, &mut term)? {
            set.add(alloc, term.as_str())?;
        }
        Ok(set)
    }

    /// Whether a term is one of them. It takes no memory.
    pub fn contains(&self, term: &str) -> bool
        ensures member { result ≡ has_term self.now term.now }
        ensures rises { IsStrictlySortedBy (slice_cmp nat_cmp) self.now }
    {
        self.terms.contains(term)
    }

    /// A second set, equal to this one.
    // A set keeps its allocator, and the copy's is a copy of it.
    pub fn copy(&self, _alloc: Global) -> Result<StopSet, OutOfMemory>
        ensures { IfOk result (λ copy. copy ≡ self.now) }
    {
        let terms = self.terms.clone()?;
        Ok(StopSet { terms })
    }

    // Puts in a term. A key is made for a new term only.
    fn add(&mut self, alloc: Global, term: &str) -> Result<(), OutOfMemory>
        ensures terms { OnOk result ((q : List ℕ) → has_term self.new q
            ≡ (bytes_eq q term.now || has_term self.old q)) }
        ensures rises { OnOk result (IsStrictlySortedBy (slice_cmp nat_cmp) self.new) }
    {
        if !self.terms.contains(term) {
            self.terms.insert(String::from_str(alloc, term)?)?;
        }
        Ok(())
    }
}
