// The postings of one term, all in one list of numbers.
ghost use Rattle.std.specs.Prelude.{◌≡◌, ◌<◌, ◌≤◌, ◌+◌, [], ◌∷◌, ◌++◌, length};
ghost use Rattle.std.specs.Prelude.{vec_len, vec_capacity, IfOk, OnOk, OnErr, IfNone, IfSome};
ghost use Rattle.std.specs.Iterator.{YieldsFirst, item_count};
ghost use Rattle.index_definitions.specs.PostingLists.{ListsPostings, ArePositions};
ghost use Rattle.index_definitions.specs.PostingLists.{last_document, pairs_of};
ghost use Rattle.postings.specs.Numbers.{lists_of, HoldPostings};
ghost use Rattle.postings.specs.Spelling.{Spells};

use crate::encoding::push_documents;
use ss_base::OutOfMemory;
use std::alloc::Global;
use std::fmt;
use std::marker::Model;

/// The documents that hold a term, rising, each with its positions, rising. Both count from 1.
#[derive(Drop)]
pub struct Postings {
    // document by document its number, how many positions it has, and those positions
    numbers: Vec<u32>,
    documents: u32,
}

impl Model for Postings {
    ghost use Rattle.std.specs.Prelude.{◌≡◌, length};
    ghost use Rattle.index_definitions.specs.PostingLists.{PostingList};
    ghost use Rattle.postings.specs.Numbers.{lists_of, HoldPostings};

    ghost Value = { PostingList };

    ghost view = { λ postings. lists_of postings.numbers.items };

    ghost invariant = { λ postings.
        HoldPostings postings.numbers.items
        × (postings.documents ≡ length (lists_of postings.numbers.items)) };
}

// Makes room at the end. Most terms stand in one document, so the first has no room to spare. After
// that a list without room grows by a quarter at least, so that it isn't moved for each document.
fn make_room(numbers: &mut Vec<u32>, count: usize) -> Result<(), OutOfMemory>
    ensures items { numbers.new.items ≡ numbers.old.items }
    ensures room { OnOk result (vec_len numbers.new + count ≤ vec_capacity numbers.new) }
{
    if numbers.capacity() - numbers.len() < count {
        numbers.reserve_exact(count.max(numbers.len() / 4))?;
    }
    Ok(())
}

// Appends a document, or nothing.
fn push_document(
    numbers: &mut Vec<u32>,
    doc: u32,
    count: u32,
    positions: &[u32],
) -> Result<(), OutOfMemory>
    ensures ok { OnOk result
        (numbers.new.items ≡ numbers.old.items ++ doc ∷ count ∷ positions.now) }
    ensures err { OnErr result (numbers.new.items ≡ numbers.old.items) }
{
    make_room(numbers, positions.len() + 2)?;
    numbers.push(doc)?;
    numbers.push(count)?;
    numbers.extend_from_slice(positions)?;
    Ok(())
}

impl Postings {
    /// No documents, which takes no memory.
    pub fn new(alloc: Global) -> Postings
        ensures { result ≡ [] }
    {
        Postings {
            numbers: Vec::new(alloc),
            documents: 0,
        }
    }

    /// Appends a document with its positions. An `OutOfMemory` changes nothing.
    pub fn append(&mut self, doc: u32, positions: &[u32]) -> Result<(), OutOfMemory>
        requires rises { last_document self.old < doc }
        requires positions { ArePositions positions.now }
        ensures ok { OnOk result (self.new ≡ self.old ++ (doc, positions.now) ∷ []) }
        ensures err { OnErr result (self.new ≡ self.old) }
    {
        push_document(&mut self.numbers, doc, positions.len() as u32, positions)?;
        self.documents += 1;
        Ok(())
    }

    /// A second list, equal to this one, with no room to spare.
    pub fn copy(&self) -> Result<Postings, OutOfMemory>
        ensures { IfOk result (λ copy. copy ≡ self.now) }
    {
        Ok(Postings {
            numbers: Vec::from_slice(*self.numbers.allocator(), &self.numbers)?,
            documents: self.documents,
        })
    }

    /// All pairs of document and position, in order. It takes no memory.
    pub fn iter(&self) -> PostingsIter<'_>
        ensures pairs { result ≡ pairs_of self.now }
        ensures rises { ListsPostings self.now }
    {
        PostingsIter {
            document: 0,
            positions: &[],
            rest: &self.numbers,
        }
    }

    /// The bytes that spell the list.
    pub fn encode(&self, alloc: Global) -> Result<Vec<u8>, OutOfMemory>
        ensures { IfOk result (λ bytes. Spells bytes.items self.now) }
    {
        let mut bytes = Vec::new(alloc);
        push_documents(&mut bytes, &self.numbers)?;
        Ok(bytes)
    }

    /// How many documents there are. It takes no memory.
    pub fn documents(&self) -> u64
        ensures { result ≡ length self.now }
    {
        u64::from(self.documents)
    }
}

// Shown as the pairs of document and position.
impl fmt::Debug for Postings {
    fn fmt<W: fmt::Write>(&self, f: &mut fmt::Formatter<W>) -> fmt::Result {
        f.debug_list().entries(self.iter()).finish()
    }
}

/// The first document, its positions, and the numbers behind them.
pub(crate) fn split_document(numbers: &[u32]) -> Option<(u32, &[u32], &[u32])>
    requires { HoldPostings numbers.now }
    ensures none { IfNone result (numbers.now ≡ []) }
    ensures first { IfSome result (λ parts.
        lists_of numbers.now ≡ (parts.0, parts.1.now) ∷ lists_of parts.2.now) }
    ensures some { IfSome result (λ parts. 0 < length parts.1.now) }
    ensures rest { IfSome result (λ parts. HoldPostings parts.2.now) }
{
    let [document, count, numbers @ ..] = numbers else {
        return None;
    };
    let (positions, rest) = numbers.split_at(*count as usize);
    Some((*document, positions, rest))
}

/// The pairs of document and position that are left. Contracts see their list.
#[derive(Drop)]
pub struct PostingsIter<'a> {
    // the document whose positions are being given, those left of it, and the documents after it
    document: u32,
    positions: &'a [u32],
    rest: &'a [u32],
}

impl<'a> Model for PostingsIter<'a> {
    ghost use Rattle.std.specs.Prelude.{ℕ, List, ◌++◌};
    ghost use Rattle.index_definitions.specs.PostingLists.{pairs_in, pairs_of};
    ghost use Rattle.postings.specs.Numbers.{lists_of, HoldPostings};

    ghost Value = { List (ℕ × ℕ) };

    ghost view = { λ iter.
        pairs_in (iter.document, iter.positions.now) ++ pairs_of (lists_of iter.rest.now) };

    ghost invariant = { λ iter. HoldPostings iter.rest.now };
}

impl<'a> Iterator for PostingsIter<'a> {
    type Item = (u32, u32);

    ghost next_gives = { YieldsFirst (λ left. left) };

    ghost remaining = { item_count (λ left. left) };

    fn next(&mut self) -> Option<(u32, u32)> {
        if self.positions.is_empty() {
            (self.document, self.positions, self.rest) = split_document(self.rest)?;
        }
        let (position, others) = self.positions.split_first()?;
        self.positions = others;
        Some((self.document, *position))
    }
}
