// What no clause says: that memory is found, and that the definitions mean what they are meant to,
// by values worked out by hand.
ghost use Rattle.std.specs.Prelude.{◌≤◌, length};

use class_laws::{Both, Class, CountMap, Max, Reducible, WrapSum, no_reading};
use delegation::Plain;
use doc_words::StopSet;
use indexer::{Document, Index, Item, ItemOp, Shard, Totals, build};
use ss_base::OutOfMemory;
use std::alloc::Global;
use std::sync::Wait;
use std::test::Fail;
use std::thread::Threads;

fn document(alloc: Global, text: &[u8]) -> Result<Item, OutOfMemory>
    requires { length text.now ≤ 8388608 }
{
    Ok(Item::Doc(Document::new(text.to_vec(alloc)?)))
}

// A document of this text, split, where "the" and "longest" are stopped.
fn split(alloc: Global, text: &[u8], totals: &mut Totals) -> Result<Item, OutOfMemory>
    requires { length text.now ≤ 8388608 }
{
    let mut item = document(alloc, text)?;
    let stop = Item::Stop(StopSet::of(alloc, b"the longest")?);
    item.apply(alloc, &ItemOp::Split, Some(&stop), totals)?;
    Ok(item)
}

// The terms of a split document, each with its positions.
fn listed(alloc: Global, item: &Item) -> Result<String, OutOfMemory> {
    let mut text = String::new(alloc);
    let Item::Doc(document) = item else {
        return Ok(text);
    };
    let Some(words) = document.words() else {
        return Ok(text);
    };
    for number in 0..words.terms() {
        let term = words.term(number);
        write!(text, "{term}")?;
        for position in words.positions(number) {
            write!(text, " {position}")?;
        }
        text.push_str(";")?;
    }
    Ok(text)
}

// The documents and positions of a term of a shard.
fn places(alloc: Global, item: &Item, term: &str) -> Result<String, OutOfMemory> {
    let mut text = String::new(alloc);
    let Item::Shard(shard) = item else {
        return Ok(text);
    };
    let Some(postings) = shard.postings(term) else {
        return Ok(text);
    };
    for (document, position) in postings.iter() {
        write!(text, "{document}:{position};")?;
    }
    Ok(text)
}

#[test]
fn words_are_counted_and_stopped_words_are_not(rt: HostRuntime) -> Result<(), Fail> {
    let alloc = rt.alloc();
    let mut totals = Totals::unit(alloc);
    let first = split(alloc, b"The cat, the longest dog, a Cat", &mut totals)?;
    let second = split(alloc, b"\xC3\xA9t\xC3\xA9s cat", &mut totals)?;
    assert_eq!(rt; listed(alloc, &first)?.as_str(), "cat 2 7;dog 5;a 6;");
    assert_eq!(rt; listed(alloc, &second)?.as_str(), "\u{e9}t\u{e9}s 1;cat 2;");
    let Both(Both(words, longest), counts) = totals;
    assert_eq!(rt; words, WrapSum(6));
    assert_eq!(rt; longest, Max(4));
    assert_eq!(rt; counts.count("cat"), 3);
    assert_eq!(rt; counts.count("dog"), 1);
    assert_eq!(rt; counts.count("the"), 0);
    Ok(())
}

// Shard 8 after two documents. The bytes of "cat" come to 312, and those of "dog" to 314: shards 8
// and 10.
fn shard_of_two(alloc: Global) -> Result<Item, OutOfMemory> {
    let mut totals = Totals::unit(alloc);
    let first = split(alloc, b"cat the dog cat", &mut totals)?;
    let second = split(alloc, b"dog cat", &mut totals)?;
    let mut shard = Item::Shard(Shard::new(alloc, 8));
    shard.apply(alloc, &ItemOp::Gather { doc: 1 }, Some(&first), &mut totals)?;
    shard.apply(
        alloc,
        &ItemOp::Gather { doc: 3 },
        Some(&second),
        &mut totals,
    )?;
    Ok(shard)
}

#[test]
fn documents_are_gathered_into_the_shards_of_their_terms(rt: HostRuntime) -> Result<(), Fail> {
    let alloc = rt.alloc();
    let shard = shard_of_two(alloc)?;
    let copy = shard.copy(alloc)?;
    for shard in [&shard, &copy] {
        assert_eq!(rt; places(alloc, shard, "cat")?.as_str(), "1:1;1:4;3:2;");
        assert_eq!(rt; places(alloc, shard, "dog")?.as_str(), "");
    }
    Ok(())
}

// The terms of a copy of a split document, once the document itself is gone.
fn listed_of_copy(alloc: Global, text: &[u8]) -> Result<String, OutOfMemory>
    requires { length text.now ≤ 8388608 }
{
    let mut totals = Totals::unit(alloc);
    let copy = split(alloc, text, &mut totals)?.copy(alloc)?;
    listed(alloc, &copy)
}

#[test]
fn a_copied_document_has_the_words_of_the_first(rt: HostRuntime) -> Result<(), Fail> {
    let terms = listed_of_copy(rt.alloc(), b"The cat, a Cat")?;
    assert_eq!(rt; terms.as_str(), "cat 2 4;a 3;");
    Ok(())
}

#[test]
fn a_copied_stop_list_stops_what_it_stopped(rt: HostRuntime) -> Result<(), Fail> {
    let alloc = rt.alloc();
    let mut totals = Totals::unit(alloc);
    for (stop, wanted) in [
        (StopSet::empty(alloc), "the 1;cat 2;"),
        (StopSet::of(alloc, b"the")?, "cat 2;"),
    ] {
        let copy = Item::Stop(stop).copy(alloc)?;
        assert!(rt; matches!(copy, Item::Stop(_)));
        let mut item = document(alloc, b"The cat")?;
        item.apply(alloc, &ItemOp::Split, Some(&copy), &mut totals)?;
        assert_eq!(rt; listed(alloc, &item)?.as_str(), wanted);
    }
    Ok(())
}

#[test]
fn what_does_not_fit_changes_nothing(rt: HostRuntime) -> Result<(), Fail> {
    let alloc = rt.alloc();
    let mut totals = Totals::unit(alloc);
    let mut first = split(alloc, b"cat", &mut totals)?;
    let whole = document(alloc, b"cat cat")?;
    let mut shard = Item::Shard(Shard::new(alloc, 8));
    shard.apply(alloc, &ItemOp::Gather { doc: 1 }, Some(&whole), &mut totals)?;
    shard.apply(alloc, &ItemOp::Gather { doc: 0 }, Some(&first), &mut totals)?;
    shard.apply(alloc, &ItemOp::Gather { doc: 2 }, Some(&first), &mut totals)?;
    shard.apply(alloc, &ItemOp::Gather { doc: 2 }, Some(&first), &mut totals)?;
    shard.apply(alloc, &ItemOp::Split, no_reading(), &mut totals)?;
    let stop = Item::Stop(StopSet::empty(alloc));
    first.apply(alloc, &ItemOp::Split, Some(&stop), &mut totals)?;
    assert_eq!(rt; places(alloc, &shard, "cat")?.as_str(), "2:1;");
    assert_eq!(rt; listed(alloc, &first)?.as_str(), "cat 1;");
    let Both(Both(words, _), counts) = totals;
    assert_eq!(rt; words, WrapSum(1));
    assert_eq!(rt; counts.count("cat"), 1);
    assert_eq!(rt; Item::own_set(&ItemOp::Split), 0);
    Ok(())
}

// The index of two documents: its numbers, and each term with its total and its places.
fn indexed<R: Threads + Wait + Copy + Send + Sync + 'static>(
    rt: &R,
    alloc: Global,
    first: &[u8],
    second: &[u8],
    stop: &[u8],
) -> Result<String, OutOfMemory>
    requires first { length first.now ≤ 8388608 }
    requires second { length second.now ≤ 8388608 }
    requires stop { length stop.now ≤ 8388608 }
{
    let mut documents = Vec::new(alloc);
    documents.push(first.to_vec(alloc)?)?;
    documents.push(second.to_vec(alloc)?)?;
    let stop = StopSet::of(alloc, stop)?;
    let mut plain = Plain::new(alloc)?;
    let index = build(rt, alloc, &mut plain, documents, stop)?;
    let mut text = String::new(alloc);
    let Index {
        documents,
        words,
        longest,
        terms,
    } = &index;
    write!(text, "{documents} {words} {longest}")?;
    for term in terms {
        let total = term.total;
        let name = term.text.as_str();
        write!(text, "; {name} {total}")?;
        for (document, position) in term.postings.iter() {
            write!(text, " {document}:{position}")?;
        }
    }
    Ok(text)
}

#[test]
fn documents_are_indexed_without_stopped_terms(rt: HostRuntime) -> Result<(), Fail> {
    let alloc = rt.alloc();
    let all = indexed(&rt, alloc, b"b a", b"a", b"")?;
    assert_eq!(rt; all.as_str(), "2 3 1; a 2 1:2 2:1; b 1 1:1");
    let some = indexed(&rt, alloc, b"the cat the", b"", b"The")?;
    assert_eq!(rt; some.as_str(), "2 1 3; cat 1 1:2");
    Ok(())
}
