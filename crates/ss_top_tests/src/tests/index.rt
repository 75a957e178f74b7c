// `index`: documents, their limits, and inputs that aren't there.
use crate::tests::{Case, check_cases, check_run, run_open, shelf_of, sink, words_of};
use ss_base::Text;
use ss_top::{LimitHit, Status, Which};
use std::alloc::Global;
use std::test::Fail;

// A document, its index, and what the case shows.
struct Row {
    case: &'static str,
    document: &'static [u8],
    index: &'static str,
}

const ROWS: [Row; 5] = [
    Row {
        case: "words count from 1, and case is folded",
        document: b"a b A\n",
        index: "documents 1\nwords 3\nlongest 1\nterms 2\na 2 1:1,3\nb 1 1:2\n",
    },
    Row {
        case: "no bytes",
        document: b"",
        index: "documents 1\nwords 0\nlongest 0\nterms 0\n",
    },
    Row {
        case: "one letter folds to two",
        document: b"Stra\xC3\x9Fe STRASSE",
        index: "documents 1\nwords 2\nlongest 7\nterms 1\nstrasse 2 1:1,2\n",
    },
    Row {
        case: "a byte that begins no character stands between words",
        document: b"a\xFFb",
        index: "documents 1\nwords 2\nlongest 1\nterms 2\na 1 1:1\nb 1 1:2\n",
    },
    Row {
        case: "the example of Unicode Standard Annex 29",
        document: b"The quick (brown) fox jumps feet, right?",
        index: "documents 1\nwords 7\nlongest 5\nterms 7\nbrown 1 1:3\nfeet 1 1:6\nfox 1 1:4\n\
                jumps 1 1:5\nquick 1 1:2\nright 1 1:7\nthe 1 1:1\n",
    },
];

#[test]
fn a_document_is_indexed_whatever_the_chunks(rt: HostRuntime) -> Result<(), Fail> {
    let alloc = rt.alloc();
    let words = words_of(alloc, &["index", "-"])?;
    for row in &ROWS {
        for chunk in [1usize, 3, 4096] {
            let case = row.case;
            let mut shelf = shelf_of(alloc, row.document.to_vec(alloc)?, &[], chunk)?;
            let mut out = sink(alloc)?;
            let mut err = sink(alloc)?;
            let status = run_open(rt, alloc, &words, &mut shelf, &mut out, &mut err)?;
            assert_eq!(rt; status, Status::Done, "at {case}, {chunk}");
            assert_eq!(rt; out.bytes(), row.index.as_bytes(), "at {case}, {chunk}");
            assert_eq!(rt; err.bytes(), b"".as_slice(), "at {case}, {chunk}");
        }
    }
    Ok(())
}

#[test]
fn a_character_may_stand_across_two_reads(rt: HostRuntime) -> Result<(), Fail> {
    let alloc = rt.alloc();
    let words = words_of(alloc, &["index", "-"])?;
    let mut document = vec![in alloc; b'x'; 4095]?;
    document.extend_from_slice("é".as_bytes())?;
    let mut shelf = shelf_of(alloc, document, &[], 4096)?;
    let mut out = sink(alloc)?;
    let mut err = sink(alloc)?;
    let status = run_open(rt, alloc, &words, &mut shelf, &mut out, &mut err)?;
    assert_eq!(rt; status, Status::Done);
    let mut text = b"documents 1\nwords 1\nlongest 4096\nterms 1\n".to_vec(alloc)?;
    text.extend_from_slice(&vec![in alloc; b'x'; 4095]?)?;
    text.extend_from_slice("é 1 1:1\n".as_bytes())?;
    assert_eq!(rt; out.bytes(), text.as_slice());
    assert_eq!(rt; err.bytes(), b"".as_slice());
    Ok(())
}

const CASES: [Case; 6] = [
    Case {
        words: &["index", "p", "q"],
        files: &[("p", b"b a"), ("q", b"a")],
        status: Status::Done,
        out: "documents 2\nwords 3\nlongest 1\nterms 2\na 2 1:2;2:1\nb 1 1:1\n",
        err: "",
    },
    // An empty document counts, also where it is the last.
    Case {
        words: &["index", "p", "q"],
        files: &[("p", b"a"), ("q", b"")],
        status: Status::Done,
        out: "documents 2\nwords 1\nlongest 1\nterms 1\na 1 1:1\n",
        err: "",
    },
    // A name that stands twice is read twice.
    Case {
        words: &["index", "-", "p", "-"],
        files: &[("-", b"a"), ("p", b"b")],
        status: Status::Done,
        out: "documents 3\nwords 3\nlongest 1\nterms 2\na 2 1:1;3:1\nb 1 2:1\n",
        err: "",
    },
    Case {
        words: &["index", "--stop", "s", "d"],
        files: &[("s", b"The"), ("d", b"the cat the")],
        status: Status::Done,
        out: "documents 1\nwords 1\nlongest 3\nterms 1\ncat 1 1:2\n",
        err: "",
    },
    Case {
        words: &["index", "a", "b", "c"],
        files: &[("a", b"x"), ("c", b"z")],
        status: Status::ReadFault(Which::Name(2)),
        out: "",
        err: "ssidx: cannot read b\n",
    },
    // The stop list is opened first.
    Case {
        words: &["index", "--stop", "s", "a"],
        files: &[],
        status: Status::ReadFault(Which::Stop),
        out: "",
        err: "ssidx: cannot read s\n",
    },
];

#[test]
fn documents_are_indexed_in_the_order_of_their_names(rt: HostRuntime) -> Result<(), Fail> {
    check_cases(rt, rt.alloc(), &CASES)
}

// A file of so many spaces.
fn spaces(alloc: Global, name: &str, count: usize) -> Result<Vec<(Text, Vec<u8>)>, Fail> {
    let mut files = Vec::new(alloc);
    files.push((Text::of(alloc, name)?, vec![in alloc; b' '; count]?))?;
    Ok(files)
}

#[test]
fn a_document_may_have_so_many_bytes(rt: HostRuntime) -> Result<(), Fail> {
    let alloc = rt.alloc();
    let nothing = "documents 1\nwords 0\nlongest 0\nterms 0\n";
    let words = words_of(alloc, &["index", "d"])?;
    let files = spaces(alloc, "d", 8388608)?;
    check_run(rt, alloc, &words, files, (Status::Done, nothing, ""))?;

    let files = spaces(alloc, "d", 8388609)?;
    let ends = Status::Limit(LimitHit::Document(1));
    let told = "ssidx: limit: document 1 is over 8388608 bytes: d\n";
    check_run(rt, alloc, &words, files, (ends, "", told))
}

#[test]
fn all_documents_may_have_so_many_bytes(rt: HostRuntime) -> Result<(), Fail> {
    let alloc = rt.alloc();
    let eight = ["index", "d", "d", "d", "d", "d", "d", "d", "d"];
    let nothing = "documents 8\nwords 0\nlongest 0\nterms 0\n";
    let words = words_of(alloc, &eight)?;
    let files = spaces(alloc, "d", 8388608)?;
    check_run(rt, alloc, &words, files, (Status::Done, nothing, ""))?;

    // The ninth document passes the limit at its first byte.
    let mut words = words_of(alloc, &eight)?;
    words.push(String::from_str(alloc, "d")?)?;
    let files = spaces(alloc, "d", 8388608)?;
    let ends = Status::Limit(LimitHit::AllDocuments(9));
    let told = "ssidx: limit: documents to 9 are over 67108864 bytes\n";
    check_run(rt, alloc, &words, files, (ends, "", told))?;

    // A tenth that isn't there isn't asked for.
    words.push(String::from_str(alloc, "e")?)?;
    let files = spaces(alloc, "d", 8388608)?;
    check_run(rt, alloc, &words, files, (ends, "", told))
}

#[test]
fn a_stop_list_may_have_so_many_bytes(rt: HostRuntime) -> Result<(), Fail> {
    let alloc = rt.alloc();
    let words = words_of(alloc, &["index", "--stop", "s", "d"])?;
    let mut files = spaces(alloc, "s", 8388608)?;
    files.push((Text::of(alloc, "d")?, b"d".to_vec(alloc)?))?;
    let printed = "documents 1\nwords 1\nlongest 1\nterms 1\nd 1 1:1\n";
    check_run(rt, alloc, &words, files, (Status::Done, printed, ""))?;

    // The document isn't there, which is not found out.
    let files = spaces(alloc, "s", 8388609)?;
    let ends = Status::Limit(LimitHit::StopBytes);
    let told = "ssidx: limit: stop list is over 8388608 bytes\n";
    check_run(rt, alloc, &words, files, (ends, "", told))
}

#[test]
fn so_many_documents_may_be_named(rt: HostRuntime) -> Result<(), Fail> {
    let alloc = rt.alloc();
    let mut words = words_of(alloc, &["index"])?;
    for _ in 0..65536u32 {
        words.push(String::from_str(alloc, "d")?)?;
    }
    let files = spaces(alloc, "d", 0)?;
    let nothing = "documents 65536\nwords 0\nlongest 0\nterms 0\n";
    check_run(rt, alloc, &words, files, (Status::Done, nothing, ""))?;

    // None of them is there, which is not found out.
    words.push(String::from_str(alloc, "d")?)?;
    let ends = Status::Limit(LimitHit::Names(65537));
    let told = "ssidx: limit: 65537 names are over 65536\n";
    check_run(rt, alloc, &words, Vec::new(alloc), (ends, "", told))
}
