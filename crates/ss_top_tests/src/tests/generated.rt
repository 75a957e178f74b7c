// `gen`: generated documents, and the summary of their index.
use crate::tests::{Case, check_cases};
use ss_top::{GenFault, LimitHit, Status, gen_documents};
use std::test::Fail;

const CASES: [Case; 12] = [
    Case {
        words: &["gen", "1", "3", "0"],
        files: &[],
        status: Status::Done,
        out: "documents 1\nwords 3\nterms 3\npositions 6\n",
        err: "",
    },
    // Numbers may begin with zeros, and positions count from 1 in each document.
    Case {
        words: &["gen", "0000000003", "01", "0000000000"],
        files: &[],
        status: Status::Done,
        out: "documents 3\nwords 3\nterms 3\npositions 3\n",
        err: "",
    },
    Case {
        words: &["gen", "2", "0", "2147483647"],
        files: &[],
        status: Status::Done,
        out: "documents 2\nwords 0\nterms 0\npositions 0\n",
        err: "",
    },
    // There are 1,000 different words, and another program found all of them in these documents.
    Case {
        words: &["gen", "64", "1000", "1"],
        files: &[],
        status: Status::Done,
        out: "documents 64\nwords 64000\nterms 1000\npositions 32032000\n",
        err: "",
    },
    // So they are with no delegate and with as many as there may be; else there are 4.
    Case {
        words: &["gen", "--delegates", "0", "64", "1000", "1"],
        files: &[],
        status: Status::Done,
        out: "documents 64\nwords 64000\nterms 1000\npositions 32032000\n",
        err: "",
    },
    Case {
        words: &[
            "gen",
            "64",
            "1000",
            "1",
            "--delegates=64",
            "--mode=batch",
            "--ring=1",
        ],
        files: &[],
        status: Status::Done,
        out: "documents 64\nwords 64000\nterms 1000\npositions 32032000\n",
        err: "",
    },
    Case {
        words: &["gen", "65537", "1", "0"],
        files: &[],
        status: Status::Limit(LimitHit::Names(65537)),
        out: "",
        err: "ssidx: limit: 65537 names are over 65536\n",
    },
    Case {
        words: &["gen", "4294967295", "4294967295", "0"],
        files: &[],
        status: Status::Limit(LimitHit::Names(4294967295)),
        out: "",
        err: "ssidx: limit: 4294967295 names are over 65536\n",
    },
    Case {
        words: &["gen", "1", "4294967295", "0"],
        files: &[],
        status: Status::Limit(LimitHit::Document(1)),
        out: "",
        err: "ssidx: limit: document 1 is over 8388608 bytes\n",
    },
    Case {
        words: &["gen", "17", "857738", "1223930612"],
        files: &[],
        status: Status::Limit(LimitHit::AllDocuments(17)),
        out: "",
        err: "ssidx: limit: documents to 17 are over 67108864 bytes\n",
    },
    Case {
        words: &["gen", "1", "8388608", "0"],
        files: &[],
        status: Status::Limit(LimitHit::Document(1)),
        out: "",
        err: "ssidx: limit: document 1 is over 8388608 bytes\n",
    },
    // The limits of the documents are met after the number of documents alone.
    Case {
        words: &["gen", "65536", "4294967295", "0"],
        files: &[],
        status: Status::Limit(LimitHit::Document(1)),
        out: "",
        err: "ssidx: limit: document 1 is over 8388608 bytes\n",
    },
];

#[test]
fn a_summary_of_generated_documents_is_printed(rt: HostRuntime) -> Result<(), Fail> {
    check_cases(rt, rt.alloc(), &CASES)
}

#[test]
fn documents_are_generated(rt: HostRuntime) -> Result<(), Fail> {
    let alloc = rt.alloc();
    let made = gen_documents(alloc, 1, 3, 0)?;
    assert_eq!(rt; made.len(), 1);
    assert_eq!(rt; made[0].as_slice(), b"w48 w830 w967 ".as_slice());

    // The state goes on from one document to the next.
    let made = gen_documents(alloc, 3, 1, 0)?;
    assert_eq!(rt; made.len(), 3);
    assert_eq!(rt; made[0].as_slice(), b"w48 ".as_slice());
    assert_eq!(rt; made[1].as_slice(), b"w830 ".as_slice());
    assert_eq!(rt; made[2].as_slice(), b"w967 ".as_slice());

    let made = gen_documents(alloc, 1, 2, 1)?;
    assert_eq!(rt; made.len(), 1);
    assert!(rt; made[0].as_slice().starts_with(b"w654 "));
    Ok(())
}

#[test]
fn documents_that_just_fit_are_generated(rt: HostRuntime) -> Result<(), Fail> {
    let alloc = rt.alloc();
    // How many documents of how many words, behind which seed, and all their bytes: these were
    // counted by another program.
    let rows = [
        (65536u32, 0u32, 0u32, 0usize),
        (1, 1715420, 0, 8388608),
        (16, 857738, 1223930612, 67108864),
    ];
    for (docs, words, seed, bytes) in rows {
        let made = gen_documents(alloc, docs, words, seed)?;
        assert_eq!(rt; made.len(), docs as usize);
        let mut count = 0usize;
        for document in &made {
            count = count.saturating_add(document.len());
        }
        assert_eq!(rt; count, bytes, "at {docs}");
    }
    Ok(())
}

#[test]
fn generated_documents_end_at_the_first_limit(rt: HostRuntime) -> Result<(), Fail> {
    let alloc = rt.alloc();
    let rows = [
        (65537u32, 0u32, 0u32, LimitHit::Names(65537)),
        (1, 1715421, 0, LimitHit::Document(1)),
        (1, 8388608, 0, LimitHit::Document(1)),
        (65536, u32::MAX, 0, LimitHit::Document(1)),
        (17, 857738, 1223930612, LimitHit::AllDocuments(17)),
        (65536, 1000000, 0, LimitHit::AllDocuments(14)),
    ];
    for (docs, words, seed, hit) in rows {
        let fault = gen_documents(alloc, docs, words, seed).err();
        assert_eq!(rt; fault, Some(GenFault::Limit(hit)), "at {docs}, {words}");
    }
    Ok(())
}
