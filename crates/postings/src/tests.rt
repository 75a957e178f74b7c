// What no clause says: that memory is found, and how postings are shown.
use crate::{Postings, PostingsFault, decode};
use std::test::Fail;

#[test]
fn postings_come_back_in_order(rt: HostRuntime) -> Result<(), Fail> {
    let alloc = rt.alloc();
    let mut postings = Postings::new(alloc);
    postings.append(1, &[1, 3])?;
    postings.append(4, &[2])?;
    for postings in [&postings, &postings.copy()?] {
        let pairs: Vec<(u32, u32)> = postings.iter().collect(alloc)?;
        assert_eq!(rt; pairs.as_slice(), [(1, 1), (1, 3), (4, 2)].as_slice());
    }
    assert_eq!(rt; postings.documents(), 2);
    assert_eq!(rt;
        postings.encode(alloc)?.as_slice(),
        [1, 1, 2, 0, 3, 2, 0].as_slice()
    );
    let shown = format!(in alloc; "{postings:?}")?;
    assert_eq!(rt; shown.as_str(), "[(1, 1), (1, 3), (4, 2)]");
    Ok(())
}

// The bytes of each list, with its number of documents and its pairs.
#[test]
fn lists_are_spelt_as_the_format_says(rt: HostRuntime) -> Result<(), Fail> {
    let alloc = rt.alloc();
    let cases: [(u64, &[(u32, u32)], &[u8]); 9] = [
        (0, &[], &[]),
        (1, &[(1, 1), (1, 3)], &[1, 1, 2, 0]),
        (2, &[(1, 2), (2, 1)], &[1, 2, 0, 1, 1, 0]),
        (1, &[(128, 1)], &[0x80, 1, 1, 0]),
        (1, &[(127, 128)], &[0x7F, 0x80, 1, 0]),
        (1, &[(1, 16383), (1, 16384)], &[1, 0xFF, 0x7F, 1, 0]),
        (1, &[(16384, 16384)], &[0x80, 0x80, 1, 0x80, 0x80, 1, 0]),
        (
            1,
            &[(u32::MAX, u32::MAX)],
            &[0xFF, 0xFF, 0xFF, 0xFF, 15, 0xFF, 0xFF, 0xFF, 0xFF, 15, 0],
        ),
        (
            1,
            &[(1, 1), (1, u32::MAX)],
            &[1, 1, 0xFE, 0xFF, 0xFF, 0xFF, 15, 0],
        ),
    ];
    for (documents, listed, bytes) in cases {
        let postings = decode(alloc, bytes)?;
        let pairs: Vec<(u32, u32)> = postings.iter().collect(alloc)?;
        assert_eq!(rt; pairs.as_slice(), listed, "at {bytes:?}");
        assert_eq!(rt; postings.documents(), documents, "at {bytes:?}");
        assert_eq!(rt; postings.encode(alloc)?.as_slice(), bytes, "at {bytes:?}");
    }
    Ok(())
}

// Where bytes that spell no list stop to begin one.
#[test]
fn other_bytes_are_refused_at_the_place_of_the_fault(rt: HostRuntime) -> Result<(), Fail> {
    let alloc = rt.alloc();
    let cases: [(&[u8], usize); 23] = [
        (&[0], 0),
        (&[0x81, 0], 1),
        (&[0x80, 0x80, 0], 2),
        (&[1, 0], 1),
        (&[1], 1),
        (&[1, 1], 2),
        (&[1, 0x80], 2),
        (&[0x80], 1),
        (&[1, 2, 0, 1], 4),
        (&[1, 2, 0, 1, 1], 5),
        (&[1, 2, 0, 0], 3),
        // one above the greatest number, and numbers that can't be finished within it
        (&[0xFF, 0xFF, 0xFF, 0xFF, 16], 4),
        (&[0x80, 0x80, 0x80, 0x80, 16], 4),
        (&[0xFF, 0xFF, 0xFF, 0xFF, 0x80], 4),
        (&[0xFF, 0xFF, 0xFF, 0xFF], 4),
        (&[0x80, 0x80, 0x80, 0x80, 15], 5),
        // behind the greatest document or position comes none
        (&[0xFF, 0xFF, 0xFF, 0xFF, 15, 1, 0, 1], 7),
        (&[0xFF, 0xFF, 0xFF, 0xFF, 15, 1, 0, 0x80], 7),
        (&[1, 0xFF, 0xFF, 0xFF, 0xFF, 15, 1], 6),
        (&[1, 1, 0xFE, 0xFF, 0xFF, 0xFF, 16], 6),
        (&[1, 1, 0xFF, 0xFF, 0xFF, 0xFF, 15], 6),
        (
            &[1, 0xFF, 0xFF, 0xFF, 0xFF, 14, 0xFF, 0xFF, 0xFF, 0x80, 1],
            9,
        ),
        (&[1, 0xFF, 0xFF, 0xFF, 0xFF, 14, 0x80, 0x80, 0x80, 0x81], 9),
    ];
    for (bytes, at) in cases {
        let answer = decode(alloc, bytes).err();
        assert_eq!(rt;
            answer,
            Some(PostingsFault::BadPostings { at }),
            "at {bytes:?}"
        );
    }
    Ok(())
}

#[test]
fn a_fault_says_where_the_postings_end(rt: HostRuntime) -> Result<(), Fail> {
    let alloc = rt.alloc();
    let bad = format!(in alloc; "{}", PostingsFault::BadPostings { at: 3 })?;
    assert_eq!(rt; bad.as_str(), "no postings from byte 3 on");
    let memory = format!(in alloc; "{}", PostingsFault::OutOfMemory)?;
    assert_eq!(rt; memory.as_str(), "out of memory");
    Ok(())
}
