// What no clause says: that calls which may find no memory do answer, and the texts of errors. The
// shelf and the sink in memory are shown at work too.
ghost use Rattle.std.specs.Prelude.{◌<◌};

use crate::{
    Failed, MemShelf, MemSink, OutOfMemory, ReadStop, Shelf, Sink, Text, Texts, read_all, write_all,
};
use std::alloc::Global;
use std::test::Fail;

// A shelf that holds `abcde` under `a`.
fn shelf_of(alloc: Global, fail: &[u64], chunk: usize) -> Result<MemShelf, Fail>
    requires { 0 < chunk }
{
    let mut files = Vec::new(alloc);
    files.push((Text::of(alloc, "a")?, b"abcde".to_vec(alloc)?))?;
    Ok(MemShelf::new(files, fail.to_vec(alloc)?, chunk))
}

#[test]
fn texts_are_kept_in_order(rt: HostRuntime) -> Result<(), Fail> {
    let alloc = rt.alloc();
    let mut texts = Texts::new(alloc);
    texts.push(Text::of(alloc, "b")?)?;
    texts.push(Text::of(alloc, "a")?)?;
    assert_eq!(rt; texts.as_slice().len(), 2);
    assert_eq!(rt; texts.as_slice()[0].as_str(), "b");
    Ok(())
}

#[test]
fn a_name_is_read_whole_at_each_chunk_up_to_the_limit(rt: HostRuntime) -> Result<(), Fail> {
    let alloc = rt.alloc();
    for chunk in [1usize, 3, 4096] {
        let mut shelf = shelf_of(alloc, &[], chunk)?;
        let bytes = read_all(alloc, &mut shelf, "a", 5)?;
        assert_eq!(rt; bytes.as_slice(), b"abcde".as_slice(), "at {chunk}");
        let long = read_all(alloc, &mut shelf, "a", 4);
        assert!(rt; matches!(&long, Err(ReadStop::TooLong)), "at {chunk}");
        let absent = read_all(alloc, &mut shelf, "b", 4);
        assert!(rt; matches!(&absent, Err(ReadStop::Failed)), "at {chunk}");
    }
    Ok(())
}

#[test]
fn listed_calls_of_a_shelf_fail(rt: HostRuntime) -> Result<(), Fail> {
    let alloc = rt.alloc();
    // By chunks of 3 the calls are: open, `abc`, `de`, the end.
    for call in 0..5u64 {
        let mut shelf = shelf_of(alloc, &[call], 3)?;
        let fails = matches!(&read_all(alloc, &mut shelf, "a", 9), Err(ReadStop::Failed));
        assert_eq!(rt; fails, call < 4, "at {call}");
    }
    Ok(())
}

#[test]
fn a_sink_takes_by_chunks_until_a_listed_write_or_its_room_ends(
    rt: HostRuntime,
) -> Result<(), Fail> {
    let alloc = rt.alloc();
    let mut whole = MemSink::new(alloc, 5, Vec::new(alloc), 2)?;
    assert_eq!(rt; write_all(&mut whole, b"abcde"), Ok(()));
    assert_eq!(rt; whole.bytes(), b"abcde".as_slice());
    assert_eq!(rt; whole.write(b"f"), Err(Failed));

    let mut listed = MemSink::new(alloc, 5, vec![in alloc; 1]?, 2)?;
    assert_eq!(rt; write_all(&mut listed, b"abcde"), Err(Failed));
    assert_eq!(rt; listed.bytes(), b"ab".as_slice());

    let mut small = MemSink::new(alloc, 3, Vec::new(alloc), 2)?;
    assert_eq!(rt; write_all(&mut small, b"abcde"), Err(Failed));
    assert_eq!(rt; small.bytes(), b"abc".as_slice());
    Ok(())
}

#[test]
fn an_error_says_what_failed(rt: HostRuntime) -> Result<(), Fail> {
    let alloc = rt.alloc();
    for (told, text) in [
        (format!(in alloc; "{Failed}")?, "the outside failed"),
        (format!(in alloc; "{OutOfMemory}")?, "out of memory"),
        (
            format!(in alloc; "{}", ReadStop::Failed)?,
            "the outside failed",
        ),
        (
            format!(in alloc; "{}", ReadStop::TooLong)?,
            "longer than the limit",
        ),
        (
            format!(in alloc; "{}", ReadStop::OutOfMemory)?,
            "out of memory",
        ),
    ] {
        assert_eq!(rt; told.as_str(), text);
    }
    Ok(())
}
