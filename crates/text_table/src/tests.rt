// What no clause says: that the calls succeed where there is memory, and that the definitions mean
// what they are meant to, by numbers worked out by hand.
use crate::tag::tag_of_text;
use crate::{TextMap, TextTable};
use ss_base::OutOfMemory;
use std::alloc::Global;
use std::test::Fail;

// Texts as they come, each with its number.
const INSERTED: [(&str, u32); 9] = [
    ("to", 0),
    ("be", 1),
    ("or", 2),
    ("", 3),
    ("to", 0),
    ("Größe", 4),
    ("größe", 5),
    ("be", 1),
    ("", 3),
];

#[test]
fn texts_are_numbered_as_they_first_come(rt: HostRuntime) -> Result<(), Fail> {
    let mut table = TextTable::new(rt.alloc());
    assert_eq!(rt; table.number_of("to"), None);
    for (text, number) in &INSERTED {
        assert_eq!(rt; table.insert(text)?, *number);
        assert_eq!(rt; table.number_of(text), Some(*number));
    }
    assert_eq!(rt; table.len(), 6);
    Ok(())
}

#[test]
fn a_text_that_is_absent_is_added(rt: HostRuntime) -> Result<(), Fail> {
    let mut table = TextTable::new(rt.alloc());
    for (text, number) in &INSERTED {
        let found = match table.look_up(text) {
            Ok(found) => found,
            Err(absent) => table.insert_absent(absent, text)?,
        };
        assert_eq!(rt; found, *number);
    }
    assert_eq!(rt; table.len(), 6);
    Ok(())
}

#[test]
fn a_list_keeps_the_texts(rt: HostRuntime) -> Result<(), Fail> {
    let mut table = TextTable::new(rt.alloc());
    table.insert("to")?;
    table.insert("be")?;
    let list = table.into_texts();
    let copy = list.copy()?;
    assert_eq!(rt; copy.len(), 2);
    assert_eq!(rt; list.text(0), "to");
    assert_eq!(rt; copy.text(1), "be");
    Ok(())
}

#[test]
fn a_copy_stays_as_it_is(rt: HostRuntime) -> Result<(), Fail> {
    let mut table = TextTable::new(rt.alloc());
    table.insert("to")?;
    table.insert("be")?;
    let copy = table.copy()?;
    table.insert("or")?;
    assert_eq!(rt; table.len(), 3);
    assert_eq!(rt; copy.len(), 2);
    assert_eq!(rt; copy.number_of("be"), Some(1));
    assert_eq!(rt; copy.number_of("or"), None);
    Ok(())
}

// Counts the texts as they come.
fn counted(alloc: Global) -> Result<TextMap<u32>, OutOfMemory> {
    let mut counts: TextMap<u32> = TextMap::new(alloc);
    for (text, _) in &INSERTED {
        match counts.look_up(text) {
            Ok(number) => {
                let count = counts.value_mut(number);
                *count = count.wrapping_add(1);
            }
            Err(absent) => {
                counts.insert_absent(absent, text, 1)?;
            }
        }
    }
    Ok(counts)
}

#[test]
fn a_map_keeps_a_value_for_each_text(rt: HostRuntime) -> Result<(), Fail> {
    let counts = counted(rt.alloc())?;
    let copy = counts.copy()?;
    assert_eq!(rt; copy.len(), 6);
    assert_eq!(rt; copy.get("be").copied(), Some(2));
    assert_eq!(rt; copy.get("or").copied(), Some(1));
    assert_eq!(rt; copy.get("not").copied(), None);
    assert_eq!(rt; copy.values(), counts.values());
    Ok(())
}

#[test]
fn a_thousand_texts_stay_where_they_are(rt: HostRuntime) -> Result<(), Fail> {
    let alloc = rt.alloc();
    let mut table = TextTable::new(alloc);
    for number in 0u32..1000 {
        let text = format!(in alloc; "text {number}")?;
        assert_eq!(rt; table.insert(text.as_str())?, number);
    }
    for number in 0..table.len() {
        let text = format!(in alloc; "text {number}")?;
        assert_eq!(rt; table.text(number), text.as_str());
        assert_eq!(rt; table.number_of(text.as_str()), Some(number));
    }
    assert_eq!(rt; table.number_of("text 1000"), None);
    Ok(())
}

// Found by search: the lowest 16 bits of their tags are the same, so up to 65,536 buckets they are
// all for one of eight places.
const OF_ONE_BUCKET: &str = "aaaabfy2 aaaaehos aaaafwwd aaaaghxc aaaahxnt aaaah4r3 aaaaiwce \
    aaaajoid aaaak5dm aaaalmti aaaanyov aaaarbii aaaar26g aaaasgxc aaaatedi aaaawg7c aaaaw5xd \
    aaaax6st aaaaymb3 aaaa3kzu";

#[test]
fn texts_of_one_bucket_overflow_it(rt: HostRuntime) -> Result<(), Fail> {
    let mut table = TextTable::new(rt.alloc());
    for _ in 0u8..2 {
        for (number, text) in OF_ONE_BUCKET.split_whitespace().enumerate() {
            assert_eq!(rt; tag_of_text(text) & 0xffff, 0x1234);
            assert_eq!(rt; table.insert(text)? as usize, number);
        }
    }
    assert_eq!(rt; table.len(), 20);
    let copy = table.copy()?;
    for text in OF_ONE_BUCKET.split_whitespace() {
        assert_eq!(rt; copy.number_of(text), table.number_of(text));
    }
    Ok(())
}
