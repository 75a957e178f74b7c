// What no clause says: that words are found, by examples from the standard.
ghost use Rattle.std.specs.Prelude.{◌≤◌, length};
ghost use Rattle.ss_base.specs.declared.limits.TheConstants.{DOCUMENT_BYTES};

use crate::{StopSet, words_of};
use ss_base::OutOfMemory;
use std::alloc::Global;
use std::test::Fail;

// The terms of these bytes, each behind its position.
fn listed(alloc: Global, bytes: &[u8]) -> Result<String, OutOfMemory>
    requires { length bytes.now ≤ DOCUMENT_BYTES }
{
    let mut text = String::new(alloc);
    for word in &words_of(alloc, bytes)? {
        let position = word.position;
        let term = word.term.as_str();
        write!(text, "{position} {term} ")?;
    }
    Ok(text)
}

#[test]
fn words_are_numbered_and_folded(rt: HostRuntime) -> Result<(), Fail> {
    let text = listed(rt.alloc(), b"Ab, \xC3\x9F B")?;
    assert_eq!(rt; text.as_str(), "1 ab 2 ss 3 b ");
    Ok(())
}

// The terms of these bytes, a blank behind each.
fn terms_of(alloc: Global, bytes: &[u8]) -> Result<String, OutOfMemory>
    requires { length bytes.now ≤ DOCUMENT_BYTES }
{
    let mut text = String::new(alloc);
    for word in &words_of(alloc, bytes)? {
        text.push_str(word.term.as_str())?;
        text.push(' ')?;
    }
    Ok(text)
}

// Each bridge between letters and between digits, at both ends, in a row, and beside other classes.
#[test]
fn words_are_cut_by_the_standard(rt: HostRuntime) -> Result<(), Fail> {
    let cases = [
        ("a:b a,b a;b a.b a'b", "a:b a b a b a.b a'b "),
        ("1:2 1,2 1;2 1.2 1'2", "1 2 1,2 1;2 1.2 1'2 "),
        ("a:1 a,1 a;1 a.1 a'1", "a 1 a 1 a 1 a 1 a 1 "),
        ("1:a 1,a 1;a 1.a 1'a", "1 a 1 a 1 a 1 a 1 a "),
        (":a ,a ;a .a 'a", "a a a a a "),
        ("a: a, a; a. a'", "a a a a a "),
        (":1 ,1 ;1 .1 '1", "1 1 1 1 1 "),
        ("1: 1, 1; 1. 1'", "1 1 1 1 1 "),
        ("a::b a..b a''b a.'b", "a b a b a b a b "),
        ("1,,2 1;;2 1..2 1''2 1,.2", "1 2 1 2 1 2 1 2 1 2 "),
        ("a.b.c 1.2,3 a.1.b x9.9x", "a.b.c 1.2,3 a 1 b x9.9x "),
        ("a_b 1_2 _ __ _a a_ a_:b a:_b", "a_b 1_2 _a a_ a_ b a _b "),
        ("a-b a/b a@b a+b a\u{7f}b", "a b a b a b a b a b "),
        ("é:b é,b é.b é'b b:é", "é:b é b é.b é'b b:é "),
        ("é1 1é é_ _é é.1", "é1 1é é_ _é é 1 "),
        ("א' א\"ב א'ב a\"b", "א' א\"ב א'ב a b "),
        ("アア ア.ア ア1 ア_ア", "アア ア ア ア 1 ア_ア "),
        ("a\u{301}.b a.\u{301}b", "a\u{301}.b a.\u{301}b "),
        ("a\u{ad}.b 1\u{200d},2", "a\u{ad}.b 1\u{200d},2 "),
        ("中文 ก 🇦🇧", "中 文 ก "),
    ];
    let alloc = rt.alloc();
    for (text, terms) in cases {
        assert!(rt; text.len() < 100);
        let found = terms_of(alloc, text.as_bytes())?;
        assert_eq!(rt; found.as_str(), terms, "at {text:?}");
    }
    Ok(())
}

// A letter beyond ASCII at each place of a line, between lines of ASCII.
#[test]
fn words_are_cut_line_by_line(rt: HostRuntime) -> Result<(), Fail> {
    let cases = [
        ("A b\nit's 3.5\nc.d", "a b it's 3.5 c.d "),
        ("A b\nÉit's 3.5\nc.d", "a b éit's 3.5 c.d "),
        ("A b\niÉt's 3.5\nc.d", "a b iét's 3.5 c.d "),
        ("A b\nitÉ's 3.5\nc.d", "a b ité's 3.5 c.d "),
        ("A b\nit'És 3.5\nc.d", "a b it'és 3.5 c.d "),
        ("A b\nit'sÉ 3.5\nc.d", "a b it'sé 3.5 c.d "),
        ("A b\nit's É3.5\nc.d", "a b it's é3.5 c.d "),
        ("A b\nit's 3É.5\nc.d", "a b it's 3é 5 c.d "),
        ("A b\nit's 3.É5\nc.d", "a b it's 3 é5 c.d "),
        ("A b\nit's 3.5É\nc.d", "a b it's 3.5é c.d "),
        ("a.\nb 1,\n2 a\n'b é'\né", "a b 1 2 a b é é "),
        ("a_\n_b a\r\nb\rc é\r\né", "a_ _b a b c é é "),
        ("\n\na\n\r\n\né\n", "a é "),
        ("a\n\u{301}b\n\u{200d}\nc", "a b c "),
    ];
    let alloc = rt.alloc();
    for (text, terms) in cases {
        assert!(rt; text.len() < 100);
        let found = terms_of(alloc, text.as_bytes())?;
        assert_eq!(rt; found.as_str(), terms, "at {text:?}");
    }
    Ok(())
}

#[test]
fn terms_are_folded(rt: HostRuntime) -> Result<(), Fail> {
    let cases = [
        ("ABC Xyz_9", "abc xyz_9 "),
        ("ÀÉ ΑΣ Straße ﬁ", "àé ασ strasse fi "),
        ("\u{212a}B \u{17f}T", "kb st "),
    ];
    let alloc = rt.alloc();
    for (text, terms) in cases {
        assert!(rt; text.len() < 100);
        let found = terms_of(alloc, text.as_bytes())?;
        assert_eq!(rt; found.as_str(), terms, "at {text:?}");
    }
    Ok(())
}

#[test]
fn malformed_bytes_part_words(rt: HostRuntime) -> Result<(), Fail> {
    let cases: [(&[u8], &str); 5] = [
        (b"a\xFFb", "a b "),
        (b"a.\xFFb", "a b "),
        (b"\xC3\nA", "a "),
        (b"a\xE2\x82\nb", "a b "),
        (b"A\n\xF0\x9F\n\xC3\xA9.C", "a é.c "),
    ];
    let alloc = rt.alloc();
    for (bytes, terms) in cases {
        assert!(rt; bytes.len() < 100);
        let found = terms_of(alloc, bytes)?;
        assert_eq!(rt; found.as_str(), terms, "at {bytes:?}");
    }
    Ok(())
}

#[test]
fn a_stop_list_holds_the_terms_of_its_words(rt: HostRuntime) -> Result<(), Fail> {
    let alloc = rt.alloc();
    let set = StopSet::of(alloc, b"The of, the")?;
    let copy = set.copy(alloc)?;
    for set in [&set, &copy] {
        assert!(rt; set.contains("the"));
        assert!(rt; set.contains("of"));
        assert!(rt; !set.contains("The"));
        assert!(rt; !set.contains("o"));
    }
    assert!(rt; !StopSet::empty(alloc).contains("the"));
    Ok(())
}

// A value that threads may share and let go.
fn is_shared<T: Send + Sync + Drop + 'static>(_: T) {}

#[test]
fn a_stop_set_may_be_shared(rt: HostRuntime) {
    is_shared(StopSet::empty(rt.alloc()));
}
