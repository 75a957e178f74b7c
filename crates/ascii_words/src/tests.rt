// What no clause says: that the words of a text are found.
use crate::{AsciiWords, restart_at_line_end, restart_in_bytes, words_of_ascii};
use std::test::Fail;

#[test]
fn the_words_of_a_text_come_in_order(rt: HostRuntime) -> Result<(), Fail> {
    let text = "Can't 3.2, _ a_b.\n";
    assert!(rt; text.is_ascii());
    let mut words = AsciiWords::new(text);
    for word in ["Can't", "3.2", "a_b"] {
        assert_eq!(rt; words.next(), Some(word));
    }
    assert_eq!(rt; words.next(), None);
    Ok(())
}

// Their contracts are all that they have.
#[test]
fn laws_can_be_called(_rt: HostRuntime) {
    words_of_ascii();
    restart_at_line_end();
    restart_in_bytes();
}
