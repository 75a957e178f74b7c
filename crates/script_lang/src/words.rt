// The words of a line.
ghost use Rattle.std.specs.Prelude.{◌≡◌, map, take};
ghost use Rattle.script_lang.specs.Lines.{is_blank, line_words, is_skipped};

use std::marker::Model;

/// One word more than the longest command has.
const MOST: usize = 7;

/// The first seven words of a line. No command has so many, so the others don't matter. Contracts
/// see the list of words.
#[derive(Drop)]
pub(crate) struct Words<'a> {
    words: [&'a [u8]; MOST],
    count: usize,
}

impl<'a> Model for Words<'a> {
    ghost use Rattle.std.specs.Prelude.{ℕ, List, map, take, ◌≤◌};

    ghost Value = { List (List ℕ) };

    ghost view = { λ kept. map (λ word. word.now) (take kept.count kept.words) };

    ghost invariant = { λ kept. kept.count ≤ 7 };
}

pub(crate) fn is_blank(byte: u8) -> bool
    ensures { result ≡ is_blank byte }
{
    byte == b' ' || byte == b'\t' || byte == b'\r'
}

impl<'a> Words<'a> {
    pub(crate) fn of(line: &'a [u8]) -> Words<'a>
        ensures { result ≡ take 7 (line_words line.now) }
    {
        let mut words = [line; MOST];
        let mut count = 0;
        let parts = line.split(|byte| is_blank(*byte));
        for word in parts.filter(|part| !part.is_empty()).take(MOST) {
            words[count] = word;
            count += 1;
        }
        Words { words, count }
    }

    pub(crate) fn as_slice(&self) -> &[&'a [u8]]
        ensures { map (λ word. word.now) result.now ≡ self.now }
    {
        &self.words[..self.count]
    }
}

// Whether a line of these words is no command.
pub(crate) fn is_skipped(words: &[&[u8]]) -> bool
    ensures { result ≡ is_skipped (map (λ word. word.now) words.now) }
{
    match words {
        [first, ..] => first.starts_with(b"#"),
        [] => true,
    }
}
