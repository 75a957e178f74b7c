// The words of an ASCII text, one at a time.
ghost use Rattle.std.specs.Prelude.{◌≡◌, ◌<◌, ◌≤◌, [], ◌∷◌, length, slice_range, IsAscii, MatchOption};
ghost use Rattle.std.specs.Char.{is_ascii_alphanumeric};
ghost use Rattle.std.specs.Iterator.{YieldsFirstRef, item_count};
ghost use Rattle.std.specs.List.{list_any};
ghost use Rattle.unicode_segmentation.specs.Word.{words};
ghost use Rattle.ascii_words.specs.Places.{words_left, IsCutAt};

use crate::bytes::{is_run, piece_end};
use std::marker::Model;

fn has_letter_or_digit(piece: &[u8]) -> bool
    ensures { result ≡ list_any is_ascii_alphanumeric piece.now }
{
    piece.iter().any(|byte| byte.is_ascii_alphanumeric())
}

// Where the first word begins and ends, from a place on that no piece reaches over.
fn next_word(text: &[u8], from: usize) -> Option<(usize, usize)>
    requires ascii { IsAscii text.now }
    requires cut { IsCutAt text.now from }
    ensures { MatchOption result (words_left text.now from ≡ []) (λ (start, end).
        (words_left text.now from ≡ slice_range text.now start end ∷ words_left text.now end)
        × (start < end) × IsCutAt text.now end) }
{
    let mut start = from;
    while start < text.len() {
        if is_run(text[start]) {
            let end = piece_end(text, start);
            // A piece of '_' alone is no word.
            if has_letter_or_digit(&text[start..end]) {
                return Some((start, end));
            }
            start = end;
        } else {
            start += 1;
        }
    }
    None
}

/// The words of an ASCII text, in order. Contracts see the list of those that are left.
#[derive(Drop)]
pub struct AsciiWords<'a> {
    text: &'a str,
    // no piece reaches over this place
    at: usize,
}

impl<'a> Model for AsciiWords<'a> {
    ghost use Rattle.std.specs.Prelude.{ℕ, List, IsAscii};
    ghost use Rattle.ascii_words.specs.Places.{words_left, IsCutAt};

    ghost Value = { List (List ℕ) };

    ghost view = { λ words. words_left words.text.now words.at };

    ghost invariant = { λ words. IsAscii words.text.now × IsCutAt words.text.now words.at };
}

impl<'a> AsciiWords<'a> {
    /// All words of an ASCII text.
    pub fn new(text: &'a str) -> AsciiWords<'a>
        requires { IsAscii text.now }
        ensures { result ≡ words text.now }
    {
        AsciiWords { text, at: 0 }
    }
}

impl<'a> Iterator for AsciiWords<'a> {
    type Item = &'a str;

    ghost next_gives = { YieldsFirstRef (λ left. left) };

    ghost remaining = { item_count (λ left. left) };

    fn next(&mut self) -> Option<&'a str> {
        let (start, end) = next_word(self.text.as_bytes(), self.at)?;
        self.at = end;
        Some(&self.text[start..end])
    }
}
