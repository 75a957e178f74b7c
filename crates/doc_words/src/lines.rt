// The words of a text, line by line. No word reaches over a line's end, so each line is cut on its
// own: most lines are ASCII, and those are cut without the tables.
ghost use Rattle.std.specs.Prelude.{◌≡◌, ◌<◌, ◌≤◌, ◌++◌, length};
ghost use Rattle.std.specs.Iterator.{YieldsFirstRef};
ghost use Rattle.unicode_segmentation.specs.Word.{words};

use ascii_words::AsciiWords;
use std::marker::Model;
use unicode_segmentation::{UnicodeSegmentation, UnicodeWords};

// The words that are left of a line.
#[derive(Drop)]
enum LineWords<'a> {
    Ascii(AsciiWords<'a>),
    Other(UnicodeWords<'a>),
}

impl<'a> LineWords<'a> {
    ghost use Rattle.doc_words.specs.LineWords.{line_words};

    fn of(line: &'a str) -> LineWords<'a>
        ensures { line_words result ≡ words line.now }
    {
        if line.is_ascii() {
            LineWords::Ascii(AsciiWords::new(line))
        } else {
            LineWords::Other(line.unicode_words())
        }
    }

    fn next(&mut self) -> Option<&'a str>
        ensures { YieldsFirstRef line_words self.old result self.new }
    {
        match self {
            LineWords::Ascii(words) => words.next(),
            LineWords::Other(words) => words.next(),
        }
    }
}

// The first line of a text, without its line feed, and what comes after that.
fn first_line<'a>(text: &'a str) -> (&'a str, &'a str)
    requires { 0 < length text.now }
    ensures words { words text.now ≡ words result.0.now ++ words result.1.now }
    ensures shorter { length result.1.now < length text.now }
{
    match text.split_once('\n') {
        Some(parts) => parts,
        None => (text, ""),
    }
}

// The words of a text that are left. Contracts see their list.
#[derive(Drop)]
pub(crate) struct TextWords<'a> {
    line: LineWords<'a>,
    // the lines after this one
    rest: &'a str,
}

impl<'a> Model for TextWords<'a> {
    ghost use Rattle.std.specs.Prelude.{ℕ, List, ◌++◌};
    ghost use Rattle.unicode_segmentation.specs.Word.{words};
    ghost use Rattle.doc_words.specs.LineWords.{line_words};

    ghost Value = { List (List ℕ) };

    ghost view = { λ left. line_words left.line ++ words left.rest.now };
}

impl<'a> TextWords<'a> {
    // All words of a text.
    pub(crate) fn new(text: &'a str) -> TextWords<'a>
        ensures words { result ≡ words text.now }
        ensures len { length result ≤ length text.now }
    {
        TextWords {
            line: LineWords::of(""),
            rest: text,
        }
    }

    // The next word.
    pub(crate) fn next(&mut self) -> Option<&'a str>
        ensures { YieldsFirstRef (λ left. left) self.old result self.new }
    {
        let mut word = self.line.next();
        while word.is_none() && !self.rest.is_empty() {
            let (line, rest) = first_line(self.rest);
            self.line = LineWords::of(line);
            self.rest = rest;
            word = self.line.next();
        }
        word
    }
}
