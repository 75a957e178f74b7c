// What words say, one piece after the other, from the front.
ghost use Rattle.std.specs.Prelude.{◌≡◌, ◌+◌, ◌<◌, [], ◌∷◌, None, Some, map, length, string_bytes};
ghost use Rattle.std.specs.Prelude.{true, false, codes, MatchOption, IsSome};
ghost use Rattle.std.specs.Option.{option_map};
ghost use Rattle.std.specs.Str.{bytes_eq};
ghost use Rattle.command_line.specs.Pieces.{is_plain, joined, pieces};
ghost use Rattle.command_line.specs.kept.Rests.{piece_of, rest_pieces, said_joined};
ghost use Rattle.command_line.specs.kept.Rests.{said_flag, said_option};
ghost use Rattle.command_line.specs.kept.Rests.{IsSplit, IsSplitFrom, IsSplitWord};

use crate::setting::{Setting, flag_named, setting_named};

/// A word behind a command, and the option whose value it is, or which it names, if it has no value.
#[derive(Clone, Copy)]
pub(crate) struct Piece<'a> {
    pub owner: Option<Setting>,
    pub word: &'a str,
}

/// The words are no command.
#[derive(Clone, Copy)]
pub(crate) struct Usage;

/// The words that are left.
#[derive(Clone, Copy)]
pub(crate) struct Rest<'a> {
    words: &'a [String],
    // `--` stood before them, so that none is an option
    is_behind_end: bool,
}

/// Whether the word can be the value of an option before it, or a word that is no option's.
fn is_plain(word: &str) -> bool
    ensures { result ≡ is_plain word.now }
{
    match word.as_bytes() {
        [] => false,
        [_] => true,
        [first, ..] => *first != b'-',
    }
}

// Whether the word ends the options.
fn is_end(word: &str) -> bool
    ensures { result ≡ bytes_eq word.now (codes "--") }
{
    word == "--"
}

// The first word, and those behind it.
fn first_word(words: &[String]) -> Option<(&str, &[String])>
    ensures { MatchOption result (map string_bytes words.now ≡ [])
        (λ first. (map string_bytes words.now ≡ first.0.now ∷ map string_bytes first.1.now)
        × (length first.1.now < length words.now)) }
{
    let (word, words) = words.split_first()?;
    Some((word.as_str(), words))
}

// An option with its value, of the form `--x=V`.
fn joined(word: &str) -> Option<Piece<'_>>
    ensures { option_map piece_of result ≡ joined word.now }
{
    let Some((name, value)) = word.split_once('=') else {
        return None;
    };
    if value.is_empty() {
        return None;
    }
    let owner = setting_named(name)?;
    Some(Piece {
        owner: Some(owner),
        word: value,
    })
}

impl<'a> Rest<'a> {
    /// All words behind a command.
    pub(crate) fn of(words: &'a [String]) -> Rest<'a>
        ensures { rest_pieces result ≡ pieces (map string_bytes words.now) None }
    {
        Rest {
            words,
            is_behind_end: false,
        }
    }

    // The first word behind `--`.
    fn split_behind_end(self) -> Result<Option<(Piece<'a>, Rest<'a>)>, Usage>
        requires { self.is_behind_end ≡ true }
        ensures { IsSplit self.entry result }
    {
        let Some((word, words)) = first_word(self.words) else {
            return Ok(None);
        };
        if word.is_empty() {
            return Err(Usage);
        }
        Ok(Some((Piece { owner: None, word }, Rest { words, ..self })))
    }

    // The value of an option, where it is the next word.
    fn split_value(self, owner: Setting) -> Result<Option<(Piece<'a>, Rest<'a>)>, Usage>
        requires { self.is_behind_end ≡ false }
        ensures { IsSplitFrom (pieces (map string_bytes self.entry.words.now) (Some owner))
            (length self.entry.words.now) result }
    {
        let Some((word, words)) = first_word(self.words) else {
            return Err(Usage);
        };
        if !is_plain(word) {
            return Err(Usage);
        }
        let piece = Piece {
            owner: Some(owner),
            word,
        };
        Ok(Some((piece, Rest { words, ..self })))
    }

    // An option with its value in one word, before these words.
    fn split_joined(self, word: &'a str) -> Result<Option<(Piece<'a>, Rest<'a>)>, Usage>
        requires { self.is_behind_end ≡ false }
        ensures { IsSplitFrom (said_joined word.now (map string_bytes self.entry.words.now))
            (length self.entry.words.now + 1) result }
    {
        match joined(word) {
            Some(piece) => Ok(Some((piece, self))),
            None => Err(Usage),
        }
    }

    // An option without a value, before these words.
    fn split_flag(self, word: &'a str) -> Result<Option<(Piece<'a>, Rest<'a>)>, Usage>
        requires { self.is_behind_end ≡ false }
        ensures { IsSplitFrom (said_flag word.now (map string_bytes self.entry.words.now))
            (length self.entry.words.now + 1) result }
    {
        match flag_named(word) {
            Some(owner) => Ok(Some((
                Piece {
                    owner: Some(owner),
                    word,
                },
                self,
            ))),
            None => self.split_joined(word),
        }
    }

    // An option, before these words.
    fn split_option(self, word: &'a str) -> Result<Option<(Piece<'a>, Rest<'a>)>, Usage>
        requires { self.is_behind_end ≡ false }
        ensures { IsSplitFrom (said_option word.now (map string_bytes self.entry.words.now))
            (length self.entry.words.now + 1) result }
    {
        match setting_named(word) {
            Some(owner) => self.split_value(owner),
            None => self.split_flag(word),
        }
    }

    // The first piece, where `--` didn't stand yet.
    fn split_front(self) -> Result<Option<(Piece<'a>, Rest<'a>)>, Usage>
        requires { self.is_behind_end ≡ false }
        ensures { IsSplit self.entry result }
    {
        let Some((word, words)) = first_word(self.words) else {
            return Ok(None);
        };
        if is_plain(word) {
            return Ok(Some((Piece { owner: None, word }, Rest { words, ..self })));
        }
        if is_end(word) {
            let rest = Rest {
                words,
                is_behind_end: true,
            };
            return rest.split_behind_end();
        }
        let rest = Rest { words, ..self };
        rest.split_option(word)
    }

    /// The first piece, and what is left behind it.
    pub(crate) fn split_first(self) -> Result<Option<(Piece<'a>, Rest<'a>)>, Usage>
        ensures { IsSplit self.entry result }
    {
        if self.is_behind_end {
            self.split_behind_end()
        } else {
            self.split_front()
        }
    }

    /// The first word of no option, and what is left behind it, of words that are right.
    pub(crate) fn split_word(self) -> Option<(&'a str, Rest<'a>)>
        requires { IsSome (rest_pieces self) }
        ensures { IsSplitWord self.entry result }
    {
        let mut rest = self;
        'pieces: loop {
            match rest.split_first() {
                Ok(Some((piece, others))) => {
                    if piece.owner.is_none() {
                        return Some((piece.word, others));
                    }
                    rest = others;
                }
                Ok(None) => return None,
                Err(Usage) => return None,
            }
        }
    }
}
