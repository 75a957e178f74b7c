// The options of a command.
ghost use Rattle.std.specs.Prelude.{◌≡◌, ◌≤◌, List, ◌∷◌, map, string_bytes, None, Some, IfSome};
ghost use Rattle.std.specs.Option.{option_copied, option_map, option_and_then, option_map_or};
ghost use Rattle.std.specs.Result.{result_ok};
ghost use Rattle.ss_base.specs.declared.limits.TheConstants as limits;
ghost use Rattle.command_line.specs.CommandLine.{CanBeRun};
ghost use Rattle.command_line.specs.CommandLine.{suits_index, suits_script, suits_replay, suits_gen};
ghost use Rattle.command_line.specs.Options.{mode_named, delegates_in, how_in, said_by};
ghost use Rattle.command_line.specs.Numbers.{number_in};
ghost use Rattle.command_line.specs.Pieces as pieces;
ghost use Rattle.command_line.specs.kept.Given.{given_in, given_behind, nothing_given, one_more};
ghost use Rattle.command_line.specs.kept.Rests.{piece_of, IsSaid};

use crate::numbers::number_in;
use crate::pieces::{Piece, Rest, Usage};
use crate::setting::{Mode, Setting, mode_named};
use ss_base::limits;

/// How many delegates there are where nothing else is said.
const DELEGATES: u32 = 4;

/// How many messages a lane holds where nothing else is said.
const RING: u32 = 256;

/// How a command is run.
#[derive(Clone, Copy)]
pub(crate) struct How {
    pub delegates: u32,
    pub mode: Mode,
    pub ring: u32,
}

/// The options that are given, each by its value; one that has none, by its name.
#[derive(Clone, Copy)]
pub(crate) struct Options<'a> {
    delegates: Option<&'a str>,
    mode: Option<&'a str>,
    ring: Option<&'a str>,
    pub stop: Option<&'a str>,
    pub trace: Option<&'a str>,
    pub order: Option<&'a str>,
}

// The word of an option that may have one already, which is usage.
fn one_more<'a>(before: Option<&'a str>, word: &'a str) -> Option<Option<&'a str>>
    ensures { option_map option_copied result ≡ one_more (option_copied before.entry) word.now }
{
    match before {
        None => Some(Some(word)),
        Some(_) => None,
    }
}

impl<'a> Options<'a> {
    // No option is given.
    fn none() -> Options<'a>
        ensures { given_in result ≡ nothing_given }
    {
        Options {
            delegates: None,
            mode: None,
            ring: None,
            stop: None,
            trace: None,
            order: None,
        }
    }

    // These options and one piece more; an option that is given already is usage.
    fn and(self, piece: Piece<'a>) -> Option<Options<'a>>
        ensures { (said : List pieces.Piece) →
            option_and_then (λ options. given_behind (given_in options) said) result
            ≡ given_behind (given_in self.entry) (piece_of piece.entry ∷ said) }
    {
        let word = piece.word;
        match piece.owner {
            None => Some(self),
            Some(Setting::Delegates) => Some(Options {
                delegates: one_more(self.delegates, word)?,
                ..self
            }),
            Some(Setting::Mode) => Some(Options {
                mode: one_more(self.mode, word)?,
                ..self
            }),
            Some(Setting::Ring) => Some(Options {
                ring: one_more(self.ring, word)?,
                ..self
            }),
            Some(Setting::Stop) => Some(Options {
                stop: one_more(self.stop, word)?,
                ..self
            }),
            Some(Setting::Trace) => Some(Options {
                trace: one_more(self.trace, word)?,
                ..self
            }),
            Some(Setting::Order) => Some(Options {
                order: one_more(self.order, word)?,
                ..self
            }),
        }
    }

    // The options among the words behind a command, if these say something.
    fn of(words: &'a [String]) -> Result<Options<'a>, Usage>
        ensures { option_map given_in (result_ok result)
            ≡ option_and_then (given_behind nothing_given)
            (pieces.pieces (map string_bytes words.now) None) }
    {
        let mut options = Options::none();
        let mut rest = Rest::of(words);
        'pieces: loop {
            let Some((piece, others)) = rest.split_first()? else {
                return Ok(options);
            };
            options = options.and(piece).ok_or(Usage)?;
            rest = others;
        }
    }

    /// How many delegates there are: no fewer than the command takes.
    pub(crate) fn delegates(&self, least: u32) -> Option<u32>
        requires { least ≤ 1 }
        ensures value { result ≡ delegates_in least (given_in self.now) }
        ensures within { IfSome result (λ delegates.
            (least ≤ delegates) × (delegates ≤ limits.DELEGATES)) }
    {
        number_or(DELEGATES, least, limits::DELEGATES, self.delegates)
    }

    /// How the command is run, with what holds where an option isn't given.
    pub(crate) fn how(&self) -> Option<How>
        ensures value { result ≡ how_in (given_in self.now) }
        ensures can { IfSome result (λ how. CanBeRun how.delegates how.ring) }
    {
        Some(How {
            delegates: self.delegates(0)?,
            mode: mode_or(Mode::Lanes, self.mode)?,
            ring: number_or(RING, 1, limits::RING, self.ring)?,
        })
    }

    /// Whether each option that is given is one of `index`.
    pub(crate) fn suit_index(&self) -> bool
        ensures { result ≡ suits_index (given_in self.now) }
    {
        self.trace.is_none() && self.order.is_none()
    }

    /// Whether each option that is given is one of `script`.
    pub(crate) fn suit_script(&self) -> bool
        ensures { result ≡ suits_script (given_in self.now) }
    {
        self.stop.is_none() && self.order.is_none()
    }

    /// Whether each option that is given is one of `replay`.
    pub(crate) fn suit_replay(&self) -> bool
        ensures { result ≡ suits_replay (given_in self.now) }
    {
        (self.mode.is_none() && self.ring.is_none())
            && (self.stop.is_none() && self.trace.is_none())
    }

    /// Whether each option that is given is one of `gen`.
    pub(crate) fn suit_gen(&self) -> bool
        ensures { result ≡ suits_gen (given_in self.now) }
    {
        self.stop.is_none() && (self.trace.is_none() && self.order.is_none())
    }
}

// The number within these bounds that the value says, if there is a value.
fn number_or(default: u32, least: u32, most: u32, value: Option<&str>) -> Option<u32>
    requires { (least ≤ default) × (default ≤ most) }
    ensures value { result ≡ option_map_or (number_in least most)
        (option_copied value.entry) (Some default) }
    ensures within { IfSome result (λ number. (least ≤ number) × (number ≤ most)) }
{
    match value {
        Some(value) => number_in(least, most, value),
        None => Some(default),
    }
}

// The mode that the value names, if there is a value.
fn mode_or(default: Mode, value: Option<&str>) -> Option<Mode>
    ensures { result ≡ option_map_or mode_named (option_copied value.entry) (Some default) }
{
    match value {
        Some(value) => mode_named(value),
        None => Some(default),
    }
}

/// What the words behind a command say: options, and the words of none.
#[derive(Clone, Copy)]
pub(crate) struct Said<'a> {
    pub options: Options<'a>,
    pub words: Rest<'a>,
}

impl<'a> Said<'a> {
    /// What these words say, if each option stands once at most.
    pub(crate) fn of(words: &'a [String]) -> Option<Said<'a>>
        ensures { IsSaid (said_by (map string_bytes words.now)) result }
    {
        let options = Options::of(words).ok()?;
        Some(Said {
            options,
            words: Rest::of(words),
        })
    }
}
